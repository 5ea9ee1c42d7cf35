//! The real outside: standard input, standard output, and the files of a folder.
#![tactic(auto)]

pub mod folder;
pub mod real;

pub use real::RealWorld;

#[cfg(test)]
mod tests;
