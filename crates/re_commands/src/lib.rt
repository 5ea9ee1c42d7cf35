//! Reads the lines of a session.
#![tactic(auto)]

mod commanding;
mod fault;
pub mod laws;
mod leaves;
mod lines;
mod meaning;
mod names;
mod parts;
mod raw_line;
#[cfg(test)]
mod tests;
mod words;

pub use commanding::command;
pub use fault::CommandFault;
