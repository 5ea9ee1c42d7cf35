//! Programs and sessions that are drawn from a number.
#![tactic(auto)]

mod draws;
mod generator;
mod line;
#[cfg(test)]
mod tests;

pub use generator::sample;
