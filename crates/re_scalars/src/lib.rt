//! Counters and registers: what an operation and a merge do to them, and what is read of them.
#![tactic(auto)]

pub mod counter;
pub mod laws;
pub mod register;
mod row;
#[cfg(test)]
mod tests;

pub use counter::{CounterFull, add, merge_rows, total};
pub use laws::{CounterLaw, RegisterLaw};
pub use register::{DotsSpent, assign, merge_written};
