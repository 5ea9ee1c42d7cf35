//! One replicated state: what operations and merges do to it.
#![tactic(auto)]

mod acting;
pub mod fault;
pub mod laws;
mod merging;
pub mod replica;
#[cfg(test)]
mod tests;

pub use fault::{Changed, ReplicaFault};
pub use replica::Replica;
