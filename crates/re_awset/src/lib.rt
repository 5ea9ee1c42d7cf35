//! Sets that devices change apart and then merge, as pairs of an element and the dot of its insert.
#![tactic(auto)]

pub mod law;
pub mod merging;
mod order;
mod places;
pub mod set;
#[cfg(test)]
mod tests;

pub use law::SetLaw;
pub use merging::merge_pairs;
pub use set::{has, insert, remove, size};
