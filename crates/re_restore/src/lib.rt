//! Opening a store: the state and the entry number that the two files of a device stand for.
#![tactic(auto)]

mod entries;
pub mod laws;
mod opening;
mod records;
mod replay;
mod stores;
#[cfg(test)]
mod tests;

pub use opening::{Restored, restore};
pub use stores::{StoreFault, read_store};
