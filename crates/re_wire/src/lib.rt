//! Packets: replicated states as bytes, written and read.
//!
//! Each state has one spelling, and a refusal tells the first field that is cut off or holds a value that isn't allowed.
#![tactic(auto)]

pub mod fault;
mod numbers;
mod pairs;
mod registers;
mod rows;
pub mod states;
#[cfg(test)]
mod tests;
pub mod words;
mod writing;

pub use fault::WireFault;
pub use states::{decode, encode, get_state, put_state};
pub use words::{get_word, put_word};
