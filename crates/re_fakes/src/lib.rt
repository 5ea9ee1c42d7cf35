//! A world in memory, for tests: its input and files are given, and calls on a list fail.
#![tactic(auto)]

mod calls;
mod disks;
mod edits;
pub mod fails;
pub mod files;
pub mod memory;
mod outside;
mod replay;
pub mod stops;
#[cfg(test)]
mod tests;

pub use fails::Fail;
pub use files::Files;
pub use memory::MemoryWorld;
pub use stops::Choice;
