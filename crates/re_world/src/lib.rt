//! The devices of a program, their packets, and the commands to them.
#![tactic(auto)]

mod answers;
mod calls;
mod commands;
mod commits;
pub mod laws;
mod opening;
mod places;
mod restart;
#[cfg(test)]
mod tests;
mod world;

pub use world::World;
