//! The dependency graph of a program: levels, order, what is reached, and footprints.
#![tactic(auto)]

mod dependents;
mod graph;
mod layers;
mod levels;
mod names;
mod node;
mod pending;
mod regions;
#[cfg(test)]
mod tests;

pub use graph::Graph;
