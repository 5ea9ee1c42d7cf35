//! What one entry changes along the declarations of a program, and the words of signals that are kept.
#![tactic(auto)]

mod bodies;
mod cache;
mod chosen;
mod effects;
#[cfg(test)]
mod histories;
pub mod laws;
mod names;
mod prepared;
mod propagation;
mod reading;
pub mod sizes;
#[cfg(test)]
mod tests;
mod touched;
pub mod view;
mod walk;
mod walking;
mod words;

pub use cache::Cache;
pub use prepared::Prepared;
pub use propagation::propagate;
