//! Resolves the names of programs and turns, and holds them to the kind rules.
#![tactic(auto)]

mod admitting;
mod bodies;
mod exprs;
mod fault;
mod kinds;
mod knowing;
mod lookup;
mod names;
mod parts;
mod puts;
mod resolving;
mod room;
mod scope;
mod sort;
#[cfg(test)]
mod tests;
#[cfg(test)]
mod turn_tests;

pub use admitting::admit;
pub use fault::{AdmitFault, TypeFault};
pub use lookup::place;
pub use resolving::resolve;
