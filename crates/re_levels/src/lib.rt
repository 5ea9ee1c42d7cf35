//! Levelled propagation over two environments: an entry's way along what it reaches alone.
//!
//! Not called by the program yet: it is what the propagation of `re_prop` will become. The order by level, the ranks and
//! the readers of declarations are made from a graph here, and will be kept by the graph itself.
#![tactic(auto)]

mod found;
pub mod laws;
mod names;
mod places;
mod ranks;
mod walk;
mod way;

pub use found::Found;
pub use places::Places;
pub use ranks::Ranks;
pub use walk::Walk;
pub use way::walk_reached;
