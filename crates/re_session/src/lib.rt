//! The lines of a session over the devices of a program.
#![tactic(auto)]

pub mod laws;
pub mod line;

pub use line::{SayFault, do_line};
