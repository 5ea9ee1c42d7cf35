//! Reading the canonical text of a program gives the program.
#![tactic(auto)]

pub mod laws;
