//! The words of expressions.
#![tactic(auto)]

mod env;
mod evaluate;
mod operators;
mod steps;
#[cfg(test)]
mod tests;

pub use env::Env;
pub use evaluate::eval;
pub use steps::Steps;
