//! Texts of programs, words and answers.
#![tactic(auto)]

pub mod answers;
mod exprs;
mod lines;
mod names;
pub mod print;
pub mod sets;
#[cfg(test)]
mod tests;
mod texts;
mod words;

pub use answers::print_answer;
pub use print::{print_program, print_word};
pub use sets::print_set;
