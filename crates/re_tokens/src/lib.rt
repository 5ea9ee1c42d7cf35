//! Reads a text into its list of tokens.
#![tactic(auto)]

mod bytes;
mod fault;
mod gap;
pub mod laws;
mod scanner;
mod signs;
mod table;
#[cfg(test)]
mod tests;
mod words;

pub use fault::LexFault;
pub use gap::is_blank_text;
pub use scanner::tokens;
