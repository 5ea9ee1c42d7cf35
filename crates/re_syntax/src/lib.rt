//! Reads lists of tokens as programs.
#![tactic(auto)]

mod content;
mod declaration;
mod expression;
mod fault;
mod keeping;
mod kept;
pub mod laws;
mod leaf;
mod marks;
mod parser;
mod source;
mod stop;

pub use fault::SyntaxFault;
pub use parser::parse;
