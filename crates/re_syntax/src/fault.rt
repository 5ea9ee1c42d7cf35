//! Why a list of tokens is no program.
use thiserror::Error;

/// Why a list of tokens was refused. Places are those of tokens' first bytes, counted from 0.
#[derive(Clone, Copy, Debug, PartialEq, Eq, Error)]
pub enum SyntaxFault {
    #[error("memory ran out")]
    Memory,
    /// The first token that goes on with no program.
    #[error("unexpected token at {0}")]
    At(u32),
    /// A token that opens a 129th expression, or the first token of an expression that is too deep.
    #[error("too deep at {0}")]
    Deep(u32),
}
