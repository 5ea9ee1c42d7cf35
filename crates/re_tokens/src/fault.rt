//! Why a text has no list of tokens.
use std::alloc::AllocError;
use thiserror::Error;

/// Why a text has no list of tokens.
#[derive(Clone, Copy, Debug, PartialEq, Eq, Error)]
pub enum LexFault {
    #[error("memory ran out")]
    Memory,
    /// The place of the first byte where no token begins, counted from 0.
    #[error("no token at {0}")]
    At(u32),
}

impl From<AllocError> for LexFault {
    ghost use Rattle.std.specs.Prelude.{◌≡◌};
    ghost use Rattle.re_tokens.specs.declared.fault.LexFault.TheVariants.{Memory};

    ghost from_gives = { λ _ fault. fault ≡ Memory };

    fn from(_error: AllocError) -> LexFault {
        LexFault::Memory
    }
}
