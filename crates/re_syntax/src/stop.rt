//! Why a step of reading stops.
use std::alloc::AllocError;

/// Why a step stops. The numbers are those of tokens in their list, counted from 0.
#[derive(Clone, Copy, Debug, PartialEq, Eq)]
pub enum Stop {
    /// Memory ran out.
    Memory,
    /// The token goes on with no program.
    Unexpected(usize),
    /// The token opens one expression too many.
    TooMany(usize),
    /// The token begins an expression that is too deep.
    TooDeep(usize),
}

impl From<AllocError> for Stop {
    ghost use Rattle.std.specs.Prelude.{◌≡◌};
    ghost use Rattle.re_syntax.specs.declared.stop.Stop.TheVariants.{Memory};

    ghost from_gives = { λ _ stop. stop ≡ Memory };

    fn from(_error: AllocError) -> Stop {
        Stop::Memory
    }
}
