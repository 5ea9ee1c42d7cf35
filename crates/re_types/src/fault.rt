//! Why a tree is no program, and parts no turn.
use std::alloc::AllocError;
use thiserror::Error;

/// Why a tree is no program: the first faulty declaration, by its place from 0, and its first fault.
#[derive(Clone, Copy, Debug, PartialEq, Eq, Error)]
pub enum TypeFault {
    /// Memory ran out.
    #[error("memory ran out")]
    Memory,
    /// It passes a limit: 512 declarations, 16 devices, 256 vars and folds, or 32 replicated cells.
    #[error("declaration {0} is one too many")]
    TooMany(u32),
    /// Its name is declared before it.
    #[error("declaration {0} has a name that is declared before it")]
    Twice(u32),
    /// A name in it isn't declared before it.
    #[error("declaration {0} holds a name that isn't declared before it")]
    Unknown(u32),
    /// It breaks a kind rule.
    #[error("declaration {0} breaks a kind rule")]
    Kind(u32),
    /// No device is declared.
    #[error("no device is declared")]
    NoDevice,
}

impl From<AllocError> for TypeFault {
    ghost use Rattle.std.specs.Prelude.{◌≡◌};
    ghost use Rattle.re_types.specs.declared.fault.TypeFault.TheVariants.{Memory};

    ghost from_gives = { λ _ fault. fault ≡ Memory };

    fn from(_error: AllocError) -> TypeFault {
        TypeFault::Memory
    }
}

/// Why parts are no turn of a program: the first of these that holds of them anywhere.
#[derive(Clone, Copy, Debug, PartialEq, Eq, Error)]
pub enum AdmitFault {
    /// Memory ran out.
    #[error("memory ran out")]
    Memory,
    /// A name isn't declared.
    #[error("a name isn't declared")]
    Unknown,
    /// A part's name is of another sort than the part takes, or its literal of another kind.
    #[error("a part is of a wrong kind")]
    Kind,
    /// One var is set twice, or one event fired twice.
    #[error("a var is set twice, or an event fired twice")]
    Twice,
    /// There are no parts.
    #[error("the turn has no parts")]
    Empty,
    /// There are over 64 parts.
    #[error("the turn has over 64 parts")]
    TooMany,
}

impl From<AllocError> for AdmitFault {
    ghost use Rattle.std.specs.Prelude.{◌≡◌};
    ghost use Rattle.re_types.specs.declared.fault.AdmitFault.TheVariants.{Memory};

    ghost from_gives = { λ _ fault. fault ≡ Memory };

    fn from(_error: AllocError) -> AdmitFault {
        AdmitFault::Memory
    }
}
