//! Why a line is no command.
ghost use Rattle.std.specs.Prelude.{◌≡◌};
ghost use Rattle.re_commands.specs.Faults.{fault_rank, first_fault};

use re_tokens::LexFault;
use re_types::AdmitFault;
use std::alloc::AllocError;
use thiserror::Error;

/// Why a line is no command: the first of these that holds of it anywhere.
#[derive(Clone, Copy, Debug, PartialEq, Eq, Error)]
pub enum CommandFault {
    /// Memory ran out.
    #[error("memory ran out")]
    Memory,
    /// It has over 1,024 bytes, a place where no token begins, or tokens that are no line.
    #[error("it isn't in the grammar of lines")]
    Syntax,
    /// A name in it isn't declared.
    #[error("a name isn't declared")]
    Unknown,
    /// A device's name is that of something else, a `get` asks for a device, a symbol or an event, or a part is of a wrong
    /// kind.
    #[error("a name or a literal is of a wrong kind")]
    Kind,
    /// One var is set twice, or one event fired twice.
    #[error("a var is set twice, or an event fired twice")]
    Twice,
    /// The turn has no parts.
    #[error("the turn has no parts")]
    Empty,
    /// The turn has over 64 parts.
    #[error("the turn has over 64 parts")]
    TooMany,
}

impl CommandFault {
    /// Its place in the order of the faults.
    fn rank(self) -> u8
        ensures { result ≡ fault_rank self }
    {
        match self {
            CommandFault::Memory => 0,
            CommandFault::Syntax => 1,
            CommandFault::Unknown => 2,
            CommandFault::Kind => 3,
            CommandFault::Twice => 4,
            CommandFault::Empty => 5,
            CommandFault::TooMany => 6,
        }
    }

    /// The first of two faults in their order; want of memory is before all others.
    pub(crate) fn first(self, other: CommandFault) -> CommandFault
        ensures { result ≡ first_fault self other }
    {
        if self.rank() <= other.rank() {
            self
        } else {
            other
        }
    }
}

impl From<AllocError> for CommandFault {
    ghost use Rattle.std.specs.Prelude.{◌≡◌};
    ghost use Rattle.re_commands.specs.declared.fault.CommandFault.TheVariants.{Memory};

    ghost from_gives = { λ _ fault. fault ≡ Memory };

    fn from(_error: AllocError) -> CommandFault {
        CommandFault::Memory
    }
}

impl From<LexFault> for CommandFault {
    ghost use Rattle.std.specs.Prelude.{◌≡◌};
    ghost use Rattle.re_commands.specs.Faults.{of_tokens};

    ghost from_gives = { λ error fault. fault ≡ of_tokens error };

    fn from(error: LexFault) -> CommandFault {
        match error {
            LexFault::Memory => CommandFault::Memory,
            LexFault::At(_) => CommandFault::Syntax,
        }
    }
}

impl From<AdmitFault> for CommandFault {
    ghost use Rattle.std.specs.Prelude.{◌≡◌};
    ghost use Rattle.re_commands.specs.Faults.{of_parts};

    ghost from_gives = { λ error fault. fault ≡ of_parts error };

    fn from(error: AdmitFault) -> CommandFault {
        match error {
            AdmitFault::Memory => CommandFault::Memory,
            AdmitFault::Unknown => CommandFault::Unknown,
            AdmitFault::Kind => CommandFault::Kind,
            AdmitFault::Twice => CommandFault::Twice,
            AdmitFault::Empty => CommandFault::Empty,
            AdmitFault::TooMany => CommandFault::TooMany,
        }
    }
}
