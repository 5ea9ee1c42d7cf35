//! Why no program was read.
ghost use Rattle.std.specs.Prelude.{◌≡◌, ◌++◌, IfOk};
ghost use Rattle.std.specs.Fmt.{decimal};
ghost use Rattle.re_tool.specs.Refusals.{declaration_text, refusal_words};

use re_syntax::SyntaxFault;
use re_tokens::LexFault;
use re_types::TypeFault;
use std::alloc::{AllocError, Global};
use std::string::ToString;

/// Why a program part is refused. A place is that of a byte of the program part, or of a declaration, from 0.
#[derive(Clone, Copy, Debug, PartialEq, Eq)]
pub enum Refusal {
    /// The program part or its canonical text has more than 65,536 bytes.
    TooLong,
    NoToken(u32),
    Unexpected(u32),
    TooDeep(u32),
    TooMany(u32),
    Twice(u32),
    Unknown(u32),
    Kind(u32),
    NoDevice,
}

/// Why no program was read.
#[derive(Clone, Copy, Debug, PartialEq, Eq)]
pub enum ProgramFault {
    /// Memory ran out.
    Memory,
    Refused(Refusal),
}

impl From<AllocError> for ProgramFault {
    ghost use Rattle.std.specs.Prelude.{◌≡◌};
    ghost use Rattle.re_tool.specs.declared.faults.ProgramFault.TheVariants.{Memory};

    ghost from_gives = { λ _ fault. fault ≡ Memory };

    fn from(_error: AllocError) -> ProgramFault {
        ProgramFault::Memory
    }
}

impl From<LexFault> for ProgramFault {
    ghost use Rattle.std.specs.Prelude.{◌≡◌};
    ghost use Rattle.re_tool.specs.Faults.{lex_fault};

    ghost from_gives = { λ given fault. fault ≡ lex_fault given };

    fn from(fault: LexFault) -> ProgramFault {
        match fault {
            LexFault::Memory => ProgramFault::Memory,
            LexFault::At(place) => ProgramFault::Refused(Refusal::NoToken(place)),
        }
    }
}

impl From<SyntaxFault> for ProgramFault {
    ghost use Rattle.std.specs.Prelude.{◌≡◌};
    ghost use Rattle.re_tool.specs.Faults.{syntax_fault};

    ghost from_gives = { λ given fault. fault ≡ syntax_fault given };

    fn from(fault: SyntaxFault) -> ProgramFault {
        match fault {
            SyntaxFault::Memory => ProgramFault::Memory,
            SyntaxFault::At(place) => ProgramFault::Refused(Refusal::Unexpected(place)),
            SyntaxFault::Deep(place) => ProgramFault::Refused(Refusal::TooDeep(place)),
        }
    }
}

impl From<TypeFault> for ProgramFault {
    ghost use Rattle.std.specs.Prelude.{◌≡◌};
    ghost use Rattle.re_tool.specs.Faults.{type_fault};

    ghost from_gives = { λ given fault. fault ≡ type_fault given };

    fn from(fault: TypeFault) -> ProgramFault {
        match fault {
            TypeFault::Memory => ProgramFault::Memory,
            TypeFault::TooMany(place) => ProgramFault::Refused(Refusal::TooMany(place)),
            TypeFault::Twice(place) => ProgramFault::Refused(Refusal::Twice(place)),
            TypeFault::Unknown(place) => ProgramFault::Refused(Refusal::Unknown(place)),
            TypeFault::Kind(place) => ProgramFault::Refused(Refusal::Kind(place)),
            TypeFault::NoDevice => ProgramFault::Refused(Refusal::NoDevice),
        }
    }
}

/// A text and then a number in decimal. The one refusal is want of memory.
fn numbered(alloc: Global, front: &[u8], number: u64) -> Result<Vec<u8>, AllocError>
    ensures { IfOk result (λ text. text.items ≡ front.now ++ decimal number) }
{
    let digits = number.to_string(alloc)?;
    let mut text = front.to_vec(alloc)?;
    text.extend_from_slice(digits.as_bytes())?;
    Ok(text)
}

/// The fault of a declaration, which is counted from 1. The one refusal is want of memory.
fn declaration_text(alloc: Global, place: u32, fault: &[u8]) -> Result<Vec<u8>, AllocError>
    ensures { IfOk result (λ text. text.items ≡ declaration_text place fault.now) }
{
    let mut text = numbered(alloc, b"declaration ", u64::from(place) + 1)?;
    text.extend_from_slice(fault)?;
    Ok(text)
}

/// The text of a refusal, as it stands behind `rescala: program: `. The one refusal of its own is want of memory.
pub fn refusal_text(alloc: Global, why: Refusal) -> Result<Vec<u8>, AllocError>
    ensures { IfOk result (λ text. text.items ≡ refusal_words why) }
{
    match why {
        Refusal::TooLong => b"too long".to_vec(alloc),
        Refusal::NoToken(place) => numbered(alloc, b"no token at ", u64::from(place)),
        Refusal::Unexpected(place) => numbered(alloc, b"unexpected token at ", u64::from(place)),
        Refusal::TooDeep(place) => numbered(alloc, b"too deep at ", u64::from(place)),
        Refusal::TooMany(place) => declaration_text(alloc, place, b": too many"),
        Refusal::Twice(place) => declaration_text(alloc, place, b": declared twice"),
        Refusal::Unknown(place) => declaration_text(alloc, place, b": unknown name"),
        Refusal::Kind(place) => declaration_text(alloc, place, b": wrong kind"),
        Refusal::NoDevice => b"no device".to_vec(alloc),
    }
}
