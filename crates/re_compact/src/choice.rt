//! Which of two files counts.
ghost use Rattle.std.specs.Prelude.{List, ℕ};
ghost use Rattle.re_outside.specs.Frame.{IsGeneration};
ghost use Rattle.re_compact.specs.Heads.{IsHead, HasFittingGeneration};
ghost use Rattle.re_compact.specs.Choices.{IsChoice, ChoosesFittingGeneration};

use crate::Head;

/// What the heads of two files say of them together.
#[derive(Clone, Copy, Debug, PartialEq, Eq)]
pub enum Choice {
    /// Both are blank.
    Blank,
    /// A length or a generation is refused, in this file at this place.
    Bad { file: u8, at: u64 },
    /// File 0 counts, with this generation; file 1 is blank, or of a lesser one.
    First { generation: u64, other_blank: bool },
    /// File 1 counts, with this generation; file 0 is blank, or of a lesser one.
    Second { generation: u64, other_blank: bool },
}

/// Which file counts: the one of greater generation. File 0 is tested first, and two equal generations are refused in file 1.
pub fn choose(first: Head, second: Head) -> Choice
    ensures chosen { (a b : List ℕ) → IsHead first a → IsHead second b → IsChoice result a b }
    ensures fits { HasFittingGeneration first → HasFittingGeneration second → ChoosesFittingGeneration result }
{
    match first {
        Head::Bad { at } => Choice::Bad { file: 0, at },
        Head::Blank => beside_blank(second),
        Head::Numbered { generation } => beside_numbered(generation, second),
    }
}

/// The same where file 0 is blank.
fn beside_blank(second: Head) -> Choice
    ensures chosen { (a b : List ℕ) → IsHead Head.Blank a → IsHead second b → IsChoice result a b }
    ensures fits { HasFittingGeneration second → ChoosesFittingGeneration result }
{
    match second {
        Head::Bad { at } => Choice::Bad { file: 1, at },
        Head::Blank => Choice::Blank,
        Head::Numbered { generation } => Choice::Second {
            generation,
            other_blank: true,
        },
    }
}

/// The same where file 0 has this generation.
fn beside_numbered(first: u64, second: Head) -> Choice
    ensures chosen { (a b : List ℕ) → IsHead (Head.Numbered first) a → IsHead second b → IsChoice result a b }
    ensures fits { IsGeneration first → HasFittingGeneration second → ChoosesFittingGeneration result }
{
    match second {
        Head::Bad { at } => Choice::Bad { file: 1, at },
        Head::Blank => Choice::First {
            generation: first,
            other_blank: true,
        },
        Head::Numbered { generation } => greater(first, generation),
    }
}

/// The same where both have generations.
fn greater(first: u64, second: u64) -> Choice
    ensures chosen { (a b : List ℕ) → IsHead (Head.Numbered first) a → IsHead (Head.Numbered second) b → IsChoice result a b }
    ensures fits { IsGeneration first → IsGeneration second → ChoosesFittingGeneration result }
{
    if first == second {
        return Choice::Bad { file: 1, at: 5 };
    }
    if first > second {
        return Choice::First {
            generation: first,
            other_blank: false,
        };
    }
    Choice::Second {
        generation: second,
        other_blank: false,
    }
}
