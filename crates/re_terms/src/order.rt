//! The order of words.
ghost use Rattle.std.specs.Prelude.{◌≡◌};
ghost use Rattle.re_terms.specs.WordOrder.{same_word, word_cmp};

use crate::Word;
use std::cmp::Ordering;

/// Compares two words: ints by value, `false` before `true`, symbols by number; kinds in this order, and faults last.
pub fn compare_words(a: Word, b: Word) -> Ordering
    ensures { result ≡ word_cmp a b }
{
    match (a, b) {
        (Word::Int(x), Word::Int(y)) => x.cmp(&y),
        (Word::Bool(x), Word::Bool(y)) => x.cmp(&y),
        (Word::Sym(x), Word::Sym(y)) => x.cmp(&y),
        (Word::Fault(x), Word::Fault(y)) => x.cmp(&y),
        (Word::Int(_), _) => Ordering::Less,
        (Word::Bool(_), Word::Int(_)) => Ordering::Greater,
        (Word::Bool(_), _) => Ordering::Less,
        (Word::Sym(_), Word::Fault(_)) => Ordering::Less,
        (Word::Sym(_), _) => Ordering::Greater,
        (Word::Fault(_), _) => Ordering::Greater,
    }
}

/// Whether two words are the same word, a fault's code included.
#[tactic(auto, unfolding(crate::specs::WordOrder::same_word))]
pub fn same_word(a: Word, b: Word) -> bool
    ensures { result ≡ same_word a b }
{
    match (a, b) {
        (Word::Int(x), Word::Int(y)) => x == y,
        (Word::Bool(x), Word::Bool(y)) => x == y,
        (Word::Sym(x), Word::Sym(y)) => x == y,
        (Word::Fault(x), Word::Fault(y)) => x == y,
        _ => false,
    }
}
