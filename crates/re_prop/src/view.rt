//! What is read of replicated cells.
ghost use Rattle.std.specs.Prelude.{◌≡◌, slice_get, slice_index_or};
ghost use Rattle.re_terms.specs.SignalWords.{no_word};
ghost use Rattle.re_terms.specs.Views.{cell_word, cell_has};
ghost use Rattle.re_prop.specs.Sets.{HasSets};

use re_awset::has;
use re_scalars::total;
use re_terms::{RCell, Word};

/// The word of what has none.
pub const NO_WORD: Word = Word::Int(0);

/// The word at a place, and 0 past the end.
pub fn word_in(words: &[Word], place: usize) -> Word
    ensures { result ≡ slice_index_or words.now place no_word }
{
    words.get(place).copied().unwrap_or(NO_WORD)
}

/// The word of the counter or register at a place.
pub fn word_at(cells: &[RCell], place: usize) -> Word
    ensures { result ≡ cell_word (slice_get cells.now place) }
{
    match cells.get(place) {
        Some(RCell::Counter(rows)) => total(rows),
        Some(RCell::Register(written)) => written.word,
        _ => NO_WORD,
    }
}

/// Whether the set at a place has the element. The condition is that the pairs of each set ascend, at most 1,024.
pub fn has_at(cells: &[RCell], place: usize, word: Word) -> bool
    requires { HasSets cells.now }
    ensures { result ≡ cell_has (slice_get cells.now place) word }
{
    match cells.get(place) {
        Some(RCell::Set(pairs)) => has(pairs, word),
        _ => false,
    }
}
