//! Declarations that are chosen, and their words.
ghost use Rattle.std.specs.Prelude.{◌≡◌, ◌≤◌, ◌&&◌, ℕ, map, not, length, slice_index_or, IfOk};
ghost use Rattle.std.specs.List.{range_with_len};
ghost use Rattle.re_terms.specs.Listed.{plain};
ghost use Rattle.re_terms.specs.Propagation.{is_cell_at, is_signal_at, is_signal_body};
ghost use Rattle.re_terms.specs.Cells.{is_cell_body};
ghost use Rattle.re_terms.specs.SignalWords.{no_word};
ghost use Rattle.re_terms.specs.WordOrder.{same_word};
ghost use Rattle.re_prop.specs.Chosen.{chosen_words};

use crate::bodies::is_signal;
use crate::view::word_in;
use re_terms::{Decl, Put, Seq, Word, same_word};
use std::alloc::{AllocError, Global};

/// The words of the places that are marked. The one refusal is want of memory.
pub fn chosen(alloc: Global, marks: &[bool], words: &[Word]) -> Result<Seq<Put>, AllocError>
    requires { length marks.now ≤ 512 }
    ensures { IfOk result (λ puts. puts ≡ plain (chosen_words marks.now words.now)) }
{
    let mut puts = Seq::new(alloc);
    'choosing: for (id, mark) in marks.iter().enumerate() {
        if *mark {
            puts.push(Put {
                id: id as u16,
                word: word_in(words, id),
            })?;
        }
    }
    Ok(puts)
}

/// A var or fold whose words differ.
fn is_changed_cell(decl: &Decl, old: Word, new: Word) -> bool
    ensures { result ≡ (is_cell_body decl.now.body && not (same_word old new)) }
{
    decl.body.is_cell() && !same_word(old, new)
}

/// A signal whose words differ.
fn is_changed_signal(decl: &Decl, old: Word, new: Word) -> bool
    ensures { result ≡ (is_signal_body decl.now.body && not (same_word old new)) }
{
    is_signal(&decl.body) && !same_word(old, new)
}

/// The vars and folds whose words differ in two lists. The one refusal is want of memory.
pub fn changed_cells(
    alloc: Global,
    decls: &[Decl],
    old: &[Word],
    new: &[Word],
) -> Result<Vec<bool>, AllocError>
    ensures { IfOk result (λ marks. marks.items ≡ map (λ id. is_cell_at decls.now id && not (same_word (slice_index_or old.now id no_word) (slice_index_or new.now id no_word))) (range_with_len 0 (length decls.now))) }
{
    let mut marks = Vec::new(alloc);
    'marking: for (id, decl) in decls.iter().enumerate() {
        marks.push(is_changed_cell(decl, word_in(old, id), word_in(new, id)))?;
    }
    Ok(marks)
}

/// The signals whose words differ in two lists. The one refusal is want of memory.
pub fn changed_signals(
    alloc: Global,
    decls: &[Decl],
    old: &[Word],
    new: &[Word],
) -> Result<Vec<bool>, AllocError>
    ensures { IfOk result (λ marks. marks.items ≡ map (λ id. is_signal_at decls.now id && not (same_word (slice_index_or old.now id no_word) (slice_index_or new.now id no_word))) (range_with_len 0 (length decls.now))) }
{
    let mut marks = Vec::new(alloc);
    'marking: for (id, decl) in decls.iter().enumerate() {
        marks.push(is_changed_signal(decl, word_in(old, id), word_in(new, id)))?;
    }
    Ok(marks)
}
