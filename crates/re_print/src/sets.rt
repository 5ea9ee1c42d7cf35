//! The text of a set.
ghost use Rattle.std.specs.Prelude.{◌≡◌, ◌++◌, IfOk, OnOk, codes};
ghost use Rattle.std.specs.List.{join_by};
ghost use Rattle.std.specs.List.Sorted.{IsStrictlySortedBy};
ghost use Rattle.re_outside.specs.Listed.{plain};
ghost use Rattle.re_terms.specs.WordOrder.{elements_of, pair_cmp};
ghost use Rattle.re_print.specs.AnswerTexts.{set_text};
ghost use Rattle.re_print.specs.Canonical.{word_text};

use crate::words::write_word;
use re_outside::Bytes;
use re_terms::{Pair, Program, Seq, same_word};
use std::alloc::{AllocError, Global};

/// Writes the elements of pairs, and a comma and a blank between each two.
fn write_elements(text: &mut Vec<u8>, p: &Program, pairs: &[Pair]) -> Result<(), AllocError>
    requires { IsStrictlySortedBy pair_cmp pairs.now }
    ensures { OnOk result (text.new.items ≡ text.old.items ++ join_by (word_text p.now) (codes ", ") (elements_of pairs.now)) }
{
    let Some((first, others)) = pairs.split_first() else {
        return Ok(());
    };
    write_word(text, p, first.element)?;
    let mut before = first.element;
    // The pairs of one element stand side by side.
    for pair in others {
        if !same_word(before, pair.element) {
            text.extend_from_slice(b", ")?;
            write_word(text, p, pair.element)?;
            before = pair.element;
        }
    }
    Ok(())
}

/// Writes a set's elements between braces.
pub fn write_set(text: &mut Vec<u8>, p: &Program, pairs: &Seq<Pair>) -> Result<(), AllocError>
    requires { IsStrictlySortedBy pair_cmp pairs.now.items }
    ensures { OnOk result (text.new.items ≡ text.old.items ++ set_text p.now (elements_of pairs.now.items)) }
{
    text.extend_from_slice(b"{")?;
    write_elements(text, p, pairs.as_slice())?;
    text.extend_from_slice(b"}")
}

/// A set's text: each element once, ascending, as `{4, 9}`, and `{}` without any.
///
/// The condition is that the pairs ascend, as those of every set do. A symbol's number that the program hasn't is written
/// as nothing. The one refusal is want of memory.
pub fn print_set(alloc: Global, p: &Program, pairs: &Seq<Pair>) -> Result<Bytes, AllocError>
    requires { IsStrictlySortedBy pair_cmp pairs.now.items }
    ensures { IfOk result (λ text. text ≡ plain (set_text p.now (elements_of pairs.now.items))) }
{
    let mut text = Vec::new(alloc);
    write_set(&mut text, p, pairs)?;
    Ok(Bytes::from_vec(text))
}
