//! The calls that print.
ghost use Rattle.std.specs.Prelude.{◌≡◌, IfOk};
ghost use Rattle.re_outside.specs.Listed.{plain};
ghost use Rattle.re_print.specs.Canonical.{program_text, word_text};

use crate::lines::write_line;
use crate::names::Names;
use crate::words::write_word;
use re_outside::Bytes;
use re_terms::{Program, Word};
use std::alloc::{AllocError, Global};

/// The canonical text of a program: one line for each declaration, in order.
///
/// An id or a symbol's number that the program hasn't is written as nothing.
/// The one refusal is want of memory.
pub fn print_program(alloc: Global, p: &Program) -> Result<Bytes, AllocError>
    ensures { IfOk result (λ text. text ≡ plain (program_text p.now)) }
{
    let names = Names::of(alloc, p)?;
    let mut text = Vec::new(alloc);
    for decl in p.decls.as_slice() {
        write_line(&mut text, &names, decl)?;
    }
    Ok(Bytes::from_vec(text))
}

/// A word's text: a number in decimal, `true`, `false`, a symbol's name, or `fault` and its code.
///
/// A symbol's number that the program hasn't gives the empty text. The one refusal is want of memory.
pub fn print_word(alloc: Global, p: &Program, w: Word) -> Result<Bytes, AllocError>
    ensures { IfOk result (λ text. text ≡ plain (word_text p.now w)) }
{
    let mut text = Vec::new(alloc);
    write_word(&mut text, p, w)?;
    Ok(Bytes::from_vec(text))
}
