//! Words, written behind a text.
ghost use Rattle.std.specs.Prelude.{◌≡◌, ◌++◌, OnOk};
ghost use Rattle.re_print.specs.Canonical.{word_text, literal_text};

use crate::names::{Names, symbol_name};
use crate::texts::truth_text;
use itoa::{Buffer, Integer};
use re_terms::{Program, Word};
use std::alloc::AllocError;

/// Writes a number in decimal.
pub fn write_number<I: Integer>(text: &mut Vec<u8>, number: I) -> Result<(), AllocError>
    ensures { OnOk result (text.new.items ≡ text.old.items ++ I.text number) }
{
    let mut buffer = Buffer::new();
    text.extend_from_slice(buffer.format(number).as_bytes())
}

/// Writes a word as an answer has it.
pub fn write_word(text: &mut Vec<u8>, p: &Program, word: Word) -> Result<(), AllocError>
    ensures { OnOk result (text.new.items ≡ text.old.items ++ word_text p.now word) }
{
    match word {
        Word::Int(number) => write_number(text, number),
        Word::Bool(truth) => text.extend_from_slice(truth_text(truth)),
        Word::Sym(number) => text.extend_from_slice(symbol_name(p, number)),
        Word::Fault(code) => {
            text.extend_from_slice(b"fault ")?;
            write_number(text, code)
        }
    }
}

/// Writes a word as a program has it.
pub fn write_literal(text: &mut Vec<u8>, names: &Names<'_>, word: Word) -> Result<(), AllocError>
    ensures { OnOk result (text.new.items ≡ text.old.items ++ literal_text names.now word) }
{
    match word {
        Word::Int(value) => write_number(text, value),
        Word::Bool(truth) => text.extend_from_slice(truth_text(truth)),
        Word::Sym(number) => text.extend_from_slice(names.symbol(number)),
        Word::Fault(code) => {
            text.extend_from_slice(b"fault(")?;
            write_number(text, code)?;
            text.extend_from_slice(b")")
        }
    }
}
