//! The texts of answers.
ghost use Rattle.std.specs.Prelude.{◌≡◌, ◌++◌, OnOk, IfOk, codes};
ghost use Rattle.std.specs.Fmt.{decimal};
ghost use Rattle.hex.specs.Hex.{encode_lower};
ghost use Rattle.re_outside.specs.Listed.{plain};
ghost use Rattle.re_terms.specs.Worlds.{plain_answer};
ghost use Rattle.re_print.specs.AnswerTexts.{answer_text, AscendsWhereSet};

use crate::sets::write_set;
use crate::words::{write_number, write_word};
use re_outside::Bytes;
use re_terms::{Answer, Program};
use std::alloc::{AllocError, Global};

/// Writes a text and then a number in decimal.
fn write_numbered(text: &mut Vec<u8>, front: &[u8], number: u64) -> Result<(), AllocError>
    ensures { OnOk result (text.new.items ≡ text.old.items ++ front.now ++ decimal number) }
{
    text.extend_from_slice(front)?;
    write_number(text, number)
}

/// Writes the place at which the store is bad.
fn write_bad_file(text: &mut Vec<u8>, file: u8, at: u64) -> Result<(), AllocError>
    ensures { OnOk result (text.new.items ≡ text.old.items ++ codes "no 37 file " ++ decimal file ++ codes " at " ++ decimal at) }
{
    write_numbered(text, b"no 37 file ", u64::from(file))?;
    write_numbered(text, b" at ", at)
}

/// Writes bytes in lower-case hexadecimal, two digits a byte.
fn write_hex(alloc: Global, text: &mut Vec<u8>, bytes: &[u8]) -> Result<(), AllocError>
    ensures { OnOk result (text.new.items ≡ text.old.items ++ encode_lower bytes.now) }
{
    let digits = hex::encode(alloc, bytes)?;
    text.extend_from_slice(digits.as_bytes())
}

/// The text of an answer, without the line's end.
///
/// The condition is that the pairs of a set ascend, as those of every set do. A symbol's number that the program hasn't is
/// written as nothing. The one refusal is want of memory.
pub fn print_answer(alloc: Global, p: &Program, a: &Answer) -> Result<Bytes, AllocError>
    requires members { AscendsWhereSet a.now }
    ensures { IfOk result (λ text. text ≡ plain (answer_text p.now (plain_answer a.now))) }
{
    let mut text = Vec::new(alloc);
    match a {
        Answer::Entered(number) => write_numbered(&mut text, b"ok ", *number)?,
        Answer::Applied(number) => write_numbered(&mut text, b"applied ", *number)?,
        Answer::Settled(number) => write_numbered(&mut text, b"settled ", *number)?,
        Answer::Value(word) => write_word(&mut text, p, *word)?,
        Answer::Members(pairs) => write_set(&mut text, p, pairs)?,
        Answer::Packet(number) => write_numbered(&mut text, b"packet ", *number)?,
        Answer::Hex(bytes) => write_hex(alloc, &mut text, bytes.as_slice())?,
        Answer::Down => text.extend_from_slice(b"down")?,
        Answer::Up(entries) => write_numbered(&mut text, b"up ", *entries)?,
        Answer::No(code) => write_numbered(&mut text, b"no ", u64::from(*code))?,
        Answer::StoppedAt(at) => write_numbered(&mut text, b"no 34 at ", *at)?,
        Answer::BadFile { file, at } => write_bad_file(&mut text, *file, *at)?,
    }
    Ok(Bytes::from_vec(text))
}
