//! Words as bytes.
ghost use Rattle.std.specs.Prelude.{◌≡◌, ℕ, ◌^◌, ◌+◌, ◌<◌, ◌≤◌, ◌++◌, List, drop, length, IfOk, IsTrue, Ok, OnErr, OnOk};
ghost use Rattle.re_terms.specs.Spellings.{word_bytes};
ghost use Rattle.re_terms.specs.declared.word.Word.{Word};
ghost use Rattle.re_wire.specs.Appended.{appended};
ghost use Rattle.re_wire.specs.Reading.{Reads, int_at, bool_at, symbol_at, fault_at, is_code, value_at, tag_of, word_at, is_allowed_word};

use crate::WireFault;
use crate::numbers::{get_u8, get_u8_below, get_u16_below, get_u32, get_u64};
use crate::writing::append;
use re_outside::Bytes;
use re_terms::{Kind, Word};
use std::alloc::AllocError;

/// An int behind its tag.
#[tactic(auto, unfolding(crate::specs::Reading::int_at))]
fn get_int(bytes: &[u8], at: u32) -> Result<(Word, u32), WireFault>
    requires { length bytes.now < 2 ^ 32 }
    ensures { Reads result (int_at bytes.now at) }
{
    let (number, behind) = get_u64(bytes, at)?;
    Ok((Word::Int(number.cast_signed()), behind))
}

/// A truth value behind its tag.
#[tactic(auto, unfolding(crate::specs::Reading::bool_at))]
fn get_bool(bytes: &[u8], at: u32) -> Result<(Word, u32), WireFault>
    requires { length bytes.now < 2 ^ 32 }
    ensures { Reads result (bool_at bytes.now at) }
{
    let (number, behind) = get_u8_below(bytes, at, 2)?;
    Ok((Word::Bool(number == 1), behind))
}

/// A symbol behind its tag, below the count of symbols.
#[tactic(auto, unfolding(crate::specs::Reading::symbol_at))]
fn get_symbol(bytes: &[u8], at: u32, symbols: u16) -> Result<(Word, u32), WireFault>
    requires { length bytes.now < 2 ^ 32 }
    ensures { Reads result (symbol_at symbols bytes.now at) }
{
    let (number, behind) = get_u16_below(bytes, at, symbols)?;
    Ok((Word::Sym(number), behind))
}

/// Whether a fault has this code: 1, 2 or 100 to 999.
fn is_code(code: u32) -> bool
    ensures { result ≡ is_code code }
{
    code == 1 || code == 2 || code >= 100 && code <= 999
}

/// A fault behind its tag.
#[tactic(auto, unfolding(crate::specs::Reading::fault_at))]
fn get_fault(bytes: &[u8], at: u32) -> Result<(Word, u32), WireFault>
    requires { length bytes.now < 2 ^ 32 }
    ensures { Reads result (fault_at bytes.now at) }
{
    let (code, behind) = get_u32(bytes, at)?;
    if is_code(code) {
        Ok((Word::Fault(code), behind))
    } else {
        Err(WireFault::At(at))
    }
}

/// The value of a word of this kind, behind its tag.
fn get_value(bytes: &[u8], at: u32, kind: Kind, symbols: u16) -> Result<(Word, u32), WireFault>
    requires { length bytes.now < 2 ^ 32 }
    ensures { Reads result (value_at kind symbols bytes.now at) }
{
    match kind {
        Kind::Int => get_int(bytes, at),
        Kind::Bool => get_bool(bytes, at),
        Kind::Sym => get_symbol(bytes, at, symbols),
    }
}

/// The tag of a kind's words.
fn tag_of(kind: Kind) -> u8
    ensures { result ≡ tag_of kind }
{
    match kind {
        Kind::Int => 0,
        Kind::Bool => 1,
        Kind::Sym => 2,
    }
}

/// A word of this kind, or a fault where `fold` allows it.
#[tactic(auto, unfolding(crate::specs::Reading::word_at))]
pub fn read_word(
    bytes: &[u8],
    at: u32,
    kind: Kind,
    fold: bool,
    symbols: u16,
) -> Result<(Word, u32), WireFault>
    requires { length bytes.now < 2 ^ 32 }
    ensures { Reads result (word_at kind fold symbols bytes.now at) }
{
    let (tag, value) = get_u8(bytes, at)?;
    if fold && tag == 3 {
        get_fault(bytes, value)
    } else if tag == tag_of(kind) {
        get_value(bytes, value, kind, symbols)
    } else {
        Err(WireFault::At(at))
    }
}

/// The word of this kind at place `at`, and the place behind it. A symbol is below `symbols`. With `fold` it may be a fault
/// instead.
///
/// It takes no memory, and the one refusal is `At`: the place of the tag, where it is cut off or isn't allowed, or of the
/// value, where that is cut off or out of its range.
pub fn get_word(
    bytes: &[u8],
    at: u32,
    kind: Kind,
    fold: bool,
    symbols: u16,
) -> Result<(Word, u32), WireFault>
    requires at { at ≤ length bytes.now }
    requires limit { length bytes.now < 2 ^ 32 }
    // What is read may stand there, and its bytes do.
    ensures allowed { IfOk result (λ x. IsTrue (is_allowed_word kind fold symbols x.0)) }
    ensures found { IfOk result (λ x. drop at bytes.now ≡ word_bytes x.0 ++ drop x.1 bytes.now) }
    ensures within { IfOk result (λ x. x.1 ≤ length bytes.now) }
    // What may stand there and does is read.
    ensures only { (w : Word) (rest : List ℕ) → IsTrue (is_allowed_word kind fold symbols w) → drop at bytes.now ≡ word_bytes w ++ rest → Reads result (Ok (w, at + length (word_bytes w))) }
    // Which place is refused.
    ensures exact { Reads result (word_at kind fold symbols bytes.now at) }
{
    read_word(bytes, at, kind, fold, symbols)
}

/// How many bytes a word takes.
#[tactic(auto, unfolding(re_terms::specs::Spellings::word_bytes))]
pub fn word_len(word: Word) -> usize
    ensures len { result ≡ length (word_bytes word) }
    ensures bound { result ≤ 9 }
{
    match word {
        Word::Int(_) => 9,
        Word::Bool(_) => 2,
        Word::Sym(_) => 3,
        Word::Fault(_) => 5,
    }
}

/// Writes a word for which there is room.
#[tactic(auto, unfolding(re_terms::specs::Spellings::word_bytes))]
pub fn append_word(out: &mut Bytes, word: Word)
    requires { length (word_bytes word) ≤ out.old.spare }
    ensures { out.new ≡ appended out.old (word_bytes word) }
{
    match word {
        Word::Int(number) => {
            let b = number.cast_unsigned().to_be_bytes();
            append(out, &[0, b[0], b[1], b[2], b[3], b[4], b[5], b[6], b[7]]);
        }
        Word::Bool(truth) => append(out, &[1, u8::from(truth)]),
        Word::Sym(number) => {
            let b = number.to_be_bytes();
            append(out, &[2, b[0], b[1]]);
        }
        Word::Fault(code) => {
            let b = code.to_be_bytes();
            append(out, &[3, b[0], b[1], b[2], b[3]]);
        }
    }
}

/// Writes a word behind the bytes. The one refusal is want of memory, and leaves the bytes as they were. The spare falls by
/// as many bytes as are written, to 0 where it was smaller.
pub fn put_word(out: &mut Bytes, word: Word) -> Result<(), AllocError>
    ensures ok { OnOk result (out.new ≡ appended out.old (word_bytes word)) }
    ensures refused { OnErr result (out.new ≡ out.old) }
{
    out.reserve(word_len(word))?;
    append_word(out, word);
    Ok(())
}
