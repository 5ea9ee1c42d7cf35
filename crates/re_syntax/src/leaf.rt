//! Literals, and expressions without operands.
ghost use Rattle.std.specs.Prelude.{◌≡◌, ℕ, ◌+◌, ◌<◌, ◌≤◌, ◌^◌, pos, ◌-ℤ◌, length, IfOk, IfErr, MatchOption};
ghost use Rattle.re_terms.specs.declared.token.Mark.TheVariants as mark;
ghost use Rattle.re_terms.specs.declared.reserved.TheConstants.{NOT, RECOVER, HAS};
ghost use Rattle.re_terms.specs.declared.signs.TheConstants.{OPEN};
ghost use Rattle.re_syntax.specs.Grammar.{Primary};
ghost use Rattle.re_syntax.specs.Steps.{text, EndsLast, Accepts, Finds, Misses, nothing, is_region_word, ALiteral, ARegion, APhrase, FaultCode};

use crate::keeping::leaf;
use crate::kept::Kept;
use crate::marks::{is_sign, is_word, mark, only_name, sign};
use crate::stop::Stop;
use re_terms::reserved::{ARG, FALSE, FAULT, IN, SELF, SIZE, TRUE};
use re_terms::signs::{CLOSE, MINUS, OPEN};
use re_terms::{Mark, RawExpr, RawLit, Token, TryCopy};
use std::alloc::Global;

/// The greatest number that may stand behind `-`.
const MOST_NEGATED: u64 = 9223372036854775808;

/// The greatest number that may stand without `-`.
const MOST_PLAIN: u64 = 9223372036854775807;

/// The number of a token, if it is one.
fn number(tokens: &[Token], i: usize) -> Option<u64>
    requires { i < length tokens.now }
    ensures { MatchOption result ((n : ℕ) → text tokens.now i ≡ mark.Number n → ⊥) (λ n. text tokens.now i ≡ mark.Number n) }
{
    match mark(tokens, i) {
        Mark::Number(number) => Some(*number),
        _ => None,
    }
}

/// The number of a token, if it is one in this range.
fn number_within(tokens: &[Token], i: usize, least: u64, most: u64) -> Option<u64>
    requires { i < length tokens.now }
    ensures { MatchOption result
        ((n : ℕ) → text tokens.now i ≡ mark.Number n → least ≤ n → n ≤ most → ⊥)
        (λ n. (text tokens.now i ≡ mark.Number n) × (least ≤ n) × (n ≤ most)) }
{
    match number(tokens, i) {
        Some(n) => {
            if n < least {
                None
            } else if n > most {
                None
            } else {
                Some(n)
            }
        }
        None => None,
    }
}

/// The negative of a number.
fn negated(n: u64) -> i64
    requires { n ≤ 2 ^ 63 }
    ensures { result ≡ pos 0 -ℤ pos n }
{
    if n == MOST_NEGATED {
        i64::MIN
    } else {
        -(n as i64)
    }
}

/// Reads a number behind `-`.
fn negative(tokens: &[Token], i: usize) -> Result<(RawLit, usize), Stop>
    requires inside { i < length tokens.now }
    requires ends { EndsLast tokens.now }
    requires minus { text tokens.now i ≡ mark.Sign MINUS }
    ensures ok { IfOk result (λ r. Accepts ALiteral nothing 0 tokens.now r.0 i r.1) }
    ensures stop { IfErr result (λ s. Misses ALiteral nothing tokens.now i s) }
{
    match number_within(tokens, i + 1, 0, MOST_NEGATED) {
        Some(n) => Ok((RawLit::Int(negated(n)), i + 2)),
        None => Err(Stop::Unexpected(i + 1)),
    }
}

/// Reads a number or a name.
fn plain_literal(alloc: Global, tokens: &[Token], i: usize) -> Result<(RawLit, usize), Stop>
    requires inside { i < length tokens.now }
    requires ends { EndsLast tokens.now }
    requires minus { text tokens.now i ≡ mark.Sign MINUS → ⊥ }
    requires truth { text tokens.now i ≡ mark.Reserved TRUE → ⊥ }
    requires falsity { text tokens.now i ≡ mark.Reserved FALSE → ⊥ }
    ensures ok { IfOk result (λ r. Accepts ALiteral nothing 0 tokens.now r.0 i r.1) }
    ensures stop { IfErr result (λ s. Misses ALiteral nothing tokens.now i s) }
{
    if let Mark::Name(name) = mark(tokens, i) {
        return Ok((RawLit::Name(name.copy(alloc)?), i + 1));
    }
    match number_within(tokens, i, 0, MOST_PLAIN) {
        Some(n) => Ok((RawLit::Int(n as i64), i + 1)),
        None => Err(Stop::Unexpected(i)),
    }
}

/// Reads a literal.
pub fn literal(alloc: Global, tokens: &[Token], i: usize) -> Result<(RawLit, usize), Stop>
    requires inside { i < length tokens.now }
    requires ends { EndsLast tokens.now }
    ensures ok { IfOk result (λ r. Accepts ALiteral nothing 0 tokens.now r.0 i r.1) }
    ensures stop { IfErr result (λ s. Misses ALiteral nothing tokens.now i s) }
{
    if is_sign(tokens, i, MINUS) {
        return negative(tokens, i);
    }
    if is_word(tokens, i, TRUE) {
        return Ok((RawLit::Bool(true), i + 1));
    }
    if is_word(tokens, i, FALSE) {
        return Ok((RawLit::Bool(false), i + 1));
    }
    plain_literal(alloc, tokens, i)
}

/// Reads a region, which may be left out.
pub fn region(tokens: &[Token], i: usize) -> Result<(u8, usize), Stop>
    requires inside { i < length tokens.now }
    requires ends { EndsLast tokens.now }
    ensures ok { IfOk result (λ r. Accepts ARegion is_region_word 1 tokens.now r.0 i r.1) }
    ensures stop { IfErr result (λ s. Misses ARegion is_region_word tokens.now i s) }
{
    if !is_word(tokens, i, IN) {
        return Ok((1, i));
    }
    match number_within(tokens, i + 1, 1, 4) {
        Some(n) => Ok((n as u8, i + 2)),
        None => Err(Stop::Unexpected(i + 1)),
    }
}

/// Reads the number of a fault.
fn fault_code(tokens: &[Token], i: usize) -> Result<(u32, usize), Stop>
    requires inside { i < length tokens.now }
    requires ends { EndsLast tokens.now }
    ensures ok { IfOk result (λ r. Accepts FaultCode nothing 0 tokens.now r.0 i r.1) }
    ensures stop { IfErr result (λ s. Misses FaultCode nothing tokens.now i s) }
{
    match number_within(tokens, i, 100, 999) {
        Some(n) => Ok((n as u32, i + 1)),
        None => Err(Stop::Unexpected(i)),
    }
}

/// Reads `fault` with its number.
fn fault(tokens: &[Token], i: usize) -> Result<(Kept, usize), Stop>
    requires inside { i < length tokens.now }
    requires ends { EndsLast tokens.now }
    requires word { text tokens.now i ≡ mark.Reserved FAULT }
    ensures ok { (opened : ℕ) → IfOk result (λ r. Finds (APhrase Primary opened) nothing tokens.now r.0 i r.1) }
    ensures stop { (opened : ℕ) → IfErr result (λ s. Misses (APhrase Primary opened) nothing tokens.now i s) }
{
    let opened = sign(tokens, i + 1, OPEN)?;
    let (code, coded) = fault_code(tokens, opened)?;
    let next = sign(tokens, coded, CLOSE)?;
    Ok((leaf(RawExpr::Fault(code)), next))
}

/// Reads `size` with its set.
fn size(alloc: Global, tokens: &[Token], i: usize) -> Result<(Kept, usize), Stop>
    requires inside { i < length tokens.now }
    requires ends { EndsLast tokens.now }
    requires word { text tokens.now i ≡ mark.Reserved SIZE }
    ensures ok { (opened : ℕ) → IfOk result (λ r. Finds (APhrase Primary opened) nothing tokens.now r.0 i r.1) }
    ensures stop { (opened : ℕ) → IfErr result (λ s. Misses (APhrase Primary opened) nothing tokens.now i s) }
{
    let (set, next) = only_name(alloc, tokens, i + 1)?;
    Ok((leaf(RawExpr::Size(set)), next))
}

/// Reads an expression without operands.
pub fn read_leaf(alloc: Global, tokens: &[Token], i: usize) -> Result<(Kept, usize), Stop>
    requires inside { i < length tokens.now }
    requires ends { EndsLast tokens.now }
    requires bracket { text tokens.now i ≡ mark.Sign OPEN → ⊥ }
    requires negation { text tokens.now i ≡ mark.Reserved NOT → ⊥ }
    requires recovery { text tokens.now i ≡ mark.Reserved RECOVER → ⊥ }
    requires membership { text tokens.now i ≡ mark.Reserved HAS → ⊥ }
    ensures ok { (opened : ℕ) → IfOk result (λ r. Finds (APhrase Primary opened) nothing tokens.now r.0 i r.1) }
    ensures stop { (opened : ℕ) → IfErr result (λ s. Misses (APhrase Primary opened) nothing tokens.now i s) }
{
    if is_word(tokens, i, FAULT) {
        return fault(tokens, i);
    }
    if is_word(tokens, i, SIZE) {
        return size(alloc, tokens, i);
    }
    if is_word(tokens, i, ARG) {
        return Ok((leaf(RawExpr::Arg), i + 1));
    }
    if is_word(tokens, i, SELF) {
        return Ok((leaf(RawExpr::Own), i + 1));
    }
    let (value, next) = literal(alloc, tokens, i)?;
    Ok((leaf(RawExpr::Lit(value)), next))
}
