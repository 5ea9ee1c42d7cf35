//! What operators give of words.
ghost use Rattle.std.specs.Prelude.{◌≡◌, MatchOption};
ghost use Rattle.re_terms.specs.Arithmetic.{number_word, strict_word, not_word};

use re_terms::{Op, Word};

/// The exact number isn't one of 64 bits.
const OVERFLOW: Word = Word::Fault(1);

/// The divisor is 0.
const DIVISION_BY_ZERO: Word = Word::Fault(2);

/// A number that was computed, or the fault of one that has no 64 bits.
fn whole(exact: Option<i64>) -> Word
    ensures { MatchOption exact (result ≡ OVERFLOW) (λ number. result ≡ Word.Int number) }
{
    match exact {
        Some(number) => Word::Int(number),
        None => OVERFLOW,
    }
}

/// The quotient, truncated towards zero.
fn quotient(a: i64, b: i64) -> Word
    ensures { result ≡ number_word Op.Div a b }
{
    if b == 0 {
        return DIVISION_BY_ZERO;
    }
    whole(a.checked_div(b))
}

/// The remainder of that division. The least number divided by -1 leaves 0, though it has no quotient.
fn remainder(a: i64, b: i64) -> Word
    ensures { result ≡ number_word Op.Rem a b }
{
    if b == 0 {
        return DIVISION_BY_ZERO;
    }
    Word::Int(a.wrapping_rem(b))
}

/// What an operator gives of two ints.
fn of_numbers(op: Op, a: i64, b: i64) -> Word
    ensures { result ≡ number_word op a b }
{
    match op {
        Op::Add => whole(a.checked_add(b)),
        Op::Sub => whole(a.checked_sub(b)),
        Op::Mul => whole(a.checked_mul(b)),
        Op::Div => quotient(a, b),
        Op::Rem => remainder(a, b),
        Op::Lt => Word::Bool(a < b),
        Op::Le => Word::Bool(a <= b),
        Op::Gt => Word::Bool(a > b),
        Op::Ge => Word::Bool(a >= b),
        Op::Eq => Word::Bool(a == b),
        Op::Ne => Word::Bool(a != b),
        // Neither is asked of two ints: they take truth values.
        Op::And | Op::Or => Word::Int(b),
    }
}

/// What an operator that takes both words gives: the leftmost fault, else a number, a comparison or a truth value.
///
/// Words that aren't both ints are compared, whatever the operator: for the others there is no kind.
pub fn strict(op: Op, a: Word, b: Word) -> Word
    ensures { result ≡ strict_word op a b }
{
    match (a, b) {
        (Word::Fault(_), _) => a,
        (_, Word::Fault(_)) => b,
        (Word::Int(x), Word::Int(y)) => of_numbers(op, x, y),
        _ => match op {
            Op::Ne => Word::Bool(a != b),
            _ => Word::Bool(a == b),
        },
    }
}

/// The other truth value; a fault stays.
pub fn negated(a: Word) -> Word
    ensures { result ≡ not_word a }
{
    match a {
        Word::Bool(truth) => Word::Bool(!truth),
        _ => a,
    }
}
