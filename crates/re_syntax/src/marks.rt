//! Single tokens.
ghost use Rattle.std.specs.Prelude.{◌≡◌, ℕ, ◌+◌, ◌<◌, ◌≤◌, length, IfOk, IfErr, MatchOption, Some, true, false};
ghost use Rattle.re_terms.specs.declared.token.Mark.TheVariants as mark;
ghost use Rattle.re_syntax.specs.Grammar.{operator_of, level_of};
ghost use Rattle.re_syntax.specs.Steps.{text, EndsLast, Accepts, Misses, nothing, Single, Named, AKind, FirstName, OnlyName, KindPart};

use crate::stop::Stop;
use re_terms::reserved::{AND, BOOL, INT, OR, SYM};
use re_terms::signs::{
    AT_LEAST, AT_MOST, CLOSE, COLON, COMMA, DIVIDE, EQUAL, GREATER, LESS, MINUS, NOT_EQUAL, OPEN,
    PLUS, REMAINDER, TIMES,
};
use re_terms::{Kind, Mark, Op, Text, Token, TryCopy};
use std::alloc::Global;

/// The mark of a token.
pub fn mark(tokens: &[Token], i: usize) -> &Mark
    requires { i < length tokens.now }
    ensures { result.now ≡ text tokens.now i }
{
    &tokens[i].mark
}

/// Whether a token is this sign.
pub fn is_sign(tokens: &[Token], i: usize, sign: u8) -> bool
    requires { i < length tokens.now }
    ensures yes { result ≡ true → text tokens.now i ≡ mark.Sign sign }
    ensures other { result ≡ false → text tokens.now i ≡ mark.Sign sign → ⊥ }
{
    match mark(tokens, i) {
        Mark::Sign(found) => *found == sign,
        _ => false,
    }
}

/// Whether a token is this reserved word.
pub fn is_word(tokens: &[Token], i: usize, word: u8) -> bool
    requires { i < length tokens.now }
    ensures yes { result ≡ true → text tokens.now i ≡ mark.Reserved word }
    ensures other { result ≡ false → text tokens.now i ≡ mark.Reserved word → ⊥ }
{
    match mark(tokens, i) {
        Mark::Reserved(found) => *found == word,
        _ => false,
    }
}

/// Reads a sign, and answers the number of the token behind it.
pub fn sign(tokens: &[Token], i: usize, sign: u8) -> Result<usize, Stop>
    requires inside { i < length tokens.now }
    requires ends { EndsLast tokens.now }
    ensures ok { IfOk result (λ n. Accepts (Single (mark.Sign sign)) nothing 0 tokens.now tt i n) }
    ensures stop { IfErr result (λ s. Misses (Single (mark.Sign sign)) nothing tokens.now i s) }
{
    if is_sign(tokens, i, sign) {
        Ok(i + 1)
    } else {
        Err(Stop::Unexpected(i))
    }
}

/// Reads a reserved word, and answers the number of the token behind it.
pub fn word(tokens: &[Token], i: usize, word: u8) -> Result<usize, Stop>
    requires inside { i < length tokens.now }
    requires ends { EndsLast tokens.now }
    ensures ok { IfOk result (λ n. Accepts (Single (mark.Reserved word)) nothing 0 tokens.now tt i n) }
    ensures stop { IfErr result (λ s. Misses (Single (mark.Reserved word)) nothing tokens.now i s) }
{
    if is_word(tokens, i, word) {
        Ok(i + 1)
    } else {
        Err(Stop::Unexpected(i))
    }
}

/// Reads a name.
pub fn name(alloc: Global, tokens: &[Token], i: usize) -> Result<(Text, usize), Stop>
    requires inside { i < length tokens.now }
    requires ends { EndsLast tokens.now }
    ensures ok { IfOk result (λ r. Accepts Named nothing 0 tokens.now r.0 i r.1) }
    ensures stop { IfErr result (λ s. Misses Named nothing tokens.now i s) }
{
    match mark(tokens, i) {
        Mark::Name(name) => Ok((name.copy(alloc)?, i + 1)),
        _ => Err(Stop::Unexpected(i)),
    }
}

/// Reads a kind.
pub fn kind(tokens: &[Token], i: usize) -> Result<(Kind, usize), Stop>
    requires inside { i < length tokens.now }
    requires ends { EndsLast tokens.now }
    ensures ok { IfOk result (λ r. Accepts AKind nothing 0 tokens.now r.0 i r.1) }
    ensures stop { IfErr result (λ s. Misses AKind nothing tokens.now i s) }
{
    if is_word(tokens, i, INT) {
        Ok((Kind::Int, i + 1))
    } else if is_word(tokens, i, BOOL) {
        Ok((Kind::Bool, i + 1))
    } else if is_word(tokens, i, SYM) {
        Ok((Kind::Sym, i + 1))
    } else {
        Err(Stop::Unexpected(i))
    }
}

/// Reads `(` and a name and `,`.
pub fn first_name(alloc: Global, tokens: &[Token], i: usize) -> Result<(Text, usize), Stop>
    requires inside { i < length tokens.now }
    requires ends { EndsLast tokens.now }
    ensures ok { IfOk result (λ r. Accepts FirstName nothing 0 tokens.now r.0 i r.1) }
    ensures stop { IfErr result (λ s. Misses FirstName nothing tokens.now i s) }
{
    let opened = sign(tokens, i, OPEN)?;
    let (name, named) = name(alloc, tokens, opened)?;
    let next = sign(tokens, named, COMMA)?;
    Ok((name, next))
}

/// Reads `(` and a name and `)`.
pub fn only_name(alloc: Global, tokens: &[Token], i: usize) -> Result<(Text, usize), Stop>
    requires inside { i < length tokens.now }
    requires ends { EndsLast tokens.now }
    ensures ok { IfOk result (λ r. Accepts OnlyName nothing 0 tokens.now r.0 i r.1) }
    ensures stop { IfErr result (λ s. Misses OnlyName nothing tokens.now i s) }
{
    let opened = sign(tokens, i, OPEN)?;
    let (name, named) = name(alloc, tokens, opened)?;
    let next = sign(tokens, named, CLOSE)?;
    Ok((name, next))
}

/// Reads `:` and a kind.
pub fn kind_part(tokens: &[Token], i: usize) -> Result<(Kind, usize), Stop>
    requires inside { i < length tokens.now }
    requires ends { EndsLast tokens.now }
    ensures ok { IfOk result (λ r. Accepts KindPart nothing 0 tokens.now r.0 i r.1) }
    ensures stop { IfErr result (λ s. Misses KindPart nothing tokens.now i s) }
{
    let behind = sign(tokens, i, COLON)?;
    kind(tokens, behind)
}

/// The operator that a sign stands for.
#[tactic(auto, unfolding(crate::specs::Grammar::operator_of))]
fn sign_operator(sign: u8) -> Option<Op>
    ensures { result ≡ operator_of (mark.Sign sign) }
{
    match sign {
        PLUS => Some(Op::Add),
        MINUS => Some(Op::Sub),
        TIMES => Some(Op::Mul),
        DIVIDE => Some(Op::Div),
        REMAINDER => Some(Op::Rem),
        LESS => Some(Op::Lt),
        AT_MOST => Some(Op::Le),
        GREATER => Some(Op::Gt),
        AT_LEAST => Some(Op::Ge),
        EQUAL => Some(Op::Eq),
        NOT_EQUAL => Some(Op::Ne),
        _ => None,
    }
}

/// The operator that a mark stands for behind an operand.
#[tactic(auto, unfolding(crate::specs::Grammar::operator_of))]
fn operator_of_mark(mark: &Mark) -> Option<Op>
    ensures { result ≡ operator_of mark.now }
{
    match mark {
        Mark::Sign(sign) => sign_operator(*sign),
        Mark::Reserved(word) => {
            if *word == AND {
                Some(Op::And)
            } else if *word == OR {
                Some(Op::Or)
            } else {
                None
            }
        }
        _ => None,
    }
}

/// How tightly an operator binds: `or` 0, `and` 1, comparisons 2, sums 3, products 4.
fn level_of_operator(op: Op) -> u8
    ensures { result ≡ level_of op }
{
    match op {
        Op::Or => 0,
        Op::And => 1,
        Op::Lt | Op::Le | Op::Gt | Op::Ge | Op::Eq | Op::Ne => 2,
        Op::Add | Op::Sub => 3,
        Op::Mul | Op::Div | Op::Rem => 4,
    }
}

/// The operator of this level that a token stands for behind an operand, if it does.
pub fn operator(tokens: &[Token], i: usize, level: u8) -> Option<Op>
    requires { i < length tokens.now }
    ensures { MatchOption result
        ((o : Op) → operator_of (text tokens.now i) ≡ Some o → level_of o ≡ level → ⊥)
        (λ o. (operator_of (text tokens.now i) ≡ Some o) × (level_of o ≡ level)) }
{
    match operator_of_mark(mark(tokens, i)) {
        Some(op) => {
            if level_of_operator(op) == level {
                Some(op)
            } else {
                None
            }
        }
        None => None,
    }
}
