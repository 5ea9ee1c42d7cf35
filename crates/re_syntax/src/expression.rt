//! Expressions.
ghost use Rattle.std.specs.Prelude.{◌≡◌, ℕ, ◌+◌, ◌<◌, ◌≤◌, length, IfOk, IfErr};
ghost use Rattle.re_terms.specs.declared.token.Mark.TheVariants as mark;
ghost use Rattle.re_terms.specs.Trees.{raw_depth};
ghost use Rattle.re_syntax.specs.Grammar.{Primary, Level, Expression};
ghost use Rattle.re_syntax.specs.Steps.{text, EndsLast, Accepts, Finds, Stops, StopsBehind, Never, nothing, joins, APhrase, AnExpression, DeepAt};

use crate::keeping::{binary, branches, choice, membership, negation, recovery};
use crate::kept::Kept;
use crate::leaf::read_leaf;
use crate::marks::{first_name, is_sign, is_word, operator, sign, word};
use crate::stop::Stop;
use re_terms::reserved::{ELSE, HAS, IF, NOT, RECOVER, THEN};
use re_terms::signs::{CLOSE, COMMA, OPEN};
use re_terms::{RawExpr, Token};
use std::alloc::Global;

/// How many expressions may be open at one place.
const MOST_OPEN: u8 = 128;

/// The level of comparisons, which aren't chained.
const COMPARISON: u8 = 2;

/// The level behind that of products.
const TIGHTEST: u8 = 5;

/// Reads an expression that the token before it opens, beside this many others.
#[cycle(expressions)]
fn inner(alloc: Global, tokens: &[Token], i: usize, opened: u8) -> Result<(Kept, usize), Stop>
    requires inside { i < length tokens.now }
    requires ends { EndsLast tokens.now }
    requires behind { 0 < i }
    requires opened { opened ≤ 128 }
    ensures ok { IfOk result (λ r. Finds (AnExpression (opened + 1)) (joins 0) tokens.now r.0 i r.1) }
    ensures stop { IfErr result (λ s. StopsBehind (AnExpression (opened + 1)) (joins 0) Never tokens.now i s) }
{
    if opened == MOST_OPEN {
        return Err(Stop::TooMany(i - 1));
    }
    expression(alloc, tokens, i, opened + 1)
}

/// Reads an expression. `opened` counts the expressions that are open there, this one included.
#[cycle(expressions)]
pub fn expression(
    alloc: Global,
    tokens: &[Token],
    i: usize,
    opened: u8,
) -> Result<(Kept, usize), Stop>
    requires inside { i < length tokens.now }
    requires ends { EndsLast tokens.now }
    requires opened { opened ≤ 128 }
    ensures ok { IfOk result (λ r. Finds (AnExpression opened) (joins 0) tokens.now r.0 i r.1) }
    ensures stop { IfErr result (λ s. Stops (AnExpression opened) (joins 0) Never tokens.now i s) }
{
    if is_word(tokens, i, IF) {
        return condition(alloc, tokens, i, opened);
    }
    operands(alloc, tokens, i, opened, 0)
}

/// Reads a choice of two expressions.
#[cycle(expressions)]
fn condition(alloc: Global, tokens: &[Token], i: usize, opened: u8) -> Result<(Kept, usize), Stop>
    requires inside { i < length tokens.now }
    requires ends { EndsLast tokens.now }
    requires opened { opened ≤ 128 }
    requires word { text tokens.now i ≡ mark.Reserved IF }
    ensures ok { IfOk result (λ r. Finds (AnExpression opened) (joins 0) tokens.now r.0 i r.1) }
    ensures stop { IfErr result (λ s. Stops (AnExpression opened) (joins 0) Never tokens.now i s) }
{
    let (cond, decided) = inner(alloc, tokens, i + 1, opened)?;
    let then = word(tokens, decided, THEN)?;
    let (yes, chosen) = inner(alloc, tokens, then, opened)?;
    let other = word(tokens, chosen, ELSE)?;
    let (no, next) = inner(alloc, tokens, other, opened)?;
    let branches = branches(alloc, yes, no)?;
    Ok((choice(alloc, cond, branches)?, next))
}

/// Reads operands of a level, joined by its operators.
#[cycle(expressions)]
fn operands(
    alloc: Global,
    tokens: &[Token],
    i: usize,
    opened: u8,
    level: u8,
) -> Result<(Kept, usize), Stop>
    requires inside { i < length tokens.now }
    requires ends { EndsLast tokens.now }
    requires opened { opened ≤ 128 }
    requires level { level ≤ 5 }
    ensures ok { IfOk result (λ r. Finds (APhrase (Level level) opened) (joins level) tokens.now r.0 i r.1) }
    ensures stop { IfErr result (λ s. Stops (APhrase (Level level) opened) (joins level) Never tokens.now i s) }
{
    if level == TIGHTEST {
        return primary(alloc, tokens, i, opened);
    }
    if level == COMPARISON {
        return comparison(alloc, tokens, i, opened);
    }
    chain(alloc, tokens, i, opened, level)
}

/// Reads a sum, or two that are compared.
#[cycle(expressions)]
fn comparison(alloc: Global, tokens: &[Token], i: usize, opened: u8) -> Result<(Kept, usize), Stop>
    requires inside { i < length tokens.now }
    requires ends { EndsLast tokens.now }
    requires opened { opened ≤ 128 }
    ensures ok { IfOk result (λ r. Finds (APhrase (Level 2) opened) (joins 2) tokens.now r.0 i r.1) }
    ensures stop { IfErr result (λ s. Stops (APhrase (Level 2) opened) (joins 2) Never tokens.now i s) }
{
    let (left, at) = operands(alloc, tokens, i, opened, COMPARISON + 1)?;
    let Some(op) = operator(tokens, at, COMPARISON) else {
        return Ok((left, at));
    };
    let (right, next) = operands(alloc, tokens, at + 1, opened, COMPARISON + 1)?;
    Ok((binary(alloc, op, left, right)?, next))
}

/// Reads operands that operators of one level join to the left.
#[cycle(expressions)]
fn chain(
    alloc: Global,
    tokens: &[Token],
    i: usize,
    opened: u8,
    level: u8,
) -> Result<(Kept, usize), Stop>
    requires inside { i < length tokens.now }
    requires ends { EndsLast tokens.now }
    requires opened { opened ≤ 128 }
    requires level { level < 5 }
    requires chained { level ≡ 2 → ⊥ }
    ensures ok { IfOk result (λ r. Finds (APhrase (Level level) opened) (joins level) tokens.now r.0 i r.1) }
    ensures stop { IfErr result (λ s. Stops (APhrase (Level level) opened) (joins level) Never tokens.now i s) }
{
    let (first, behind) = operands(alloc, tokens, i, opened, level + 1)?;
    let mut left = first;
    let mut at = behind;
    'operators: while let Some(op) = operator(tokens, at, level) {
        let (right, next) = operands(alloc, tokens, at + 1, opened, level + 1)?;
        left = binary(alloc, op, left, right)?;
        at = next;
    }
    Ok((left, at))
}

/// Reads an operand that no operator stands in.
#[cycle(expressions)]
fn primary(alloc: Global, tokens: &[Token], i: usize, opened: u8) -> Result<(Kept, usize), Stop>
    requires inside { i < length tokens.now }
    requires ends { EndsLast tokens.now }
    requires opened { opened ≤ 128 }
    ensures ok { IfOk result (λ r. Finds (APhrase Primary opened) nothing tokens.now r.0 i r.1) }
    ensures stop { IfErr result (λ s. Stops (APhrase Primary opened) nothing Never tokens.now i s) }
{
    if is_sign(tokens, i, OPEN) {
        return brackets(alloc, tokens, i, opened);
    }
    if is_word(tokens, i, NOT) {
        return read_negation(alloc, tokens, i, opened);
    }
    if is_word(tokens, i, RECOVER) {
        return read_recovery(alloc, tokens, i, opened);
    }
    if is_word(tokens, i, HAS) {
        return read_membership(alloc, tokens, i, opened);
    }
    read_leaf(alloc, tokens, i)
}

/// Reads an expression in brackets.
#[cycle(expressions)]
fn brackets(alloc: Global, tokens: &[Token], i: usize, opened: u8) -> Result<(Kept, usize), Stop>
    requires inside { i < length tokens.now }
    requires ends { EndsLast tokens.now }
    requires opened { opened ≤ 128 }
    requires bracket { text tokens.now i ≡ mark.Sign OPEN }
    ensures ok { IfOk result (λ r. Finds (APhrase Primary opened) nothing tokens.now r.0 i r.1) }
    ensures stop { IfErr result (λ s. Stops (APhrase Primary opened) nothing Never tokens.now i s) }
{
    let (operand, behind) = inner(alloc, tokens, i + 1, opened)?;
    let next = sign(tokens, behind, CLOSE)?;
    Ok((operand, next))
}

/// Reads `not` with its operand.
#[cycle(expressions)]
fn read_negation(
    alloc: Global,
    tokens: &[Token],
    i: usize,
    opened: u8,
) -> Result<(Kept, usize), Stop>
    requires inside { i < length tokens.now }
    requires ends { EndsLast tokens.now }
    requires opened { opened ≤ 128 }
    requires word { text tokens.now i ≡ mark.Reserved NOT }
    ensures ok { IfOk result (λ r. Finds (APhrase Primary opened) nothing tokens.now r.0 i r.1) }
    ensures stop { IfErr result (λ s. Stops (APhrase Primary opened) nothing Never tokens.now i s) }
{
    let start = sign(tokens, i + 1, OPEN)?;
    let (operand, behind) = inner(alloc, tokens, start, opened)?;
    let next = sign(tokens, behind, CLOSE)?;
    Ok((negation(alloc, operand)?, next))
}

/// Reads `recover` with its operands.
#[cycle(expressions)]
fn read_recovery(
    alloc: Global,
    tokens: &[Token],
    i: usize,
    opened: u8,
) -> Result<(Kept, usize), Stop>
    requires inside { i < length tokens.now }
    requires ends { EndsLast tokens.now }
    requires opened { opened ≤ 128 }
    requires word { text tokens.now i ≡ mark.Reserved RECOVER }
    ensures ok { IfOk result (λ r. Finds (APhrase Primary opened) nothing tokens.now r.0 i r.1) }
    ensures stop { IfErr result (λ s. Stops (APhrase Primary opened) nothing Never tokens.now i s) }
{
    let start = sign(tokens, i + 1, OPEN)?;
    let (tried, behind) = inner(alloc, tokens, start, opened)?;
    let second = sign(tokens, behind, COMMA)?;
    let (other, last) = inner(alloc, tokens, second, opened)?;
    let next = sign(tokens, last, CLOSE)?;
    Ok((recovery(alloc, tried, other)?, next))
}

/// Reads `has` with its set and element.
#[cycle(expressions)]
fn read_membership(
    alloc: Global,
    tokens: &[Token],
    i: usize,
    opened: u8,
) -> Result<(Kept, usize), Stop>
    requires inside { i < length tokens.now }
    requires ends { EndsLast tokens.now }
    requires opened { opened ≤ 128 }
    requires word { text tokens.now i ≡ mark.Reserved HAS }
    ensures ok { IfOk result (λ r. Finds (APhrase Primary opened) nothing tokens.now r.0 i r.1) }
    ensures stop { IfErr result (λ s. Stops (APhrase Primary opened) nothing Never tokens.now i s) }
{
    let (set, start) = first_name(alloc, tokens, i + 1)?;
    let (element, behind) = inner(alloc, tokens, start, opened)?;
    let next = sign(tokens, behind, CLOSE)?;
    Ok((membership(alloc, set, element)?, next))
}

/// Reads the expression of a declaration.
pub fn whole(alloc: Global, tokens: &[Token], i: usize) -> Result<(RawExpr, usize), Stop>
    requires inside { i < length tokens.now }
    requires ends { EndsLast tokens.now }
    ensures ok { IfOk result (λ r. Accepts (AnExpression 1) (joins 0) 1 tokens.now r.0 i r.1) }
    ensures depth { IfOk result (λ r. raw_depth r.0 ≤ 64) }
    ensures shallow { IfOk result (λ _. (s : ℕ) → DeepAt tokens.now i s → ⊥) }
    ensures stop { IfErr result (λ s. Stops (AnExpression 1) (joins 0) (DeepAt tokens.now i) tokens.now i s) }
{
    let (found, next) = expression(alloc, tokens, i, 1)?;
    match found {
        Kept::Whole(tree, _) => Ok((tree, next)),
        Kept::TooDeep => Err(Stop::TooDeep(i)),
    }
}
