//! What stands between a declaration's name and its `;`.
ghost use Rattle.std.specs.Prelude.{◌≡◌, ℕ, ◌<◌, length, IfOk, IfErr};
ghost use Rattle.re_terms.specs.declared.reserved.TheConstants.{VAR, EVENT, SIGNAL, FOLD, REGISTER};
ghost use Rattle.re_syntax.specs.Programs.{IsShallow};
ghost use Rattle.re_syntax.specs.Steps.{EndsLast, Accepts, Stops, Misses, nothing, extends, AContent, StartPart, DeepContent};

use crate::expression::whole;
use crate::leaf::{literal, region};
use crate::marks::{is_sign, kind_part, name, sign, word};
use crate::source::source;
use crate::stop::Stop;
use re_terms::reserved::{COUNTER, DEVICE, DO, EVENT, FOLD, ON, SET, SIGNAL, SYMBOL, VAR};
use re_terms::signs::EQUALS;
use re_terms::{Kind, RawBody, RawLit, Token};
use std::alloc::Global;

/// Reads `:` and a kind and `=` and a literal.
fn start_part(alloc: Global, tokens: &[Token], i: usize) -> Result<((Kind, RawLit), usize), Stop>
    requires inside { i < length tokens.now }
    requires ends { EndsLast tokens.now }
    ensures ok { IfOk result (λ r. Accepts StartPart nothing 0 tokens.now r.0 i r.1) }
    ensures stop { IfErr result (λ s. Misses StartPart nothing tokens.now i s) }
{
    let (kind, behind) = kind_part(tokens, i)?;
    let start = sign(tokens, behind, EQUALS)?;
    let (value, next) = literal(alloc, tokens, start)?;
    Ok(((kind, value), next))
}

/// Reads what a var is.
fn var(alloc: Global, tokens: &[Token], i: usize) -> Result<(RawBody, usize), Stop>
    requires inside { i < length tokens.now }
    requires ends { EndsLast tokens.now }
    ensures ok { IfOk result (λ r. Accepts (AContent VAR) extends 1 tokens.now r.0 i r.1) }
    ensures depth { IfOk result (λ r. IsShallow r.0) }
    ensures shallow { IfOk result (λ _. (s : ℕ) → DeepContent tokens.now VAR i s → ⊥) }
    ensures stop { IfErr result (λ s. Stops (AContent VAR) extends (DeepContent tokens.now VAR i) tokens.now i s) }
{
    let ((kind, start), behind) = start_part(alloc, tokens, i)?;
    let (region, next) = region(tokens, behind)?;
    Ok((
        RawBody::Var {
            kind,
            start,
            region,
        },
        next,
    ))
}

/// Reads what an event is.
fn event(alloc: Global, tokens: &[Token], i: usize) -> Result<(RawBody, usize), Stop>
    requires inside { i < length tokens.now }
    requires ends { EndsLast tokens.now }
    ensures ok { IfOk result (λ r. Accepts (AContent EVENT) extends 1 tokens.now r.0 i r.1) }
    ensures depth { IfOk result (λ r. IsShallow r.0) }
    ensures shallow { IfOk result (λ _. (s : ℕ) → DeepContent tokens.now EVENT i s → ⊥) }
    ensures stop { IfErr result (λ s. Stops (AContent EVENT) extends (DeepContent tokens.now EVENT i) tokens.now i s) }
{
    if is_sign(tokens, i, EQUALS) {
        return source(alloc, tokens, i + 1);
    }
    let (kind, next) = kind_part(tokens, i)?;
    Ok((RawBody::Event { kind }, next))
}

/// Reads what a signal is.
fn signal(alloc: Global, tokens: &[Token], i: usize) -> Result<(RawBody, usize), Stop>
    requires inside { i < length tokens.now }
    requires ends { EndsLast tokens.now }
    ensures ok { IfOk result (λ r. Accepts (AContent SIGNAL) extends 1 tokens.now r.0 i r.1) }
    ensures depth { IfOk result (λ r. IsShallow r.0) }
    ensures shallow { IfOk result (λ _. (s : ℕ) → DeepContent tokens.now SIGNAL i s → ⊥) }
    ensures stop { IfErr result (λ s. Stops (AContent SIGNAL) extends (DeepContent tokens.now SIGNAL i) tokens.now i s) }
{
    let start = sign(tokens, i, EQUALS)?;
    let (expr, next) = whole(alloc, tokens, start)?;
    Ok((RawBody::Signal { expr }, next))
}

/// Reads what a fold is.
fn fold(alloc: Global, tokens: &[Token], i: usize) -> Result<(RawBody, usize), Stop>
    requires inside { i < length tokens.now }
    requires ends { EndsLast tokens.now }
    ensures ok { IfOk result (λ r. Accepts (AContent FOLD) extends 1 tokens.now r.0 i r.1) }
    ensures depth { IfOk result (λ r. IsShallow r.0) }
    ensures shallow { IfOk result (λ _. (s : ℕ) → DeepContent tokens.now FOLD i s → ⊥) }
    ensures stop { IfErr result (λ s. Stops (AContent FOLD) extends (DeepContent tokens.now FOLD i) tokens.now i s) }
{
    let ((kind, start), started) = start_part(alloc, tokens, i)?;
    let on = word(tokens, started, ON)?;
    let (source, named) = name(alloc, tokens, on)?;
    let step = word(tokens, named, DO)?;
    let (expr, behind) = whole(alloc, tokens, step)?;
    let (region, next) = region(tokens, behind)?;
    Ok((
        RawBody::Fold {
            kind,
            start,
            source,
            expr,
            region,
        },
        next,
    ))
}

/// Reads what a set is.
fn set(tokens: &[Token], i: usize) -> Result<(RawBody, usize), Stop>
    requires inside { i < length tokens.now }
    requires ends { EndsLast tokens.now }
    ensures ok { IfOk result (λ r. Accepts (AContent SET) extends 1 tokens.now r.0 i r.1) }
    ensures depth { IfOk result (λ r. IsShallow r.0) }
    ensures shallow { IfOk result (λ _. (s : ℕ) → DeepContent tokens.now SET i s → ⊥) }
    ensures stop { IfErr result (λ s. Stops (AContent SET) extends (DeepContent tokens.now SET i) tokens.now i s) }
{
    let (kind, next) = kind_part(tokens, i)?;
    Ok((RawBody::Set { kind }, next))
}

/// Reads what a register is.
fn register(alloc: Global, tokens: &[Token], i: usize) -> Result<(RawBody, usize), Stop>
    requires inside { i < length tokens.now }
    requires ends { EndsLast tokens.now }
    ensures ok { IfOk result (λ r. Accepts (AContent REGISTER) extends 1 tokens.now r.0 i r.1) }
    ensures depth { IfOk result (λ r. IsShallow r.0) }
    ensures shallow { IfOk result (λ _. (s : ℕ) → DeepContent tokens.now REGISTER i s → ⊥) }
    ensures stop { IfErr result (λ s. Stops (AContent REGISTER) extends (DeepContent tokens.now REGISTER i) tokens.now i s) }
{
    let ((kind, start), next) = start_part(alloc, tokens, i)?;
    Ok((RawBody::Register { kind, start }, next))
}

/// Reads what a declaration that begins with this word declares.
pub fn content(
    alloc: Global,
    tokens: &[Token],
    i: usize,
    word: u8,
) -> Result<(RawBody, usize), Stop>
    requires inside { i < length tokens.now }
    requires ends { EndsLast tokens.now }
    requires declares { word < 9 }
    ensures ok { IfOk result (λ r. Accepts (AContent word) extends 1 tokens.now r.0 i r.1) }
    ensures depth { IfOk result (λ r. IsShallow r.0) }
    ensures shallow { IfOk result (λ _. (s : ℕ) → DeepContent tokens.now word i s → ⊥) }
    ensures stop { IfErr result (λ s. Stops (AContent word) extends (DeepContent tokens.now word i) tokens.now i s) }
{
    if word == DEVICE {
        return Ok((RawBody::Device, i));
    }
    if word == SYMBOL {
        return Ok((RawBody::Symbol, i));
    }
    if word == VAR {
        return var(alloc, tokens, i);
    }
    if word == EVENT {
        return event(alloc, tokens, i);
    }
    if word == SIGNAL {
        return signal(alloc, tokens, i);
    }
    if word == FOLD {
        return fold(alloc, tokens, i);
    }
    if word == COUNTER {
        return Ok((RawBody::Counter, i));
    }
    if word == SET {
        return set(tokens, i);
    }
    register(alloc, tokens, i)
}
