//! The sources of derived events.
ghost use Rattle.std.specs.Prelude.{◌≡◌, ℕ, ◌<◌, length, IfOk, IfErr};
ghost use Rattle.re_terms.specs.declared.token.Mark.TheVariants as mark;
ghost use Rattle.re_syntax.specs.Programs.{IsShallow};
ghost use Rattle.re_syntax.specs.Steps.{text, EndsLast, Accepts, Stops, nothing, ASource, DeepSource};

use crate::expression::whole;
use crate::marks::{first_name, is_word, name, only_name, sign};
use crate::stop::Stop;
use re_terms::reserved::{CHANGED, EITHER, FILTER, MAP};
use re_terms::signs::CLOSE;
use re_terms::{RawBody, Token};
use std::alloc::Global;

/// Reads `changed` with its name.
fn changed(alloc: Global, tokens: &[Token], i: usize) -> Result<(RawBody, usize), Stop>
    requires inside { i < length tokens.now }
    requires ends { EndsLast tokens.now }
    requires word { text tokens.now i ≡ mark.Reserved CHANGED }
    ensures ok { IfOk result (λ r. Accepts ASource nothing 0 tokens.now r.0 i r.1) }
    ensures depth { IfOk result (λ r. IsShallow r.0) }
    ensures shallow { IfOk result (λ _. (s : ℕ) → DeepSource tokens.now i s → ⊥) }
    ensures stop { IfErr result (λ s. Stops ASource nothing (DeepSource tokens.now i) tokens.now i s) }
{
    let (of, next) = only_name(alloc, tokens, i + 1)?;
    Ok((RawBody::Changed { of }, next))
}

/// Reads `map` with its event and expression.
fn mapped(alloc: Global, tokens: &[Token], i: usize) -> Result<(RawBody, usize), Stop>
    requires inside { i < length tokens.now }
    requires ends { EndsLast tokens.now }
    requires word { text tokens.now i ≡ mark.Reserved MAP }
    ensures ok { IfOk result (λ r. Accepts ASource nothing 0 tokens.now r.0 i r.1) }
    ensures depth { IfOk result (λ r. IsShallow r.0) }
    ensures shallow { IfOk result (λ _. (s : ℕ) → DeepSource tokens.now i s → ⊥) }
    ensures stop { IfErr result (λ s. Stops ASource nothing (DeepSource tokens.now i) tokens.now i s) }
{
    let (source, start) = first_name(alloc, tokens, i + 1)?;
    let (expr, behind) = whole(alloc, tokens, start)?;
    let next = sign(tokens, behind, CLOSE)?;
    Ok((RawBody::Map { source, expr }, next))
}

/// Reads `filter` with its event and expression.
fn filtered(alloc: Global, tokens: &[Token], i: usize) -> Result<(RawBody, usize), Stop>
    requires inside { i < length tokens.now }
    requires ends { EndsLast tokens.now }
    requires word { text tokens.now i ≡ mark.Reserved FILTER }
    ensures ok { IfOk result (λ r. Accepts ASource nothing 0 tokens.now r.0 i r.1) }
    ensures depth { IfOk result (λ r. IsShallow r.0) }
    ensures shallow { IfOk result (λ _. (s : ℕ) → DeepSource tokens.now i s → ⊥) }
    ensures stop { IfErr result (λ s. Stops ASource nothing (DeepSource tokens.now i) tokens.now i s) }
{
    let (source, start) = first_name(alloc, tokens, i + 1)?;
    let (expr, behind) = whole(alloc, tokens, start)?;
    let next = sign(tokens, behind, CLOSE)?;
    Ok((RawBody::Filter { source, expr }, next))
}

/// Reads `either` with its events.
fn either(alloc: Global, tokens: &[Token], i: usize) -> Result<(RawBody, usize), Stop>
    requires inside { i < length tokens.now }
    requires ends { EndsLast tokens.now }
    requires word { text tokens.now i ≡ mark.Reserved EITHER }
    ensures ok { IfOk result (λ r. Accepts ASource nothing 0 tokens.now r.0 i r.1) }
    ensures depth { IfOk result (λ r. IsShallow r.0) }
    ensures shallow { IfOk result (λ _. (s : ℕ) → DeepSource tokens.now i s → ⊥) }
    ensures stop { IfErr result (λ s. Stops ASource nothing (DeepSource tokens.now i) tokens.now i s) }
{
    let (left, start) = first_name(alloc, tokens, i + 1)?;
    let (right, behind) = name(alloc, tokens, start)?;
    let next = sign(tokens, behind, CLOSE)?;
    Ok((RawBody::Either { left, right }, next))
}

/// Reads what a derived event follows.
pub fn source(alloc: Global, tokens: &[Token], i: usize) -> Result<(RawBody, usize), Stop>
    requires inside { i < length tokens.now }
    requires ends { EndsLast tokens.now }
    ensures ok { IfOk result (λ r. Accepts ASource nothing 0 tokens.now r.0 i r.1) }
    ensures depth { IfOk result (λ r. IsShallow r.0) }
    ensures shallow { IfOk result (λ _. (s : ℕ) → DeepSource tokens.now i s → ⊥) }
    ensures stop { IfErr result (λ s. Stops ASource nothing (DeepSource tokens.now i) tokens.now i s) }
{
    if is_word(tokens, i, CHANGED) {
        return changed(alloc, tokens, i);
    }
    if is_word(tokens, i, MAP) {
        return mapped(alloc, tokens, i);
    }
    if is_word(tokens, i, FILTER) {
        return filtered(alloc, tokens, i);
    }
    if is_word(tokens, i, EITHER) {
        return either(alloc, tokens, i);
    }
    Err(Stop::Unexpected(i))
}
