//! Declarations.
ghost use Rattle.std.specs.Prelude.{◌≡◌, ◌<◌, ℕ, length, IfOk, IfErr, MatchOption};
ghost use Rattle.re_terms.specs.declared.token.Mark.TheVariants as mark;
ghost use Rattle.re_syntax.specs.Programs.{IsShallow};
ghost use Rattle.re_syntax.specs.Steps.{text, EndsLast, Accepts, Stops, nothing, ADeclaration, DeepDeclaration};

use crate::content::content;
use crate::marks::{mark, name, sign};
use crate::stop::Stop;
use re_terms::reserved::REGISTER;
use re_terms::signs::SEMICOLON;
use re_terms::{Mark, RawDecl, Token};
use std::alloc::Global;

/// The word that a declaration begins with, if the token is one.
fn declaring_word(tokens: &[Token], i: usize) -> Option<u8>
    requires { i < length tokens.now }
    ensures { MatchOption result
        ((w : ℕ) → text tokens.now i ≡ mark.Reserved w → w < 9 → ⊥)
        (λ w. (text tokens.now i ≡ mark.Reserved w) × (w < 9)) }
{
    match mark(tokens, i) {
        Mark::Reserved(word) => { if *word <= REGISTER { Some(*word) } else { None } }
        _ => None,
    }
}

/// Reads a declaration.
pub fn declaration(alloc: Global, tokens: &[Token], i: usize) -> Result<(RawDecl, usize), Stop>
    requires inside { i < length tokens.now }
    requires ends { EndsLast tokens.now }
    ensures ok { IfOk result (λ r. Accepts ADeclaration nothing 0 tokens.now r.0 i r.1) }
    ensures behind { IfOk result (λ r. i < r.1) }
    ensures depth { IfOk result (λ r. IsShallow r.0.body) }
    ensures shallow { IfOk result (λ _. (s : ℕ) → DeepDeclaration tokens.now i s → ⊥) }
    ensures stop { IfErr result (λ s. Stops ADeclaration nothing (DeepDeclaration tokens.now i) tokens.now i s) }
{
    let Some(word) = declaring_word(tokens, i) else {
        return Err(Stop::Unexpected(i));
    };
    let (name, named) = name(alloc, tokens, i + 1)?;
    let (body, behind) = content(alloc, tokens, named, word)?;
    let next = sign(tokens, behind, SEMICOLON)?;
    Ok((RawDecl { name, body }, next))
}
