//! Programs.
ghost use Rattle.std.specs.Prelude.{◌≡◌, ◌<◌, ℕ, List, true, false, length, IfOk, IfErr, Err};
ghost use Rattle.re_terms.specs.Tokens.{IsTokenList};
ghost use Rattle.re_terms.specs.Trees.{IsTree};
ghost use Rattle.re_terms.specs.declared.raw.RawDecl.{RawDecl};
ghost use Rattle.re_terms.specs.declared.token.Mark.TheVariants as mark;
ghost use Rattle.re_syntax.specs.Grammar.{marks_of, Derives};
ghost use Rattle.re_syntax.specs.Places.{open_limit, StandsAt, IsUnexpected, IsTooDeep, EndsTooDeep};
ghost use Rattle.re_syntax.specs.Steps.{text};
ghost use Rattle.re_syntax.specs.Programs.{IsProgram, StopsProgram};

use crate::declaration::declaration;
use crate::fault::SyntaxFault;
use crate::marks::mark;
use crate::stop::Stop;
use re_terms::{Mark, RawDecl, Seq, Token, Tree};
use std::alloc::Global;

/// Whether a token is the end of the text.
fn is_end(tokens: &[Token], i: usize) -> bool
    requires { i < length tokens.now }
    ensures yes { result ≡ true → text tokens.now i ≡ mark.End }
    ensures other { result ≡ false → text tokens.now i ≡ mark.End → ⊥ }
{
    match mark(tokens, i) {
        Mark::End => true,
        _ => false,
    }
}

/// Reads declarations up to the end of the text.
fn declarations(alloc: Global, tokens: &[Token]) -> Result<Seq<RawDecl>, Stop>
    requires { IsTokenList tokens.now }
    ensures ok { IfOk result (λ decls. IsProgram tokens.now decls) }
    ensures stop { IfErr result (λ s. StopsProgram tokens.now s) }
{
    let mut decls = Seq::new(alloc);
    let mut at = 0;
    'declarations: loop {
        if is_end(tokens, at) {
            return Ok(decls);
        }
        let (decl, next) = declaration(alloc, tokens, at)?;
        decls.push(decl)?;
        at = next;
    }
}

/// The place of a token's first byte.
fn place(tokens: &[Token], i: usize) -> u32
    requires { i < length tokens.now }
    ensures { StandsAt tokens.now i result }
{
    tokens[i].at
}

/// The fault for a stop, with the place of its token.
fn fault_of(tokens: &[Token], stop: Stop) -> SyntaxFault
    requires { StopsProgram tokens.now stop }
    ensures at { (byte : ℕ) → result ≡ SyntaxFault.At byte → IsUnexpected tokens.now byte }
    ensures deep { (byte : ℕ) → result ≡ SyntaxFault.Deep byte → IsTooDeep tokens.now byte }
{
    match stop {
        Stop::Memory => SyntaxFault::Memory,
        Stop::Unexpected(i) => SyntaxFault::At(place(tokens, i)),
        Stop::TooMany(i) => SyntaxFault::Deep(place(tokens, i)),
        Stop::TooDeep(i) => SyntaxFault::Deep(place(tokens, i)),
    }
}

/// Reads the tokens of a text as a program.
///
/// `At` comes at the first token such that the tokens up to it, with it, begin no program; `Deep` at a token that
/// opens a 129th expression, and at the first token of an expression of a declaration that ends with a depth over 64.
pub fn parse(alloc: Global, tokens: &Seq<Token>) -> Result<Tree, SyntaxFault>
    requires { IsTokenList tokens.now.items }
    ensures tree { IfOk result (λ tree. Derives open_limit (marks_of tokens.now.items) tree.decls.items) }
    ensures limits { IfOk result IsTree }
    ensures only { IfOk result (λ tree. (limit : ℕ → ℕ) (other : List RawDecl) → Derives limit (marks_of tokens.now.items) other → other ≡ tree.decls.items) }
    ensures shallow { IfOk result (λ tree. (byte : ℕ) → EndsTooDeep tokens.now.items byte → ⊥) }
    ensures at { (byte : ℕ) → result ≡ Err (SyntaxFault.At byte) → IsUnexpected tokens.now.items byte }
    ensures deep { (byte : ℕ) → result ≡ Err (SyntaxFault.Deep byte) → IsTooDeep tokens.now.items byte }
{
    let tokens = tokens.as_slice();
    match declarations(alloc, tokens) {
        Ok(decls) => Ok(Tree { decls }),
        Err(stop) => Err(fault_of(tokens, stop)),
    }
}
