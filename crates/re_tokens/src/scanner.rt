//! The list of a text's tokens.
ghost use Rattle.std.specs.Prelude.{ℕ, ◌≡◌, ◌<◌, ◌^◌, length, IfOk, Some, None, Err};
ghost use Rattle.re_terms.specs.Tokens.{IsTokenList};
ghost use Rattle.re_tokens.specs.Scanning.{first_mark, plain_first};
ghost use Rattle.re_tokens.specs.TokenGrammar.{IsTokens, NoTokenAt};

use crate::bytes::is_word_byte;
use crate::fault::LexFault;
use crate::gap::skip_gap;
use crate::signs::sign_place;
use crate::words::{word_len, word_mark};
use re_terms::{Mark, Seq, Token};
use std::alloc::Global;

/// The mark that a text begins with, and the text behind it. `At` gives back the place that is passed, where none begins.
fn first_mark(alloc: Global, text: &[u8], at: u32) -> Result<(Mark, &[u8]), LexFault>
    requires { 0 < length text.now }
    ensures mark { IfOk result (λ found. first_mark text.now ≡ Some (plain_first found)) }
    ensures none { (b : ℕ) → result ≡ Err (LexFault.At b) → (b ≡ at) × (first_mark text.now ≡ None) }
{
    if is_word_byte(text[0]) {
        let (word, behind) = text.split_at(word_len(text));
        return match word_mark(alloc, word)? {
            Some(mark) => Ok((mark, behind)),
            None => Err(LexFault::At(at)),
        };
    }
    if text.len() >= 2 {
        if let Some(place) = sign_place(&text[..2]) {
            return Ok((Mark::Sign(place), &text[2..]));
        }
    }
    match sign_place(&text[..1]) {
        Some(place) => Ok((Mark::Sign(place), &text[1..])),
        None => Err(LexFault::At(at)),
    }
}

/// The tokens of a text of fewer than 2^32 bytes, in order, and then the one `End`, at the text's length.
///
/// `At` comes exactly where the text has no list of tokens: it is the first byte, in order, where no token begins.
/// The other refusal is want of memory.
pub fn tokens(alloc: Global, text: &[u8]) -> Result<Seq<Token>, LexFault>
    requires { length text.now < 2 ^ 32 }
    ensures read { IfOk result (λ found. IsTokens text.now found.items) }
    ensures list { IfOk result (λ found. IsTokenList found.items) }
    ensures unreserved { IfOk result (λ found. found.spare ≡ 0) }
    ensures no_token { (place : ℕ) → result ≡ Err (LexFault.At place) → NoTokenAt text.now place }
{
    let mut found = Seq::new(alloc);
    let mut rest = skip_gap(text);
    while !rest.is_empty() {
        let at = (text.len() - rest.len()) as u32;
        let (mark, behind) = first_mark(alloc, rest, at)?;
        found.push(Token { at, mark })?;
        rest = skip_gap(behind);
    }
    found.push(Token {
        at: text.len() as u32,
        mark: Mark::End,
    })?;
    Ok(found)
}
