//! The parts of turns.
ghost use Rattle.std.specs.Prelude.{◌≡◌, IfOk};
ghost use Rattle.re_commands.specs.LineGrammar.{act_of, is_comma, part_of, turn_of};
ghost use Rattle.re_commands.specs.RawLines.{marks_of};

use crate::leaves::{read_int, read_literal};
use crate::words::{PartWord, part_word};
use re_terms::signs::{COMMA, EQUALS};
use re_terms::{Mark, RawPart, RawTurn, Seq, Text, Token, TryCopy};
use std::alloc::{AllocError, Global};

/// Reads what stands behind the word and the name of a part. The one error is want of memory.
fn read_act(
    alloc: Global,
    word: PartWord,
    name: &Text,
    tokens: &[Token],
) -> Result<Option<RawPart>, AllocError>
    ensures { IfOk result (λ part. part ≡ act_of word name.now (marks_of tokens.now)) }
{
    if matches!(word, PartWord::Add) {
        let Some(amount) = read_int(tokens) else {
            return Ok(None);
        };
        let name = name.copy(alloc)?;
        return Ok(Some(RawPart::Add { name, amount }));
    }
    let Some(lit) = read_literal(alloc, tokens)? else {
        return Ok(None);
    };
    let name = name.copy(alloc)?;
    Ok(Some(match word {
        PartWord::Fire => RawPart::Fire { name, lit },
        PartWord::Insert => RawPart::Insert { name, lit },
        PartWord::Remove => RawPart::Remove { name, lit },
        _ => RawPart::Write { name, lit },
    }))
}

/// Reads a part. The one error is want of memory.
fn read_part(alloc: Global, tokens: &[Token]) -> Result<Option<RawPart>, AllocError>
    ensures { IfOk result (λ part. part ≡ part_of (marks_of tokens.now)) }
{
    match tokens {
        [
            Token {
                mark: Mark::Name(name),
                ..
            },
            Token {
                mark: Mark::Sign(EQUALS),
                ..
            },
            rest @ ..,
        ] => {
            let Some(lit) = read_literal(alloc, rest)? else {
                return Ok(None);
            };
            let name = name.copy(alloc)?;
            Ok(Some(RawPart::Put { name, lit }))
        }
        [
            Token {
                mark: Mark::Name(word),
                ..
            },
            Token {
                mark: Mark::Name(name),
                ..
            },
            rest @ ..,
        ] => {
            let Some(word) = part_word(word.as_slice()) else {
                return Ok(None);
            };
            read_act(alloc, word, name, rest)
        }
        _ => Ok(None),
    }
}

/// Whether a token is the comma that stands between parts.
fn is_comma(token: &Token) -> bool
    ensures { result ≡ is_comma token.now.mark }
{
    matches!(token.mark, Mark::Sign(COMMA))
}

/// Reads the parts of a turn. The one error is want of memory.
pub fn read_turn(alloc: Global, tokens: &[Token]) -> Result<Option<RawTurn>, AllocError>
    ensures { IfOk result (λ turn. turn ≡ turn_of (marks_of tokens.now)) }
{
    let mut parts = Seq::new(alloc);
    if tokens.is_empty() {
        return Ok(Some(RawTurn { parts }));
    }
    for between in tokens.split(|token| is_comma(token)) {
        let Some(part) = read_part(alloc, between)? else {
            return Ok(None);
        };
        parts.push(part)?;
    }
    Ok(Some(RawTurn { parts }))
}
