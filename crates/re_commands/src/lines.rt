//! Lines, before their names are looked up.
ghost use Rattle.std.specs.Prelude.{◌≡◌, IfOk, option_map};
ghost use Rattle.re_commands.specs.LineGrammar.{device_and_turn, line_behind, read_line};
ghost use Rattle.re_commands.specs.RawLines.{marks_of, plain_line, plain_turn};

use crate::leaves::{name_first, number_first, only_name, only_number};
use crate::parts::read_turn;
use crate::raw_line::RawLine;
use crate::words::{LineWord, line_word};
use re_terms::{RawTurn, Text, Token};
use std::alloc::{AllocError, Global};

/// Reads a device and parts for it. The one error is want of memory.
fn read_device_turn<'a>(
    alloc: Global,
    tokens: &'a [Token],
) -> Result<Option<(&'a Text, RawTurn)>, AllocError>
    ensures { IfOk result (λ read. option_map plain_turn read ≡ device_and_turn (marks_of tokens.now)) }
{
    let Some((device, rest)) = name_first(tokens) else {
        return Ok(None);
    };
    let Some(turn) = read_turn(alloc, rest)? else {
        return Ok(None);
    };
    Ok(Some((device, turn)))
}

/// Reads a device and a name.
fn read_get<'a>(tokens: &'a [Token]) -> Option<RawLine<'a>>
    ensures { option_map plain_line result ≡ line_behind LineWord.Get (marks_of tokens.now) }
{
    let (device, rest) = name_first(tokens)?;
    let name = only_name(rest)?;
    Some(RawLine::Get { device, name })
}

/// Reads a packet and a device.
fn read_deliver<'a>(tokens: &'a [Token]) -> Option<RawLine<'a>>
    ensures { option_map plain_line result ≡ line_behind LineWord.Deliver (marks_of tokens.now) }
{
    let (packet, rest) = number_first(tokens)?;
    let device = only_name(rest)?;
    Some(RawLine::Deliver { packet, device })
}

/// Reads what stands behind the word of a line. The one error is want of memory.
fn read_behind<'a>(
    alloc: Global,
    word: LineWord,
    tokens: &'a [Token],
) -> Result<Option<RawLine<'a>>, AllocError>
    ensures { IfOk result (λ line. option_map plain_line line ≡ line_behind word (marks_of tokens.now)) }
{
    Ok(match word {
        LineWord::Turn => read_device_turn(alloc, tokens)?.map(|(device, turn)| RawLine::Turn {
            device,
            turn,
        }),
        LineWord::Lazy => read_device_turn(alloc, tokens)?.map(|(device, turn)| RawLine::Lazy {
            device,
            turn,
        }),
        LineWord::Settle => only_name(tokens).map(|device| RawLine::Settle { device }),
        LineWord::Get => read_get(tokens),
        LineWord::Send => only_name(tokens).map(|device| RawLine::Send { device }),
        LineWord::Deliver => read_deliver(tokens),
        LineWord::Hex => only_number(tokens).map(|packet| RawLine::Hex { packet }),
        LineWord::Crash => only_name(tokens).map(|device| RawLine::Crash { device }),
        LineWord::Restart => only_name(tokens).map(|device| RawLine::Restart { device }),
    })
}

/// Reads a line. The one error is want of memory.
pub fn read_line<'a>(alloc: Global, tokens: &'a [Token]) -> Result<Option<RawLine<'a>>, AllocError>
    ensures { IfOk result (λ line. option_map plain_line line ≡ read_line (marks_of tokens.now)) }
{
    let Some((word, rest)) = name_first(tokens) else {
        return Ok(None);
    };
    let Some(word) = line_word(word.as_slice()) else {
        return Ok(None);
    };
    read_behind(alloc, word, rest)
}
