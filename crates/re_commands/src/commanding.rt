//! The command that a line is.
ghost use Rattle.std.specs.Prelude.{◌≡◌, ◌≢◌, IfOk, IfSome, Ok, Err, None};
ghost use Rattle.re_terms.specs.Programs.{IsProgram};
ghost use Rattle.re_terms.specs.Admission.{IsCommandOf};
ghost use Rattle.re_commands.specs.Commanding.{commanded, line_meant};
ghost use Rattle.re_commands.specs.LineGrammar.{read_line};
ghost use Rattle.re_commands.specs.RawLines.{marks_of};

use crate::CommandFault;
use crate::lines::read_line;
use crate::meaning::meaning;
use re_terms::{Command, Program, Token};
use re_tokens::{is_blank_text, tokens};
use std::alloc::Global;

/// How many bytes a line has at most.
const MAX_LINE: usize = 1_024;

/// The command that these tokens are.
fn tokens_meaning(alloc: Global, p: &Program, tokens: &[Token]) -> Result<Command, CommandFault>
    requires { IsProgram p.now }
    ensures answer { result ≢ Err CommandFault.Memory → result ≡ line_meant p.now (read_line (marks_of tokens.now)) }
    ensures command { IfOk result (IsCommandOf p.now) }
{
    let Some(line) = read_line(alloc, tokens)? else {
        return Err(CommandFault::Syntax);
    };
    meaning(alloc, p, line)
}

/// The command that a line is, or nothing.
fn line_meaning(alloc: Global, p: &Program, line: &[u8]) -> Result<Option<Command>, CommandFault>
    requires { IsProgram p.now }
    ensures answer { result ≢ Err CommandFault.Memory → result ≡ commanded p.now line.now }
    ensures command { IfOk result (λ c. IfSome c (IsCommandOf p.now)) }
    ensures quiet { commanded p.now line.now ≡ Ok None → result ≡ Ok None }
{
    if line.len() > MAX_LINE {
        return Err(CommandFault::Syntax);
    }
    if is_blank_text(line) {
        return Ok(None);
    }
    let found = tokens(alloc, line)?;
    let tokens = found.as_slice();
    let command = tokens_meaning(alloc, p, &tokens[..tokens.len() - 1])?;
    Ok(Some(command))
}

/// The command that a line is, without its end; `None` for a line of at most 1,024 bytes without tokens.
///
/// A refusal names the first of these faults that holds of the line anywhere: `Syntax` where it has over 1,024 bytes, a
/// place where no token begins, or tokens that are no line; `Unknown` where a name isn't declared; `Kind` where a device's
/// name is that of something else, a `get` asks for a device, a symbol or an event, or a part is of a wrong kind; `Twice`
/// where a turn sets one var or fires one event twice; `Empty` where it has no parts; `TooMany` where it has over 64. Any
/// of them, and a command, may give way to want of memory, but `None` never does.
pub fn command(alloc: Global, line: &[u8], p: &Program) -> Result<Option<Command>, CommandFault>
    requires { IsProgram p.now }
    ensures answer { result ≢ Err CommandFault.Memory → result ≡ commanded p.now line.now }
    ensures command { IfOk result (λ c. IfSome c (IsCommandOf p.now)) }
    ensures quiet { commanded p.now line.now ≡ Ok None → result ≡ Ok None }
    ensures none { result ≡ Ok None → commanded p.now line.now ≡ Ok None }
    ensures syntax { result ≡ Err CommandFault.Syntax → commanded p.now line.now ≡ Err CommandFault.Syntax }
    ensures unknown { result ≡ Err CommandFault.Unknown → commanded p.now line.now ≡ Err CommandFault.Unknown }
    ensures kind { result ≡ Err CommandFault.Kind → commanded p.now line.now ≡ Err CommandFault.Kind }
    ensures twice { result ≡ Err CommandFault.Twice → commanded p.now line.now ≡ Err CommandFault.Twice }
    ensures empty { result ≡ Err CommandFault.Empty → commanded p.now line.now ≡ Err CommandFault.Empty }
    ensures too_many { result ≡ Err CommandFault.TooMany → commanded p.now line.now ≡ Err CommandFault.TooMany }
{
    line_meaning(alloc, p, line)
}
