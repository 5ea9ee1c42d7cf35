//! Reads programs.
ghost use Rattle.std.specs.Prelude.{◌≡◌, ◌≤◌, length, nat_lt, IfOk, Err};
ghost use Rattle.re_print.specs.Canonical.{program_text};
ghost use Rattle.re_terms.specs.Programs.{IsProgram};
ghost use Rattle.re_tool.specs.Verdict.{text_limit, Decides, Rejected, Accepted};

use crate::faults::{ProgramFault, Refusal};
use re_print::print_program;
use re_syntax::parse;
use re_terms::Program;
use re_tokens::tokens;
use re_types::resolve;
use std::alloc::{AllocError, Global};

/// How many bytes a program part has at most, and its canonical text.
const MAX_TEXT: usize = 65_536;

/// Whether a program's canonical text is too long. The one refusal is want of memory.
fn is_long(alloc: Global, program: &Program) -> Result<bool, AllocError>
    ensures { IfOk result (λ long. long ≡ nat_lt text_limit (length (program_text program.now))) }
{
    Ok(print_program(alloc, program)?.len() > MAX_TEXT)
}

/// Reads a program part.
///
/// A refusal is that of `docs/LANGUAGE.md`, the first in the order that stands there. The other one is want of memory.
pub fn read_program(alloc: Global, text: &[u8]) -> Result<Program, ProgramFault>
    ensures accepted { IfOk result (λ p. Decides text.now (Accepted p)) }
    ensures refused { (why : Refusal) → result ≡ Err (ProgramFault.Refused why) → Decides text.now (Rejected why) }
    ensures program { IfOk result IsProgram }
    ensures short { IfOk result (λ p. length (program_text p) ≤ text_limit) }
{
    if text.len() > MAX_TEXT {
        return Err(ProgramFault::Refused(Refusal::TooLong));
    }
    let tokens = tokens(alloc, text)?;
    let tree = parse(alloc, &tokens)?;
    let program = resolve(alloc, tree)?;
    if is_long(alloc, &program)? {
        return Err(ProgramFault::Refused(Refusal::TooLong));
    }
    Ok(program)
}
