//! One line of a session.
ghost use Rattle.std.specs.Prelude.{◌≡◌, Some, IfOk, IfSome};
ghost use Rattle.re_outside.specs.Outside.{Seen};
ghost use Rattle.re_print.specs.AnswerTexts.{AscendsWhereSet};
ghost use Rattle.re_session.specs.LineAnswers.{fault_code};
ghost use Rattle.re_session.specs.Serving.{LineAnswers, LineGives, said_of};

use re_commands::{CommandFault, command};
use re_outside::{Bytes, Outside, say_all};
use re_print::print_answer;
use re_terms::{Answer, Program};
use re_world::World;
use std::alloc::{AllocError, Global};

/// Why a line has no whole answer, though it was done.
#[derive(Clone, Copy, Debug, PartialEq, Eq)]
pub enum SayFault {
    /// Memory ran out for the answer, and nothing is said.
    Memory,
    /// The output failed, and at most a front of the answer was said before.
    Output,
}

/// The code of a fault of the line itself.
fn fault_code(fault: CommandFault) -> u8
    ensures { result ≡ fault_code fault }
{
    match fault {
        CommandFault::Memory => 36,
        CommandFault::Syntax => 20,
        CommandFault::Unknown => 21,
        CommandFault::Kind => 22,
        CommandFault::Twice => 23,
        CommandFault::Empty => 24,
        CommandFault::TooMany => 25,
    }
}

/// Does what a line asks for, and gives its answer; a line without a command has none.
///
/// Where memory runs out the line is refused, and nothing changes.
fn answer_line<O: Outside>(
    alloc: Global,
    devices: &mut World,
    line: &[u8],
    out: &mut O,
) -> Option<Answer>
    ensures answers { LineAnswers devices.old.program line.now devices.old devices.new result (O.seen out.old) (O.seen out.new) }
    ensures program { devices.new.program ≡ devices.old.program }
    ensures ascends { IfSome result (λ a. AscendsWhereSet a) }
{
    match command(alloc, line, devices.program()) {
        Ok(None) => None,
        Ok(Some(command)) => Some(devices.step(out, command)),
        Err(fault) => Some(Answer::No(fault_code(fault))),
    }
}

/// The line of an answer. The one refusal is want of memory.
fn answer_text(alloc: Global, p: &Program, answer: &Answer) -> Result<Bytes, AllocError>
    requires { AscendsWhereSet answer.now }
    ensures { IfOk result (λ text. text.items ≡ said_of p.now (Some answer.now)) }
{
    let mut text = print_answer(alloc, p, answer)?;
    text.push(b'\n')?;
    Ok(text)
}

/// Does one line of a session, without its end, and says its answer whole.
///
/// docs/SESSION.md has the lines and their answers. A line that is refused changes nothing but what the code 33 tells of. A refusal of this
/// call says why the line, which was done, has no whole answer.
pub fn do_line<O: Outside>(
    alloc: Global,
    devices: &mut World,
    line: &[u8],
    out: &mut O,
) -> Result<(), SayFault>
    ensures program { devices.new.program ≡ devices.old.program }
    ensures does { LineGives devices.old.program line.now devices.old devices.new (O.seen out.old) (O.seen out.new) result }
{
    let Some(answer) = answer_line(alloc, devices, line, out) else {
        return Ok(());
    };
    let Ok(text) = answer_text(alloc, devices.program(), &answer) else {
        return Err(SayFault::Memory);
    };
    match say_all(out, text.as_slice()) {
        Ok(()) => Ok(()),
        Err(_) => Err(SayFault::Output),
    }
}
