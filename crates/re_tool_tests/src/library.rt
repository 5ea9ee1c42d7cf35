//! Devices and sessions in the hands of other code.
ghost use Rattle.std.specs.Prelude.{◌<◌, ◌^◌, length, IfSome};
ghost use Rattle.re_terms.specs.Programs.{IsProgram};

use crate::running::said_in;
use re_fakes::{Files, MemoryWorld};
use re_print::print_program;
use re_session::do_line;
use re_syntax::parse;
use re_terms::{Program, Seq};
use re_tokens::tokens;
use re_tool::{Job, Status, session};
use re_types::resolve;
use re_world::World;
use std::alloc::{AllocError, Global};
use std::test::Fail;

/// A world in memory with this input, over files that hold nothing, in which no call fails.
fn in_memory(alloc: Global, input: &[u8]) -> Result<MemoryWorld, AllocError> {
    let files = Files {
        list: Seq::new(alloc),
    };
    MemoryWorld::new(alloc, input, files, Seq::new(alloc))
}

/// The program in a text.
fn program_of(alloc: Global, text: &[u8]) -> Option<Program>
    requires { length text.now < 2 ^ 32 }
    ensures { IfSome result IsProgram }
{
    let tokens = tokens(alloc, text).ok()?;
    let tree = parse(alloc, &tokens).ok()?;
    resolve(alloc, tree).ok()
}

/// The devices of a program over the files of an outside.
fn opened(alloc: Global, program: Program, out: &mut MemoryWorld) -> Option<World>
    requires { IsProgram program }
{
    if print_program(alloc, &program).ok()?.len() > 65_536 {
        return None;
    }
    World::new(alloc, out, program).ok()
}

/// Does these lines in order, each with its answer; none where one couldn't be said.
fn do_lines(
    alloc: Global,
    devices: &mut World,
    lines: &[&[u8]],
    out: &mut MemoryWorld,
) -> Option<()> {
    for line in lines {
        do_line(alloc, devices, *line, out).ok()?;
    }
    Some(())
}

/// What the devices of the program in a text answer to these lines, over files that hold nothing.
fn answers(alloc: Global, text: &[u8], lines: &[&[u8]]) -> Option<Vec<u8>>
    requires { length text.now < 2 ^ 32 }
{
    let program = program_of(alloc, text)?;
    let mut out = in_memory(alloc, &[]).ok()?;
    let mut devices = opened(alloc, program, &mut out)?;
    do_lines(alloc, &mut devices, lines, &mut out)?;
    said_in(alloc, out.trace().as_slice()).ok()
}

#[test]
fn devices_take_lines(rt: HostRuntime) -> Result<(), Fail> {
    let text = b"device a; device b; counter c; signal s = c * 2;";
    let lines: [&[u8]; 4] = [
        b"turn a add c 5, add c -2",
        b"send a",
        b"deliver 0 b",
        b"get b s",
    ];
    let said = answers(rt.alloc(), text, &lines).ok_or("no answers")?;
    assert_eq!(rt; said.as_slice(), b"ok 1\npacket 0\nok 1\n6\n".as_slice());
    let text = b"device a; var x: int = 2; signal s = x + 3;";
    let said = answers(rt.alloc(), text, &[b"turn a x = 5", b"get a s"]).ok_or("no answers")?;
    assert_eq!(rt; said.as_slice(), b"ok 1\n8\n".as_slice());
    Ok(())
}

/// How a session over these bytes ends, and the world behind it.
fn run_in_memory(alloc: Global, input: &[u8]) -> Result<(Status, MemoryWorld), AllocError> {
    let mut world = in_memory(alloc, input)?;
    let status = session(alloc, &Job::Run, &mut world);
    Ok((status, world))
}

#[test]
fn a_session_runs_in_memory(rt: HostRuntime) -> Result<(), Fail> {
    let input = b"device a; var x: int = 2; signal s = x + 3;\n---\nturn a x = 5\nget a s\n";
    let (status, world) = run_in_memory(rt.alloc(), input)?;
    assert_eq!(rt; status, Status::Done);
    let said = said_in(rt.alloc(), world.trace().as_slice())?;
    assert_eq!(rt; said.as_slice(), b"ok 1\n8\n".as_slice());
    Ok(())
}
