//! Sessions over several devices, in memory.
ghost use Rattle.std.specs.Prelude.{◌≡◌, ◌<◌, ◌^◌, length, IfOk, OnOk};
ghost use Rattle.re_terms.specs.Programs.{IsProgram};

use crate::World;
use re_commands::command;
use re_fakes::{Fail as Failing, Files, MemoryWorld};
use re_outside::{Call, Outside};
use re_print::{print_answer, print_program};
use re_syntax::parse;
use re_terms::{Program, Seq, TryCopy};
use re_tokens::tokens;
use re_types::resolve;
use std::alloc::{AllocError, Global};
use std::process::Abort;
use std::test::Fail;

fn program(alloc: Global, text: &[u8]) -> Result<Program, Fail>
    requires { length text.now < 2 ^ 32 }
    ensures { IfOk result IsProgram }
{
    let tokens = tokens(alloc, text)?;
    let tree = parse(alloc, &tokens)?;
    Ok(resolve(alloc, tree)?)
}

/// Does these commands of a program and compares the answer to each.
fn told(
    rt: &impl Abort,
    alloc: Global,
    program: &Program,
    world: &mut World,
    out: &mut MemoryWorld,
    lines: &[(&[u8], &[u8])],
) -> Result<(), Fail>
    requires program { IsProgram program.now }
    requires same { world.old.program ≡ program.now }
    ensures same { OnOk result (world.new.program ≡ program.now) }
{
    for (line, wanted) in lines {
        let Ok(Some(asked)) = command(alloc, line, program) else {
            panic!(rt; "the line has no command");
        };
        let answer = world.step(out, asked);
        let said = print_answer(alloc, program, &answer)?;
        assert_eq!(rt; said.as_slice(), *wanted);
    }
    Ok(())
}

/// A world in memory without input, over blank files, in which these calls fail.
fn outside(alloc: Global, fails: Seq<Failing>) -> Result<MemoryWorld, AllocError> {
    let files = Files {
        list: Seq::new(alloc),
    };
    MemoryWorld::new(alloc, &[], files, fails)
}

/// Opens the devices of a program over blank files, where these calls fail, and compares the answer to each line.
fn session(
    rt: &impl Abort,
    alloc: Global,
    text: &[u8],
    fails: Seq<Failing>,
    lines: &[(&[u8], &[u8])],
) -> Result<(), Fail>
    requires { length text.now < 2 ^ 32 }
{
    let program = program(alloc, text)?;
    assert!(rt; print_program(alloc, &program)?.len() <= 65_536);
    let mut out = outside(alloc, fails)?;
    let Ok(mut world) = World::new(alloc, &mut out, program.copy(alloc)?) else {
        panic!(rt; "the devices aren't opened");
    };
    told(rt, alloc, &program, &mut world, &mut out, lines)
}

/// One call that fails.
fn failing(alloc: Global, call: Call, nth: u64, done: u32) -> Result<Seq<Failing>, AllocError> {
    let mut fails = Seq::new(alloc);
    fails.push(Failing { call, nth, done })?;
    Ok(fails)
}

#[test]
fn packets_go_between_devices(rt: HostRuntime) -> Result<(), Fail> {
    let alloc = rt.alloc();
    let lines: [(&[u8], &[u8]); 9] = [
        (b"turn a insert s 4", b"ok 1"),
        (b"turn b remove s 4", b"ok 1"),
        (b"send a", b"packet 0"),
        (b"send b", b"packet 1"),
        (b"deliver 0 b", b"ok 2"),
        (b"deliver 1 a", b"ok 2"),
        (b"get a s", b"{4}"),
        (b"get b s", b"{4}"),
        (
            b"hex 0",
            b"01000000000000000100000000000000000001000000000000000004000000000000000001",
        ),
    ];
    session(
        &rt,
        alloc,
        b"device a; device b; set s: int;",
        Seq::new(alloc),
        &lines,
    )?;
    let lines: [(&[u8], &[u8]); 9] = [
        (b"turn a add c 2", b"ok 1"),
        (b"send a", b"packet 0"),
        (b"turn a add c 3", b"ok 2"),
        (b"send a", b"packet 1"),
        (b"deliver 1 b", b"ok 1"),
        (b"deliver 1 b", b"ok 2"),
        (b"deliver 0 b", b"ok 3"),
        (b"get b c", b"5"),
        (b"get b n", b"1"),
    ];
    let text =
        b"device a; device b; counter c; event e = changed(c); fold n: int = 0 on e do self + 1;";
    session(&rt, alloc, text, Seq::new(alloc), &lines)?;
    let lines: [(&[u8], &[u8]); 8] = [
        (b"turn a write m 1", b"ok 1"),
        (b"turn b write m 2", b"ok 1"),
        (b"send a", b"packet 0"),
        (b"send b", b"packet 1"),
        (b"deliver 0 b", b"ok 2"),
        (b"deliver 1 a", b"ok 2"),
        (b"get a m", b"2"),
        (b"get b m", b"2"),
    ];
    session(
        &rt,
        alloc,
        b"device a; device b; register m: int = 0;",
        Seq::new(alloc),
        &lines,
    )
}

#[test]
fn a_crash_drops_what_is_unsettled(rt: HostRuntime) -> Result<(), Fail> {
    let alloc = rt.alloc();
    let lines: [(&[u8], &[u8]); 9] = [
        (b"lazy a add c 5", b"applied 1"),
        (b"send a", b"packet 0"),
        (b"crash a", b"down"),
        (b"restart a", b"up 0"),
        (b"turn a add c 7", b"ok 1"),
        (b"send a", b"packet 1"),
        (b"get a c", b"7"),
        (
            b"hex 0",
            b"01000000000000000000000000000000000000000000000000",
        ),
        (
            b"hex 1",
            b"01000000000000000100000000000000070000000000000000",
        ),
    ];
    session(&rt, alloc, b"device a; counter c;", Seq::new(alloc), &lines)?;
    let lines: [(&[u8], &[u8]); 11] = [
        (b"lazy a add c 1", b"applied 1"),
        (b"lazy a add c 1", b"applied 2"),
        (b"lazy a add c 1", b"applied 3"),
        (b"lazy a add c 1", b"applied 4"),
        (b"lazy a add c 1", b"applied 5"),
        (b"lazy a add c 1", b"applied 6"),
        (b"lazy a add c 1", b"applied 7"),
        (b"lazy a add c 1", b"applied 8"),
        (b"lazy a add c 1", b"no 38"),
        (b"settle a", b"settled 8"),
        (b"lazy a add c 1", b"applied 9"),
    ];
    session(&rt, alloc, b"device a; counter c;", Seq::new(alloc), &lines)
}

#[test]
fn what_is_refused_changes_nothing(rt: HostRuntime) -> Result<(), Fail> {
    let alloc = rt.alloc();
    let lines: [(&[u8], &[u8]); 5] = [
        (b"deliver 0 b", b"no 28"),
        (b"restart a", b"no 27"),
        (b"crash b", b"down"),
        (b"crash b", b"no 26"),
        (b"get a x", b"0"),
    ];
    session(
        &rt,
        alloc,
        b"device a; device b; var x: int = 0; counter c;",
        Seq::new(alloc),
        &lines,
    )
}

#[test]
fn what_takes_no_room_stays(rt: HostRuntime) -> Result<(), Fail> {
    let alloc = rt.alloc();
    let lines: [(&[u8], &[u8]); 4] = [
        (b"turn a insert s 4, remove s 4", b"ok 1"),
        (b"get a s", b"{}"),
        (b"send a", b"packet 0"),
        (b"hex 0", b"0100000000000000020000"),
    ];
    session(
        &rt,
        alloc,
        b"device a; set s: int;",
        Seq::new(alloc),
        &lines,
    )?;
    let lines: [(&[u8], &[u8]); 5] = [
        (b"turn a add c 9223372036854775807", b"ok 1"),
        (b"turn b add c 9223372036854775807", b"ok 1"),
        (b"send a", b"packet 0"),
        (b"deliver 0 b", b"ok 2"),
        (b"get b c", b"fault 1"),
    ];
    session(
        &rt,
        alloc,
        b"device a; device b; counter c;",
        Seq::new(alloc),
        &lines,
    )
}

#[test]
fn calls_of_the_disk_that_fail(rt: HostRuntime) -> Result<(), Fail> {
    let alloc = rt.alloc();
    let text = b"device a; var x: int = 0;";
    let table: [(Call, u64, u32, &[u8], &[u8], &[u8]); 5] = [
        (Call::Write, 4, 0, b"no 34 at 1", b"up 0", b"0"),
        (Call::Sync, 6, 0, b"no 34 at 2", b"up 0", b"0"),
        (Call::Write, 5, 0, b"no 34 at 3", b"up 0", b"0"),
        (Call::Write, 5, 1, b"no 34 at 3", b"up 1", b"5"),
        (Call::Sync, 7, 0, b"no 34 at 4", b"up 1", b"5"),
    ];
    for (call, nth, done, stopped, up, word) in table {
        let lines: [(&[u8], &[u8]); 5] = [
            (b"turn a x = 5", b"no 33"),
            (b"turn a x = 6", stopped),
            (b"crash a", b"down"),
            (b"restart a", up),
            (b"get a x", word),
        ];
        session(&rt, alloc, text, failing(alloc, call, nth, done)?, &lines)?;
    }
    let lines: [(&[u8], &[u8]); 5] = [
        (b"turn a x = 5", b"ok 1"),
        (b"crash a", b"down"),
        (b"restart a", b"no 33"),
        (b"restart a", b"up 1"),
        (b"get a x", b"5"),
    ];
    session(&rt, alloc, text, failing(alloc, Call::Sync, 8, 0)?, &lines)
}

#[test]
fn refusals_come_in_their_order(rt: HostRuntime) -> Result<(), Fail> {
    let alloc = rt.alloc();
    let lines: [(&[u8], &[u8]); 16] = [
        (b"turn a add c 1", b"ok 1"),
        (b"send a", b"packet 0"),
        (b"crash b", b"down"),
        (b"deliver 1 b", b"no 28"),
        (b"deliver 0 b", b"no 26"),
        (b"turn b add c 1", b"no 26"),
        (b"lazy b add c 1", b"no 26"),
        (b"settle b", b"no 26"),
        (b"get b c", b"no 26"),
        (b"send b", b"no 26"),
        (b"crash b", b"no 26"),
        (b"hex 1", b"no 28"),
        (b"restart a", b"no 27"),
        (b"restart b", b"up 0"),
        (b"deliver 0 b", b"ok 1"),
        (b"get b c", b"1"),
    ];
    session(
        &rt,
        alloc,
        b"device a; device b; counter c;",
        Seq::new(alloc),
        &lines,
    )
}

#[test]
fn a_stopped_device_refuses(rt: HostRuntime) -> Result<(), Fail> {
    let alloc = rt.alloc();
    let lines: [(&[u8], &[u8]); 13] = [
        (b"send b", b"packet 0"),
        (b"turn a x = 5", b"no 33"),
        (b"turn a x = 6", b"no 34 at 1"),
        (b"lazy a x = 6", b"no 34 at 1"),
        (b"settle a", b"no 34 at 1"),
        (b"get a x", b"no 34 at 1"),
        (b"send a", b"no 34 at 1"),
        (b"deliver 0 a", b"no 34 at 1"),
        (b"turn b x = 1", b"ok 1"),
        (b"restart a", b"no 27"),
        (b"crash a", b"down"),
        (b"restart a", b"up 0"),
        (b"turn a x = 7", b"ok 1"),
    ];
    let fails = failing(alloc, Call::Write, 7, 0)?;
    let text = b"device a; device b; var x: int = 0;";
    session(&rt, alloc, text, fails, &lines)?;
    let lines: [(&[u8], &[u8]); 5] = [
        (b"lazy a x = 5", b"applied 1"),
        (b"settle a", b"no 33"),
        (b"settle a", b"no 34 at 3"),
        (b"crash a", b"down"),
        (b"restart a", b"up 0"),
    ];
    let fails = failing(alloc, Call::Write, 5, 0)?;
    let text = b"device a; var x: int = 0;";
    session(&rt, alloc, text, fails, &lines)
}

/// The third write of turns fails: it is numbered from where the device was opened last.
#[test]
fn calls_are_numbered_from_the_opening(rt: HostRuntime) -> Result<(), Fail> {
    let alloc = rt.alloc();
    let text = b"device a; var x: int = 0;";
    let lines: [(&[u8], &[u8]); 3] = [
        (b"turn a x = 1", b"ok 1"),
        (b"turn a x = 2", b"no 33"),
        (b"turn a x = 3", b"no 34 at 5"),
    ];
    let fails = failing(alloc, Call::Write, 6, 0)?;
    session(&rt, alloc, text, fails, &lines)?;
    let lines: [(&[u8], &[u8]); 7] = [
        (b"turn a x = 1", b"ok 1"),
        (b"crash a", b"down"),
        (b"restart a", b"up 1"),
        (b"turn a x = 2", b"no 33"),
        (b"turn a x = 3", b"no 34 at 1"),
        (b"crash a", b"down"),
        (b"restart a", b"up 1"),
    ];
    let fails = failing(alloc, Call::Write, 6, 0)?;
    session(&rt, alloc, text, fails, &lines)
}

/// A device over blank files is crashed, a byte of its first file is changed, and it is restarted.
fn restarted(rt: &impl Abort, alloc: Global, at: u64, byte: u8, wanted: &[u8]) -> Result<(), Fail> {
    let program = program(alloc, b"device a; var x: int = 0;")?;
    assert!(rt; print_program(alloc, &program)?.len() <= 65_536);
    let mut out = outside(alloc, Seq::new(alloc))?;
    let Ok(mut world) = World::new(alloc, &mut out, program.copy(alloc)?) else {
        panic!(rt; "the devices aren't opened");
    };
    told(
        rt,
        alloc,
        &program,
        &mut world,
        &mut out,
        &[(b"crash a", b"down")],
    )?;
    assert!(rt; out.write(0, 0, at, &[byte]).is_ok());
    told(
        rt,
        alloc,
        &program,
        &mut world,
        &mut out,
        &[(b"restart a", wanted)],
    )
}

#[test]
fn a_changed_store_is_refused(rt: HostRuntime) -> Result<(), Fail> {
    let rows: [(u64, u8, &[u8]); 4] = [
        (13, 9, b"no 37 file 0 at 13"),
        (14, 1, b"no 37 file 0 at 14"),
        (41, b'y', b"no 39"),
        (66, 7, b"up 0"),
    ];
    for (at, byte, wanted) in rows {
        restarted(&rt, rt.alloc(), at, byte, wanted)?;
    }
    Ok(())
}

/// Does a command so many times, and compares the last answer.
fn repeated(
    rt: &impl Abort,
    alloc: Global,
    program: &Program,
    world: &mut World,
    out: &mut MemoryWorld,
    row: (&[u8], u16, &[u8]),
) -> Result<(), Fail>
    requires program { IsProgram program.now }
    requires same { world.old.program ≡ program.now }
    ensures same { OnOk result (world.new.program ≡ program.now) }
{
    let (line, times, wanted) = row;
    for time in 1..=times {
        let Ok(Some(asked)) = command(alloc, line, program) else {
            panic!(rt; "the line has no command");
        };
        let answer = world.step(out, asked);
        if time == times {
            let said = print_answer(alloc, program, &answer)?;
            assert_eq!(rt; said.as_slice(), wanted);
        }
    }
    Ok(())
}

/// Does each of these commands so many times.
fn all_repeated(
    rt: &impl Abort,
    alloc: Global,
    program: &Program,
    world: &mut World,
    out: &mut MemoryWorld,
    rows: &[(&[u8], u16, &[u8])],
) -> Result<(), Fail>
    requires program { IsProgram program.now }
    requires same { world.old.program ≡ program.now }
{
    for (line, times, wanted) in rows {
        repeated(rt, alloc, program, world, out, (*line, *times, *wanted))?;
    }
    Ok(())
}

#[test]
fn entries_and_packets_have_a_greatest_count(rt: HostRuntime) -> Result<(), Fail> {
    let alloc = rt.alloc();
    let program = program(alloc, b"device a; device b; var x: int = 0;")?;
    assert!(rt; print_program(alloc, &program)?.len() <= 65_536);
    let mut out = outside(alloc, Seq::new(alloc))?;
    let Ok(mut world) = World::new(alloc, &mut out, program.copy(alloc)?) else {
        panic!(rt; "the devices aren't opened");
    };
    let rows: [(&[u8], u16, &[u8]); 9] = [
        (b"send b", 10_000, b"packet 9999"),
        (b"send b", 1, b"no 35"),
        (b"turn a x = 1", 4_096, b"ok 4096"),
        (b"turn a x = 1", 1, b"no 29"),
        (b"lazy a x = 1", 1, b"no 29"),
        (b"deliver 9999 a", 1, b"no 29"),
        (b"crash a", 1, b"down"),
        (b"restart a", 1, b"up 4096"),
        (b"turn a x = 1", 1, b"ok 4097"),
    ];
    all_repeated(&rt, alloc, &program, &mut world, &mut out, &rows)
}
