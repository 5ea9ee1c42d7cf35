//! The steps of a run, what a stop behind each leaves, and further runs over what was left.
use crate::running::{called, files_of, no_files, run_over, world_of};
use re_fakes::{Choice, Files};
use re_outside::{Call, Step};
use re_terms::TryCopy;
use re_tool::Status;
use std::alloc::{AllocError, Global};
use std::sync::Wait;
use std::test::Fail;
use std::thread::Threads;

/// A turn of a device with one var.
const TURN: &[u8] = b"device a; var x: int = 0;\n---\nturn a x = 5\n";

/// The snapshot of that program before any entry, with its length and a closed gate behind it.
pub const SNAPSHOT: &[u8] =
    b"\0\0\0\x46\0\0\0\0\0\0\0\x01\x01\0\0\0\0\0\0\0\0\0\0\0\0\x1fdevice a;\nvar x: int = 0 in 1;\n\0\0\0\0\0\0\0\0\0\0\0\0\0\0\0\0\0\0";

/// The record of the turn, with its length and a closed gate behind it.
pub const RECORD: &[u8] =
    b"\0\0\0\x1d\x01\0\x01\0\x01\0\0\0\0\0\0\0\0\x05\0\0\0\x01\0\x01\0\0\0\0\0\0\0\0\x05\0";

/// The file that the turn leaves.
pub const FILE: &[u8] =
    b"\x01\0\0\0\x46\0\0\0\0\0\0\0\x01\x01\0\0\0\0\0\0\0\0\0\0\0\0\x1fdevice a;\nvar x: int = 0 in 1;\n\0\0\0\0\0\0\0\0\0\0\0\0\0\0\0\0\0\x01\0\0\0\x1d\x01\0\x01\0\x01\0\0\0\0\0\0\0\0\x05\0\0\0\x01\0\x01\0\0\0\0\0\0\0\0\x05\0";

/// A step of device 0: a call, its file, its place and its bytes.
struct Seen {
    call: Call,
    file: u8,
    at: u64,
    bytes: &'static [u8],
}

/// The steps of the turn over files that hold nothing.
const STEPS: [Seen; 13] = [
    Seen {
        call: Call::Sync,
        file: 0,
        at: 0,
        bytes: b"",
    },
    Seen {
        call: Call::Sync,
        file: 1,
        at: 0,
        bytes: b"",
    },
    Seen {
        call: Call::Write,
        file: 0,
        at: 0,
        bytes: b"\0",
    },
    Seen {
        call: Call::Sync,
        file: 0,
        at: 0,
        bytes: b"",
    },
    Seen {
        call: Call::Write,
        file: 0,
        at: 1,
        bytes: SNAPSHOT,
    },
    Seen {
        call: Call::Sync,
        file: 0,
        at: 0,
        bytes: b"",
    },
    Seen {
        call: Call::Write,
        file: 0,
        at: 0,
        bytes: b"\x01",
    },
    Seen {
        call: Call::Sync,
        file: 0,
        at: 0,
        bytes: b"",
    },
    Seen {
        call: Call::Write,
        file: 0,
        at: 76,
        bytes: RECORD,
    },
    Seen {
        call: Call::Sync,
        file: 0,
        at: 0,
        bytes: b"",
    },
    Seen {
        call: Call::Write,
        file: 0,
        at: 75,
        bytes: b"\x01",
    },
    Seen {
        call: Call::Sync,
        file: 0,
        at: 0,
        bytes: b"",
    },
    Seen {
        call: Call::Say,
        file: 0,
        at: 0,
        bytes: b"ok 1\n",
    },
];

/// Whether a step is this one.
fn is_seen(step: &Step, seen: &Seen) -> bool {
    match step {
        Step::Write {
            device,
            file,
            at,
            bytes,
        } => {
            seen.call == Call::Write
                && *device == 0
                && *file == seen.file
                && *at == seen.at
                && bytes.as_slice() == seen.bytes
        }
        Step::Sync { device, file } => seen.call == Call::Sync
            && *device == 0
            && *file == seen.file,
        Step::Say { bytes } => seen.call == Call::Say && bytes.as_slice() == seen.bytes,
        _ => false,
    }
}

/// The place of the first step that isn't the one of the list.
fn first_other(steps: &[Step]) -> Option<usize> {
    for (place, (step, seen)) in steps.iter().zip(STEPS.iter()).enumerate() {
        if !is_seen(step, seen) {
            return Some(place);
        }
    }
    None
}

/// Whether the turn has these steps over files that hold nothing, and leaves the file.
fn has_steps(rt: &(impl Threads + Wait + Sync), alloc: Global) -> Result<bool, AllocError> {
    let world = world_of(alloc, TURN, no_files(alloc), &[])?;
    let (_, world) = called(rt, alloc, &["run"], world)?;
    Ok(world.trace().len() == 13 && first_other(world.trace().as_slice()).is_none())
}

#[test]
fn a_turn_has_these_steps(rt: HostRuntime) -> Result<(), Fail> {
    assert!(rt; has_steps(&rt, rt.alloc())?);
    Ok(())
}

/// The files that a run over this input and files that hold nothing leaves.
pub fn left(
    rt: &(impl Threads + Wait + Sync),
    alloc: Global,
    input: &[u8],
) -> Result<Files, AllocError> {
    let world = world_of(alloc, input, no_files(alloc), &[])?;
    let (_, world) = called(rt, alloc, &["run"], world)?;
    world.files().copy(alloc)
}

#[test]
fn a_turn_leaves_this_file(rt: HostRuntime) -> Result<(), Fail> {
    let files = left(&rt, rt.alloc(), TURN)?;
    assert_eq!(rt; files.bytes(0, 0).len(), 110);
    assert_eq!(rt; files.bytes(0, 0), FILE);
    assert_eq!(rt; files.bytes(0, 1).len(), 0);
    Ok(())
}

/// Lines that tell what a device was opened with.
const LOOK: &[u8] = b"device a; var x: int = 0;\n---\nget a x\ncrash a\nrestart a\n";

/// What they say of a device without entries.
const NOTHING: &[u8] = b"0\ndown\nup 0\n";

/// What they say behind the turn.
const TURNED: &[u8] = b"5\ndown\nup 1\n";

/// A count of steps, a choice, and what the lines say of what a stop behind these steps leaves by it.
struct Stop {
    steps: u64,
    choice: Choice,
    said: &'static [u8],
}

const STOPS: [Stop; 10] = [
    Stop {
        steps: 10,
        choice: Choice::Stable,
        said: NOTHING,
    },
    Stop {
        steps: 10,
        choice: Choice::Read,
        said: NOTHING,
    },
    Stop {
        steps: 10,
        choice: Choice::Sevens,
        said: NOTHING,
    },
    Stop {
        steps: 10,
        choice: Choice::Ones,
        said: NOTHING,
    },
    Stop {
        steps: 11,
        choice: Choice::Read,
        said: TURNED,
    },
    Stop {
        steps: 11,
        choice: Choice::Sevens,
        said: NOTHING,
    },
    Stop {
        steps: 12,
        choice: Choice::Stable,
        said: TURNED,
    },
    Stop {
        steps: 12,
        choice: Choice::Read,
        said: TURNED,
    },
    Stop {
        steps: 12,
        choice: Choice::Sevens,
        said: TURNED,
    },
    Stop {
        steps: 12,
        choice: Choice::Ones,
        said: TURNED,
    },
];

/// What a stop behind so many steps leaves of the files of a run over this input and files that hold nothing.
pub fn left_at(
    rt: &(impl Threads + Wait + Sync),
    alloc: Global,
    input: &[u8],
    steps: u64,
    choice: Choice,
) -> Result<Option<Files>, AllocError> {
    let world = world_of(alloc, input, no_files(alloc), &[])?;
    let (_, world) = called(rt, alloc, &["run"], world)?;
    world.stop_at(steps, choice)
}

/// Whether the lines say over what is left of files what they say of a stop.
fn says(
    rt: &(impl Threads + Wait + Sync),
    alloc: Global,
    files: Option<Files>,
    stop: &Stop,
) -> Result<bool, AllocError> {
    match files {
        Some(files) => Ok(run_over(rt, alloc, LOOK, files)?.is(Status::Done, stop.said)),
        None => Ok(false),
    }
}

/// The place of the first stop that leaves something else.
fn first_lost(
    rt: &(impl Threads + Wait + Sync),
    alloc: Global,
    stops: &[Stop],
) -> Result<Option<usize>, AllocError> {
    for (place, stop) in stops.iter().enumerate() {
        let files = left_at(rt, alloc, TURN, stop.steps, stop.choice)?;
        if !says(rt, alloc, files, stop)? {
            return Ok(Some(place));
        }
    }
    Ok(None)
}

#[test]
fn a_stop_leaves_a_turn_whole_or_not_at_all(rt: HostRuntime) -> Result<(), Fail> {
    assert_eq!(rt; first_lost(&rt, rt.alloc(), &STOPS)?, None);
    let files = left_at(&rt, rt.alloc(), TURN, 14, Choice::Read)?;
    assert!(rt; files.is_none());
    Ok(())
}

#[test]
fn a_run_goes_on_behind_a_stop(rt: HostRuntime) -> Result<(), Fail> {
    let files = left_at(&rt, rt.alloc(), TURN, 11, Choice::Sevens)?.ok_or("no stop")?;
    assert_eq!(rt; files.bytes(0, 0).get(75), Some(&7));
    let input = b"device a; var x: int = 0;\n---\nturn a x = 6\ncrash a\nrestart a\nget a x\n";
    let said = b"ok 1\ndown\nup 1\n6\n";
    assert!(rt; run_over(&rt, rt.alloc(), input, files)?.is(Status::Done, said));
    Ok(())
}

#[test]
fn a_second_run_finds_what_the_first_left(rt: HostRuntime) -> Result<(), Fail> {
    let files = left(&rt, rt.alloc(), TURN)?;
    let input = b"device a; var x: int = 0;\n---\nget a x\n";
    assert!(rt; run_over(&rt, rt.alloc(), input, files)?.is(Status::Done, b"5\n"));
    let files = files_of(rt.alloc(), &[FILE])?;
    assert!(rt; run_over(&rt, rt.alloc(), LOOK, files)?.is(Status::Done, TURNED));
    Ok(())
}
