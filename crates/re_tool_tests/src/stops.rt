//! A stop behind each step of a whole script: what further runs find then.
use crate::running::{called, no_files, run_over, said_in, world_of};
use crate::sessions::HALL;
use re_fakes::{Choice, Files, MemoryWorld};
use std::alloc::{AllocError, Global};
use std::sync::Wait;
use std::test::Fail;
use std::thread::Threads;

/// An input whose session's lines have an answer each, how many lines its program part has with the separator, and lines
/// that ask for all that its devices hold.
struct Script {
    input: &'static [u8],
    program: usize,
    looks: &'static [u8],
}

const CHOICES: [Choice; 4] = [Choice::Stable, Choice::Read, Choice::Sevens, Choice::Ones];

const SCRIPTS: [Script; 2] = [
    Script {
        input: HALL,
        program: 20,
        looks: b"get hall temp\nget hall edges\nget hall sum\nget hall count\nget hall mean\nget hall alarm\nget hall busy\nget hall visits\nget hall todo\nget hall mode\nget attic temp\nget attic visits\nget attic todo\nget attic mode\nget cellar visits\nget cellar todo\nget cellar mode\nsend hall\nhex 0\nsend attic\nhex 1\nsend cellar\nhex 2\n",
    },
    Script {
        input: b"device a; device b; set s: int;\n---\nturn a insert s 4\nturn b remove s 4\nsend a\nsend b\ndeliver 0 b\ndeliver 1 a\nlazy a insert s 5\nlazy a remove s 4\nsettle a\nsend a\ndeliver 2 b\n",
        program: 2,
        looks: b"get a s\nget b s\nsend a\nhex 0\nsend b\nhex 1\n",
    },
];

/// How many bytes the first lines of a text have.
fn front_len(text: &[u8], lines: usize) -> usize {
    let mut count: usize = 0;
    for (place, byte) in text.iter().enumerate() {
        if count == lines {
            return place;
        }
        if *byte == b'\n' {
            count = count.saturating_add(1);
        }
    }
    text.len()
}

/// How many line ends a text has.
fn count_lines(text: &[u8]) -> usize {
    text.iter().filter(|byte| **byte == b'\n').count()
}

/// The program part of a script, and the first lines of its session.
fn first_lines(alloc: Global, script: &Script, count: usize) -> Result<Vec<u8>, AllocError> {
    let length = front_len(script.input, script.program.saturating_add(count));
    let length = length.min(script.input.len());
    script.input[..length].to_vec(alloc)
}

/// What the devices hold over these files.
fn looked(
    rt: &(impl Threads + Wait + Sync),
    alloc: Global,
    script: &Script,
    files: Files,
) -> Result<Vec<u8>, AllocError> {
    let mut input = first_lines(alloc, script, 0)?;
    input.extend_from_slice(script.looks)?;
    Ok(run_over(rt, alloc, &input, files)?.said)
}

/// The world behind the first lines of a session.
fn world_behind(
    rt: &(impl Threads + Wait + Sync),
    alloc: Global,
    script: &Script,
    lines: usize,
) -> Result<MemoryWorld, AllocError> {
    let input = first_lines(alloc, script, lines)?;
    let world = world_of(alloc, &input, no_files(alloc), &[])?;
    Ok(called(rt, alloc, &["run"], world)?.1)
}

/// What the devices hold behind the first lines of a session that isn't stopped.
fn held_behind(
    rt: &(impl Threads + Wait + Sync),
    alloc: Global,
    script: &Script,
    lines: usize,
) -> Result<Vec<u8>, AllocError> {
    let world = world_behind(rt, alloc, script, lines)?;
    let end = world.trace().len() as u64;
    match world.stop_at(end, Choice::Stable)? {
        Some(files) => looked(rt, alloc, script, files),
        None => Err(AllocError),
    }
}

/// What the devices hold behind each front of a session.
fn table(
    rt: &(impl Threads + Wait + Sync),
    alloc: Global,
    script: &Script,
) -> Result<Vec<Vec<u8>>, AllocError> {
    let mut rows = Vec::new(alloc);
    let lines = count_lines(script.input).saturating_sub(script.program);
    for count in 0..=lines {
        rows.push(held_behind(rt, alloc, script, count)?)?;
    }
    Ok(rows)
}

/// Whether a stop behind so many steps leaves what the answered lines left, or what these and the next one did.
fn loses_nothing(
    rt: &(impl Threads + Wait + Sync),
    alloc: Global,
    script: &Script,
    rows: &[Vec<u8>],
    answered: usize,
    files: Files,
) -> Result<bool, AllocError> {
    let found = looked(rt, alloc, script, files)?;
    let is = |row: Option<&Vec<u8>>| row.is_some_and(|held| held.as_slice() == found.as_slice());
    Ok(is(rows.get(answered)) || is(rows.get(answered.saturating_add(1))))
}

/// The first of the choices with which a stop behind so many steps loses something.
fn first_loss_at(
    rt: &(impl Threads + Wait + Sync),
    alloc: Global,
    script: &Script,
    rows: &[Vec<u8>],
    world: &MemoryWorld,
    stop: u64,
) -> Result<Option<Choice>, AllocError> {
    let trace = world.trace().as_slice();
    let steps = trace.len().min(stop as usize);
    let answered = count_lines(&said_in(alloc, &trace[..steps])?);
    for choice in CHOICES.iter() {
        let Some(files) = world.stop_at(stop, *choice)? else {
            return Ok(Some(*choice));
        };
        if !loses_nothing(rt, alloc, script, rows, answered, files)? {
            return Ok(Some(*choice));
        }
    }
    Ok(None)
}

/// The first step of a script behind which a stop loses something, and how many steps it has.
fn first_loss(
    rt: &(impl Threads + Wait + Sync),
    alloc: Global,
    script: &Script,
) -> Result<(Option<u64>, usize), AllocError> {
    let rows = table(rt, alloc, script)?;
    let world = world_behind(rt, alloc, script, rows.len())?;
    let steps = world.trace().len();
    for stop in 0..=steps as u64 {
        if first_loss_at(rt, alloc, script, &rows, &world, stop)?.is_some() {
            return Ok((Some(stop), steps));
        }
    }
    Ok((None, steps))
}

#[test]
fn a_stop_loses_no_answered_line(rt: HostRuntime) -> Result<(), Fail> {
    for script in SCRIPTS.iter() {
        let (loss, steps) = first_loss(&rt, rt.alloc(), script)?;
        assert_eq!(rt; loss, None);
        assert!(rt; steps > 40);
    }
    Ok(())
}
