//! Runs that reach a limit, or are long.
use crate::running::{job, run_over};
use crate::steps::{left, left_at};
use re_fakes::{Choice, Files};
use re_tool::Status;
use std::alloc::{AllocError, Global};
use std::sync::Wait;
use std::test::Fail;
use std::thread::Threads;

/// A turn with so many times the same part.
fn repeated(alloc: Global, part: &[u8], count: usize) -> Result<Vec<u8>, AllocError> {
    let mut line = b"turn a ".to_vec(alloc)?;
    line.extend_from_slice(part)?;
    for _ in 1..count {
        line.extend_from_slice(b", ")?;
        line.extend_from_slice(part)?;
    }
    line.push(b'\n')?;
    Ok(line)
}

#[test]
fn a_turn_has_64_parts_at_most(rt: HostRuntime) -> Result<(), Fail> {
    let mut input =
        b"device a; device b; symbol red; var x: int = 0; event e: int; signal s = x; event d = changed(s); counter c;\n---\n".to_vec(
            rt.alloc(),
        )?;
    input.extend_from_slice(&repeated(rt.alloc(), b"add c 1", 65)?)?;
    input.extend_from_slice(&repeated(rt.alloc(), b"add c 1", 64)?)?;
    input.extend_from_slice(b"get a c\n")?;
    assert!(rt; job(&rt, rt.alloc(), "run", &input)?.is(Status::Done, b"no 25\nok 1\n64\n"));
    Ok(())
}

/// A turn that inserts the 64 numbers from this one on.
fn inserts_from(alloc: Global, first: u32) -> Result<Vec<u8>, AllocError> {
    let front = format!(in alloc; "turn a insert s {first}")?;
    let mut line = front.as_bytes().to_vec(alloc)?;
    for n in 1u32..64 {
        let part = format!(in alloc; ", insert s {}", first.saturating_add(n))?;
        line.extend_from_slice(part.as_bytes())?;
    }
    line.push(b'\n')?;
    Ok(line)
}

/// 16 turns that insert the numbers from 0 to 1,023.
fn full_set(alloc: Global) -> Result<Vec<u8>, AllocError> {
    let mut input = b"device a; counter c; set s: int; signal n = size(s);\n---\n".to_vec(alloc)?;
    for turn in 0u32..16 {
        input.extend_from_slice(&inserts_from(alloc, turn.saturating_mul(64))?)?;
    }
    Ok(input)
}

/// The answers `ok 1` and so on.
fn entered(alloc: Global, count: u32) -> Result<Vec<u8>, AllocError> {
    let mut answers = Vec::new(alloc);
    for n in 1..=count {
        let answer = format!(in alloc; "ok {n}\n")?;
        answers.extend_from_slice(answer.as_bytes())?;
    }
    Ok(answers)
}

#[test]
fn a_full_set_takes_no_more(rt: HostRuntime) -> Result<(), Fail> {
    let mut input = full_set(rt.alloc())?;
    input.extend_from_slice(b"turn a insert s 1024\nturn a insert s 5\nget a n\n")?;
    let mut said = entered(rt.alloc(), 16)?;
    said.extend_from_slice(b"no 30\nok 17\n1024\n")?;
    assert!(rt; job(&rt, rt.alloc(), "run", &input)?.is(Status::Done, &said));
    Ok(())
}

/// A program with a chain of signals, each twice the one before it.
fn chain(alloc: Global) -> Result<Vec<u8>, AllocError> {
    let mut input = b"device a; var x: int = 1; signal s0 = x + x;\n".to_vec(alloc)?;
    for n in 0u32..400 {
        let line = format!(in alloc; "signal s{} = s{n} + s{n};\n", n + 1)?;
        input.extend_from_slice(line.as_bytes())?;
    }
    Ok(input)
}

#[test]
fn each_signal_is_evaluated_once(rt: HostRuntime) -> Result<(), Fail> {
    let mut input = chain(rt.alloc())?;
    input.extend_from_slice(b"---\nget a s61\nget a s62\nget a s400\nturn a x = 0\nget a s400\n")?;
    let said = b"4611686018427387904\nfault 1\nfault 1\nok 1\n0\n";
    assert!(rt; job(&rt, rt.alloc(), "run", &input)?.is(Status::Done, said));
    Ok(())
}

/// The turns `x = 1` and so on, and further lines.
fn turns(alloc: Global, count: u32, lines: &[u8]) -> Result<Vec<u8>, AllocError> {
    let mut input = b"device a; var x: int = 0;\n---\n".to_vec(alloc)?;
    for n in 1..=count {
        let line = format!(in alloc; "turn a x = {n}\n")?;
        input.extend_from_slice(line.as_bytes())?;
    }
    input.extend_from_slice(lines)?;
    Ok(input)
}

#[test]
fn a_full_device_takes_no_more(rt: HostRuntime) -> Result<(), Fail> {
    let input = turns(rt.alloc(), 4_096, b"turn a x = 7\nget a x\n")?;
    let mut said = entered(rt.alloc(), 4_096)?;
    said.extend_from_slice(b"no 29\n4096\n")?;
    assert!(rt; job(&rt, rt.alloc(), "run", &input)?.is(Status::Done, &said));
    Ok(())
}

/// Whether the files of device 0 are so long.
fn has_lengths(files: &Files, first: usize, second: usize) -> bool {
    files.bytes(0, 0).len() == first && files.bytes(0, 1).len() == second
}

#[test]
fn a_long_journal_is_followed_by_a_snapshot(rt: HostRuntime) -> Result<(), Fail> {
    let lines = b"crash a\nrestart a\nget a x\nturn a x = 0\n";
    let input = turns(rt.alloc(), 1_929, lines)?;
    let mut said = entered(rt.alloc(), 1_929)?;
    said.extend_from_slice(b"down\nup 1929\n1929\nok 1930\n")?;
    assert!(rt; job(&rt, rt.alloc(), "run", &input)?.is(Status::Done, &said));
    let files = left(&rt, rt.alloc(), &input)?;
    assert!(rt; has_lengths(&files, 65_628, 144));
    Ok(())
}

/// Whether a run over what is left by a stop finds 1,928 or 1,929 entries.
fn is_found(
    rt: &(impl Threads + Wait + Sync),
    alloc: Global,
    files: Option<Files>,
) -> Result<bool, AllocError> {
    let Some(files) = files else {
        return Ok(false);
    };
    let input = b"device a; var x: int = 0;\n---\nget a x\nturn a x = 0\n";
    let ended = run_over(rt, alloc, input, files)?;
    Ok(ended.is(Status::Done, b"1928\nok 1929\n") || ended.is(Status::Done, b"1929\nok 1930\n"))
}

/// Whether each stop by this choice within the last turn leaves 1,928 or 1,929 entries.
fn are_found(
    rt: &(impl Threads + Wait + Sync),
    alloc: Global,
    input: &[u8],
    choice: Choice,
) -> Result<bool, AllocError> {
    for steps in SETTLED..=ALL_STEPS {
        let files = left_at(rt, alloc, input, steps, choice)?;
        if !is_found(rt, alloc, files)? {
            return Ok(false);
        }
    }
    Ok(true)
}

/// The steps up to the last turn: 8 of the opening, and of each turn 4 on the files and its answer.
const SETTLED: u64 = 8 + 5 * 1_928;

/// All steps: in the last turn 6 lay a snapshot before its own 5.
const ALL_STEPS: u64 = SETTLED + 11;

#[test]
fn a_stop_within_a_snapshot_loses_nothing(rt: HostRuntime) -> Result<(), Fail> {
    let input = turns(rt.alloc(), 1_929, b"")?;
    let files = left(&rt, rt.alloc(), &input)?;
    assert!(rt; has_lengths(&files, 65_628, 110));
    assert!(rt; left_at(&rt, rt.alloc(), &input, ALL_STEPS + 1, Choice::Read)?.is_none());
    for choice in [Choice::Stable, Choice::Read, Choice::Sevens, Choice::Ones] {
        assert!(rt; are_found(&rt, rt.alloc(), &input, choice)?);
    }
    Ok(())
}
