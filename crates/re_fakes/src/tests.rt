//! Tests of the world in memory.

use crate::{Choice, Fail, Files, MemoryWorld};
use re_outside::{Bytes, Call, Failed, Outside, Step, say_all};
use re_terms::{Seq, TryCopy};
use std::alloc::{AllocError, Global};
use std::test::Fail as TestFail;

/// Files with these bytes at the places from 0 on.
fn files(alloc: Global, each: &[&[u8]]) -> Result<Files, AllocError> {
    let mut list = Seq::new(alloc);
    for bytes in each {
        list.push(Bytes::from_slice(alloc, *bytes)?)?;
    }
    Ok(Files { list })
}

/// A world with no input over these files, in which the calls of the list fail.
fn world(alloc: Global, each: &[&[u8]], fails: &[Fail]) -> Result<MemoryWorld, AllocError> {
    let mut list = Seq::new(alloc);
    for fail in fails {
        list.push(*fail)?;
    }
    let list = list.copy(alloc)?;
    let start = files(alloc, each)?.copy(alloc)?;
    MemoryWorld::new(alloc, b"".as_slice(), start, list)
}

fn fail(call: Call, nth: u64, done: u32) -> Fail {
    Fail { call, nth, done }
}

#[test]
fn gives_its_input_and_keeps_what_is_said(rt: HostRuntime) -> Result<(), TestFail> {
    let alloc = rt.alloc();
    let none = files(alloc, &[])?;
    let mut world = MemoryWorld::new(alloc, b"abc".as_slice(), none, Seq::new(alloc))?;
    let mut buf = [0; 2];
    assert_eq!(rt; world.take(&mut buf), Ok(2));
    assert_eq!(rt; buf.as_slice(), b"ab".as_slice());
    assert_eq!(rt; world.take(&mut buf), Ok(1));
    assert_eq!(rt; world.take(&mut buf), Ok(0));
    assert_eq!(rt; say_all(&mut world, b"said".as_slice()), Ok(()));
    assert_eq!(rt; world.trace().len(), 1);
    assert!(rt; matches!(world.trace().get(0), Some(Step::Say { .. })));
    assert_eq!(rt; world.shorts(), 0);
    assert!(rt; world.is_faultless());
    Ok(())
}

#[test]
fn keeps_files_apart_and_fills_gaps(rt: HostRuntime) -> Result<(), TestFail> {
    let mut world = world(
        rt.alloc(),
        &[b"".as_slice(), b"".as_slice(), b"ab".as_slice()],
        &[],
    )?;
    assert_eq!(rt; world.write(1, 0, 4, b"cd".as_slice()), Ok(()));
    assert_eq!(rt; world.write(1, 1, 0, b"".as_slice()), Ok(()));
    assert_eq!(rt; world.write(0, 1, 1, b"z".as_slice()), Ok(()));
    assert_eq!(rt; world.cut(1, 0, 5), Ok(()));
    assert_eq!(rt; world.sync(1, 0), Ok(()));
    assert_eq!(rt; world.size(1, 0), Ok(5));
    assert_eq!(rt; world.size(7, 1), Ok(0));
    let mut buf = [9; 4];
    assert_eq!(rt; world.fetch(1, 0, 1, &mut buf), Ok(4));
    assert_eq!(rt; buf.as_slice(), [98, 0, 0, 99].as_slice());
    assert_eq!(rt; world.fetch(1, 0, 5, &mut buf), Ok(0));
    assert_eq!(rt; world.files().bytes(0, 1), [0, 122].as_slice());
    assert_eq!(rt; world.write(0, 0, u64::MAX, b"x".as_slice()), Err(Failed));
    assert_eq!(rt; world.shorts(), 1);
    assert_eq!(rt; world.trace().len(), 5);
    Ok(())
}

#[test]
fn fails_the_calls_of_its_list(rt: HostRuntime) -> Result<(), TestFail> {
    let alloc = rt.alloc();
    let kinds = [
        Call::Take,
        Call::Say,
        Call::Size,
        Call::Fetch,
        Call::Write,
        Call::Cut,
        Call::Sync,
    ];
    let mut fails = Vec::new(alloc);
    for kind in kinds {
        fails.push(fail(kind, 2, 1))?;
        fails.push(fail(kind, 2, 9))?;
    }
    let mut world = world(alloc, &[b"ab".as_slice()], &fails)?;
    let mut buf = [0; 4];
    for round in 1..4u64 {
        let listed = round == 2;
        assert_eq!(rt; world.take(&mut buf).is_err(), listed);
        assert_eq!(rt; world.say(b"s".as_slice()).is_err(), listed);
        assert_eq!(rt; world.size(0, 0).is_err(), listed);
        assert_eq!(rt; world.fetch(0, 0, 1, &mut buf).is_err(), listed);
        assert_eq!(rt; world.write(0, 0, 2, b"cd".as_slice()).is_err(), listed);
        assert_eq!(rt; world.cut(0, 0, 2).is_err(), listed);
        assert_eq!(rt; world.sync(0, 0).is_err(), listed);
    }
    let mut failed = 0;
    for step in world.trace().as_slice() {
        if let Step::Fail { call, .. } = step {
            assert_eq!(rt; kinds.get(failed), Some(call));
            failed += 1;
        }
    }
    assert_eq!(rt; failed, 7);
    assert_eq!(rt; world.trace().len(), 15);
    assert_eq!(rt; world.shorts(), 0);
    assert!(rt; !world.is_faultless());
    Ok(())
}

#[test]
fn a_listed_write_past_the_end_leaves_the_file(rt: HostRuntime) -> Result<(), TestFail> {
    let mut world = world(rt.alloc(), &[b"ab".as_slice()], &[fail(Call::Write, 1, 1)])?;
    assert_eq!(rt; world.write(0, 0, u64::MAX, b"x".as_slice()), Err(Failed));
    assert_eq!(rt; world.files().bytes(0, 0), b"ab".as_slice());
    assert_eq!(rt; world.trace().len(), 0);
    assert_eq!(rt; world.shorts(), 1);
    Ok(())
}

#[test]
fn a_failed_write_makes_its_first_bytes(rt: HostRuntime) -> Result<(), TestFail> {
    let rows = [
        (0, b"ab".as_slice()),
        (1, b"ab\0x".as_slice()),
        (2, b"ab\0xy".as_slice()),
        (9, b"ab\0xy".as_slice()),
    ];
    for (done, left) in rows {
        let mut world = world(
            rt.alloc(),
            &[b"ab".as_slice()],
            &[fail(Call::Write, 1, done)],
        )?;
        assert_eq!(rt; world.write(0, 0, 3, b"xy".as_slice()), Err(Failed));
        assert_eq!(rt; world.files().bytes(0, 0), left);
        if let Some(
            Step::Fail {
                at,
                bytes,
                content,
                ..
            },
        ) = world.trace().get(0)
        {
            assert_eq!(rt; *at, 3);
            assert_eq!(rt; bytes.as_slice(), b"xy".as_slice());
            assert_eq!(rt; content.as_slice(), left);
        } else {
            assert!(rt; false, "no fail");
        }
    }
    Ok(())
}

/// A write past the end, a cut, a sync, a failed write of one byte of two, and a write of
/// another file.
fn short_history(alloc: Global) -> Result<MemoryWorld, AllocError> {
    let mut world = world(alloc, &[b"ab".as_slice()], &[fail(Call::Write, 2, 1)])?;
    let made = world.write(0, 0, 3, b"xy".as_slice()).is_ok()
        && world.cut(0, 0, 1).is_ok()
        && world.sync(0, 0).is_ok()
        && world.write(0, 0, 0, b"pq".as_slice()).is_err()
        && world.write(0, 1, 0, b"z".as_slice()).is_ok();
    if made { Ok(world) } else { Err(AllocError) }
}

#[test]
fn stops_leave_what_each_choice_takes(rt: HostRuntime) -> Result<(), TestFail> {
    let world = short_history(rt.alloc())?;
    let rows = [
        (
            0,
            b"ab".as_slice(),
            b"ab".as_slice(),
            [97, 98].as_slice(),
            [97, 98].as_slice(),
        ),
        (
            1,
            b"ab".as_slice(),
            b"ab\0xy".as_slice(),
            [97, 98, 7, 7, 7].as_slice(),
            [97, 98, 1, 1, 1].as_slice(),
        ),
        (
            2,
            b"ab".as_slice(),
            b"a".as_slice(),
            [97, 98, 7, 7, 7].as_slice(),
            [97, 98, 1, 1, 1].as_slice(),
        ),
        (
            3,
            b"a".as_slice(),
            b"a".as_slice(),
            [97].as_slice(),
            [97].as_slice(),
        ),
        (
            4,
            b"a".as_slice(),
            b"p".as_slice(),
            [7, 7].as_slice(),
            [1, 1].as_slice(),
        ),
        (
            5,
            b"a".as_slice(),
            b"p".as_slice(),
            [7, 7].as_slice(),
            [1, 1].as_slice(),
        ),
    ];
    for (step, stable, read, sevens, ones) in rows {
        let choices = [
            (Choice::Stable, stable),
            (Choice::Read, read),
            (Choice::Sevens, sevens),
            (Choice::Ones, ones),
        ];
        for (choice, left) in choices {
            let Some(files) = world.stop_at(step, choice)? else {
                assert!(rt; false, "no files at {step}");
                return Ok(());
            };
            assert_eq!(rt; files.bytes(0, 0), left);
        }
    }
    let Some(files) = world.stop_at(5, Choice::Sevens)? else {
        return Err(TestFail::from(AllocError));
    };
    assert_eq!(rt; files.bytes(0, 1), [7].as_slice());
    assert!(rt; world.stop_at(6, Choice::Read)?.is_none());
    Ok(())
}
