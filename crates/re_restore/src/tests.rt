//! A store that reads, and stores that are refused.
ghost use Rattle.std.specs.Prelude.{◌<◌, ◌^◌, length, IfOk};
ghost use Rattle.re_terms.specs.Programs.{IsProgram};

use crate::{Restored, StoreFault, read_store, restore};
use re_compact::{Found, find_store, prepare_other, publish};
use re_fakes::{Files, MemoryWorld};
use re_journal::frame;
use re_outside::{Bytes, Disk, Port};
use re_print::print_program;
use re_record::{get_entries, get_snapshot, put_entries, put_snapshot};
use re_syntax::parse;
use re_terms::{Program, Seq, Shape, Word};
use re_tokens::tokens;
use re_types::resolve;
use std::alloc::Global;
use std::process::Abort;
use std::test::Fail;

/// The snapshot of `device a; var x: int = 0;` before any entry, with generation 1.
const SNAPSHOT: [u8; 70] = [
    0, 0, 0, 0, 0, 0, 0, 1, 1, 0, 0, 0, 0, 0, 0, 0, 0, 0, 0, 0, 0, 31, 100, 101, 118, 105, 99, 101,
    32, 97, 59, 10, 118, 97, 114, 32, 120, 58, 32, 105, 110, 116, 32, 61, 32, 48, 32, 105, 110, 32,
    49, 59, 10, 0, 0, 0, 0, 0, 0, 0, 0, 0, 0, 0, 0, 0, 0, 0, 0, 0,
];

/// The record of the turn `x = 5`, which changes x to 5.
const RECORD: [u8; 29] = [
    1, 0, 1, 0, 1, 0, 0, 0, 0, 0, 0, 0, 0, 5, 0, 0, 0, 1, 0, 1, 0, 0, 0, 0, 0, 0, 0, 0, 5,
];

fn program(alloc: Global, text: &[u8]) -> Result<Program, Fail>
    requires { length text.now < 2 ^ 32 }
    ensures { IfOk result IsProgram }
{
    let tokens = tokens(alloc, text)?;
    let tree = parse(alloc, &tokens)?;
    Ok(resolve(alloc, tree)?)
}

/// Compares the word of x and the entry number, or the refusal.
fn reads(
    rt: &impl Abort,
    alloc: Global,
    text: &[u8],
    record: [u8; 29],
    wanted: Result<(Word, u64), StoreFault>,
) -> Result<(), Fail>
    requires { length text.now < 2 ^ 32 }
{
    let program = program(alloc, text)?;
    assert!(rt; program.decls.len() == 2);
    assert!(rt; program.decls.as_slice()[0].body.is_device());
    let bodies = [Bytes::from_slice(alloc, &record)?];
    let found = read_store(alloc, &program, 0, &SNAPSHOT, &bodies);
    match (found, wanted) {
        (Ok((state, number)), Ok((word, entries))) => {
            assert_eq!(rt; state.words.as_slice(), [word].as_slice());
            assert_eq!(rt; number, entries);
        }
        (Err(fault), Err(refusal)) => assert_eq!(rt; fault, refusal),
        _ => panic!(rt; "the store isn't read as wanted"),
    }
    Ok(())
}

#[test]
fn a_store_of_one_turn(rt: HostRuntime) -> Result<(), Fail> {
    let alloc = rt.alloc();
    let text = b"device a; var x: int = 0;";
    reads(&rt, alloc, text, RECORD, Ok((Word::Int(5), 1)))?;
    let other = b"device a; var x: int = 1;";
    reads(&rt, alloc, other, RECORD, Err(StoreFault::OtherProgram))?;
    let mut tag = RECORD;
    tag[1] = 2;
    reads(&rt, alloc, text, tag, Err(StoreFault::At(81)))?;
    let mut id = RECORD;
    id[4] = 0;
    reads(&rt, alloc, text, id, Err(StoreFault::At(83)))?;
    Ok(())
}

/// Lays the snapshot into file 0, whose device has no store yet, and commits the record behind it.
fn commit<D: Disk>(rt: &impl Abort, alloc: Global, disk: &mut D) -> Result<(), Fail> {
    let Ok(Found::Blank { mut journal }) = find_store(alloc, disk) else {
        panic!(rt; "no file is blank");
    };
    let snapshot = frame(alloc, &SNAPSHOT)?;
    assert!(rt; prepare_other(&mut journal, disk, snapshot.as_slice()).is_ok());
    assert!(rt; publish(&mut journal, disk).is_ok());
    let record = frame(alloc, &RECORD)?;
    assert!(rt; journal.append(disk, record.as_slice()).is_ok());
    assert_eq!(rt; journal.bytes(), 33);
    Ok(())
}

/// Finds the snapshot and the record again.
fn finds<D: Disk>(rt: &impl Abort, alloc: Global, disk: &mut D) {
    let Ok(
        Found::Store {
            journal,
            generation,
            snapshot,
            bodies,
        },
    ) = find_store(alloc, disk)
    else {
        panic!(rt; "no store is found");
    };
    assert_eq!(rt; journal.bytes(), 33);
    assert_eq!(rt; generation, 1);
    assert_eq!(rt; snapshot.as_slice(), SNAPSHOT.as_slice());
    assert_eq!(rt; bodies.len(), 1);
    assert_eq!(rt; bodies.as_slice()[0].as_slice(), RECORD.as_slice());
}

#[test]
fn a_store_is_found_again(rt: HostRuntime) -> Result<(), Fail> {
    let alloc = rt.alloc();
    let files = Files {
        list: Seq::new(alloc),
    };
    let mut world = MemoryWorld::new(alloc, &[], files, Seq::new(alloc))?;
    commit(&rt, alloc, &mut Port::new(&mut world, 0))?;
    let Some(bytes) = world.files().list.get(0) else {
        panic!(rt; "no file is there");
    };
    let file = bytes.as_slice();
    assert_eq!(rt; file.len(), 110);
    assert_eq!(rt; &file[..5], [1, 0, 0, 0, 70].as_slice());
    assert_eq!(rt; &file[5..75], SNAPSHOT.as_slice());
    assert_eq!(rt; &file[75..80], [1, 0, 0, 0, 29].as_slice());
    assert_eq!(rt; &file[80..109], RECORD.as_slice());
    assert_eq!(rt; file[109], 0);
    finds(&rt, alloc, &mut Port::new(&mut world, 0));
    Ok(())
}

#[test]
fn what_is_read_is_written(rt: HostRuntime) -> Result<(), Fail> {
    let alloc = rt.alloc();
    let program = program(alloc, b"device a; var x: int = 0;")?;
    let shape = Shape::of(alloc, &program)?;
    let Ok(entries) = get_entries(alloc, &RECORD, &program, &shape) else {
        panic!(rt; "the record isn't read");
    };
    let record = put_entries(alloc, &entries, &shape)?;
    assert_eq!(rt; record.as_slice(), RECORD.as_slice());
    let Ok(found) = get_snapshot(alloc, &SNAPSHOT, &program, &shape, 0) else {
        panic!(rt; "the snapshot isn't read");
    };
    assert!(rt; print_program(alloc, &program)?.len() <= 65_536);
    let snapshot = put_snapshot(alloc, &program, &shape, 0, 1, found.number, &found.state)?;
    assert_eq!(rt; snapshot.as_slice(), SNAPSHOT.as_slice());
    Ok(())
}

/// Opens device 0, which then has this word of x and so many entries.
fn opens<D: Disk>(
    rt: &impl Abort,
    alloc: Global,
    disk: &mut D,
    word: Word,
    entries: u64,
) -> Result<Restored, Fail> {
    let program = program(alloc, b"device a; var x: int = 0;")?;
    assert!(rt; program.decls.len() == 2);
    assert!(rt; program.decls.as_slice()[0].body.is_device());
    assert!(rt; print_program(alloc, &program)?.len() <= 65_536);
    let Ok(restored) = restore(alloc, disk, &program, 0) else {
        panic!(rt; "the device isn't opened");
    };
    assert_eq!(rt; restored.state.words.as_slice(), [word].as_slice());
    assert_eq!(rt; restored.number, entries);
    assert_eq!(rt; restored.generation, 1);
    Ok(restored)
}

#[test]
fn a_device_is_opened(rt: HostRuntime) -> Result<(), Fail> {
    let alloc = rt.alloc();
    let files = Files {
        list: Seq::new(alloc),
    };
    let mut world = MemoryWorld::new(alloc, &[], files, Seq::new(alloc))?;
    let first = opens(&rt, alloc, &mut Port::new(&mut world, 0), Word::Int(0), 0)?;
    let mut journal = first.journal;
    assert_eq!(rt; journal.bytes(), 0);
    let record = frame(alloc, &RECORD)?;
    let committed = journal.append(&mut Port::new(&mut world, 0), record.as_slice());
    assert!(rt; committed.is_ok());
    let again = opens(&rt, alloc, &mut Port::new(&mut world, 0), Word::Int(5), 1)?;
    assert_eq!(rt; again.journal.bytes(), 33);
    assert_eq!(rt; again.journal.stopped(), None);
    Ok(())
}
