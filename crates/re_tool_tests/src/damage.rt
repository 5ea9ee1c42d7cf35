//! Runs over files that hold no store, a store of another program, or a damaged one.
use crate::running::{files_of, run_over};
use crate::steps::FILE;
use re_outside::Bytes;
use re_tool::Status;
use std::alloc::{AllocError, Global};
use std::sync::Wait;
use std::test::Fail;
use std::thread::Threads;

/// An input, files, and what a run over them says: the files 0 and 1 of the first device, then those of the next.
struct Stored {
    input: &'static [u8],
    files: &'static [&'static [u8]],
    said: &'static [u8],
    status: Status,
}

/// The length 70 behind an open gate, and nothing behind it.
const CUT: &[u8] = b"\x01\0\0\0\x46";

const STORED: [Stored; 13] = [
    // A file that is blank.
    Stored {
        input: b"device a; var x: int = 2; signal s = x + 3;\n---\nget a s\nturn a x = 5\nget a s\n",
        files: &[b"\x01", b""],
        said: b"5\nok 1\n8\n",
        status: Status::Done,
    },
    Stored {
        input: b"device a; var x: int = 0;\n---\nget a x\n",
        files: &[b"\0garbage", b"\x07garbage"],
        said: b"0\n",
        status: Status::Done,
    },
    // A store that is cut off.
    Stored {
        input: b"device a; var x: int = 0;\n---\nget a x\n",
        files: &[CUT, b""],
        said: b"rescala: device a: bad store, file 0 at 5\n",
        status: Status::Store,
    },
    Stored {
        input: b"device a; var x: int = 0;\n---\nget a x\n",
        files: &[b"", CUT],
        said: b"rescala: device a: bad store, file 1 at 5\n",
        status: Status::Store,
    },
    Stored {
        input: b"device a; var x: int = 0;\n---\nget a x\n",
        files: &[CUT, CUT],
        said: b"rescala: device a: bad store, file 0 at 5\n",
        status: Status::Store,
    },
    // Two files of one generation.
    Stored {
        input: b"device a; var x: int = 0;\n---\nget a x\n",
        files: &[FILE, FILE],
        said: b"rescala: device a: bad store, file 1 at 5\n",
        status: Status::Store,
    },
    // Another program's store.
    Stored {
        input: b"device a; var x: int = 1;\n---\nget a x\n",
        files: &[FILE, b""],
        said: b"rescala: device a: other program\n",
        status: Status::OtherProgram,
    },
    // The store of a turn.
    Stored {
        input: b"device a; var x: int = 0;\n---\nget a x\n",
        files: &[FILE, b""],
        said: b"5\n",
        status: Status::Done,
    },
    Stored {
        input: b"device a; var x: int = 0;\n---\nget a x\n",
        files: &[b"", FILE],
        said: b"5\n",
        status: Status::Done,
    },
    // The first device whose store is refused is named.
    Stored {
        input: b"device a; device b; var x: int = 0;\n---\nget a x\n",
        files: &[b"", b"", CUT, b""],
        said: b"rescala: device b: bad store, file 0 at 5\n",
        status: Status::Store,
    },
    Stored {
        input: b"device a; device b; var x: int = 0;\n---\nget a x\n",
        files: &[FILE, b"", CUT, b""],
        said: b"rescala: device a: other program\n",
        status: Status::OtherProgram,
    },
    // Without a session the devices are opened too.
    Stored {
        input: b"device a; var x: int = 0;\n",
        files: &[CUT, b""],
        said: b"rescala: device a: bad store, file 0 at 5\n",
        status: Status::Store,
    },
    // A refused program stands before a bad store.
    Stored {
        input: b"x\n---\nget a x\n",
        files: &[CUT, b""],
        said: b"rescala: program: unexpected token at 0\n",
        status: Status::Program,
    },
];

/// The place of the first row that says something else.
fn first_unlike(
    rt: &(impl Threads + Wait + Sync),
    alloc: Global,
    rows: &[Stored],
) -> Result<Option<usize>, AllocError> {
    for (place, row) in rows.iter().enumerate() {
        let files = files_of(alloc, row.files)?;
        if !run_over(rt, alloc, row.input, files)?.is(row.status, row.said) {
            return Ok(Some(place));
        }
    }
    Ok(None)
}

#[test]
fn stores_are_found_or_refused(rt: HostRuntime) -> Result<(), Fail> {
    assert_eq!(rt; first_unlike(&rt, rt.alloc(), &STORED)?, None);
    Ok(())
}

/// The store of a turn with a change: one byte is another, or the file is cut; and what `get a x` says over it.
struct Damaged {
    kept: usize,
    at: usize,
    byte: u8,
    said: &'static [u8],
    status: Status,
}

/// An input that looks at the var.
const LOOK: &[u8] = b"device a; var x: int = 0;\n---\nget a x\n";

const DAMAGED: [Damaged; 14] = [
    Damaged {
        kept: 3,
        at: 0,
        byte: 1,
        said: b"rescala: device a: bad store, file 0 at 1\n",
        status: Status::Store,
    },
    Damaged {
        kept: 5,
        at: 0,
        byte: 1,
        said: b"rescala: device a: bad store, file 0 at 5\n",
        status: Status::Store,
    },
    Damaged {
        kept: 75,
        at: 0,
        byte: 1,
        said: b"rescala: device a: bad store, file 0 at 75\n",
        status: Status::Store,
    },
    Damaged {
        kept: 76,
        at: 0,
        byte: 1,
        said: b"rescala: device a: bad store, file 0 at 76\n",
        status: Status::Store,
    },
    Damaged {
        kept: 109,
        at: 0,
        byte: 1,
        said: b"rescala: device a: bad store, file 0 at 109\n",
        status: Status::Store,
    },
    Damaged {
        kept: 110,
        at: 13,
        byte: 9,
        said: b"rescala: device a: bad store, file 0 at 13\n",
        status: Status::Store,
    },
    Damaged {
        kept: 110,
        at: 14,
        byte: 1,
        said: b"rescala: device a: bad store, file 0 at 14\n",
        status: Status::Store,
    },
    Damaged {
        kept: 110,
        at: 58,
        byte: 3,
        said: b"rescala: device a: bad store, file 0 at 58\n",
        status: Status::Store,
    },
    Damaged {
        kept: 110,
        at: 79,
        byte: 0,
        said: b"rescala: device a: bad store, file 0 at 76\n",
        status: Status::Store,
    },
    Damaged {
        kept: 110,
        at: 80,
        byte: 0,
        said: b"rescala: device a: bad store, file 0 at 80\n",
        status: Status::Store,
    },
    Damaged {
        kept: 110,
        at: 81,
        byte: 2,
        said: b"rescala: device a: bad store, file 0 at 81\n",
        status: Status::Store,
    },
    Damaged {
        kept: 1,
        at: 0,
        byte: 1,
        said: b"0\n",
        status: Status::Done,
    },
    Damaged {
        kept: 110,
        at: 75,
        byte: 0,
        said: b"0\n",
        status: Status::Done,
    },
    Damaged {
        kept: 110,
        at: 75,
        byte: 7,
        said: b"0\n",
        status: Status::Done,
    },
];

/// The store of a turn with the change of a row.
fn changed(alloc: Global, row: &Damaged) -> Result<Bytes, AllocError> {
    let mut file = Bytes::from_slice(alloc, FILE)?;
    if row.at < file.len() {
        file.set(row.at, row.byte);
    }
    file.truncate(row.kept);
    Ok(file)
}

/// The place of the first row that says something else.
fn first_unrefused(
    rt: &(impl Threads + Wait + Sync),
    alloc: Global,
    rows: &[Damaged],
) -> Result<Option<usize>, AllocError> {
    for (place, row) in rows.iter().enumerate() {
        let file = changed(alloc, row)?;
        let files = files_of(alloc, &[file.as_slice()])?;
        if !run_over(rt, alloc, LOOK, files)?.is(row.status, row.said) {
            return Ok(Some(place));
        }
    }
    Ok(None)
}

#[test]
fn damaged_stores_are_refused(rt: HostRuntime) -> Result<(), Fail> {
    assert_eq!(rt; first_unrefused(&rt, rt.alloc(), &DAMAGED)?, None);
    Ok(())
}
