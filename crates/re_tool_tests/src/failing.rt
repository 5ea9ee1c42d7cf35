//! Runs in which calls of the outside fail.
use crate::running::{ending, no_files, world_of};
use re_fakes::Fail;
use re_outside::Call;
use re_tool::Status;
use std::alloc::{AllocError, Global};
use std::sync::Wait;
use std::test::Fail as TestFail;
use std::thread::Threads;

/// A word and an input, the call that fails, and what is said.
struct Failing {
    word: &'static str,
    input: &'static [u8],
    fail: Fail,
    said: &'static [u8],
    status: Status,
}

const SUM: &[u8] =
    b"device a; var x: int = 2; signal s = x + 3;\n---\nget a s\nturn a x = 5\nget a s\n";

const TURNS: &[u8] =
    b"device a; var x: int = 0;\n---\nturn a x = 5\nturn a x = 6\ncrash a\nrestart a\nget a x\n";

const AGAIN: &[u8] =
    b"device a; var x: int = 0;\n---\nturn a x = 5\ncrash a\nrestart a\nrestart a\nget a x\n";

const TWO: &[u8] = b"device a; device b; var x: int = 0;\n---\nget a x\n";

const FAILING: [Failing; 18] = [
    // While the device is opened.
    Failing {
        word: "run",
        input: SUM,
        fail: Fail {
            call: Call::Sync,
            nth: 1,
            done: 0,
        },
        said: b"rescala: device a: disk fault\n",
        status: Status::Disk,
    },
    Failing {
        word: "run",
        input: SUM,
        fail: Fail {
            call: Call::Size,
            nth: 2,
            done: 0,
        },
        said: b"rescala: device a: disk fault\n",
        status: Status::Disk,
    },
    Failing {
        word: "run",
        input: TURNS,
        fail: Fail {
            call: Call::Write,
            nth: 3,
            done: 0,
        },
        said: b"rescala: device a: disk fault\n",
        status: Status::Disk,
    },
    Failing {
        word: "run",
        input: TURNS,
        fail: Fail {
            call: Call::Write,
            nth: 3,
            done: 1,
        },
        said: b"rescala: device a: disk fault\n",
        status: Status::Disk,
    },
    Failing {
        word: "run",
        input: TWO,
        fail: Fail {
            call: Call::Size,
            nth: 3,
            done: 0,
        },
        said: b"rescala: device b: disk fault\n",
        status: Status::Disk,
    },
    // While a turn is committed.
    Failing {
        word: "run",
        input: TURNS,
        fail: Fail {
            call: Call::Write,
            nth: 4,
            done: 0,
        },
        said: b"no 33\nno 34 at 1\ndown\nup 0\n0\n",
        status: Status::Done,
    },
    Failing {
        word: "run",
        input: TURNS,
        fail: Fail {
            call: Call::Sync,
            nth: 6,
            done: 0,
        },
        said: b"no 33\nno 34 at 2\ndown\nup 0\n0\n",
        status: Status::Done,
    },
    Failing {
        word: "run",
        input: TURNS,
        fail: Fail {
            call: Call::Write,
            nth: 5,
            done: 0,
        },
        said: b"no 33\nno 34 at 3\ndown\nup 0\n0\n",
        status: Status::Done,
    },
    Failing {
        word: "run",
        input: TURNS,
        fail: Fail {
            call: Call::Write,
            nth: 5,
            done: 1,
        },
        said: b"no 33\nno 34 at 3\ndown\nup 1\n5\n",
        status: Status::Done,
    },
    Failing {
        word: "run",
        input: TURNS,
        fail: Fail {
            call: Call::Sync,
            nth: 7,
            done: 0,
        },
        said: b"no 33\nno 34 at 4\ndown\nup 1\n5\n",
        status: Status::Done,
    },
    // While the device is opened again.
    Failing {
        word: "run",
        input: AGAIN,
        fail: Fail {
            call: Call::Sync,
            nth: 8,
            done: 0,
        },
        said: b"ok 1\ndown\nno 33\nup 1\n5\n",
        status: Status::Done,
    },
    // The input fails, and no second take is tried: the program part would be refused.
    Failing {
        word: "run",
        input: SUM,
        fail: Fail {
            call: Call::Take,
            nth: 1,
            done: 0,
        },
        said: b"rescala: input fault\n",
        status: Status::Input,
    },
    Failing {
        word: "run",
        input: b"x\n---\n",
        fail: Fail {
            call: Call::Take,
            nth: 1,
            done: 0,
        },
        said: b"rescala: input fault\n",
        status: Status::Input,
    },
    // What was complete before is answered, and the rest isn't.
    Failing {
        word: "run",
        input: b"device a; var x: int = 1;\n---\nget a x\nget a x",
        fail: Fail {
            call: Call::Take,
            nth: 2,
            done: 0,
        },
        said: b"1\nrescala: input fault\n",
        status: Status::Input,
    },
    // The output fails.
    Failing {
        word: "run",
        input: SUM,
        fail: Fail {
            call: Call::Say,
            nth: 1,
            done: 0,
        },
        said: b"",
        status: Status::Output,
    },
    Failing {
        word: "run",
        input: SUM,
        fail: Fail {
            call: Call::Say,
            nth: 2,
            done: 0,
        },
        said: b"5\n",
        status: Status::Output,
    },
    Failing {
        word: "run",
        input: b"x\n---\n",
        fail: Fail {
            call: Call::Say,
            nth: 1,
            done: 0,
        },
        said: b"",
        status: Status::Output,
    },
    Failing {
        word: "check",
        input: b"device a; device b;",
        fail: Fail {
            call: Call::Say,
            nth: 2,
            done: 0,
        },
        said: b"device a;\n",
        status: Status::Output,
    },
];

/// The place of the first row that says something else.
fn first_unlike(
    rt: &(impl Threads + Wait + Sync),
    alloc: Global,
    rows: &[Failing],
) -> Result<Option<usize>, AllocError> {
    for (place, row) in rows.iter().enumerate() {
        let world = world_of(alloc, row.input, no_files(alloc), &[row.fail])?;
        if !ending(rt, alloc, &[row.word], world)?.is(row.status, row.said) {
            return Ok(Some(place));
        }
    }
    Ok(None)
}

#[test]
fn calls_that_fail_are_told(rt: HostRuntime) -> Result<(), TestFail> {
    assert_eq!(rt; first_unlike(&rt, rt.alloc(), &FAILING)?, None);
    Ok(())
}

/// A word and an input, the first of the calls that would fail, and how many are made.
struct Tried {
    word: &'static str,
    input: &'static [u8],
    call: Call,
    first: u64,
    failed: usize,
}

/// After the first failed `take` no further one is made, and none behind a separator that ends what is read. `check` makes no call on files.
const TRIED: [Tried; 9] = [
    Tried {
        word: "run",
        input: SUM,
        call: Call::Take,
        first: 1,
        failed: 1,
    },
    Tried {
        word: "check",
        input: SUM,
        call: Call::Take,
        first: 1,
        failed: 1,
    },
    Tried {
        word: "run",
        input: b"device a; var x: int = 1;\n---\nget a x\nget a x",
        call: Call::Take,
        first: 2,
        failed: 1,
    },
    Tried {
        word: "run",
        input: b"x\n---\nget a x\n",
        call: Call::Take,
        first: 2,
        failed: 0,
    },
    Tried {
        word: "check",
        input: SUM,
        call: Call::Take,
        first: 2,
        failed: 0,
    },
    Tried {
        word: "run",
        input: SUM,
        call: Call::Say,
        first: 1,
        failed: 1,
    },
    Tried {
        word: "run",
        input: SUM,
        call: Call::Sync,
        first: 1,
        failed: 1,
    },
    Tried {
        word: "check",
        input: SUM,
        call: Call::Sync,
        first: 1,
        failed: 0,
    },
    Tried {
        word: "check",
        input: SUM,
        call: Call::Size,
        first: 1,
        failed: 0,
    },
];

/// Three calls of a kind in a row, from this one on.
fn three_calls(call: Call, first: u64) -> [Fail; 3] {
    let done = 0;
    [
        Fail {
            call,
            nth: first,
            done,
        },
        Fail {
            call,
            nth: first.saturating_add(1),
            done,
        },
        Fail {
            call,
            nth: first.saturating_add(2),
            done,
        },
    ]
}

/// The place of the first row in which another number of calls fails, where three calls in a row would.
fn first_further(
    rt: &(impl Threads + Wait + Sync),
    alloc: Global,
    rows: &[Tried],
) -> Result<Option<usize>, AllocError> {
    for (place, row) in rows.iter().enumerate() {
        let fails = three_calls(row.call, row.first);
        let world = world_of(alloc, row.input, no_files(alloc), &fails)?;
        if ending(rt, alloc, &[row.word], world)?.failed != row.failed {
            return Ok(Some(place));
        }
    }
    Ok(None)
}

#[test]
fn no_further_call_is_made(rt: HostRuntime) -> Result<(), TestFail> {
    assert_eq!(rt; first_further(&rt, rt.alloc(), &TRIED)?, None);
    Ok(())
}
