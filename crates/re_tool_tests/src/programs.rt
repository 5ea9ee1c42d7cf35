//! Program parts that are refused, and what `check` says of others.
use crate::running::job;
use re_tool::Status;
use std::alloc::{AllocError, Global};
use std::sync::Wait;
use std::test::Fail;
use std::thread::Threads;

/// A program part, and why it is refused.
struct Refused {
    part: &'static [u8],
    why: &'static [u8],
}

/// A program part, and its canonical text.
struct Checked {
    part: &'static [u8],
    text: &'static [u8],
}

/// Whether this job refuses the program part with this text.
fn is_refused(
    rt: &(impl Threads + Wait + Sync),
    alloc: Global,
    word: &str,
    part: &[u8],
    why: &[u8],
) -> Result<bool, AllocError> {
    let mut line = b"rescala: program: ".to_vec(alloc)?;
    line.extend_from_slice(why)?;
    line.push(b'\n')?;
    Ok(job(rt, alloc, word, part)?.is(Status::Program, &line))
}

/// The place of the first program part that this job doesn't refuse as its row says.
fn first_taken(
    rt: &(impl Threads + Wait + Sync),
    alloc: Global,
    word: &str,
    rows: &[Refused],
) -> Result<Option<usize>, AllocError> {
    for (place, row) in rows.iter().enumerate() {
        if !is_refused(rt, alloc, word, row.part, row.why)? {
            return Ok(Some(place));
        }
    }
    Ok(None)
}

/// Program parts that both jobs refuse.
const REFUSED: [Refused; 14] = [
    Refused {
        part: b"",
        why: b"no device",
    },
    Refused {
        part: b"# nothing\n---\nget a x\n",
        why: b"no device",
    },
    Refused {
        part: b"device a;\nvar x: int = 1 $",
        why: b"no token at 25",
    },
    Refused {
        part: b"device a\nvar",
        why: b"unexpected token at 9",
    },
    Refused {
        part: b"device a",
        why: b"unexpected token at 8",
    },
    Refused {
        part: b"device a; signal s = t;",
        why: b"declaration 2: unknown name",
    },
    Refused {
        part: b"device a; device a;",
        why: b"declaration 2: declared twice",
    },
    Refused {
        part: b"device a; signal s = 1 + true;",
        why: b"declaration 2: wrong kind",
    },
    Refused {
        part: b"device a; device b; device c; device d; device e; device f; device g; device h; device i; device j; device k; device l; device m; device n; device o; device p; device q;",
        why: b"declaration 17: too many",
    },
    Refused {
        part: b"signal s = 1 < 2 < 3;",
        why: b"unexpected token at 17",
    },
    Refused {
        part: b"var x: int = 1 in 5;",
        why: b"unexpected token at 18",
    },
    Refused {
        part: b"device a; event e: int; signal s = e;",
        why: b"declaration 3: wrong kind",
    },
    Refused {
        part: b"device a; var x: int = 007;",
        why: b"no token at 23",
    },
    Refused {
        part: b"device a;\nsignal s = ((((((((((((((((((((((((((((((((((((((((((((((((((((((((((((((((((((((((((((((((((((((((((((((((((((((((((((((((((((((((((((((((",
        why: b"too deep at 148",
    },
];

#[test]
fn programs_are_refused(rt: HostRuntime) -> Result<(), Fail> {
    assert_eq!(rt; first_taken(&rt, rt.alloc(), "run", &REFUSED)?, None);
    assert_eq!(rt; first_taken(&rt, rt.alloc(), "check", &REFUSED)?, None);
    Ok(())
}

/// Program parts that end too early, or have a token that may not stand there.
const UNEXPECTED: [Refused; 32] = [
    Refused {
        part: b"x",
        why: b"unexpected token at 0",
    },
    Refused {
        part: b"var x: int = 1 in 0;",
        why: b"unexpected token at 18",
    },
    Refused {
        part: b"fold n: int = 0 on e do self in 5;",
        why: b"unexpected token at 32",
    },
    Refused {
        part: b"signal s = fault(1000);",
        why: b"unexpected token at 17",
    },
    Refused {
        part: b"signal s = - 9223372036854775809;",
        why: b"no token at 13",
    },
    Refused {
        part: b"signal s = 1 == 2 == 3;",
        why: b"unexpected token at 18",
    },
    Refused {
        part: b"event e = map(",
        why: b"unexpected token at 14",
    },
    Refused {
        part: b"event e: ",
        why: b"unexpected token at 9",
    },
    Refused {
        part: b"var x: int = -",
        why: b"unexpected token at 14",
    },
    Refused {
        part: b"var x: int = 1 in",
        why: b"unexpected token at 17",
    },
    Refused {
        part: b"fold n: int = 0 on e do",
        why: b"unexpected token at 23",
    },
    Refused {
        part: b"signal s = (1",
        why: b"unexpected token at 13",
    },
    Refused {
        part: b"signal s = recover(1,",
        why: b"unexpected token at 21",
    },
    Refused {
        part: b"signal s = fault(",
        why: b"unexpected token at 17",
    },
    Refused {
        part: b"signal s = has(t, 1",
        why: b"unexpected token at 19",
    },
    Refused {
        part: b"device",
        why: b"unexpected token at 6",
    },
    Refused {
        part: b"device 1;",
        why: b"unexpected token at 7",
    },
    Refused {
        part: b"device a; ;",
        why: b"unexpected token at 10",
    },
    Refused {
        part: b"counter c: int;",
        why: b"unexpected token at 9",
    },
    Refused {
        part: b"var x: int = 1",
        why: b"unexpected token at 14",
    },
    Refused {
        part: b"var x: int = y + 1;",
        why: b"unexpected token at 15",
    },
    Refused {
        part: b"event e = map(x 1);",
        why: b"unexpected token at 16",
    },
    Refused {
        part: b"event e = either(x, 1);",
        why: b"unexpected token at 20",
    },
    Refused {
        part: b"fold n: int = 0 on e self;",
        why: b"unexpected token at 21",
    },
    Refused {
        part: b"signal s = 1 +;",
        why: b"unexpected token at 14",
    },
    Refused {
        part: b"signal s = (1;",
        why: b"unexpected token at 13",
    },
    Refused {
        part: b"signal s = if 1 then 2;",
        why: b"unexpected token at 22",
    },
    Refused {
        part: b"signal s = 1 + if 1 then 2 else 3;",
        why: b"unexpected token at 15",
    },
    Refused {
        part: b"signal s = fault(99);",
        why: b"unexpected token at 17",
    },
    Refused {
        part: b"signal s = has(t);",
        why: b"unexpected token at 16",
    },
    Refused {
        part: b"signal s = 1 in 1;",
        why: b"unexpected token at 13",
    },
    Refused {
        part: b"signal s = 9223372036854775808;",
        why: b"unexpected token at 11",
    },
];

#[test]
fn unexpected_tokens_are_refused(rt: HostRuntime) -> Result<(), Fail> {
    assert_eq!(rt; first_taken(&rt, rt.alloc(), "check", &UNEXPECTED)?, None);
    Ok(())
}

/// Program parts that are taken.
const CHECKED: [Checked; 10] = [
    Checked {
        part: b"device a; var x: int = 9223372036854775807; var y: int = - 9223372036854775808 in 2; var z: int = 0 in 3;",
        text: b"device a;\nvar x: int = 9223372036854775807 in 1;\nvar y: int = -9223372036854775808 in 2;\nvar z: int = 0 in 3;\n",
    },
    Checked {
        part: b"device a; signal s = fault(999) + 1; signal t = 1 <= 2; signal u = 1 > 2;",
        text: b"device a;\nsignal s = (fault(999) + 1);\nsignal t = (1 <= 2);\nsignal u = (1 > 2);\n",
    },
    Checked {
        part: b"device a; signal s = 8 / 4 * 2 - 1 + 3; signal t = true or false and true or false;",
        text: b"device a;\nsignal s = ((((8 / 4) * 2) - 1) + 3);\nsignal t = ((true or (false and true)) or false);\n",
    },
    Checked {
        part: b"device a; signal s = 1 - 2 - 3; signal t = 1 + 2 * 3 < 4 and true or false; signal u = if true then - 1 else 2 + -0;",
        text: b"device a;\nsignal s = ((1 - 2) - 3);\nsignal t = ((((1 + (2 * 3)) < 4) and true) or false);\nsignal u = (if true then -1 else (2 + 0));\n",
    },
    Checked {
        part: b"device a; event e: int; event m = map(e, (arg) % 2); event f = filter(m, not(arg >= 1)); event g = either(m, f); var v: bool = false in 4; event d = changed(v);",
        text: b"device a;\nevent e: int;\nevent m = map(e, (arg % 2));\nevent f = filter(m, not((arg >= 1)));\nevent g = either(m, f);\nvar v: bool = false in 4;\nevent d = changed(v);\n",
    },
    Checked {
        part: b"device a; set t: sym; symbol red; signal n = size(t) / 2; signal h = has(t, red) == recover(fault(100), 1 != 2);",
        text: b"device a;\nset t: sym;\nsymbol red;\nsignal n = (size(t) / 2);\nsignal h = (has(t, red) == recover(fault(100), (1 != 2)));\n",
    },
    Checked {
        part: b"device a; var x:int=-3; signal s=if x<0 then 0-x else x;",
        text: b"device a;\nvar x: int = -3 in 1;\nsignal s = (if (x < 0) then (0 - x) else x);\n",
    },
    Checked {
        part: b"device a;\n---\nget a a\n",
        text: b"device a;\n",
    },
    Checked {
        part: b"device a; device b; symbol red; register m: sym = red; set t: int; event e: int;",
        text: b"device a;\ndevice b;\nsymbol red;\nregister m: sym = red;\nset t: int;\nevent e: int;\n",
    },
    Checked {
        part: b"device a; event e: int; fold n: int = 0 on e do self + arg in 2; counter c; event d = changed(c); signal z = fault(100) == n;",
        text: b"device a;\nevent e: int;\nfold n: int = 0 on e do (self + arg) in 2;\ncounter c;\nevent d = changed(c);\nsignal z = (fault(100) == n);\n",
    },
];

/// The place of the first program part whose text isn't the one that its row says.
fn first_unchecked(
    rt: &(impl Threads + Wait + Sync),
    alloc: Global,
    rows: &[Checked],
) -> Result<Option<usize>, AllocError> {
    for (place, row) in rows.iter().enumerate() {
        if !job(rt, alloc, "check", row.part)?.is(Status::Done, row.text) {
            return Ok(Some(place));
        }
    }
    Ok(None)
}

#[test]
fn programs_are_checked(rt: HostRuntime) -> Result<(), Fail> {
    assert_eq!(rt; first_unchecked(&rt, rt.alloc(), &CHECKED)?, None);
    Ok(())
}

/// A text with a piece so many times in its middle.
fn filled(
    alloc: Global,
    front: &[u8],
    piece: &[u8],
    times: usize,
    back: &[u8],
) -> Result<Vec<u8>, AllocError> {
    let mut text = front.to_vec(alloc)?;
    for _ in 0..times {
        text.extend_from_slice(piece)?;
    }
    text.extend_from_slice(back)?;
    Ok(text)
}

/// A program part with a piece so many times in its middle, and why it is refused, nothing where it is taken.
struct Long {
    front: &'static [u8],
    piece: &'static [u8],
    times: usize,
    back: &'static [u8],
    why: &'static [u8],
}

/// Program parts that are too deep, or too long.
const LONG: [Long; 8] = [
    Long {
        front: b"device a;\nsignal s = ",
        piece: b"(",
        times: 128,
        back: b"",
        why: b"too deep at 148",
    },
    Long {
        front: b"device a;\nsignal s = 1",
        piece: b"+1",
        times: 64,
        back: b";",
        why: b"too deep at 21",
    },
    Long {
        front: b"device a;\nsignal s = 1",
        piece: b"+1",
        times: 64,
        back: b"+;",
        why: b"unexpected token at 151",
    },
    Long {
        front: b"device a; event e: int; fold n: int = 0 on e do self",
        piece: b"+1",
        times: 64,
        back: b";",
        why: b"too deep at 48",
    },
    Long {
        front: b"device a; event e: int; event f = map(e, arg",
        piece: b"+1",
        times: 64,
        back: b");",
        why: b"too deep at 41",
    },
    Long {
        front: b"device a; var x: int = 1; signal s = x",
        piece: b"+x",
        times: 32_000,
        back: b";",
        why: b"too deep at 37",
    },
    // A sum that is too deep, in a program part that is too long.
    Long {
        front: b"device a; var x: int = 1; signal s = x",
        piece: b"+x",
        times: 32_749,
        back: b";",
        why: b"too long",
    },
    Long {
        front: b"device a;",
        piece: b" ",
        times: 65_528,
        back: b"",
        why: b"too long",
    },
];

/// The place of the first of these program parts that a job doesn't refuse as its row says.
fn first_long_taken(
    rt: &(impl Threads + Wait + Sync),
    alloc: Global,
    word: &str,
    rows: &[Long],
) -> Result<Option<usize>, AllocError> {
    for (place, row) in rows.iter().enumerate() {
        let part = filled(alloc, row.front, row.piece, row.times, row.back)?;
        if !is_refused(rt, alloc, word, &part, row.why)? {
            return Ok(Some(place));
        }
    }
    Ok(None)
}

/// A device and a signal of the number 1 in so many brackets.
fn in_brackets(alloc: Global, count: usize) -> Result<Vec<u8>, AllocError> {
    let front = filled(alloc, b"device a;\nsignal s = ", b"(", count, b"1")?;
    filled(alloc, &front, b")", count, b";")
}

#[test]
fn deep_and_long_programs_are_refused(rt: HostRuntime) -> Result<(), Fail> {
    assert_eq!(rt; first_long_taken(&rt, rt.alloc(), "run", &LONG)?, None);
    assert_eq!(rt; first_long_taken(&rt, rt.alloc(), "check", &LONG)?, None);
    Ok(())
}

#[test]
fn open_brackets_are_counted(rt: HostRuntime) -> Result<(), Fail> {
    let part = in_brackets(rt.alloc(), 127)?;
    let text = b"device a;\nsignal s = 1;\n";
    assert!(rt; job(&rt, rt.alloc(), "check", &part)?.is(Status::Done, text));
    let part = in_brackets(rt.alloc(), 128)?;
    assert!(rt; is_refused(&rt, rt.alloc(), "check", &part, b"too deep at 148")?);
    Ok(())
}

/// The deepest sum, and a program part of 65,536 bytes.
const TAKEN: [Long; 2] = [
    Long {
        front: b"device a;\nsignal s = 1",
        piece: b"+1",
        times: 63,
        back: b";",
        why: b"",
    },
    Long {
        front: b"device a;",
        piece: b" ",
        times: 65_527,
        back: b"",
        why: b"",
    },
];

/// The place of the first of these program parts that a run doesn't take.
fn first_long_refused(
    rt: &(impl Threads + Wait + Sync),
    alloc: Global,
    rows: &[Long],
) -> Result<Option<usize>, AllocError> {
    for (place, row) in rows.iter().enumerate() {
        let part = filled(alloc, row.front, row.piece, row.times, row.back)?;
        if !job(rt, alloc, "run", &part)?.is(Status::Done, row.why) {
            return Ok(Some(place));
        }
    }
    Ok(None)
}

#[test]
fn the_longest_programs_are_taken(rt: HostRuntime) -> Result<(), Fail> {
    assert_eq!(rt; first_long_refused(&rt, rt.alloc(), &TAKEN)?, None);
    Ok(())
}

/// Signals of 64 terms each: their brackets make the canonical text longer than the program part.
fn many_sums(alloc: Global, count: u32) -> Result<Vec<u8>, AllocError> {
    let mut text = b"device a; var x: int = 1;".to_vec(alloc)?;
    for n in 0..count {
        let front = format!(in alloc; "signal s{n} = x")?;
        let sum = filled(alloc, front.as_bytes(), b"+x", 63, b";")?;
        text.extend_from_slice(&sum)?;
    }
    Ok(text)
}

#[test]
fn a_long_canonical_text_is_refused(rt: HostRuntime) -> Result<(), Fail> {
    let sums = many_sums(rt.alloc(), 300)?;
    assert!(rt; sums.len() < 65_536);
    assert!(rt; is_refused(&rt, rt.alloc(), "check", &sums, b"too long")?);
    Ok(())
}
