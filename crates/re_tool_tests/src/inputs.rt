//! The words of a command line, and how the input is read.
use crate::running::{OpenGate, ending, job, no_files, words_of, world_of};
use re_outside::{Failed, Outside};
use re_tool::{Status, tool};
use std::alloc::{AllocError, Global};
use std::sync::Wait;
use std::test::Fail;
use std::thread::Threads;

const SUM: &[u8] =
    b"device a; var x: int = 2; signal s = x + 3;\n---\nget a s\nturn a x = 5\nget a s\n";

/// Command lines that aren't accepted.
const BAD_WORDS: [&[&str]; 8] = [
    &["run", "now"],
    &["--help"],
    &["check", "check"],
    &[],
    &["play", "0"],
    &["play", "03"],
    &["sample", "1", "10001"],
    &["run "],
];

/// The place of the first of these command lines that isn't refused.
fn first_accepted(
    rt: &(impl Threads + Wait + Sync),
    alloc: Global,
    lines: &[&[&str]],
) -> Result<Option<usize>, AllocError> {
    for (place, words) in lines.iter().enumerate() {
        let world = world_of(alloc, SUM, no_files(alloc), &[])?;
        if !ending(rt, alloc, *words, world)?.is(Status::Words, b"rescala: bad words\n") {
            return Ok(Some(place));
        }
    }
    Ok(None)
}

#[test]
fn other_words_are_refused(rt: HostRuntime) -> Result<(), Fail> {
    assert_eq!(rt; first_accepted(&rt, rt.alloc(), &BAD_WORDS)?, None);
    Ok(())
}

/// An input of this length, whose session has empty lines alone.
fn empty_lines(alloc: Global, length: usize) -> Result<Vec<u8>, AllocError> {
    let mut input = b"device a;\n---\n".to_vec(alloc)?;
    input.resize(length, b'\n')?;
    Ok(input)
}

#[test]
fn too_much_input_ends_the_run(rt: HostRuntime) -> Result<(), Fail> {
    let most = empty_lines(rt.alloc(), 16_777_216)?;
    assert!(rt; job(&rt, rt.alloc(), "run", &most)?.is(Status::Done, b""));
    let more = empty_lines(rt.alloc(), 16_777_217)?;
    let said = b"rescala: input too long\n";
    assert!(rt; job(&rt, rt.alloc(), "run", &more)?.is(Status::TooLong, said));
    Ok(())
}

/// Lines that are refused, among them one of 1,025 blanks, and some that end with CR and LF.
fn bad_lines(alloc: Global) -> Result<Vec<u8>, AllocError> {
    let mut input =
        b"device a; var x: int = 2; signal s = x + x;\r\n---\r\nget a y\nturn a x = 9223372036854775808\n \t# nothing\n\x00\n".to_vec(
            alloc,
        )?;
    input.resize(input.len().saturating_add(1025), b' ')?;
    input.extend_from_slice(b"\nturn a x = -9223372036854775808\r\nget a s\nget b s\nget a x\r")?;
    Ok(input)
}

#[test]
fn bad_lines_lose_nothing(rt: HostRuntime) -> Result<(), Fail> {
    let input = bad_lines(rt.alloc())?;
    let said = b"no 21\nno 20\nno 20\nno 20\nok 1\nfault 1\nno 21\n-9223372036854775808\n";
    assert!(rt; job(&rt, rt.alloc(), "run", &input)?.is(Status::Done, said));
    Ok(())
}

/// An outside whose input comes byte by byte, and which looks at how many answers stand before each.
#[derive(Drop)]
struct Typist<O> {
    out: O,
    lines: u64,
    answers: u64,
    is_late: bool,
}

impl<O: Outside> Outside for Typist<O> {
    ghost tells = { O.tells };

    ghost seen = { λ t. O.seen t.out };

    ghost tells_always = { λ t. O.tells_always t.out };

    ghost reads_left = { λ t. O.reads_left t.out };

    fn take(&mut self, buf: &mut [u8]) -> Result<usize, Failed> {
        // The first two lines are the program part and its separator, and each later one is answered before the next.
        if self.answers < self.lines.saturating_sub(2) {
            self.is_late = true;
        }
        let room = buf.len().min(1);
        let n = self.out.take(&mut buf[..room])?;
        if n > 0 && buf[0] == b'\n' {
            self.lines = self.lines.saturating_add(1);
        }
        Ok(n)
    }

    fn say(&mut self, bytes: &[u8]) -> Result<usize, Failed> {
        self.answers = self.answers.saturating_add(1);
        self.out.say(bytes)
    }

    fn size(&mut self, device: u8, file: u8) -> Result<u64, Failed> {
        self.out.size(device, file)
    }

    fn fetch(&mut self, device: u8, file: u8, at: u64, buf: &mut [u8]) -> Result<usize, Failed> {
        self.out.fetch(device, file, at, buf)
    }

    fn write(&mut self, device: u8, file: u8, at: u64, bytes: &[u8]) -> Result<(), Failed> {
        self.out.write(device, file, at, bytes)
    }

    fn cut(&mut self, device: u8, file: u8, length: u64) -> Result<(), Failed> {
        self.out.cut(device, file, length)
    }

    fn sync(&mut self, device: u8, file: u8) -> Result<(), Failed> {
        self.out.sync(device, file)
    }
}

/// How many answers a run gives to this input, none where one came late or the input wasn't read to its end.
fn prompt_answers(
    rt: &(impl Threads + Wait + Sync),
    alloc: Global,
    input: &[u8],
) -> Result<Option<u64>, AllocError> {
    let mut typist = Typist {
        out: world_of(alloc, input, no_files(alloc), &[])?,
        lines: 0,
        answers: 0,
        is_late: false,
    };
    let words = words_of(alloc, &["run"])?;
    if tool(rt, alloc, &words, &mut typist, &OpenGate) != Status::Done || typist.is_late {
        return Ok(None);
    }
    Ok(Some(typist.answers))
}

#[test]
fn lines_are_answered_as_they_come(rt: HostRuntime) -> Result<(), Fail> {
    let input = b"device a; var x: int = 1;\n---\nget a x\nturn a x = 2\nget a x\nget a\n";
    assert_eq!(rt; prompt_answers(&rt, rt.alloc(), input)?, Some(4));
    Ok(())
}
