//! Reads lines of an input that comes in chunks, in constant memory.
ghost use Rattle.std.specs.Prelude.{◌≡◌, ◌≤◌, []};
ghost use Rattle.re_tool.specs.Reads.{ScanGives, RefillGives, NextGives, limit};

use crate::chunk::Chunk;
use crate::line::ClippedLine;
use re_outside::{Failed, Outside};
use std::alloc::AllocError;

/// How many bytes of input may be taken.
const LIMIT: usize = 16777216;

const LF: u8 = 10;

/// The input ahead, and how many bytes were taken.
#[derive(Drop)]
pub struct Reader {
    pub chunk: Chunk,
    pub taken: usize,
}

/// What a line ended with.
#[derive(Clone, Copy, Debug, PartialEq, Eq)]
pub enum Next {
    /// An LF.
    Line,
    /// The end of the input.
    End,
    /// A byte behind the greatest length.
    TooLong,
}

/// Why no line could be read.
#[derive(Clone, Copy, Debug, PartialEq, Eq)]
pub enum Halt {
    Memory,
    Input,
}

#[derive(Clone, Copy, Debug, PartialEq, Eq)]
enum Refill {
    Some,
    End,
    TooLong,
}

impl Reader {
    /// Before the first byte.
    pub fn new() -> Reader
        ensures { result ≡ record { chunk = []; taken = 0 } }
    {
        Reader {
            chunk: Chunk::new(),
            taken: 0,
        }
    }

    /// Passes over bytes up to an LF, and says whether there was one.
    fn scan(&mut self, line: &mut ClippedLine) -> Result<bool, AllocError>
        ensures { ScanGives self.old self.new line.old line.new result }
    {
        while let Some(byte) = self.chunk.next() {
            if byte == LF {
                return Ok(true);
            }
            line.push(byte)?;
        }
        Ok(false)
    }

    /// Takes some bytes where none are ahead: up to the limit, and then exactly one more.
    fn refill<O: Outside>(&mut self, out: &mut O) -> Result<Refill, Failed>
        requires empty { self.old.chunk ≡ [] }
        requires few { self.old.taken ≤ limit }
        ensures { RefillGives self.old self.new (O.seen out.old) (O.seen out.new) result }
    {
        if self.taken < LIMIT {
            let n = self.chunk.fill(out, LIMIT - self.taken)?;
            self.taken += n;
            if n == 0 {
                return Ok(Refill::End);
            }
            return Ok(Refill::Some);
        }
        let n = self.chunk.fill(out, 1)?;
        self.taken += n;
        if n == 0 {
            return Ok(Refill::End);
        }
        Ok(Refill::TooLong)
    }

    /// Passes over the next line, and keeps it as far as the line has room.
    pub fn next<O: Outside>(&mut self, line: &mut ClippedLine, out: &mut O) -> Result<Next, Halt>
        requires few { self.old.taken ≤ limit }
        ensures { NextGives self.old self.new line.new line.old.most (O.seen out.old) (O.seen out.new) result }
    {
        line.clear();
        'pieces: loop {
            let Ok(found) = self.scan(line) else {
                return Err(Halt::Memory);
            };
            if found {
                return Ok(Next::Line);
            }
            match self.refill(out) {
                Ok(Refill::Some) => {}
                Ok(Refill::End) => return Ok(Next::End),
                Ok(Refill::TooLong) => return Ok(Next::TooLong),
                Err(_) => return Err(Halt::Input),
            }
        }
    }
}
