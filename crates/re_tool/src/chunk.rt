//! Bytes that were taken from the input and not looked at yet.
ghost use Rattle.std.specs.Prelude.{◌≡◌, ◌≤◌, ◌<◌, [], ◌∷◌, length, MatchOption, IfOk, OnOk, OnErr};
ghost use Rattle.re_outside.specs.Outside.{Does, Fails, IsAtEnd, none, input_fault};

use re_outside::{Call, Failed, Outside};
use std::marker::Model;

const SIZE: usize = 16384;

/// A piece of the input, of which contracts see the bytes that are still ahead.
#[derive(Drop)]
pub struct Chunk {
    bytes: [u8; 16384],
    at: usize,
    end: usize,
}

impl Model for Chunk {
    ghost use Rattle.std.specs.Prelude.{List, ℕ, take, drop, ◌≤◌};

    ghost Value = { List ℕ };

    ghost view = { λ c. drop c.at (take c.end c.bytes) };

    ghost invariant = { λ c. (c.at ≤ c.end) × (c.end ≤ 16384) };
}

impl Chunk {
    /// No bytes ahead.
    pub fn new() -> Chunk
        ensures { result ≡ [] }
    {
        Chunk {
            bytes: [0; 16384],
            at: 0,
            end: 0,
        }
    }

    /// The next byte, where one is ahead.
    pub fn next(&mut self) -> Option<u8>
        ensures { MatchOption result ((self.old ≡ []) × (self.new ≡ [])) (λ b. self.old ≡ b ∷ self.new) }
    {
        if self.at >= self.end {
            return None;
        }
        let byte = self.bytes[self.at];
        self.at += 1;
        Some(byte)
    }

    /// Takes some bytes, at most so many, and none only at the end of the input.
    pub fn fill<O: Outside>(&mut self, out: &mut O, most: usize) -> Result<usize, Failed>
        requires empty { self.old ≡ [] }
        requires some { 0 < most }
        ensures count { IfOk result (λ n. (n ≡ length self.new) × (n ≤ most)) }
        ensures given { OnOk result (Does (O.seen out.old) (O.seen out.new) self.new [] none) }
        ensures end { IfOk result (λ n. n ≡ 0 → IsAtEnd (O.seen out.new)) }
        ensures failed { OnErr result ((self.new ≡ []) × Fails (O.seen out.old) (O.seen out.new) Call.Take input_fault) }
    {
        let room = most.min(SIZE);
        self.at = 0;
        self.end = 0;
        let n = out.take(&mut self.bytes[..room])?;
        self.end = n;
        Ok(n)
    }
}
