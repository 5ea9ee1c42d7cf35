//! A line as far as it is kept.
ghost use Rattle.std.specs.Prelude.{◌≡◌, ◌++◌, ◌∷◌, [], OnOk};
ghost use Rattle.re_tool.specs.Clipped.{clipped};

use std::alloc::{AllocError, Global};
use std::marker::Model;

/// The first bytes of a line, at most so many.
#[derive(Drop)]
pub struct ClippedLine {
    bytes: Vec<u8>,
    most: usize,
}

impl Model for ClippedLine {
    ghost use Rattle.std.specs.Prelude.{◌≤◌};
    ghost use Rattle.std.proofs.Common.{vec_len};
    ghost use Rattle.re_tool.specs.Clipped.{Clipped};

    ghost Value = { Clipped };

    ghost view = { λ l. record { items = l.bytes.items; most = l.most } };

    ghost invariant = { λ l. vec_len l.bytes ≤ l.most };
}

impl ClippedLine {
    /// An empty line. It takes no memory.
    pub fn new(alloc: Global, most: usize) -> ClippedLine
        ensures { result ≡ clipped most [] }
    {
        ClippedLine {
            bytes: Vec::new(alloc),
            most,
        }
    }

    /// Forgets all bytes.
    pub fn clear(&mut self)
        ensures { self.new ≡ clipped self.old.most [] }
    {
        self.bytes.clear();
    }

    /// Keeps the byte where there is room. The one refusal is want of memory.
    pub fn push(&mut self, byte: u8) -> Result<(), AllocError>
        ensures { OnOk result (self.new ≡ clipped self.old.most (self.old.items ++ byte ∷ [])) }
    {
        if self.bytes.len() < self.most {
            self.bytes.push(byte)?;
        }
        Ok(())
    }

    /// Keeps as many of the bytes as there is room for. The one refusal is want of memory.
    pub fn append(&mut self, bytes: &[u8]) -> Result<(), AllocError>
        ensures { OnOk result (self.new ≡ clipped self.old.most (self.old.items ++ bytes.now)) }
    {
        let room = self.most - self.bytes.len();
        let fits = room.min(bytes.len());
        self.bytes.extend_from_slice(&bytes[..fits])?;
        Ok(())
    }

    /// The bytes that are kept.
    pub fn bytes(&self) -> &[u8]
        ensures { result.now ≡ self.now.items }
    {
        &self.bytes
    }
}
