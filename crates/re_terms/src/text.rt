//! Texts of bytes.
ghost use Rattle.std.specs.Prelude.{◌≡◌, ◌==◌, [], ◌∷◌, ◌++◌, ◌<◌, ◌≤◌, ◌-◌, length, slice_get, slice_set, insert, remove, take, max, IfOk, OnOk, OnErr, IsOk, Some};
ghost use Rattle.std.specs.Option.{option_copied};
ghost use Rattle.re_terms.specs.Listed.{plain};

use crate::{Seq, TryCopy};
use std::alloc::{AllocError, Global};
use std::marker::Model;

/// A text of bytes, as a name is. Contracts see it as they see a `Seq` of bytes.
#[derive(Drop)]
pub struct Text {
    bytes: Seq<u8>,
}

impl Model for Text {
    ghost use Rattle.std.specs.Prelude.{ℕ};
    ghost use Rattle.std.specs.Coded.{coded_ℕ};
    ghost use Rattle.re_terms.specs.Listed.{Listed, listed_code};

    ghost Value = { Listed ℕ };

    ghost coded = { listed_code coded_ℕ };

    ghost view = { λ t. t.bytes };
}

impl Text {
    /// An empty text. It takes no memory.
    pub fn new(alloc: Global) -> Text
        ensures { result ≡ plain [] }
    {
        Text {
            bytes: Seq::new(alloc),
        }
    }

    /// An empty text with memory for `n` bytes, none of which it claims as spare.
    ///
    /// The one refusal is want of memory.
    pub fn with_capacity(alloc: Global, n: usize) -> Result<Text, AllocError>
        ensures { IfOk result (λ text. text ≡ plain []) }
    {
        Ok(Text {
            bytes: Seq::with_capacity(alloc, n)?,
        })
    }

    /// A text of these bytes, with no spare. The one refusal is want of memory.
    pub fn from_bytes(alloc: Global, bytes: &[u8]) -> Result<Text, AllocError>
        ensures { IfOk result (λ text. text ≡ plain bytes.now) }
    {
        Ok(Text {
            bytes: Seq::from_vec(bytes.to_vec(alloc)?),
        })
    }

    /// How many bytes it has.
    pub fn len(&self) -> usize
        ensures { result ≡ length self.now.items }
    {
        self.bytes.len()
    }

    /// Whether it has none.
    pub fn is_empty(&self) -> bool
        ensures { result ≡ (length self.now.items == 0) }
    {
        self.bytes.is_empty()
    }

    /// The byte at place `i`, counted from 0.
    pub fn get(&self, i: usize) -> Option<&u8>
        ensures { option_copied result ≡ slice_get self.now.items i }
    {
        self.bytes.get(i)
    }

    /// Its bytes, in order.
    pub fn as_slice(&self) -> &[u8]
        ensures { result.now ≡ self.now.items }
    {
        self.bytes.as_slice()
    }

    /// Takes the byte at place `i` out, and moves those behind it up.
    pub fn remove(&mut self, i: usize) -> u8
        requires { i < length self.old.items }
        ensures item { slice_get self.old.items i ≡ Some result }
        ensures rest { self.new ≡ record { items = remove self.old.items i; spare = self.old.spare } }
    {
        self.bytes.remove(i)
    }

    /// Puts a byte in the place of the one at `i`.
    pub fn set(&mut self, i: usize, value: u8)
        requires { i < length self.old.items }
        ensures { self.new ≡ record { items = slice_set self.old.items i value; spare = self.old.spare } }
    {
        self.bytes.set(i, value);
    }

    /// Keeps the first `n` bytes.
    pub fn truncate(&mut self, n: usize)
        ensures { self.new ≡ record { items = take n self.old.items; spare = self.old.spare } }
    {
        self.bytes.truncate(n);
    }

    /// Puts a byte behind the others. The one refusal is want of memory, and leaves the text as it was.
    pub fn push(&mut self, value: u8) -> Result<(), AllocError>
        ensures room { 0 < self.old.spare → IsOk result }
        ensures ok { OnOk result (self.new ≡ record { items = self.old.items ++ value ∷ []; spare = self.old.spare - 1 }) }
        ensures err { OnErr result (self.new ≡ self.old) }
    {
        self.bytes.push(value)
    }

    /// Puts a byte at place `i`, before the one that was there.
    ///
    /// The one refusal is want of memory, and leaves the text as it was.
    pub fn insert(&mut self, i: usize, value: u8) -> Result<(), AllocError>
        requires { i ≤ length self.old.items }
        ensures room { 0 < self.old.spare → IsOk result }
        ensures ok { OnOk result (self.new ≡ record { items = insert self.old.items i value; spare = self.old.spare - 1 }) }
        ensures err { OnErr result (self.new ≡ self.old) }
    {
        self.bytes.insert(i, value)
    }

    /// Makes the spare at least `n`. The one refusal is want of memory, and leaves the text as it was.
    pub fn reserve(&mut self, n: usize) -> Result<(), AllocError>
        ensures ok { OnOk result (self.new ≡ record { items = self.old.items; spare = max self.old.spare n }) }
        ensures err { OnErr result (self.new ≡ self.old) }
    {
        self.bytes.reserve(n)
    }
}

impl TryCopy for Text {
    /// An equal text, with the same spare.
    fn copy(&self, alloc: Global) -> Result<Text, AllocError> {
        Ok(Text {
            bytes: self.bytes.copy(alloc)?,
        })
    }
}

#[cfg(test)]
mod tests {
    use super::*;
    use std::test::Fail;

    #[test]
    fn changes_a_text(rt: HostRuntime) -> Result<(), Fail> {
        let alloc = rt.alloc();
        let mut text = Text::from_bytes(alloc, b"nose")?;
        assert!(rt; text.len() == 4);
        text.set(0, b'r');
        text.push(b's')?;
        text.insert(0, b'p')?;
        assert_eq!(rt; text.as_slice(), b"proses".as_slice());
        assert_eq!(rt; text.remove(0), b'p');
        text.truncate(4);
        assert_eq!(rt; text.as_slice(), b"rose".as_slice());
        assert_eq!(rt; text.get(1).copied(), Some(b'o'));
        assert!(rt; !text.is_empty());
        Ok(())
    }

    #[test]
    fn reserves_and_copies(rt: HostRuntime) -> Result<(), Fail> {
        let alloc = rt.alloc();
        let mut text = Text::new(alloc);
        text.reserve(2)?;
        let mut copied = text.copy(alloc)?;
        copied.push(b'a')?;
        assert_eq!(rt; copied.as_slice(), b"a".as_slice());
        assert!(rt; text.is_empty());
        assert!(rt; Text::with_capacity(alloc, 4)?.is_empty());
        Ok(())
    }
}
