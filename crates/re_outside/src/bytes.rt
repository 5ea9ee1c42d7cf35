//! Lists of bytes.
ghost use Rattle.std.specs.Prelude.{◌≡◌, ◌==◌, [], ◌∷◌, ◌++◌, ◌<◌, ◌≤◌, ◌-◌, length, slice_get, slice_set, insert, remove, take, max, IfOk, OnOk, OnErr, IsOk, Some};
ghost use Rattle.std.specs.Option.{option_copied};
ghost use Rattle.re_outside.specs.Listed.{plain};

use std::alloc::{AllocError, Global};
use std::marker::Model;

/// A list of bytes. Beside its items it has a spare: how many pushes or inserts can't fail.
///
/// The spare is 0 until `reserve` is called, whatever room the vector happens to have.
#[derive(Drop)]
pub struct Bytes {
    items: Vec<u8>,
    spare: usize,
}

impl Model for Bytes {
    ghost use Rattle.std.specs.Prelude.{ℕ, ◌≤◌, ◌+◌};
    ghost use Rattle.std.specs.Coded.{coded_ℕ};
    ghost use Rattle.std.proofs.Common.{vec_len, vec_capacity};
    ghost use Rattle.re_outside.specs.Listed.{Listed, listed_code};

    ghost Value = { Listed ℕ };

    ghost coded = { listed_code coded_ℕ };

    ghost view = { λ b. record { items = b.items.items; spare = b.spare } };

    ghost invariant = { λ b. vec_len b.items + b.spare ≤ vec_capacity b.items };
}

impl Bytes {
    /// An empty list. It takes no memory.
    pub fn new(alloc: Global) -> Bytes
        ensures { result ≡ plain [] }
    {
        Bytes {
            items: Vec::new(alloc),
            spare: 0,
        }
    }

    /// An empty list with memory for `n` bytes, none of which it claims as spare.
    ///
    /// The one refusal is want of memory.
    pub fn with_capacity(alloc: Global, n: usize) -> Result<Bytes, AllocError>
        ensures { IfOk result (λ bytes. bytes ≡ plain []) }
    {
        Ok(Bytes {
            items: Vec::with_capacity(alloc, n)?,
            spare: 0,
        })
    }

    /// A list of these bytes, with no spare.
    pub fn from_vec(items: Vec<u8>) -> Bytes
        ensures { result ≡ plain items.items }
    {
        Bytes { items, spare: 0 }
    }

    /// A list of these bytes, with no spare. The one refusal is want of memory.
    pub fn from_slice(alloc: Global, items: &[u8]) -> Result<Bytes, AllocError>
        ensures { IfOk result (λ bytes. bytes ≡ plain items.now) }
    {
        Ok(Bytes::from_vec(items.to_vec(alloc)?))
    }

    /// How many bytes it has.
    pub fn len(&self) -> usize
        ensures { result ≡ length self.now.items }
    {
        self.items.len()
    }

    /// Whether it has none.
    pub fn is_empty(&self) -> bool
        ensures { result ≡ (length self.now.items == 0) }
    {
        self.items.len() == 0
    }

    /// The byte at place `i`, counted from 0.
    pub fn get(&self, i: usize) -> Option<&u8>
        ensures { option_copied result ≡ slice_get self.now.items i }
    {
        self.items.get(i)
    }

    /// Its bytes, in order.
    pub fn as_slice(&self) -> &[u8]
        ensures { result.now ≡ self.now.items }
    {
        &self.items
    }

    /// Takes the byte at place `i` out, and moves those behind it up.
    pub fn remove(&mut self, i: usize) -> u8
        requires { i < length self.old.items }
        ensures item { slice_get self.old.items i ≡ Some result }
        ensures rest { self.new ≡ record { items = remove self.old.items i; spare = self.old.spare } }
    {
        self.items.remove(i)
    }

    /// Puts a byte in the place of the one at `i`.
    pub fn set(&mut self, i: usize, value: u8)
        requires { i < length self.old.items }
        ensures { self.new ≡ record { items = slice_set self.old.items i value; spare = self.old.spare } }
    {
        self.items[i] = value;
    }

    /// Keeps the first `n` bytes.
    pub fn truncate(&mut self, n: usize)
        ensures { self.new ≡ record { items = take n self.old.items; spare = self.old.spare } }
    {
        self.items.truncate(n);
    }

    /// Puts a byte behind the others. The one refusal is want of memory, and leaves the list as it was.
    pub fn push(&mut self, value: u8) -> Result<(), AllocError>
        ensures room { 0 < self.old.spare → IsOk result }
        ensures ok { OnOk result (self.new ≡ record { items = self.old.items ++ value ∷ []; spare = self.old.spare - 1 }) }
        ensures err { OnErr result (self.new ≡ self.old) }
    {
        if self.spare > 0 {
            self.items.push_reserved(value);
            self.spare -= 1;
            return Ok(());
        }
        self.items.push(value)?;
        Ok(())
    }

    /// Puts a byte at place `i`, before the one that was there.
    ///
    /// The one refusal is want of memory, and leaves the list as it was.
    pub fn insert(&mut self, i: usize, value: u8) -> Result<(), AllocError>
        requires { i ≤ length self.old.items }
        ensures room { 0 < self.old.spare → IsOk result }
        ensures ok { OnOk result (self.new ≡ record { items = insert self.old.items i value; spare = self.old.spare - 1 }) }
        ensures err { OnErr result (self.new ≡ self.old) }
    {
        self.items.insert(i, value)?;
        self.spare = self.spare.saturating_sub(1);
        Ok(())
    }

    /// Makes the spare at least `n`. The one refusal is want of memory, and leaves the list as it was.
    pub fn reserve(&mut self, n: usize) -> Result<(), AllocError>
        ensures ok { OnOk result (self.new ≡ record { items = self.old.items; spare = max self.old.spare n }) }
        ensures err { OnErr result (self.new ≡ self.old) }
    {
        if self.spare >= n {
            return Ok(());
        }
        self.items.reserve(n)?;
        self.spare = n;
        Ok(())
    }

    /// An equal list, with the same spare. The one refusal is want of memory.
    pub fn copy(&self, alloc: Global) -> Result<Bytes, AllocError>
        ensures { IfOk result (λ copied. copied ≡ self.now) }
    {
        let mut copied = Bytes::from_slice(alloc, &self.items)?;
        copied.reserve(self.spare)?;
        Ok(copied)
    }
}
