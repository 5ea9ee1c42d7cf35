//! Lists.
ghost use Rattle.std.specs.Prelude.{◌≡◌, ◌==◌, [], ◌∷◌, ◌++◌, ◌<◌, ◌≤◌, ◌-◌, length, slice_get, slice_set, insert, remove, take, max, IfOk, OnOk, OnErr, IsOk};
ghost use Rattle.std.specs.Option.{option_copied};
ghost use Rattle.re_terms.specs.Listed.{plain};

use crate::TryCopy;
use std::alloc::{AllocError, Global};
use std::marker::Model;
use std::mem;

/// A list over a vector. Beside its items it has a spare: how many pushes or inserts can't fail.
///
/// The spare is 0 until `reserve` is called, whatever room the vector happens to have.
#[derive(Drop)]
pub struct Seq<T> {
    items: Vec<T>,
    spare: usize,
}

impl<T> Model for Seq<T> {
    ghost use Rattle.std.specs.Prelude.{◌≤◌, ◌+◌};
    ghost use Rattle.std.proofs.Common.{vec_len, vec_capacity};
    ghost use Rattle.re_terms.specs.Listed.{Listed, listed_code};

    ghost Value = { Listed T };

    ghost coded = { listed_code T.code };

    ghost view = { λ s. record { items = s.items.items; spare = s.spare } };

    ghost invariant = { λ s. vec_len s.items + s.spare ≤ vec_capacity s.items };
}

impl<T> Seq<T> {
    /// An empty list. It takes no memory.
    pub fn new(alloc: Global) -> Seq<T>
        ensures { result ≡ plain [] }
    {
        Seq {
            items: Vec::new(alloc),
            spare: 0,
        }
    }

    /// An empty list with memory for `n` items, none of which it claims as spare.
    ///
    /// The one refusal is want of memory.
    pub fn with_capacity(alloc: Global, n: usize) -> Result<Seq<T>, AllocError>
        ensures { IfOk result (λ list. list ≡ plain []) }
    {
        Ok(Seq {
            items: Vec::with_capacity(alloc, n)?,
            spare: 0,
        })
    }

    /// A list of these items, with no spare.
    pub fn from_vec(items: Vec<T>) -> Seq<T>
        ensures { result ≡ plain items.items }
    {
        Seq { items, spare: 0 }
    }

    /// How many items it has.
    pub fn len(&self) -> usize
        ensures { result ≡ length self.now.items }
    {
        self.items.len()
    }

    /// Whether it has none.
    pub fn is_empty(&self) -> bool
        ensures { result ≡ (length self.now.items == 0) }
    {
        self.items.len() == 0
    }

    /// The item at place `i`, counted from 0.
    pub fn get(&self, i: usize) -> Option<&T>
        ensures { option_copied result ≡ slice_get self.now.items i }
    {
        self.items.get(i)
    }

    /// Its items, in order.
    pub fn as_slice(&self) -> &[T]
        ensures { result.now ≡ self.now.items }
    {
        &self.items
    }

    /// Takes the item at place `i` out, and moves those behind it up.
    pub fn remove(&mut self, i: usize) -> T
        requires { i < length self.old.items }
        ensures item { slice_get self.old.items i ≡ Some result }
        ensures rest { self.new ≡ record { items = remove self.old.items i; spare = self.old.spare } }
    {
        self.items.remove(i)
    }
}

impl<T: Drop> Seq<T> {
    /// Puts an item in the place of the one at `i`.
    pub fn set(&mut self, i: usize, value: T)
        requires { i < length self.old.items }
        ensures { self.new ≡ record { items = slice_set self.old.items i value; spare = self.old.spare } }
    {
        self.items[i] = value;
    }

    /// Puts an item in the place of the one at `i`, and gives that one.
    pub fn replace(&mut self, i: usize, value: T) -> T
        requires { i < length self.old.items }
        ensures item { slice_get self.old.items i ≡ Some result }
        ensures rest { self.new ≡ record { items = slice_set self.old.items i value; spare = self.old.spare } }
    {
        mem::replace(&mut self.items[i], value)
    }

    /// Keeps the first `n` items.
    pub fn truncate(&mut self, n: usize)
        ensures { self.new ≡ record { items = take n self.old.items; spare = self.old.spare } }
    {
        self.items.truncate(n);
    }

    /// Puts an item behind the others. The one refusal is want of memory, and leaves the list as it was.
    pub fn push(&mut self, value: T) -> Result<(), AllocError>
        ensures room { 0 < self.old.spare → IsOk result }
        ensures ok { OnOk result (self.new ≡ record { items = self.old.items ++ value ∷ []; spare = self.old.spare - 1 }) }
        ensures err { OnErr result (self.new ≡ self.old) }
    {
        if self.spare > 0 {
            self.items.push_reserved(value);
            self.spare -= 1;
            return Ok(());
        }
        self.items.push(value)?;
        Ok(())
    }

    /// Puts an item at place `i`, before the one that was there.
    ///
    /// The one refusal is want of memory, and leaves the list as it was.
    pub fn insert(&mut self, i: usize, value: T) -> Result<(), AllocError>
        requires { i ≤ length self.old.items }
        ensures room { 0 < self.old.spare → IsOk result }
        ensures ok { OnOk result (self.new ≡ record { items = insert self.old.items i value; spare = self.old.spare - 1 }) }
        ensures err { OnErr result (self.new ≡ self.old) }
    {
        self.items.insert(i, value)?;
        self.spare = self.spare.saturating_sub(1);
        Ok(())
    }

    /// Makes the spare at least `n`. The one refusal is want of memory, and leaves the list as it was.
    pub fn reserve(&mut self, n: usize) -> Result<(), AllocError>
        ensures ok { OnOk result (self.new ≡ record { items = self.old.items; spare = max self.old.spare n }) }
        ensures err { OnErr result (self.new ≡ self.old) }
    {
        if self.spare >= n {
            return Ok(());
        }
        self.items.reserve(n)?;
        self.spare = n;
        Ok(())
    }
}

impl<T: TryCopy + Drop> TryCopy for Seq<T> {
    /// An equal list, with the same spare.
    fn copy(&self, alloc: Global) -> Result<Seq<T>, AllocError> {
        let mut items = Vec::with_capacity(alloc, self.items.len() + self.spare)?;
        for item in &self.items {
            items.push_reserved(item.copy(alloc)?);
        }
        Ok(Seq {
            items,
            spare: self.spare,
        })
    }
}

#[cfg(test)]
mod tests {
    use super::*;
    use std::test::Fail;

    #[test]
    fn changes_a_list(rt: HostRuntime) -> Result<(), Fail> {
        let alloc = rt.alloc();
        let mut list = Seq::new(alloc);
        assert!(rt; list.is_empty());
        for value in [3u16, 5, 7] {
            list.push(value)?;
        }
        assert!(rt; list.len() == 3);
        list.insert(1, 4)?;
        list.set(0, 2);
        assert_eq!(rt; list.as_slice(), [2u16, 4, 5, 7].as_slice());
        assert_eq!(rt; list.remove(2), 5);
        list.truncate(2);
        assert_eq!(rt; list.as_slice(), [2u16, 4].as_slice());
        assert_eq!(rt; list.get(1).copied(), Some(4));
        assert_eq!(rt; list.replace(1, 6), 4);
        assert_eq!(rt; list.as_slice(), [2u16, 6].as_slice());
        assert_eq!(rt; list.get(2).copied(), None);
        Ok(())
    }

    #[test]
    fn reserves_and_copies(rt: HostRuntime) -> Result<(), Fail> {
        let alloc = rt.alloc();
        let mut list = Seq::from_vec(vec![in alloc; 9u16, 8]?);
        list.reserve(2)?;
        let mut copied = list.copy(alloc)?;
        copied.push(7)?;
        assert_eq!(rt; copied.as_slice(), [9u16, 8, 7].as_slice());
        assert_eq!(rt; list.as_slice(), [9u16, 8].as_slice());
        let empty = Seq::<u16>::with_capacity(alloc, 4)?;
        assert!(rt; empty.is_empty());
        Ok(())
    }
}
