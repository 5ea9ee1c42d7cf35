//! Words, and their kinds.
use crate::TryCopy;
use std::alloc::{AllocError, Global};

/// What a declaration says that a word is.
#[derive(Clone, Copy, Debug, PartialEq, Eq)]
pub enum Kind {
    Int,
    Bool,
    Sym,
}

/// A word: a value, or a fault in the place of one.
#[derive(Clone, Copy, Debug, PartialEq, Eq)]
pub enum Word {
    /// A whole number of 64 bits.
    Int(i64),
    /// A truth value.
    Bool(bool),
    /// The number of a declared symbol, from 0 in order of declaration.
    Sym(u16),
    /// A fault's code: 1 overflow, 2 division by zero, 100 to 999 from `fault(n)`.
    Fault(u32),
}

impl TryCopy for Word {
    fn copy(&self, _alloc: Global) -> Result<Word, AllocError> {
        Ok(*self)
    }
}
