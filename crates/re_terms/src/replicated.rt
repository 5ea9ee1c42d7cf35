//! Replicated states.
ghost use Rattle.std.specs.Prelude.{◌≡◌};
ghost use Rattle.re_terms.specs.Shapes.{pair_count};

use crate::{Kind, Seq, TryCopy, Word};
use std::alloc::{AllocError, Global};

/// The name of an update: a device's number, from 0 to 15, and the update's number there, from 1.
#[derive(Clone, Copy, Debug, PartialEq, Eq)]
pub struct Dot {
    pub device: u8,
    pub number: u64,
}

/// A version vector: for each device the greatest number that is covered, below 2^48.
#[derive(Clone, Copy, Debug, PartialEq, Eq)]
pub struct Vector {
    pub counts: [u64; 16],
}

/// A counter: for each device the totals of its increments and decrements, each at most 2^63 - 1.
#[derive(Clone, Copy, Debug, PartialEq, Eq)]
pub struct Rows {
    pub plus: [u64; 16],
    pub minus: [u64; 16],
}

/// An element of a set, and the dot of the insert that put it there.
#[derive(Clone, Copy, Debug, PartialEq, Eq)]
pub struct Pair {
    pub element: Word,
    pub dot: Dot,
}

/// A register's write: its stamp, below 2^52, its device and its word. Stamp 0 is the start word, of device 0.
#[derive(Clone, Copy, Debug, PartialEq, Eq)]
pub struct Written {
    pub stamp: u64,
    pub device: u8,
    pub word: Word,
}

/// The state of a replicated cell.
#[derive(Drop)]
pub enum RCell {
    Counter(Rows),
    /// Pairs ascend strictly by element, device and number.
    Set(Seq<Pair>),
    Register(Written),
}

impl RCell {
    /// How many pairs it has: 0 where it is no set.
    pub fn pair_count(&self) -> usize
        ensures { result ≡ pair_count self.now }
    {
        match self {
            RCell::Set(pairs) => pairs.len(),
            RCell::Counter(_) | RCell::Register(_) => 0,
        }
    }
}

/// The state of all replicated cells of a device, in order of declaration, and the one vector that stands for them.
#[derive(Drop)]
pub struct RState {
    pub vector: Vector,
    pub cells: Seq<RCell>,
}

/// What a replicated cell is. The word of a register is its start word.
#[derive(Clone, Copy, Debug, PartialEq, Eq)]
pub enum RKind {
    Counter,
    Set(Kind),
    Register(Kind, Word),
}

/// What the state of a replicated cell consists of.
#[derive(Clone, Copy, Debug, PartialEq, Eq)]
pub enum Layout {
    Rows,
    Pairs(Kind),
    Written(Kind, Word),
}

/// What a replicated state of a program has: the counts of devices and of symbols, and the kinds of its cells.
#[derive(Drop)]
pub struct Shape {
    pub devices: u8,
    pub symbols: u16,
    pub cells: Seq<RKind>,
}

/// What an operation does to its cell.
#[derive(Clone, Copy, Debug, PartialEq, Eq)]
pub enum Act {
    Add(i64),
    Insert(Word),
    Remove(Word),
    Write(Word),
}

/// An operation on a replicated cell, by the cell's place among the replicated ones, from 0.
#[derive(Clone, Copy, Debug, PartialEq, Eq)]
pub struct RepOp {
    pub cell: u8,
    pub act: Act,
}

/// Why a set can't take an element.
#[derive(Clone, Copy, Debug, PartialEq, Eq)]
pub enum SetFault {
    Memory,
    /// It would have more pairs than there is room for.
    SetFull,
}

impl TryCopy for Pair {
    fn copy(&self, _alloc: Global) -> Result<Pair, AllocError> {
        Ok(*self)
    }
}

impl TryCopy for RKind {
    fn copy(&self, _alloc: Global) -> Result<RKind, AllocError> {
        Ok(*self)
    }
}

impl TryCopy for RepOp {
    fn copy(&self, _alloc: Global) -> Result<RepOp, AllocError> {
        Ok(*self)
    }
}

impl TryCopy for RCell {
    fn copy(&self, alloc: Global) -> Result<RCell, AllocError> {
        match self {
            RCell::Counter(rows) => Ok(RCell::Counter(*rows)),
            RCell::Set(pairs) => Ok(RCell::Set(pairs.copy(alloc)?)),
            RCell::Register(written) => Ok(RCell::Register(*written)),
        }
    }
}

impl TryCopy for RState {
    fn copy(&self, alloc: Global) -> Result<RState, AllocError> {
        Ok(RState {
            vector: self.vector,
            cells: self.cells.copy(alloc)?,
        })
    }
}

impl TryCopy for Shape {
    fn copy(&self, alloc: Global) -> Result<Shape, AllocError> {
        Ok(Shape {
            devices: self.devices,
            symbols: self.symbols,
            cells: self.cells.copy(alloc)?,
        })
    }
}
