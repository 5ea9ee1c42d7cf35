//! Turns, entries and states.
use crate::{RState, RepOp, Seq, TryCopy, Word};
use std::alloc::{AllocError, Global};

/// A word for a declaration, by its id.
#[derive(Clone, Copy, Debug, PartialEq, Eq)]
pub struct Put {
    pub id: u16,
    pub word: Word,
}

/// A turn: vars that it sets and source events that it fires, each by ascending id, and operations in order.
#[derive(Drop)]
pub struct Turn {
    pub sets: Seq<Put>,
    pub fires: Seq<Put>,
    pub ops: Seq<RepOp>,
}

/// A turn that the program in hand allows.
#[derive(Drop)]
pub struct Admitted {
    pub turn: Turn,
}

/// What changes a device: a turn, or a replicated state that is taken in.
#[derive(Drop)]
pub enum Entry {
    Turn(Turn),
    Merge(RState),
}

/// An entry, and the words of vars and folds that it changed, by ascending id.
#[derive(Drop)]
pub struct Logged {
    pub entry: Entry,
    pub changes: Seq<Put>,
}

/// A device's state: the words of vars and folds in order of declaration, and the replicated cells.
#[derive(Drop)]
pub struct State {
    pub words: Seq<Word>,
    pub rep: RState,
}

impl TryCopy for Put {
    fn copy(&self, _alloc: Global) -> Result<Put, AllocError> {
        Ok(*self)
    }
}

impl TryCopy for Turn {
    fn copy(&self, alloc: Global) -> Result<Turn, AllocError> {
        Ok(Turn {
            sets: self.sets.copy(alloc)?,
            fires: self.fires.copy(alloc)?,
            ops: self.ops.copy(alloc)?,
        })
    }
}

impl TryCopy for Admitted {
    fn copy(&self, alloc: Global) -> Result<Admitted, AllocError> {
        Ok(Admitted {
            turn: self.turn.copy(alloc)?,
        })
    }
}

impl TryCopy for Entry {
    fn copy(&self, alloc: Global) -> Result<Entry, AllocError> {
        match self {
            Entry::Turn(turn) => Ok(Entry::Turn(turn.copy(alloc)?)),
            Entry::Merge(state) => Ok(Entry::Merge(state.copy(alloc)?)),
        }
    }
}

impl TryCopy for Logged {
    fn copy(&self, alloc: Global) -> Result<Logged, AllocError> {
        Ok(Logged {
            entry: self.entry.copy(alloc)?,
            changes: self.changes.copy(alloc)?,
        })
    }
}

impl TryCopy for State {
    fn copy(&self, alloc: Global) -> Result<State, AllocError> {
        Ok(State {
            words: self.words.copy(alloc)?,
            rep: self.rep.copy(alloc)?,
        })
    }
}
