//! Where the states of a program's cells stand.
ghost use Rattle.std.specs.Prelude.{◌≡◌, ◌<◌, length, slice_index, slice_index_or, IfOk};
ghost use Rattle.re_terms.specs.Programs.{IsProgram};
ghost use Rattle.re_terms.specs.Placing.{places_of};

use crate::{Program, Seq};
use std::alloc::{AllocError, Global};

/// For each declaration how many vars and folds, and how many replicated cells, are declared before it. That is the place
/// of its own word or cell, where it has one.
#[derive(Drop)]
pub struct Places {
    pub words: Seq<u16>,
    pub replicated: Seq<u16>,
    /// How many replicated cells there are.
    pub replicated_count: u16,
}

impl Places {
    /// The places of a program's cells. The one refusal is want of memory.
    pub fn of(alloc: Global, p: &Program) -> Result<Places, AllocError>
        requires { IsProgram p.now }
        ensures { IfOk result (λ places. places ≡ places_of p.now.decls.items) }
    {
        let mut words = Seq::new(alloc);
        let mut replicated = Seq::new(alloc);
        let mut word_count = 0;
        let mut replicated_count = 0;
        for decl in p.decls.as_slice() {
            words.push(word_count)?;
            replicated.push(replicated_count)?;
            word_count += u16::from(decl.body.is_cell());
            replicated_count += u16::from(decl.body.is_replicated());
        }
        Ok(Places {
            words,
            replicated,
            replicated_count,
        })
    }

    /// The place of a var's or a fold's word in a state.
    pub fn word(&self, id: u16) -> usize
        requires { id < length self.now.words.items }
        ensures { result ≡ slice_index self.now.words.items id }
    {
        self.words.as_slice()[id as usize] as usize
    }

    /// The place of a replicated cell in a state; past the last one for an id that isn't declared.
    pub fn replicated(&self, id: u16) -> usize
        ensures { result ≡ slice_index_or self.now.replicated.items id self.now.replicated_count }
    {
        let places = self.replicated.as_slice();
        let place = places.get(id as usize).copied();
        place.unwrap_or(self.replicated_count) as usize
    }
}
