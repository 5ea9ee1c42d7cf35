//! What a device shows.
ghost use Rattle.std.specs.Prelude.{◌≡◌, slice_get, true, Some, IfOk};
ghost use Rattle.std.specs.List.Sorted.{IsStrictlySortedBy};
ghost use Rattle.re_outside.specs.Listed.{plain};
ghost use Rattle.re_terms.specs.Dependencies.{graph_of};
ghost use Rattle.re_terms.specs.Programs.{IsProgram};
ghost use Rattle.re_terms.specs.Shapes.{FitsShape, shape_of};
ghost use Rattle.re_terms.specs.SignalWords.{replicated_place, signal_word};
ghost use Rattle.re_terms.specs.Spellings.{packet_bytes};
ghost use Rattle.re_terms.specs.Views.{view_of};
ghost use Rattle.re_terms.specs.WordOrder.{pair_cmp};
ghost use Rattle.re_terms.specs.Worlds.{is_set_at};
ghost use Rattle.re_terms.specs.declared.replicated.RCell.TheVariants as cell;
ghost use Rattle.re_device.specs.Device.{current, told_of};

use crate::device::Device;
use re_graph::Graph;
use re_outside::Bytes;
use re_prop::sizes::size_at;
use re_prop::view::{NO_WORD, has_at, word_at, word_in};
use re_terms::{Body, Logged, Pair, Program, RCell, Seq, Word};
use std::alloc::AllocError;

impl Device {
    /// The word of a var, fold, signal, counter or register, and 0 for any other id. It takes no memory.
    pub fn word(&self, id: u16) -> Word
        ensures { result ≡ signal_word self.now.memory.program (current self.now.memory).state.words.items (view_of (current self.now.memory).state.rep) id }
    {
        let Some(decl) = self.program.decls.get(id as usize) else {
            return NO_WORD;
        };
        match decl.body {
            Body::Var { .. } | Body::Fold { .. } => {
                word_in(self.state.words.as_slice(), self.places.word(id))
            }
            Body::Counter | Body::Register { .. } => {
                word_at(self.state.rep.cells.as_slice(), self.places.replicated(id))
            }
            Body::Signal { .. } => self.cache.word(id),
            _ => NO_WORD,
        }
    }

    /// The pairs of a set, which ascend strictly by element, device and number. It takes no memory.
    ///
    /// The condition is that the id is a set's.
    pub fn pairs(&self, id: u16) -> &Seq<Pair>
        requires { is_set_at self.now.memory.program.decls.items id ≡ true }
        ensures shown { slice_get (current self.now.memory).state.rep.cells.items (replicated_place self.now.memory.program.decls.items id) ≡ Some (cell.Set result.now) }
        ensures ascend { IsStrictlySortedBy pair_cmp result.now.items }
    {
        let cells = self.state.rep.cells.as_slice();
        match &cells[self.places.replicated(id)] {
            RCell::Set(pairs) => pairs,
            _ => unreachable!(),
        }
    }

    /// How many elements a set has, and 0 for any other id. It takes no memory.
    pub(crate) fn size_of(&self, id: u16) -> u32
        ensures { result ≡ (told_of self.now.memory).size id }
    {
        size_at(self.state.rep.cells.as_slice(), self.places.replicated(id))
    }

    /// Whether a set has the element, and false for any other id. It takes no memory.
    pub(crate) fn contains(&self, id: u16, word: Word) -> bool
        ensures { result ≡ (told_of self.now.memory).has id word }
    {
        has_at(
            self.state.rep.cells.as_slice(),
            self.places.replicated(id),
            word,
        )
    }

    /// The number of its last entry, unsettled ones among them, and 0 before any.
    pub fn number(&self) -> u64
        ensures { result ≡ (current self.now.memory).number }
    {
        self.number
    }

    /// The number of its last settled entry, and 0 before any.
    pub fn settled_number(&self) -> u64
        ensures { result ≡ self.now.memory.settled.number }
    {
        self.settled.number
    }

    /// The number of the call of the disk that failed, if one did since the device was opened.
    pub fn stopped(&self) -> Option<u64>
        ensures { result ≡ self.now.journal.stopped }
    {
        self.journal.stopped()
    }

    /// The entries that it took since it was opened, in order, unsettled ones among them.
    pub fn entries(&self) -> &Seq<Logged>
        ensures { result.now.items ≡ self.now.memory.entries }
    {
        &self.entries
    }

    /// The program that it runs.
    pub fn program(&self) -> &Program
        ensures program { result.now ≡ self.now.memory.program }
        ensures is_program { IsProgram result.now }
    {
        &self.program
    }

    /// The dependency graph of its program.
    pub fn graph(&self) -> &Graph
        ensures { result.now ≡ graph_of self.now.memory.program.decls.items }
    {
        &self.graph
    }

    /// The packet of what it has settled, without unsettled entries: its bytes stand in docs/FORMATS.md. The one refusal is want of memory.
    pub fn packet(&self) -> Result<Bytes, AllocError>
        ensures bytes { IfOk result (λ bytes. bytes ≡ plain (packet_bytes (shape_of self.now.memory.program).devices self.now.memory.settled.state.rep)) }
        // What is sent fits, so that whoever gets it can read it.
        ensures fits { FitsShape (shape_of self.now.memory.program) self.now.memory.settled.state.rep }
    {
        self.settled.outbox.packet(&self.shape)
    }
}
