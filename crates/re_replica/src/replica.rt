//! A replicated state of one device.
ghost use Rattle.std.specs.Prelude.{◌≡◌, ◌<◌, ◌≤◌, ◌^◌, ◌↔◌, ◌++◌, ◌∷◌, [], true, false, length, slice_get, IfOk, OnOk, OnErr, ℕ, List, Option, None, Some};
ghost use Rattle.std.specs.List.{sum_by};
ghost use Rattle.re_terms.specs.Limits.{operation_fault, OperationFault.CounterFull, OperationFault.DotsSpent, OperationFault.SetFull};
ghost use Rattle.re_terms.specs.ShapedUpdates.{is_operation_in};
ghost use Rattle.re_terms.specs.Shapes.{FitsShape, IsShape, pair_count};
ghost use Rattle.re_terms.specs.Updates.{Update, IsCausalLog, IsCausallyClosed, IsIn, covered, next_update};
ghost use Rattle.re_terms.specs.UpdateStates.{after_operation, join_states, state_of_updates};
ghost use Rattle.re_terms.specs.Values.{view_of_updates};
ghost use Rattle.re_terms.specs.Vectors.{join_vectors, with_dot};
ghost use Rattle.re_terms.specs.Views.{view_of};
ghost use Rattle.re_replica.specs.Changed.{has_bit};
ghost use Rattle.re_replica.specs.Replica.{IsReplicaOf, is_insert};

use crate::acting::{act_at, next_dot};
use crate::fault::{Changed, ReplicaFault};
use crate::merging::merge_cells;
use re_awset::{has, size};
use re_scalars::total;
use re_terms::{RCell, RState, RepOp, SetFault, Shape, Word, join_vectors};
use std::alloc::Global;
use std::marker::Model;

/// The replicated state of one device, which fits its shape. Operations are the device's own; a merge takes in what
/// another device's state has.
#[derive(Drop)]
pub struct Replica {
    alloc: Global,
    shape: Shape,
    device: u8,
    state: RState,
}

impl Model for Replica {
    ghost use Rattle.re_replica.specs.Replica.{IsReplica, ReplicaState};

    ghost Value = { ReplicaState };

    ghost view = { λ r. record { shape = r.shape; device = r.device; state = r.state } };

    ghost invariant = { λ r. IsReplica (record { shape = r.shape; device = r.device; state = r.state }) };
}

impl Replica {
    /// The replica of the device at this place among the shape's devices, with this state. It takes no memory.
    ///
    /// The conditions are that the shape is one that a program can have, that it has the device, and that the state fits
    /// it.
    pub fn new(alloc: Global, shape: Shape, device: u8, state: RState) -> Replica
        requires shape { IsShape shape }
        requires device { device < shape.devices }
        requires fits { FitsShape shape state }
        ensures { result ≡ record { shape = shape; device = device; state = state } }
    {
        Replica {
            alloc,
            shape,
            device,
            state,
        }
    }

    /// Does one operation of the device, which draws the device's next dot whatever the operation does. A state that
    /// stands for updates of a log, all its own among them, then stands for these and the new one, and the log with the new
    /// one behind it is an update log again.
    ///
    /// The condition is that the shape has the cell, and that its kind allows the act. `DotsSpent` comes exactly where
    /// the dot's number would reach 2^48 or a register's stamp 2^52; else `SetFull` exactly where all sets together would
    /// have more than 1,024 pairs; else `CounterFull` exactly where the device's total would pass 2^63 - 1. `Memory` comes
    /// only of an insert. A refusal changes nothing.
    pub fn apply(&mut self, op: &RepOp) -> Result<(), ReplicaFault>
        requires { is_operation_in self.old.shape op.now ≡ true }
        ensures ok { OnOk result (self.new ≡ record self.old { state = after_operation self.old.shape self.old.device op.now self.old.state }) }
        ensures updates { OnOk result ((log : List Update) (v : List ℕ) → IsCausalLog log → IsCausallyClosed log v → self.old.state ≡ state_of_updates self.old.shape (covered log v) → self.new.state ≡ state_of_updates self.old.shape (covered log v ++ next_update log v self.old.device op.now ∷ [])) }
        ensures causal { OnOk result ((log : List Update) (v : List ℕ) → IsReplicaOf log v self.old → IsReplicaOf (log ++ next_update log v self.old.device op.now ∷ []) (with_dot v (next_update log v self.old.device op.now).dot) self.new) }
        ensures room { OnOk result (operation_fault self.old.shape self.old.device op.now self.old.state ≡ None) }
        ensures dots_spent { (result ≡ Err ReplicaFault.DotsSpent) ↔ (operation_fault self.old.shape self.old.device op.now self.old.state ≡ Some DotsSpent) }
        ensures set_full { (result ≡ Err ReplicaFault.SetFull) ↔ (operation_fault self.old.shape self.old.device op.now self.old.state ≡ Some SetFull) }
        ensures counter_full { (result ≡ Err ReplicaFault.CounterFull) ↔ (operation_fault self.old.shape self.old.device op.now self.old.state ≡ Some CounterFull) }
        ensures memory { result ≡ Err ReplicaFault.Memory → is_insert op.now.act ≡ true }
        ensures refused { OnErr result (self.new ≡ self.old) }
    {
        let dot = next_dot(&self.state.vector, self.device)?;
        let place = usize::from(op.cell);
        act_at(self.alloc, &mut self.state.cells, place, dot, op.act)?;
        self.state.vector.counts[usize::from(self.device)] = dot.number;
        Ok(())
    }

    /// Merges another state into this one, and says which cells changed. Where both stand for updates of one log, it then
    /// stands for the updates of either.
    ///
    /// The condition is that the other state fits the shape. `SetFull` comes only where all sets of the merge together have
    /// more than 1,024 pairs, and `Ok` only where they haven't. It never answers `CounterFull` or `DotsSpent`. A refusal
    /// changes nothing.
    pub fn merge(&mut self, other: &RState) -> Result<Changed, ReplicaFault>
        requires { FitsShape self.old.shape other.now }
        ensures joined { OnOk result (self.new ≡ record self.old { state = join_states self.old.state other.now }) }
        ensures updates { OnOk result ((log : List Update) (v w : List ℕ) → IsCausalLog log → IsCausallyClosed log v → IsCausallyClosed log w → self.old.state ≡ state_of_updates self.old.shape (covered log v) → other.now ≡ state_of_updates self.old.shape (covered log w) → self.new.state ≡ state_of_updates self.old.shape (covered log (join_vectors v w))) }
        ensures causal { OnOk result ((log : List Update) (v w : List ℕ) → IsReplicaOf log v self.old → IsCausallyClosed log w → length w ≡ 16 → other.now ≡ state_of_updates self.old.shape (covered log w) → IsReplicaOf log (join_vectors v w) self.new) }
        ensures changed { IfOk result (λ changed. (place : ℕ) → place < length self.old.state.cells.items → (has_bit changed.cells place ≡ false) ↔ (slice_get self.new.state.cells.items place ≡ slice_get self.old.state.cells.items place)) }
        ensures only { IfOk result (λ changed. changed.cells < 2 ^ length self.old.state.cells.items) }
        ensures room { OnOk result (sum_by pair_count (join_states self.old.state other.now).cells.items ≤ 1024) }
        ensures set_full { result ≡ Err ReplicaFault.SetFull → 1024 < sum_by pair_count (join_states self.old.state other.now).cells.items }
        ensures faults { (result ≡ Err ReplicaFault.CounterFull → ⊥) × (result ≡ Err ReplicaFault.DotsSpent → ⊥) }
        ensures refused { OnErr result (self.new ≡ self.old) }
    {
        let merged = match merge_cells(self.alloc, &self.state, other) {
            Ok(merged) => merged,
            Err(SetFault::Memory) => return Err(ReplicaFault::Memory),
            Err(SetFault::SetFull) => return Err(ReplicaFault::SetFull),
        };
        self.state.vector = join_vectors(&self.state.vector, &other.vector);
        self.state.cells = merged.cells;
        Ok(merged.changed)
    }

    /// Its state, which fits the shape. It takes no memory.
    pub fn state(&self) -> &RState
        ensures state { result.now ≡ self.now.state }
        ensures fits { FitsShape self.now.shape self.now.state }
    {
        &self.state
    }

    /// Its state, given back by the replica, which ends. It takes no memory.
    pub fn into_state(self) -> RState
        ensures state { result ≡ self.state }
        ensures fits { FitsShape self.shape result }
    {
        self.state
    }

    /// The word of the counter or register at this place among the replicated cells, and 0 at any other place. Of a state of
    /// updates it is the value that they give. It takes no memory.
    pub fn word(&self, cell: u8) -> Word
        ensures view { result ≡ (view_of self.now.state).word cell }
        ensures value { (us : List Update) → ((u : Update) → IsIn u us → u.dot.device < 16) → self.now.state ≡ state_of_updates self.now.shape us → result ≡ (view_of_updates self.now.shape us).word cell }
    {
        match self.state.cells.get(usize::from(cell)) {
            Some(RCell::Counter(rows)) => total(rows),
            Some(RCell::Register(written)) => written.word,
            _ => Word::Int(0),
        }
    }

    /// How many elements the set at this place has, and 0 at a place without one. Of a state of updates these are the
    /// elements that they give. It takes no memory.
    pub fn size(&self, cell: u8) -> u32
        ensures view { result ≡ (view_of self.now.state).size cell }
        ensures value { (us : List Update) → ((u : Update) → IsIn u us → u.dot.device < 16) → self.now.state ≡ state_of_updates self.now.shape us → result ≡ (view_of_updates self.now.shape us).size cell }
    {
        match self.state.cells.get(usize::from(cell)) {
            Some(RCell::Set(pairs)) => size(pairs),
            _ => 0,
        }
    }

    /// Whether the set at this place has the element, and false at a place without a set. Of a state of updates it has those
    /// that they give. It takes no memory.
    pub fn has(&self, cell: u8, word: Word) -> bool
        ensures view { result ≡ (view_of self.now.state).has cell word }
        ensures value { (us : List Update) → ((u : Update) → IsIn u us → u.dot.device < 16) → self.now.state ≡ state_of_updates self.now.shape us → result ≡ (view_of_updates self.now.shape us).has cell word }
    {
        match self.state.cells.get(usize::from(cell)) {
            Some(RCell::Set(pairs)) => has(pairs, word),
            _ => false,
        }
    }
}
