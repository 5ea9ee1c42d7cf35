//! What one entry does to the replicated state and to the words of a store.
ghost use Rattle.std.specs.Prelude.{◌≡◌, ◌<◌, ◌≤◌, length, slice_index, true, None, Err, OnOk};
ghost use Rattle.std.specs.List.{All, list_all, sum_by};
ghost use Rattle.std.specs.Option.{is_some};
ghost use Rattle.re_record.specs.Restoring.{entry_fault, replicated_after};
ghost use Rattle.re_restore.specs.Replaying.{TakesEntry};
ghost use Rattle.re_restore.specs.declared.entries.EntryFault.TheVariants.{Memory, Limit};
ghost use Rattle.re_terms.specs.Cells.{cell_place};
ghost use Rattle.re_terms.specs.Changes.{with_changes};
ghost use Rattle.re_terms.specs.Limits.{after_operations, operations_fault};
ghost use Rattle.re_terms.specs.ShapedUpdates.{is_operation_in};
ghost use Rattle.re_terms.specs.Shapes.{FitsShape, pair_count};
ghost use Rattle.re_terms.specs.UpdateStates.{join_states};

use re_replica::{Replica, ReplicaFault};
use re_terms::{Entry, Program, Put, RState, RepOp, Seq, Word};

/// Why an entry isn't replayed.
#[derive(Clone, Copy)]
pub enum EntryFault {
    Memory,
    /// It would pass a limit.
    Limit,
}

impl From<ReplicaFault> for EntryFault {
    ghost use Rattle.re_restore.specs.Refusals.{entry_fault_of};

    ghost from_gives = { λ f e. e ≡ entry_fault_of f };

    fn from(e: ReplicaFault) -> EntryFault {
        match e {
            ReplicaFault::Memory => EntryFault::Memory,
            ReplicaFault::SetFull | ReplicaFault::CounterFull | ReplicaFault::DotsSpent => {
                EntryFault::Limit
            }
        }
    }
}

/// Does the operations of a turn, in order.
fn operate(replica: &mut Replica, ops: &[RepOp]) -> Result<(), EntryFault>
    requires { list_all (is_operation_in replica.old.shape) ops.now ≡ true }
    ensures state { OnOk result (replica.new ≡ record replica.old { state = after_operations replica.old.shape replica.old.device ops.now replica.old.state }) }
    ensures accepted { OnOk result (operations_fault replica.old.shape replica.old.device ops.now replica.old.state ≡ None) }
    ensures limit { result ≡ Err Limit → is_some (operations_fault replica.old.shape replica.old.device ops.now replica.old.state) ≡ true }
{
    for op in ops {
        replica.apply(op)?;
    }
    Ok(())
}

/// Takes in the state of a merge.
fn take_in(replica: &mut Replica, packet: &RState) -> Result<(), EntryFault>
    requires { FitsShape replica.old.shape packet.now }
    ensures state { OnOk result (replica.new ≡ record replica.old { state = join_states replica.old.state packet.now }) }
    ensures accepted { OnOk result (sum_by pair_count (join_states replica.old.state packet.now).cells.items ≤ 1024) }
    ensures limit { result ≡ Err Limit → 1024 < sum_by pair_count (join_states replica.old.state packet.now).cells.items }
{
    replica.merge(packet)?;
    Ok(())
}

/// Does what an entry does to a replicated state: the operations of a turn, in order, or the merge.
pub fn do_entry(replica: &mut Replica, entry: &Entry) -> Result<(), EntryFault>
    requires { TakesEntry replica.old.shape entry.now }
    ensures state { OnOk result (replica.new ≡ record replica.old { state = replicated_after replica.old.shape replica.old.device entry.now replica.old.state }) }
    ensures accepted { OnOk result (entry_fault replica.old.shape replica.old.device entry.now replica.old.state ≡ None) }
    ensures limit { result ≡ Err Limit → is_some (entry_fault replica.old.shape replica.old.device entry.now replica.old.state) ≡ true }
{
    match entry {
        Entry::Turn(turn) => operate(replica, turn.ops.as_slice()),
        Entry::Merge(packet) => take_in(replica, packet),
    }
}

/// Puts changed words into the places of their declarations.
pub fn put_changes(words: &mut Seq<Word>, p: &Program, places: &[u16], changes: &[Put])
    requires declared { All (λ put. put.id < length places.now) changes.now }
    requires placed { All (λ put. slice_index places.now put.id < length words.old.items) changes.now }
    requires own { All (λ put. slice_index places.now put.id ≡ cell_place p.now.decls.items put.id) changes.now }
    ensures { words.new ≡ record { items = with_changes p.now.decls.items words.old.items changes.now; spare = words.old.spare } }
{
    for put in changes {
        words.set(usize::from(places[usize::from(put.id)]), put.word);
    }
}
