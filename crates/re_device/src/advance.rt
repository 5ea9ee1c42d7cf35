//! What an entry does to a replicated state.
ghost use Rattle.std.specs.Prelude.{◌≡◌, ◌<◌, true, None, unwrap_or, IfOk, OnOk};
ghost use Rattle.std.specs.List.{list_all};
ghost use Rattle.re_record.specs.Restoring.{entry_fault, replicated_after};
ghost use Rattle.re_replica.specs.declared.fault.ReplicaFault.{ReplicaFault as TheFault};
ghost use Rattle.re_terms.specs.Limits.{after_operations, operations_fault};
ghost use Rattle.re_terms.specs.ShapedUpdates.{is_operation_in};
ghost use Rattle.re_terms.specs.Shapes.{FitsShape, IsShape};
ghost use Rattle.re_device.specs.Advancing.{TakesEntry, IsLimit};

use re_replica::{Replica, ReplicaFault};
use re_terms::{Entry, RState, RepOp, Shape, TryCopy};
use std::alloc::{AllocError, Global};

/// Does these operations, in order, up to the first that is refused. That one's refusal is the answer.
fn apply_all(replica: &mut Replica, ops: &[RepOp]) -> Result<(), ReplicaFault>
    requires { list_all (is_operation_in replica.old.shape) ops.now ≡ true }
    ensures state { OnOk result (replica.new ≡ record replica.old { state = after_operations replica.old.shape replica.old.device ops.now replica.old.state }) }
    ensures limits { OnOk result (operations_fault replica.old.shape replica.old.device ops.now replica.old.state ≡ None) }
    ensures fault { (f : TheFault) → result ≡ Err f → IsLimit f (operations_fault replica.old.shape replica.old.device ops.now replica.old.state) }
{
    for op in ops {
        replica.apply(op)?;
    }
    Ok(())
}

/// A replica with a copy of this state. The one refusal is want of memory.
fn copied(alloc: Global, shape: &Shape, device: u8, rep: &RState) -> Result<Replica, AllocError>
    requires shape { IsShape shape.now }
    requires device { device < shape.now.devices }
    requires fits { FitsShape shape.now rep.now }
    ensures { IfOk result (λ replica. replica ≡ record { shape = shape.now; device = device; state = rep.now }) }
{
    let shape = shape.copy(alloc)?;
    let rep = rep.copy(alloc)?;
    Ok(Replica::new(alloc, shape, device, rep))
}

/// A device's replicated state after an entry, made from a copy of this state: a turn's operations are done in order, and a
/// merged state is joined. There is none where a turn has no operations: then this state stands, and no memory is taken.
///
/// The refusals are those of the first operation that is refused, or of the merge, and want of memory.
pub fn advanced(
    alloc: Global,
    shape: &Shape,
    device: u8,
    rep: &RState,
    entry: &Entry,
) -> Result<Option<RState>, ReplicaFault>
    requires shape { IsShape shape.now }
    requires device { device < shape.now.devices }
    requires fits { FitsShape shape.now rep.now }
    requires entry { TakesEntry shape.now entry.now }
    ensures state { IfOk result (λ after. unwrap_or after rep.now ≡ replicated_after shape.now device entry.now rep.now) }
    ensures fits { IfOk result (λ after. FitsShape shape.now (unwrap_or after rep.now)) }
    ensures limits { OnOk result (entry_fault shape.now device entry.now rep.now ≡ None) }
    ensures fault { (f : TheFault) → result ≡ Err f → IsLimit f (entry_fault shape.now device entry.now rep.now) }
{
    match entry {
        Entry::Turn(turn) => {
            if turn.ops.is_empty() {
                return Ok(None);
            }
            let Ok(mut replica) = copied(alloc, shape, device, rep) else {
                return Err(ReplicaFault::Memory);
            };
            apply_all(&mut replica, turn.ops.as_slice())?;
            Ok(Some(replica.into_state()))
        }
        Entry::Merge(state) => {
            let Ok(mut replica) = copied(alloc, shape, device, rep) else {
                return Err(ReplicaFault::Memory);
            };
            replica.merge(state)?;
            Ok(Some(replica.into_state()))
        }
    }
}

/// The state after an entry where there is one, and else the state before it.
pub fn newest<'a>(after: &'a Option<RState>, before: &'a RState) -> &'a RState
    ensures { result.now ≡ unwrap_or after.now before.now }
{
    match after {
        Some(rep) => rep,
        None => before,
    }
}

/// Puts the state after an entry, if there is one, in the place of the state before it.
pub fn put_rep(rep: &mut RState, after: Option<RState>)
    ensures { rep.new ≡ unwrap_or after rep.old }
{
    if let Some(rep_after) = after {
        *rep = rep_after;
    }
}
