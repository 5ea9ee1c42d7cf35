//! What an operation does to its cell.
ghost use Rattle.std.specs.Prelude.{◌≡◌, ◌+◌, ◌<◌, ◌≤◌, ◌^◌, ◌↔◌, Some, length, slice_get, slice_index, IfOk, IsOk, OnOk, OnErr, true};
ghost use Rattle.std.specs.List.{sum_by};
ghost use Rattle.re_terms.specs.Limits.{at_cell, stamp_after, total_after};
ghost use Rattle.re_terms.specs.Shapes.{pair_count};
ghost use Rattle.re_terms.specs.declared.replicated.RCell.{RCell as ACell};
ghost use Rattle.re_replica.specs.Cells.{IsOrdered, acted, at_place};
ghost use Rattle.re_replica.specs.Replica.{is_insert};

use crate::ReplicaFault;
use re_awset::{insert, remove};
use re_scalars::{CounterFull, DotsSpent, add, assign};
use re_terms::{Act, Dot, RCell, Seq, SetFault, Vector};
use std::alloc::Global;

/// How many pairs all sets together may have.
pub const PAIRS: u32 = 1024;

/// The first number that no dot has.
const NUMBERS: u64 = 1 << 48;

/// The device's next dot, unless its number would reach 2^48.
pub fn next_dot(vector: &Vector, device: u8) -> Result<Dot, ReplicaFault>
    requires { device < 16 }
    ensures ok { IfOk result (λ dot. dot ≡ record { device = device; number = slice_index vector.now.counts device + 1 }) }
    ensures room { OnOk result (slice_index vector.now.counts device + 1 < 2 ^ 48) }
    ensures spent { OnErr result (2 ^ 48 ≤ slice_index vector.now.counts device + 1) }
    ensures fault { OnErr result (result ≡ Err ReplicaFault.DotsSpent) }
{
    let count = vector.counts[usize::from(device)];
    if count >= NUMBERS - 1 {
        return Err(ReplicaFault::DotsSpent);
    }
    Ok(Dot {
        device,
        number: count + 1,
    })
}

/// How many pairs all sets together have.
fn count_pairs(cells: &[RCell]) -> usize
    requires { sum_by pair_count cells.now ≤ 1024 }
    ensures { result ≡ sum_by pair_count cells.now }
{
    let mut count = 0;
    for cell in cells {
        count += cell.pair_count();
    }
    count
}

/// Does an act with this dot to a cell, a set of which may have `room` pairs. A refusal changes nothing.
fn act_on(cell: &mut RCell, dot: Dot, act: Act, room: u32) -> Result<(), ReplicaFault>
    requires ordered { IsOrdered cell.old }
    requires device { dot.device < 16 }
    requires within { pair_count cell.old ≤ room }
    ensures ok { OnOk result (cell.new ≡ acted dot act cell.old) }
    ensures dots_spent { (result ≡ Err ReplicaFault.DotsSpent) ↔ (2 ^ 52 ≤ stamp_after act cell.old) }
    ensures set_full { (result ≡ Err ReplicaFault.SetFull) ↔ (room < pair_count (acted dot act cell.old)) }
    ensures counter_full { (result ≡ Err ReplicaFault.CounterFull) ↔ (2 ^ 63 ≤ total_after act dot.device cell.old) }
    ensures memory { result ≡ Err ReplicaFault.Memory → is_insert act ≡ true }
    ensures refused { OnErr result (cell.new ≡ cell.old) }
{
    match (cell, act) {
        (RCell::Counter(rows), Act::Add(amount)) => match add(rows, dot.device, amount) {
            Ok(()) => Ok(()),
            Err(CounterFull) => Err(ReplicaFault::CounterFull),
        },
        (RCell::Set(pairs), Act::Insert(element)) => match insert(pairs, element, dot, room) {
            Ok(()) => Ok(()),
            Err(SetFault::Memory) => Err(ReplicaFault::Memory),
            Err(SetFault::SetFull) => Err(ReplicaFault::SetFull),
        },
        (RCell::Set(pairs), Act::Remove(element)) => {
            remove(pairs, element);
            Ok(())
        }
        (RCell::Register(written), Act::Write(word)) => match assign(written, dot.device, word) {
            Ok(()) => Ok(()),
            Err(DotsSpent) => Err(ReplicaFault::DotsSpent),
        },
        _ => Ok(()),
    }
}

/// Does an act with this dot to the cell at a place. A refusal changes nothing.
pub fn act_at(
    alloc: Global,
    cells: &mut Seq<RCell>,
    place: usize,
    dot: Dot,
    act: Act,
) -> Result<(), ReplicaFault>
    requires within { place < length cells.old.items }
    requires ordered { (c : ACell) → slice_get cells.old.items place ≡ Some c → IsOrdered c }
    requires few { sum_by pair_count cells.old.items ≤ 1024 }
    requires device { dot.device < 16 }
    ensures ok { OnOk result (cells.new ≡ record cells.old { items = at_place place (acted dot act) cells.old.items }) }
    ensures dots_spent { (result ≡ Err ReplicaFault.DotsSpent) ↔ (2 ^ 52 ≤ at_cell (stamp_after act) (slice_get cells.old.items place)) }
    ensures set_full { (result ≡ Err ReplicaFault.SetFull) ↔ (1024 < sum_by pair_count (at_place place (acted dot act) cells.old.items)) }
    ensures counter_full { (result ≡ Err ReplicaFault.CounterFull) ↔ (2 ^ 63 ≤ at_cell (total_after act dot.device) (slice_get cells.old.items place)) }
    ensures memory { result ≡ Err ReplicaFault.Memory → is_insert act ≡ true }
    ensures refused { OnErr result (cells.new ≡ cells.old) }
{
    let pairs = count_pairs(cells.as_slice());
    let mut cell = cells.replace(place, RCell::Set(Seq::new(alloc)));
    let room = PAIRS - (pairs - cell.pair_count()) as u32;
    let done = act_on(&mut cell, dot, act, room);
    cells.set(place, cell);
    done
}
