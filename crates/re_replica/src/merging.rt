//! The merge of the cells of two states.
ghost use Rattle.std.specs.Prelude.{◌≡◌, ◌+◌, ◌<◌, ◌≤◌, ◌^◌, ◌↔◌, ℕ, Some, false, length, slice_get, IfOk, OnOk};
ghost use Rattle.std.specs.List.{sum_by};
ghost use Rattle.re_terms.specs.Listed.{plain};
ghost use Rattle.re_terms.specs.Shapes.{pair_count};
ghost use Rattle.re_terms.specs.UpdateStates.{join_cell, join_cells};
ghost use Rattle.re_terms.specs.declared.replicated.RCell.{RCell as ACell};
ghost use Rattle.re_replica.specs.Cells.{CanMerge};
ghost use Rattle.re_replica.specs.Changed.{has_bit};

use crate::Changed;
use crate::acting::PAIRS;
use re_awset::merge_pairs;
use re_scalars::{merge_rows, merge_written};
use re_terms::{Pair, RCell, RState, Seq, SetFault, Vector};
use std::alloc::{AllocError, Global};

/// A merged cell, and whether it differs from the first.
#[derive(Drop)]
struct MergedCell {
    cell: RCell,
    changed: bool,
}

/// Merged cells, and which of them differ from the first's.
#[derive(Drop)]
pub struct MergedCells {
    pub cells: Seq<RCell>,
    pub changed: Changed,
}

/// Whether two lists of pairs differ.
fn differ(a: &[Pair], b: &[Pair]) -> bool
    ensures { (result ≡ false) ↔ (a.now ≡ b.now) }
{
    a != b
}

/// The merge of two cells of one kind, with the vectors of their states. A set of it may have `room` pairs.
fn merge_cell(
    alloc: Global,
    a: &RCell,
    av: &Vector,
    b: &RCell,
    bv: &Vector,
    room: u32,
) -> Result<MergedCell, SetFault>
    requires { CanMerge a.now b.now }
    ensures joined { IfOk result (λ merged. merged.cell ≡ join_cell av.now.counts bv.now.counts a.now b.now) }
    ensures changed { IfOk result (λ merged. (merged.changed ≡ false) ↔ (merged.cell ≡ a.now)) }
    ensures room { OnOk result (pair_count (join_cell av.now.counts bv.now.counts a.now b.now) ≤ room) }
    ensures full { result ≡ Err SetFault.SetFull → room < pair_count (join_cell av.now.counts bv.now.counts a.now b.now) }
{
    match (a, b) {
        (RCell::Counter(own), RCell::Counter(other)) => {
            let mut rows = *own;
            let changed = merge_rows(&mut rows, other);
            Ok(MergedCell {
                cell: RCell::Counter(rows),
                changed,
            })
        }
        (RCell::Set(own), RCell::Set(other)) => {
            let pairs = merge_pairs(alloc, own, av, other, bv, room)?;
            let changed = differ(pairs.as_slice(), own.as_slice());
            Ok(MergedCell {
                cell: RCell::Set(pairs),
                changed,
            })
        }
        (RCell::Register(own), RCell::Register(other)) => {
            let mut written = *own;
            let changed = merge_written(&mut written, other);
            Ok(MergedCell {
                cell: RCell::Register(written),
                changed,
            })
        }
        _ => unreachable!(),
    }
}

/// The bits with one more above them, which is set or not.
fn with_bit(bits: u32, place: usize, is_set: bool) -> u32
    requires place { place < 32 }
    requires below { bits < 2 ^ place }
    ensures kept { (k : ℕ) → k < place → has_bit result k ≡ has_bit bits k }
    ensures here { has_bit result place ≡ is_set }
    ensures below { result < 2 ^ (place + 1) }
{
    if is_set {
        return bits + (1 << place);
    }
    bits
}

/// The merge of the cells of two states of one shape. It changes neither.
///
/// `SetFull` comes only where all sets of the merge together have more than 1,024 pairs, and `Ok` only where they haven't.
pub fn merge_cells(alloc: Global, a: &RState, b: &RState) -> Result<MergedCells, SetFault>
    requires few { length a.now.cells.items ≤ 32 }
    requires count { length b.now.cells.items ≡ length a.now.cells.items }
    requires alike { (place : ℕ) (x y : ACell) → slice_get a.now.cells.items place ≡ Some x → slice_get b.now.cells.items place ≡ Some y → CanMerge x y }
    ensures joined { IfOk result (λ merged. merged.cells ≡ plain (join_cells a.now.vector.counts b.now.vector.counts a.now.cells.items b.now.cells.items)) }
    ensures changed { IfOk result (λ merged. (place : ℕ) → place < length a.now.cells.items → (has_bit merged.changed.cells place ≡ false) ↔ (slice_get merged.cells.items place ≡ slice_get a.now.cells.items place)) }
    ensures only { IfOk result (λ merged. merged.changed.cells < 2 ^ length a.now.cells.items) }
    ensures room { OnOk result (sum_by pair_count (join_cells a.now.vector.counts b.now.vector.counts a.now.cells.items b.now.cells.items) ≤ 1024) }
    ensures full { result ≡ Err SetFault.SetFull → 1024 < sum_by pair_count (join_cells a.now.vector.counts b.now.vector.counts a.now.cells.items b.now.cells.items) }
{
    let own = a.cells.as_slice();
    let other = b.cells.as_slice();
    let mut cells = Seq::new(alloc);
    let mut changed = 0;
    let mut room = PAIRS;
    for place in 0..own.len() {
        let merged = merge_cell(
            alloc,
            &own[place],
            &a.vector,
            &other[place],
            &b.vector,
            room,
        )?;
        room -= merged.cell.pair_count() as u32;
        changed = with_bit(changed, place, merged.changed);
        if let Err(AllocError) = cells.push(merged.cell) {
            return Err(SetFault::Memory);
        }
    }
    Ok(MergedCells {
        cells,
        changed: Changed { cells: changed },
    })
}
