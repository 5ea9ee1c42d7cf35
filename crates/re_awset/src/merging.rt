//! The merge of two sets.
ghost use Rattle.std.specs.Prelude.{◌≡◌, ◌++◌, ◌∷◌, [], ◌+◌, ◌<◌, ◌≤◌, cond, IfNone, IfOk, IfSome, OnOk, drop, length, not, true};
ghost use Rattle.std.specs.List.{All};
ghost use Rattle.std.specs.List.Sorted.{IsStrictlySortedBy};
ghost use Rattle.re_terms.specs.CellStates.{join_pairs};
ghost use Rattle.re_terms.specs.Listed.{plain};
ghost use Rattle.re_terms.specs.Vectors.{covers};
ghost use Rattle.re_terms.specs.WordOrder.{pair_cmp};

use crate::order::compare_pairs;
use re_terms::vectors::covers;
use re_terms::{Pair, Seq, SetFault, Vector};
use std::alloc::{AllocError, Global};
use std::cmp::Ordering;

/// The least pair of two lists, whether their merge keeps it, and how many pairs it takes off each list.
#[derive(Clone, Copy)]
struct Step {
    pair: Pair,
    kept: bool,
    own: usize,
    other: usize,
}

/// The first step of the merge of two lists that ascend; none where both are empty.
fn first_step(a: &[Pair], av: &Vector, b: &[Pair], bv: &Vector) -> Option<Step>
    requires a_ascends { IsStrictlySortedBy pair_cmp a.now }
    requires b_ascends { IsStrictlySortedBy pair_cmp b.now }
    requires a_devices { All (λ p. p.dot.device < 16) a.now }
    requires b_devices { All (λ p. p.dot.device < 16) b.now }
    ensures none { IfNone result ((a.now ≡ []) × (b.now ≡ [])) }
    ensures one { IfSome result (λ step. (step.own ≤ 1) × (step.other ≤ 1)) }
    ensures own { IfSome result (λ step. step.own ≤ length a.now) }
    ensures other { IfSome result (λ step. step.other ≤ length b.now) }
    ensures taken { IfSome result (λ step. 0 < step.own + step.other) }
    ensures merged { IfSome result (λ step. join_pairs av.now.counts bv.now.counts a.now b.now ≡ cond step.kept (step.pair ∷ []) [] ++ join_pairs av.now.counts bv.now.counts (drop step.own a.now) (drop step.other b.now)) }
{
    match (a.first(), b.first()) {
        (None, None) => None,
        (Some(p), None) => Some(own_step(p, bv)),
        (None, Some(q)) => Some(other_step(q, av)),
        (Some(p), Some(q)) => match compare_pairs(p, q) {
            Ordering::Less => Some(own_step(p, bv)),
            Ordering::Greater => Some(other_step(q, av)),
            Ordering::Equal => Some(Step {
                pair: *p,
                kept: true,
                own: 1,
                other: 1,
            }),
        },
    }
}

/// A pair of the first list alone stays where the second's vector doesn't cover its dot.
fn own_step(p: &Pair, bv: &Vector) -> Step
    requires { p.now.dot.device < 16 }
    ensures { result ≡ record { pair = p.now; kept = not (covers bv.now.counts p.now.dot); own = 1; other = 0 } }
{
    Step {
        pair: *p,
        kept: !covers(bv, p.dot),
        own: 1,
        other: 0,
    }
}

/// A pair of the second list alone stays where the first's vector doesn't cover its dot.
fn other_step(q: &Pair, av: &Vector) -> Step
    requires { q.now.dot.device < 16 }
    ensures { result ≡ record { pair = q.now; kept = not (covers av.now.counts q.now.dot); own = 0; other = 1 } }
{
    Step {
        pair: *q,
        kept: !covers(av, q.dot),
        own: 0,
        other: 1,
    }
}

/// Puts a step's pair behind the others where it is kept, if there is room.
fn take_in(merged: &mut Seq<Pair>, step: Step, room: usize) -> Result<(), SetFault>
    requires { length merged.old.items ≤ room }
    ensures ok { OnOk result (merged.new.items ≡ merged.old.items ++ cond step.kept (step.pair ∷ []) []) }
    ensures spare { merged.new.spare ≤ merged.old.spare }
    ensures room { OnOk result (length merged.new.items ≤ room) }
    ensures full { result ≡ Err SetFault.SetFull → (step.kept ≡ true) × (length merged.old.items ≡ room) }
{
    if !step.kept {
        return Ok(());
    }
    if merged.len() >= room {
        return Err(SetFault::SetFull);
    }
    match merged.push(step.pair) {
        Ok(()) => Ok(()),
        Err(AllocError) => Err(SetFault::Memory),
    }
}

/// What stands behind so many pairs, one at most.
fn behind(pairs: &[Pair], count: usize) -> &[Pair]
    requires one { count ≤ 1 }
    requires within { count ≤ length pairs.now }
    ensures { result.now ≡ drop count pairs.now }
{
    &pairs[count..]
}

/// The merge of two sets with their vectors: the pairs that are in both, and the pairs of one whose dot the other's
/// vector doesn't cover.
///
/// The conditions are that the pairs of each ascend, and that their dots are of devices 0 to 15. `SetFull` comes only
/// where the merge has over `room` pairs, and `Ok` only where it hasn't. It makes one allocation at most.
pub fn merge_pairs(
    alloc: Global,
    a: &Seq<Pair>,
    av: &Vector,
    b: &Seq<Pair>,
    bv: &Vector,
    room: u32,
) -> Result<Seq<Pair>, SetFault>
    requires a_ascends { IsStrictlySortedBy pair_cmp a.now.items }
    requires b_ascends { IsStrictlySortedBy pair_cmp b.now.items }
    requires a_devices { All (λ p. p.dot.device < 16) a.now.items }
    requires b_devices { All (λ p. p.dot.device < 16) b.now.items }
    ensures ok { IfOk result (λ merged. merged ≡ plain (join_pairs av.now.counts bv.now.counts a.now.items b.now.items)) }
    ensures room { OnOk result (length (join_pairs av.now.counts bv.now.counts a.now.items b.now.items) ≤ room) }
    ensures full { result ≡ Err SetFault.SetFull → room < length (join_pairs av.now.counts bv.now.counts a.now.items b.now.items) }
{
    let room = room as usize;
    let most = a.len().saturating_add(b.len()).min(room);
    let mut merged = match Seq::with_capacity(alloc, most) {
        Ok(list) => list,
        Err(AllocError) => return Err(SetFault::Memory),
    };
    let mut own = a.as_slice();
    let mut other = b.as_slice();
    while let Some(step) = first_step(own, av, other, bv) {
        take_in(&mut merged, step, room)?;
        own = behind(own, step.own);
        other = behind(other, step.other);
    }
    Ok(merged)
}
