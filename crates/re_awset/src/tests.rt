//! Sets, changed and merged, beside their pairs as they are worked out by hand.
ghost use Rattle.std.specs.Prelude.{◌<◌, IfOk};
ghost use Rattle.std.specs.List.{All};
ghost use Rattle.std.specs.List.Sorted.{IsStrictlySortedBy};
ghost use Rattle.re_terms.specs.WordOrder.{pair_cmp};

use crate::{has, insert, merge_pairs, remove, size};
use re_terms::{Dot, Pair, Seq, SetFault, Vector, Word};
use std::alloc::Global;
use std::process::Abort;
use std::test::Fail;

fn pair(element: i64, device: u8, number: u64) -> Pair {
    Pair {
        element: Word::Int(element),
        dot: Dot { device, number },
    }
}

/// The vector with these numbers of the devices 0 and 1.
fn vector(numbers: [u64; 2]) -> Vector {
    let mut counts = [0; 16];
    counts[0] = numbers[0];
    counts[1] = numbers[1];
    Vector { counts }
}

/// A set of these pairs, put together one by one.
fn set_of(alloc: Global, pairs: &[Pair]) -> Result<Seq<Pair>, SetFault>
    ensures ascends { IfOk result (λ s. IsStrictlySortedBy pair_cmp s.items) }
    ensures devices { IfOk result (λ s. All (λ p. p.dot.device < 16) s.items) }
{
    let none = vector([0, 0]);
    let mut set = Seq::new(alloc);
    for pair in pairs {
        let device = pair.dot.device % 16;
        let number = pair.dot.number;
        let mut one = Seq::new(alloc);
        insert(&mut one, pair.element, Dot { device, number }, 1)?;
        set = merge_pairs(alloc, &set, &none, &one, &none, 64)?;
    }
    Ok(set)
}

/// Merges two sets that are put together of these pairs, and compares the pairs of the merge.
fn merges_to(
    rt: &impl Abort,
    alloc: Global,
    a: (&[Pair], [u64; 2]),
    b: (&[Pair], [u64; 2]),
    pairs: &[Pair],
) -> Result<(), SetFault> {
    let own = set_of(alloc, a.0)?;
    let other = set_of(alloc, b.0)?;
    let merged = merge_pairs(alloc, &own, &vector(a.1), &other, &vector(b.1), 64)?;
    assert!(rt; merged.as_slice() == pairs);
    Ok(())
}

#[test]
fn merges(rt: HostRuntime) -> Result<(), Fail> {
    let alloc = rt.alloc();
    let none: &[Pair] = &[];
    let p = [pair(4, 0, 1)];
    // An insert of 4 by device 0, and a remove of 4 by device 1 that hasn't seen it.
    merges_to(&rt, alloc, (&p, [1, 0]), (none, [0, 1]), &p)?;
    merges_to(&rt, alloc, (none, [0, 1]), (&p, [1, 0]), &p)?;
    // One has seen the pair and lacks it, so it was taken away there.
    merges_to(&rt, alloc, (&p, [1, 0]), (none, [1, 1]), none)?;
    merges_to(&rt, alloc, (none, [1, 1]), (&p, [1, 0]), none)?;
    // Both have it, whatever the vectors cover.
    merges_to(&rt, alloc, (&p, [1, 0]), (&p, [1, 0]), &p)?;
    merges_to(&rt, alloc, (&p, [0, 0]), (&p, [0, 0]), &p)?;
    merges_to(&rt, alloc, (none, [0, 0]), (none, [0, 0]), none)?;
    // Device 1 inserts 4 too: without having seen the pair, and after it had.
    let q = [pair(4, 1, 1)];
    let both = [pair(4, 0, 1), pair(4, 1, 1)];
    merges_to(&rt, alloc, (&p, [1, 0]), (&q, [0, 1]), &both)?;
    merges_to(&rt, alloc, (&q, [0, 1]), (&p, [1, 0]), &both)?;
    merges_to(&rt, alloc, (&p, [1, 0]), (&q, [1, 1]), &q)?;
    // The order is by element first, and then by device.
    let own = [pair(9, 0, 1)];
    let ordered = [pair(4, 1, 1), pair(9, 0, 1)];
    merges_to(&rt, alloc, (&own, [1, 0]), (&q, [0, 1]), &ordered)?;
    let later = [pair(4, 0, 8)];
    let ordered = [pair(4, 0, 8), pair(4, 1, 1)];
    merges_to(&rt, alloc, (&later, [8, 0]), (&q, [0, 1]), &ordered)?;
    // Device 1 has seen 3 and 9, has taken 3 away and has inserted 4.
    let own = [pair(3, 0, 1), pair(9, 0, 2)];
    let other = [pair(4, 1, 1), pair(9, 0, 2)];
    merges_to(&rt, alloc, (&own, [2, 0]), (&other, [2, 1]), &other)?;
    // Device 0 has seen 2 and has taken it away, and hasn't seen 7.
    let own = [pair(5, 0, 3)];
    let other = [pair(2, 1, 1), pair(7, 1, 2)];
    let merged = [pair(5, 0, 3), pair(7, 1, 2)];
    merges_to(&rt, alloc, (&own, [3, 1]), (&other, [0, 2]), &merged)?;
    Ok(())
}

/// Inserts a pair into a set of these pairs, compares what is there afterwards, and says whether there was room.
fn inserts_to(
    rt: &impl Abort,
    alloc: Global,
    before: &[Pair],
    new: Pair,
    room: u32,
    after: &[Pair],
) -> Result<bool, SetFault> {
    let mut set = set_of(alloc, before)?;
    let fault = insert(&mut set, new.element, new.dot, room).err();
    assert!(rt; set.as_slice() == after);
    match fault {
        Some(SetFault::Memory) => Err(SetFault::Memory),
        Some(SetFault::SetFull) => Ok(false),
        None => Ok(true),
    }
}

#[test]
fn inserts(rt: HostRuntime) -> Result<(), Fail> {
    let alloc = rt.alloc();
    let none: &[Pair] = &[];
    let p = [pair(4, 0, 2), pair(4, 1, 3), pair(9, 0, 1)];
    // One pair stands in the place of all pairs of its element.
    let after = [pair(4, 1, 7), pair(9, 0, 1)];
    assert!(rt; inserts_to(&rt, alloc, &p, pair(4, 1, 7), 2, &after)?);
    assert!(rt; !inserts_to(&rt, alloc, &p, pair(4, 1, 7), 1, &p)?);
    // An element that isn't there, before the others, between them and behind them.
    let after = [pair(-3, 0, 4), pair(4, 0, 2), pair(4, 1, 3), pair(9, 0, 1)];
    assert!(rt; inserts_to(&rt, alloc, &p, pair(-3, 0, 4), 4, &after)?);
    assert!(rt; !inserts_to(&rt, alloc, &p, pair(-3, 0, 4), 3, &p)?);
    let after = [pair(4, 0, 2), pair(4, 1, 3), pair(7, 0, 4), pair(9, 0, 1)];
    assert!(rt; inserts_to(&rt, alloc, &p, pair(7, 0, 4), 4, &after)?);
    let after = [pair(4, 0, 2), pair(4, 1, 3), pair(9, 0, 1), pair(12, 0, 4)];
    assert!(rt; inserts_to(&rt, alloc, &p, pair(12, 0, 4), 1024, &after)?);
    assert!(rt; inserts_to(&rt, alloc, none, pair(4, 0, 1), 1, &[pair(4, 0, 1)])?);
    assert!(rt; !inserts_to(&rt, alloc, none, pair(4, 0, 1), 0, none)?);
    Ok(())
}

/// Removes an element from a set of these pairs, and compares what is left.
fn removes_to(
    rt: &impl Abort,
    alloc: Global,
    before: &[Pair],
    element: i64,
    after: &[Pair],
) -> Result<(), SetFault> {
    let mut set = set_of(alloc, before)?;
    remove(&mut set, Word::Int(element));
    assert!(rt; set.as_slice() == after);
    Ok(())
}

#[test]
fn removes_and_reads(rt: HostRuntime) -> Result<(), Fail> {
    let alloc = rt.alloc();
    let p = [pair(9, 0, 1), pair(4, 1, 3), pair(4, 0, 2)];
    let ordered = [pair(4, 0, 2), pair(4, 1, 3), pair(9, 0, 1)];
    removes_to(&rt, alloc, &p, 4, &[pair(9, 0, 1)])?;
    removes_to(&rt, alloc, &p, 9, &[pair(4, 0, 2), pair(4, 1, 3)])?;
    removes_to(&rt, alloc, &p, 5, &ordered)?;
    let set = set_of(alloc, &p)?;
    assert_eq!(rt; size(&set), 2);
    for (element, there) in [
        (-4, false),
        (3, false),
        (4, true),
        (5, false),
        (9, true),
        (10, false),
    ] {
        assert_eq!(rt; has(&set, Word::Int(element)), there);
    }
    let none = set_of(alloc, &[])?;
    assert_eq!(rt; size(&none), 0);
    assert!(rt; !has(&none, Word::Bool(false)));
    let zeros = vector([0, 0]);
    assert!(rt;
        merge_pairs(alloc, &set, &zeros, &none, &zeros, 2).err() == Some(SetFault::SetFull)
    );
    assert!(rt; merge_pairs(alloc, &set, &zeros, &none, &zeros, 3)?.len() == 3);
    Ok(())
}
