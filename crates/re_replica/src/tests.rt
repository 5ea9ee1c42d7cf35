//! Replicas that act apart and merge each other's states.
ghost use Rattle.std.specs.Prelude.{◌≡◌, ◌<◌, ◌^◌, IfOk};
ghost use Rattle.re_replica.specs.Sample.{sample, sample_state};

use crate::{Replica, ReplicaFault};
use re_terms::{
    Act, Dot, Kind, Pair, RCell, RKind, RState, RepOp, Rows, Seq, Shape, Vector, Word, Written,
};
use std::alloc::{AllocError, Global};
use std::marker::Model;
use std::process::Abort;
use std::test::Fail;

/// A replica of the shape for tests.
#[derive(Drop)]
struct Sampled {
    replica: Replica,
}

impl Model for Sampled {
    ghost use Rattle.std.specs.Prelude.{◌≡◌};
    ghost use Rattle.re_replica.specs.Replica.{ReplicaState};
    ghost use Rattle.re_replica.specs.Sample.{sample};

    ghost Value = { ReplicaState };

    ghost view = { λ s. s.replica };

    ghost invariant = { λ s. s.replica.shape ≡ sample };
}

/// What a device does: it adds to the counter, inserts into the set, removes from it, or writes the register.
#[derive(Clone, Copy)]
enum Step {
    Add(i64),
    Insert(i64),
    Remove(i64),
    Write(i64),
}

/// Two devices, a counter, a set and a register.
fn shape(alloc: Global) -> Result<Shape, AllocError>
    ensures { IfOk result (λ shape. shape ≡ sample) }
{
    let mut cells = Seq::new(alloc);
    cells.push(RKind::Counter)?;
    cells.push(RKind::Set(Kind::Int))?;
    cells.push(RKind::Register(Kind::Int, Word::Int(0)))?;
    Ok(Shape {
        devices: 2,
        symbols: 0,
        cells,
    })
}

/// The state in which device 0 has this count of dots, and the register this stamp.
fn state(alloc: Global, count: u64, stamp: u64) -> Result<RState, AllocError>
    ensures { IfOk result (λ state. state ≡ sample_state count stamp) }
{
    let mut cells = Seq::new(alloc);
    cells.push(RCell::Counter(Rows {
        plus: [0; 16],
        minus: [0; 16],
    }))?;
    cells.push(RCell::Set(Seq::new(alloc)))?;
    cells.push(RCell::Register(Written {
        stamp,
        device: 0,
        word: Word::Int(0),
    }))?;
    let mut counts = [0; 16];
    counts[0] = count;
    Ok(RState {
        vector: Vector { counts },
        cells,
    })
}

/// A replica of a device, which begins with this count of dots of device 0 and this stamp.
fn replica_at(alloc: Global, device: u8, count: u64, stamp: u64) -> Result<Sampled, AllocError>
    requires device { device < 2 }
    requires count { count < 2 ^ 48 }
    requires stamp { stamp < 2 ^ 52 }
{
    let shape = shape(alloc)?;
    let state = state(alloc, count, stamp)?;
    Ok(Sampled {
        replica: Replica::new(alloc, shape, device, state),
    })
}

/// A replica of a device before any update.
fn replica(alloc: Global, device: u8) -> Result<Sampled, AllocError>
    requires { device < 2 }
{
    replica_at(alloc, device, 0, 0)
}

/// What the device answers to a step.
fn act(sampled: &mut Sampled, step: Step) -> Result<(), ReplicaFault> {
    let op = match step {
        Step::Add(amount) => RepOp {
            cell: 0,
            act: Act::Add(amount),
        },
        Step::Insert(element) => RepOp {
            cell: 1,
            act: Act::Insert(Word::Int(element)),
        },
        Step::Remove(element) => RepOp {
            cell: 1,
            act: Act::Remove(Word::Int(element)),
        },
        Step::Write(word) => RepOp {
            cell: 2,
            act: Act::Write(Word::Int(word)),
        },
    };
    sampled.replica.apply(&op)
}

/// Merges the state of another replica into one. It gives the bits of the cells that changed.
fn take_in(sampled: &mut Sampled, other: &Sampled) -> Result<u32, ReplicaFault> {
    let changed = sampled.replica.merge(other.replica.state())?;
    Ok(changed.cells)
}

/// The pairs of the set.
fn pairs(sampled: &Sampled) -> &[Pair] {
    match sampled.replica.state().cells.get(1) {
        Some(RCell::Set(pairs)) => pairs.as_slice(),
        _ => &[],
    }
}

fn pair(element: i64, device: u8, number: u64) -> Pair {
    Pair {
        element: Word::Int(element),
        dot: Dot { device, number },
    }
}

/// How many dots the devices have.
fn dots(sampled: &Sampled) -> (u64, u64) {
    let counts = sampled.replica.state().vector.counts;
    (counts[0], counts[1])
}

/// Two replicas show the same and have the same pairs and counts.
fn assert_agree(rt: &impl Abort, a: &Sampled, b: &Sampled) {
    assert!(rt; a.replica.word(0) == b.replica.word(0));
    assert!(rt; a.replica.word(2) == b.replica.word(2));
    assert!(rt; pairs(a) == pairs(b));
    assert!(rt; a.replica.state().vector == b.replica.state().vector);
}

#[test]
fn an_insert_apart_from_a_remove_stays(rt: HostRuntime) -> Result<(), Fail> {
    let alloc = rt.alloc();
    let mut a = replica(alloc, 0)?;
    let mut b = replica(alloc, 1)?;
    assert_eq!(rt; act(&mut a, Step::Insert(4)), Ok(()));
    assert_eq!(rt; act(&mut b, Step::Remove(4)), Ok(()));
    assert_eq!(rt; take_in(&mut b, &a), Ok(2));
    assert_eq!(rt; take_in(&mut a, &b), Ok(0));
    assert!(rt; pairs(&a) == [pair(4, 0, 1)].as_slice());
    assert!(rt; dots(&a) == (1, 1));
    assert!(rt; a.replica.has(1, Word::Int(4)));
    assert!(rt; !a.replica.has(1, Word::Int(5)));
    assert_eq!(rt; a.replica.size(1), 1);
    assert_agree(&rt, &a, &b);
    assert_eq!(rt; act(&mut b, Step::Remove(4)), Ok(()));
    assert_eq!(rt; take_in(&mut a, &b), Ok(2));
    assert_eq!(rt; a.replica.size(1), 0);
    Ok(())
}

#[test]
fn the_later_device_wins_a_register(rt: HostRuntime) -> Result<(), Fail> {
    let alloc = rt.alloc();
    let mut a = replica(alloc, 0)?;
    let mut b = replica(alloc, 1)?;
    assert_eq!(rt; act(&mut a, Step::Write(1)), Ok(()));
    assert_eq!(rt; act(&mut b, Step::Write(2)), Ok(()));
    assert_eq!(rt; take_in(&mut b, &a), Ok(0));
    assert_eq!(rt; take_in(&mut a, &b), Ok(4));
    assert_eq!(rt; a.replica.word(2), Word::Int(2));
    assert_agree(&rt, &a, &b);
    assert_eq!(rt; act(&mut a, Step::Write(3)), Ok(()));
    assert_eq!(rt; take_in(&mut b, &a), Ok(4));
    assert_eq!(rt; b.replica.word(2), Word::Int(3));
    Ok(())
}

#[test]
fn a_pair_inserted_and_removed_leaves_two_dots(rt: HostRuntime) -> Result<(), Fail> {
    let mut a = replica(rt.alloc(), 0)?;
    assert_eq!(rt; act(&mut a, Step::Insert(4)), Ok(()));
    assert_eq!(rt; act(&mut a, Step::Remove(4)), Ok(()));
    assert!(rt; pairs(&a).is_empty());
    assert!(rt; dots(&a) == (2, 0));
    Ok(())
}

#[test]
fn a_sum_of_two_devices_past_64_bits_is_a_fault(rt: HostRuntime) -> Result<(), Fail> {
    let alloc = rt.alloc();
    let mut a = replica(alloc, 0)?;
    let mut b = replica(alloc, 1)?;
    assert_eq!(rt; act(&mut a, Step::Add(i64::MAX)), Ok(()));
    assert_eq!(rt; act(&mut b, Step::Add(i64::MAX)), Ok(()));
    assert_eq!(rt; take_in(&mut b, &a), Ok(1));
    assert_eq!(rt; b.replica.word(0), Word::Fault(1));
    Ok(())
}

#[test]
fn a_counter_is_full_at_its_limits(rt: HostRuntime) -> Result<(), Fail> {
    let mut a = replica(rt.alloc(), 0)?;
    let steps = [
        (i64::MAX, Ok(())),
        (1, Err(ReplicaFault::CounterFull)),
        (-1, Ok(())),
        (i64::MIN, Err(ReplicaFault::CounterFull)),
    ];
    for (amount, answer) in steps {
        assert_eq!(rt; act(&mut a, Step::Add(amount)), answer);
    }
    assert_eq!(rt; a.replica.word(0), Word::Int(9223372036854775806));
    assert!(rt; dots(&a) == (2, 0));
    Ok(())
}

#[test]
fn a_set_is_full_at_1024_pairs(rt: HostRuntime) -> Result<(), Fail> {
    let mut a = replica(rt.alloc(), 0)?;
    for element in 0..1024 {
        assert_eq!(rt; act(&mut a, Step::Insert(element)), Ok(()));
    }
    assert_eq!(rt; act(&mut a, Step::Insert(1024)), Err(ReplicaFault::SetFull));
    assert!(rt; dots(&a) == (1024, 0));
    assert_eq!(rt; act(&mut a, Step::Insert(5)), Ok(()));
    assert_eq!(rt; a.replica.size(1), 1024);
    assert!(rt; dots(&a) == (1025, 0));
    Ok(())
}

#[test]
fn a_merge_of_full_sets_is_refused(rt: HostRuntime) -> Result<(), Fail> {
    let alloc = rt.alloc();
    let mut a = replica(alloc, 0)?;
    let mut b = replica(alloc, 1)?;
    for element in 0..1024 {
        assert_eq!(rt; act(&mut a, Step::Insert(element)), Ok(()));
    }
    assert_eq!(rt; act(&mut b, Step::Insert(7)), Ok(()));
    assert_eq!(rt; act(&mut b, Step::Add(1)), Ok(()));
    assert_eq!(rt; take_in(&mut a, &b), Err(ReplicaFault::SetFull));
    assert_eq!(rt; a.replica.word(0), Word::Int(0));
    assert!(rt; dots(&a) == (1024, 0));
    assert_eq!(rt; act(&mut a, Step::Remove(9)), Ok(()));
    assert_eq!(rt; take_in(&mut a, &b), Ok(3));
    assert_eq!(rt; a.replica.size(1), 1023);
    Ok(())
}

#[test]
fn dots_and_stamps_are_spent_before_a_limit_is_asked(rt: HostRuntime) -> Result<(), Fail> {
    let alloc = rt.alloc();
    let spent = Err(ReplicaFault::DotsSpent);
    let mut a = replica_at(alloc, 0, 281474976710654, 0)?;
    assert_eq!(rt; act(&mut a, Step::Add(i64::MAX)), Ok(()));
    for step in [
        Step::Add(1),
        Step::Insert(4),
        Step::Remove(4),
        Step::Write(4),
    ] {
        assert_eq!(rt; act(&mut a, step), spent);
    }
    assert!(rt; dots(&a) == (281474976710655, 0));
    let mut b = replica_at(alloc, 0, 0, 4503599627370494)?;
    assert_eq!(rt; act(&mut b, Step::Write(7)), Ok(()));
    assert_eq!(rt; act(&mut b, Step::Write(8)), spent);
    assert_eq!(rt; b.replica.word(2), Word::Int(7));
    assert_eq!(rt; act(&mut b, Step::Insert(4)), Ok(()));
    assert!(rt; dots(&b) == (2, 0));
    Ok(())
}

#[test]
fn a_merge_names_the_cells_that_change(rt: HostRuntime) -> Result<(), Fail> {
    let alloc = rt.alloc();
    let steps = [
        (Step::Add(0), 0),
        (Step::Add(5), 1),
        (Step::Insert(4), 2),
        (Step::Insert(4), 2),
        (Step::Remove(9), 0),
        (Step::Write(0), 4),
    ];
    let mut a = replica(alloc, 0)?;
    let mut b = replica(alloc, 1)?;
    for (step, changed) in steps {
        assert_eq!(rt; act(&mut a, step), Ok(()));
        assert_eq!(rt; take_in(&mut b, &a), Ok(changed));
        assert_eq!(rt; take_in(&mut b, &a), Ok(0));
    }
    assert_agree(&rt, &a, &b);
    Ok(())
}

#[test]
fn merges_in_any_order_agree(rt: HostRuntime) -> Result<(), Fail> {
    let alloc = rt.alloc();
    let mut a = replica(alloc, 0)?;
    let mut b = replica(alloc, 1)?;
    for step in [Step::Insert(3), Step::Add(2), Step::Write(1)] {
        assert_eq!(rt; act(&mut a, step), Ok(()));
    }
    for step in [Step::Add(-7), Step::Insert(3), Step::Insert(1)] {
        assert_eq!(rt; act(&mut b, step), Ok(()));
    }
    let mut one = replica(alloc, 0)?;
    let mut other = replica(alloc, 1)?;
    assert_eq!(rt; take_in(&mut one, &a), Ok(7));
    assert_eq!(rt; take_in(&mut one, &b), Ok(3));
    assert_eq!(rt; take_in(&mut other, &b), Ok(3));
    assert_eq!(rt; take_in(&mut other, &a), Ok(7));
    assert_eq!(rt; take_in(&mut other, &b), Ok(0));
    assert_agree(&rt, &one, &other);
    assert_eq!(rt; one.replica.word(0), Word::Int(-5));
    assert_eq!(rt; one.replica.word(2), Word::Int(1));
    assert!(rt; pairs(&one) == [pair(1, 1, 3), pair(3, 0, 1), pair(3, 1, 2)].as_slice());
    assert_eq!(rt; one.replica.size(1), 2);
    Ok(())
}
