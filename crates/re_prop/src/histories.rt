//! Small programs over several turns, each in the state that the turn before it left.
ghost use Rattle.std.specs.Prelude.{◌≡◌, ◌<◌, ◌≤◌, length, OnOk};
ghost use Rattle.std.specs.List.{All};
ghost use Rattle.re_terms.specs.Admission.{IsEntryOf};
ghost use Rattle.re_terms.specs.Cells.{cell_place};
ghost use Rattle.re_terms.specs.Changes.{with_changes};
ghost use Rattle.re_terms.specs.Dependencies.{graph_of};
ghost use Rattle.re_terms.specs.Programs.{IsProgram};
ghost use Rattle.re_terms.specs.Views.{view_of};
ghost use Rattle.re_terms.specs.WordKinds.{IsStateOf};
ghost use Rattle.re_prop.specs.Caching.{signal_words};

use crate::bodies::cell_place;
use crate::tests::{are, sample, started, turn_of};
use crate::words::from_cache;
use crate::{Cache, Prepared, propagate};
use re_eval::Steps;
use re_graph::Graph;
use re_terms::{Entry, Program, Put, Seq, State, Word};
use std::alloc::{AllocError, Global};
use std::marker::Brand;
use std::sync::ledger::{Blank, Ledger};
use std::test::Fail;

/// Puts words in the places of their vars and folds.
fn put_words(p: &Program, words: &mut Seq<Word>, puts: &[Put])
    requires declared { All (λ put. put.id < length p.now.decls.items) puts.now }
    requires placed { All (λ put. cell_place p.now.decls.items put.id < length words.old.items) puts.now }
    ensures { words.new.items ≡ with_changes p.now.decls.items words.old.items puts.now }
{
    for put in puts {
        words.set(cell_place(p.decls.as_slice(), put.id as usize), put.word);
    }
}

/// Takes an entry that leaves the replicated cells: what it changes is put into the state and among the words of signals.
fn enter<L: Ledger>(
    alloc: Global,
    p: &Program,
    g: &Graph,
    s: &mut State,
    c: &mut Cache,
    entry: &Entry,
    steps: &mut Steps<L>,
) -> Result<Prepared, AllocError>
    requires program { IsProgram p.now }
    requires graph { g.now ≡ graph_of p.now.decls.items }
    requires state { IsStateOf p.now s.old }
    requires cache { c.old ≡ signal_words p.now s.old.words.items (view_of s.old.rep) }
    requires admitted { IsEntryOf p.now entry.now }
    ensures state { OnOk result (IsStateOf p.now s.new) }
    ensures cache { OnOk result (c.new ≡ signal_words p.now s.new.words.items (view_of s.new.rep)) }
{
    let prepared = propagate(alloc, p, g, c, s, entry, &s.rep, steps)?;
    put_words(p, &mut s.words, prepared.changes.as_slice());
    c.put(&prepared.signals);
    Ok(prepared)
}

/// A turn, by the int that is set or fired, and what it does: the vars and folds and the signals that it changes, and the
/// word that each declaration has after it, 0 where it has none.
#[derive(Clone, Copy)]
struct Row<'a> {
    number: i64,
    changes: &'a [(u16, Word)],
    signals: &'a [(u16, Word)],
    words: &'a [Word],
}

/// Takes the turn of a row, and says whether it did what the row says; the turn sets or fires the declaration with this id.
fn does_as<L: Ledger>(
    alloc: Global,
    p: &Program,
    g: &Graph,
    s: &mut State,
    c: &mut Cache,
    id: u16,
    row: &Row<'_>,
    steps: &mut Steps<L>,
) -> Result<bool, AllocError>
    requires program { IsProgram p.now }
    requires graph { g.now ≡ graph_of p.now.decls.items }
    requires state { IsStateOf p.now s.old }
    requires cache { c.old ≡ signal_words p.now s.old.words.items (view_of s.old.rep) }
    ensures state { OnOk result (IsStateOf p.now s.new) }
    ensures cache { OnOk result (c.new ≡ signal_words p.now s.new.words.items (view_of s.new.rep)) }
{
    let Some(entry) = turn_of(alloc, p, id, row.number)? else {
        return Ok(false);
    };
    let prepared = enter(alloc, p, g, s, c, &entry, steps)?;
    let words = from_cache(alloc, p, c, s)?;
    Ok(is_as(row, &prepared, &words))
}

/// The first of these turns that does something else; the turns set or fire the declaration with this id.
fn first_other_in<L: Ledger>(
    alloc: Global,
    p: &Program,
    g: &Graph,
    s: &mut State,
    c: &mut Cache,
    id: u16,
    rows: &[Row<'_>],
    steps: &mut Steps<L>,
) -> Result<Option<i64>, AllocError>
    requires program { IsProgram p.now }
    requires graph { g.now ≡ graph_of p.now.decls.items }
    requires state { IsStateOf p.now s.old }
    requires cache { c.old ≡ signal_words p.now s.old.words.items (view_of s.old.rep) }
{
    for row in rows {
        let is_same = does_as(alloc, p, g, s, c, id, row, steps)?;
        if !is_same {
            return Ok(Some(row.number));
        }
    }
    Ok(None)
}

/// The first of these turns that does something else, in the sample at this place, from its start.
fn first_other<L: Ledger>(
    blank: Blank,
    alloc: Global,
    which: u8,
    id: u16,
    rows: &[Row<'_>],
) -> Result<Option<i64>, AllocError>
    requires name { blank.name ≡ L.name }
    requires parts { blank.parts ≡ L.parts }
    requires one { 0 < L.parts }
{
    let p = sample(alloc, which)?;
    let g = Graph::build(alloc, &p)?;
    let mut s = started(alloc, &p)?;
    let mut c = Cache::fill(alloc, &p, &s)?;
    let mut steps = Steps::<L>::new(blank);
    first_other_in(alloc, &p, &g, &mut s, &mut c, id, rows, &mut steps)
}

/// The first of these turns that does something else, where nobody asks for the count of evaluations.
fn unexpected(
    alloc: Global,
    which: u8,
    id: u16,
    rows: &[Row<'_>],
) -> Result<Option<i64>, AllocError> {
    first_other::<Brand>(Blank::new(1), alloc, which, id, rows)
}

/// Whether a turn did what the row says.
fn is_as(row: &Row<'_>, prepared: &Prepared, words: &[Word]) -> bool {
    are(&prepared.changes, row.changes) && are(&prepared.signals, row.signals) && words == row.words
}

/// The turns of the diamond that set its var to 5, to 5 again, and to 6.
const SUM_TURNS: [Row<'static>; 3] = [
    Row {
        number: 5,
        changes: &[(1, Word::Int(5)), (6, Word::Int(1)), (8, Word::Int(17))],
        signals: &[(2, Word::Int(6)), (3, Word::Int(10)), (4, Word::Int(16))],
        words: &[
            Word::Int(0),
            Word::Int(5),
            Word::Int(6),
            Word::Int(10),
            Word::Int(16),
            Word::Int(0),
            Word::Int(1),
            Word::Int(0),
            Word::Int(17),
        ],
    },
    // The var is set to its own word.
    Row {
        number: 5,
        changes: &[],
        signals: &[],
        words: &[
            Word::Int(0),
            Word::Int(5),
            Word::Int(6),
            Word::Int(10),
            Word::Int(16),
            Word::Int(0),
            Word::Int(1),
            Word::Int(0),
            Word::Int(17),
        ],
    },
    Row {
        number: 6,
        changes: &[(1, Word::Int(6)), (6, Word::Int(2)), (8, Word::Int(21))],
        signals: &[(2, Word::Int(7)), (3, Word::Int(12)), (4, Word::Int(19))],
        words: &[
            Word::Int(0),
            Word::Int(6),
            Word::Int(7),
            Word::Int(12),
            Word::Int(19),
            Word::Int(0),
            Word::Int(2),
            Word::Int(0),
            Word::Int(21),
        ],
    },
];

#[test]
fn counts_changes_of_a_sum(rt: HostRuntime) -> Result<(), Fail> {
    let other = unexpected(rt.alloc(), 0, 1, &SUM_TURNS)?;
    assert_eq!(rt; other, None);
    Ok(())
}

/// The turns that set a counted var to its own word 1, to 2 and to 3.
const VAR_TURNS: [Row<'static>; 3] = [
    Row {
        number: 1,
        changes: &[],
        signals: &[],
        words: &[Word::Int(0), Word::Int(1), Word::Int(0), Word::Int(0)],
    },
    Row {
        number: 2,
        changes: &[(1, Word::Int(2)), (3, Word::Int(1))],
        signals: &[],
        words: &[Word::Int(0), Word::Int(2), Word::Int(0), Word::Int(1)],
    },
    Row {
        number: 3,
        changes: &[(1, Word::Int(3)), (3, Word::Int(2))],
        signals: &[],
        words: &[Word::Int(0), Word::Int(3), Word::Int(0), Word::Int(2)],
    },
];

#[test]
fn counts_changes_of_a_var(rt: HostRuntime) -> Result<(), Fail> {
    let other = unexpected(rt.alloc(), 3, 1, &VAR_TURNS)?;
    assert_eq!(rt; other, None);
    Ok(())
}

/// The turns that fire 2, 0 and 5 to be divided by.
const DIVISION_TURNS: [Row<'static>; 3] = [
    Row {
        number: 2,
        changes: &[(2, Word::Int(5)), (3, Word::Int(5))],
        signals: &[],
        words: &[Word::Int(0), Word::Int(0), Word::Int(5), Word::Int(5)],
    },
    Row {
        number: 0,
        changes: &[(2, Word::Fault(2)), (3, Word::Int(100))],
        signals: &[],
        words: &[Word::Int(0), Word::Int(0), Word::Fault(2), Word::Int(100)],
    },
    Row {
        number: 5,
        changes: &[(3, Word::Int(102))],
        signals: &[],
        words: &[Word::Int(0), Word::Int(0), Word::Fault(2), Word::Int(102)],
    },
];

#[test]
fn keeps_a_fault_or_recovers(rt: HostRuntime) -> Result<(), Fail> {
    let other = unexpected(rt.alloc(), 2, 1, &DIVISION_TURNS)?;
    assert_eq!(rt; other, None);
    Ok(())
}

/// The turns that fire 2, 10, 0 and 2 again where other folds go on with what the division gives.
const FAULT_TURNS: [Row<'static>; 4] = [
    Row {
        number: 2,
        changes: &[(2, Word::Int(5)), (4, Word::Int(2)), (7, Word::Int(5))],
        signals: &[],
        words: &[
            Word::Int(0),
            Word::Int(0),
            Word::Int(5),
            Word::Int(0),
            Word::Int(2),
            Word::Int(0),
            Word::Int(0),
            Word::Int(5),
        ],
    },
    Row {
        number: 10,
        changes: &[(2, Word::Int(6)), (7, Word::Int(11))],
        signals: &[],
        words: &[
            Word::Int(0),
            Word::Int(0),
            Word::Int(6),
            Word::Int(0),
            Word::Int(2),
            Word::Int(0),
            Word::Int(0),
            Word::Int(11),
        ],
    },
    Row {
        number: 0,
        changes: &[
            (2, Word::Fault(2)),
            (4, Word::Int(100)),
            (7, Word::Fault(2)),
        ],
        signals: &[],
        words: &[
            Word::Int(0),
            Word::Int(0),
            Word::Fault(2),
            Word::Int(0),
            Word::Int(100),
            Word::Int(0),
            Word::Int(0),
            Word::Fault(2),
        ],
    },
    Row {
        number: 2,
        changes: &[(4, Word::Int(2))],
        signals: &[],
        words: &[
            Word::Int(0),
            Word::Int(0),
            Word::Fault(2),
            Word::Int(0),
            Word::Int(2),
            Word::Int(0),
            Word::Int(0),
            Word::Fault(2),
        ],
    },
];

#[test]
fn goes_on_after_faults(rt: HostRuntime) -> Result<(), Fail> {
    let other = unexpected(rt.alloc(), 1, 1, &FAULT_TURNS)?;
    assert_eq!(rt; other, None);
    Ok(())
}

/// The turns that fire 3, 0, 5, 2, 7 and 10 where faults come and are cleared.
const CLEARING_TURNS: [Row<'static>; 6] = [
    Row {
        number: 3,
        changes: &[(3, Word::Int(3)), (4, Word::Int(3))],
        signals: &[(5, Word::Int(6))],
        words: &[
            Word::Int(0),
            Word::Int(0),
            Word::Int(0),
            Word::Int(3),
            Word::Int(3),
            Word::Int(6),
        ],
    },
    // The filter carries the fault of its condition.
    Row {
        number: 0,
        changes: &[(3, Word::Fault(2)), (4, Word::Fault(2))],
        signals: &[(5, Word::Fault(2))],
        words: &[
            Word::Int(0),
            Word::Int(0),
            Word::Int(0),
            Word::Fault(2),
            Word::Fault(2),
            Word::Fault(2),
        ],
    },
    // It doesn't occur, so the fold on it keeps the fault.
    Row {
        number: 5,
        changes: &[],
        signals: &[],
        words: &[
            Word::Int(0),
            Word::Int(0),
            Word::Int(0),
            Word::Fault(2),
            Word::Fault(2),
            Word::Fault(2),
        ],
    },
    // It occurs with a value again.
    Row {
        number: 2,
        changes: &[(3, Word::Int(2))],
        signals: &[],
        words: &[
            Word::Int(0),
            Word::Int(0),
            Word::Int(0),
            Word::Int(2),
            Word::Fault(2),
            Word::Fault(2),
        ],
    },
    // The other fold recovers.
    Row {
        number: 7,
        changes: &[(4, Word::Int(50))],
        signals: &[(5, Word::Int(52))],
        words: &[
            Word::Int(0),
            Word::Int(0),
            Word::Int(0),
            Word::Int(2),
            Word::Int(50),
            Word::Int(52),
        ],
    },
    Row {
        number: 10,
        changes: &[(4, Word::Int(51))],
        signals: &[(5, Word::Int(53))],
        words: &[
            Word::Int(0),
            Word::Int(0),
            Word::Int(0),
            Word::Int(2),
            Word::Int(51),
            Word::Int(53),
        ],
    },
];

#[test]
fn clears_faults(rt: HostRuntime) -> Result<(), Fail> {
    let other = unexpected(rt.alloc(), 4, 1, &CLEARING_TURNS)?;
    assert_eq!(rt; other, None);
    Ok(())
}
