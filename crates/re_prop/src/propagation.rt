//! Propagation: one entry's way along the declarations.
ghost use Rattle.std.specs.Prelude.{◌≡◌, ◌+◌, IfOk};
ghost use Rattle.re_terms.specs.Admission.{IsEntryOf};
ghost use Rattle.re_terms.specs.Dependencies.{graph_of};
ghost use Rattle.re_terms.specs.Listed.{plain};
ghost use Rattle.re_terms.specs.Programs.{IsProgram};
ghost use Rattle.re_terms.specs.Propagation.{step_in, words_after, changes as changes_of, signal_changes};
ghost use Rattle.re_terms.specs.Shapes.{FitsShape, shape_of};
ghost use Rattle.re_terms.specs.Changes.{with_changes};
ghost use Rattle.re_terms.specs.Views.{view_of};
ghost use Rattle.re_terms.specs.WordKinds.{AreChangesOf, IsStateOf};
ghost use Rattle.re_prop.specs.Caching.{put_all, signal_words};
ghost use Rattle.re_prop.specs.Reading.{words_read};

use crate::cache::Cache;
use crate::chosen::{changed_cells, changed_signals, chosen};
use crate::prepared::Prepared;
use crate::reading::read;
use crate::sizes::sizes;
use crate::walk::Walk;
use crate::walking::walk_all;
use crate::words::from_cache;
use re_eval::Steps;
use re_graph::Graph;
use re_terms::{Entry, Program, RState, State, TryCopy};
use std::alloc::{AllocError, Global};
use std::sync::ledger::Ledger;

/// What an entry changes in a state of the program, where the replicated state is `after` once it is taken.
///
/// The changes are of vars and folds, by ascending ids: a var's word is of its kind, a fold's of its kind or a fault. With
/// them put into the words of the state, these are the words after the entry; with the signals put into the cache, it is
/// that of the state after it.
///
/// The steps rise by the count of evaluated expressions, and may have risen where memory runs out, the one refusal.
pub fn propagate<L: Ledger>(
    alloc: Global,
    p: &Program,
    g: &Graph,
    c: &Cache,
    s: &State,
    entry: &Entry,
    after: &RState,
    steps: &mut Steps<L>,
) -> Result<Prepared, AllocError>
    requires program { IsProgram p.now }
    requires graph { g.now ≡ graph_of p.now.decls.items }
    requires state { IsStateOf p.now s.now }
    requires after { FitsShape (shape_of p.now) after.now }
    requires cache { c.now ≡ signal_words p.now s.now.words.items (view_of s.now.rep) }
    requires admitted { IsEntryOf p.now entry.now }
    ensures entry { IfOk result (λ prepared. prepared.entry ≡ entry.now) }
    ensures changes { IfOk result (λ prepared. prepared.changes ≡ plain (changes_of p.now (step_in s.now entry.now after.now))) }
    ensures kinds { IfOk result (λ prepared. AreChangesOf p.now prepared.changes.items) }
    ensures words { IfOk result (λ prepared. with_changes p.now.decls.items s.now.words.items prepared.changes.items ≡ words_after p.now (step_in s.now entry.now after.now)) }
    ensures signals { IfOk result (λ prepared. prepared.signals ≡ plain (signal_changes p.now (step_in s.now entry.now after.now))) }
    ensures signal_words { IfOk result (λ prepared. put_all c.now prepared.signals.items ≡ signal_words p.now (words_after p.now (step_in s.now entry.now after.now)) (view_of after.now)) }
    ensures read { IfOk result (λ prepared. prepared.read ≡ plain (words_read p.now s.now entry.now after.now)) }
    ensures evaluated { IfOk result (λ prepared. steps.new ≡ steps.old + prepared.evaluated) }
{
    let decls = p.decls.as_slice();
    let before = from_cache(alloc, p, c, s)?;
    let sizes = sizes(alloc, after.cells.as_slice())?;
    let walk = Walk {
        program: p,
        state: s,
        entry,
        after,
        sizes: &sizes,
        before: &before,
    };
    let mut evaluated = 0;
    let effects = walk_all(alloc, &walk, steps, &mut evaluated)?;
    let changed = changed_cells(alloc, decls, &before, &effects.words)?;
    let signals = changed_signals(alloc, decls, &before, &effects.words)?;
    Ok(Prepared {
        entry: entry.copy(alloc)?,
        changes: chosen(alloc, &changed, &effects.words)?,
        signals: chosen(alloc, &signals, &effects.words)?,
        read: read(alloc, p, g, s, entry, after, &before)?,
        evaluated,
    })
}
