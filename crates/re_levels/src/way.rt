//! The way along what an entry reaches.
ghost use Rattle.std.specs.Prelude.{◌≡◌, ◌+◌, ◌<◌, ◌≤◌, ◌==◌, ℕ, Some, None, find, if◌then◌else◌, length, option_map, true, IfOk};
ghost use Rattle.std.specs.List.{All};
ghost use Rattle.re_terms.specs.Dependencies.{graph_of, is_reached};
ghost use Rattle.re_terms.specs.Programs.{IsProgram};
ghost use Rattle.re_terms.specs.Propagation.{Step, effect};
ghost use Rattle.re_levels.specs.Found.{effect_of, expressions_reached, seen_one};
ghost use Rattle.re_levels.specs.Places.{AreReaders, IsRanking};
ghost use Rattle.re_levels.specs.Seen.{sight_of};
ghost use Rattle.re_levels.specs.Telling.{TellsOf};

use crate::found::Found;
use crate::places::{Places, mark};
use crate::ranks::Ranks;
use crate::walk::Walk;
use re_eval::{Env, Steps};
use std::alloc::{AllocError, Global};
use std::sync::ledger::Ledger;

/// What each reached declaration has after the entry, and nothing else: each is taken once, after all its inputs.
///
/// It is what the definition says for each state of which the environments tell the words before the entry of what is
/// reached and of its inputs, and the replicated cells among these after it. No other names are asked for.
///
/// The steps rise by what is counted as evaluated, at most one for each expression that is reached, also where memory runs
/// out, the one refusal.
pub fn walk_reached<O: Env, N: Env, L: Ledger>(
    alloc: Global,
    walk: &Walk<O, N>,
    places: &Places,
    steps: &mut Steps<L>,
    evaluated: &mut u32,
) -> Result<Vec<Found>, AllocError>
    requires program { IsProgram walk.now.program.now }
    requires ranking { IsRanking (graph_of walk.now.program.now.decls.items) places.now.order.items places.now.ranks.items }
    requires readers { AreReaders (graph_of walk.now.program.now.decls.items) places.now.readers.items }
    requires touched { All (λ id. id < length (graph_of walk.now.program.now.decls.items)) walk.now.touched.now.items }
    requires none { evaluated.old ≡ 0 }
    ensures found { IfOk result (λ found. (id : ℕ) → find (λ f. f.id == id) found.items ≡ (if is_reached (graph_of walk.now.program.now.decls.items) walk.now.touched.now.items id then Some (seen_one walk.now.program.now (sight_of walk.now.entry.now walk.now.touched.now.items (O.told walk.now.old.now) (N.told walk.now.new.now)) id) else None)) }
    ensures effects { IfOk result (λ found. (s : Step) → TellsOf walk.now.program.now walk.now.entry.now walk.now.touched.now.items (O.told walk.now.old.now) (N.told walk.now.new.now) s → (id : ℕ) → is_reached (graph_of walk.now.program.now.decls.items) walk.now.touched.now.items id ≡ true → option_map effect_of (find (λ f. f.id == id) found.items) ≡ Some (effect walk.now.program.now s id)) }
    ensures steps { steps.new ≡ steps.old + evaluated.new }
    ensures once { evaluated.new ≤ expressions_reached walk.now.program.now walk.now.touched.now.items }
{
    let mut dirty = Ranks::new();
    mark(&mut dirty, &places.ranks, walk.touched.as_slice());
    let mut found = Vec::new(alloc);
    'walking: while let Some(rank) = dirty.take_lowest() {
        let id = places.order.as_slice()[rank as usize];
        let decl = &walk.program.decls.as_slice()[id as usize];
        let one = walk.effect(id, &decl.body, &found, steps, evaluated);
        found.push(one)?;
        let readers = places.readers[id as usize].as_slice();
        mark(&mut dirty, &places.ranks, readers);
    }
    Ok(found)
}
