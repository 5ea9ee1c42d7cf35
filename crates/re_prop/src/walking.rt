//! The walk along the declarations.
ghost use Rattle.std.specs.Prelude.{◌≡◌, ◌+◌, IfOk};
ghost use Rattle.re_terms.specs.Programs.{IsProgram};
ghost use Rattle.re_terms.specs.Propagation.{effect, step_in};
ghost use Rattle.re_prop.specs.Effects.{effects_at};

use crate::effects::Effects;
use crate::walk::Walk;
use re_eval::Steps;
use std::alloc::{AllocError, Global};
use std::sync::ledger::Ledger;

/// What each declaration has after the entry. The steps rise by what is counted as evaluated.
///
/// The one refusal is want of memory.
pub fn walk_all<L: Ledger>(
    alloc: Global,
    walk: &Walk,
    steps: &mut Steps<L>,
    evaluated: &mut u32,
) -> Result<Effects, AllocError>
    requires program { IsProgram walk.now.program.now }
    requires none { evaluated.old ≡ 0 }
    ensures effects { IfOk result (λ found. effects_at found.words.items found.values.items ≡ effect walk.now.program.now (step_in walk.now.state.now walk.now.entry.now walk.now.after.now)) }
    ensures steps { steps.new ≡ steps.old + evaluated.new }
{
    let mut effects = Effects::new(alloc);
    'walking: for (id, decl) in walk.program.decls.as_slice().iter().enumerate() {
        let word = walk.word(id, decl, &effects, steps, evaluated);
        let value = walk.occurrence(id, &decl.body, &effects, steps, evaluated);
        effects.push(word, value)?;
    }
    Ok(effects)
}
