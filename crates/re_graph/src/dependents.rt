//! Dependents: the declarations that name a declaration.
ghost use Rattle.std.specs.Prelude.{◌≡◌, ℕ, ◌<◌, ◌==◌, ◌||◌, ◌&&◌, length, OnOk};
ghost use Rattle.std.specs.List.{All};
ghost use Rattle.re_graph.specs.Kept.{is_among, list_at};

use re_terms::Seq;
use std::alloc::AllocError;

/// Puts a declaration among the dependents of each of its inputs. The one refusal is want of memory.
pub fn link(dependents: &mut Vec<Seq<u16>>, inputs: &[u16], id: u16) -> Result<(), AllocError>
    requires declared { All (λ input. input < length dependents.old.items) inputs.now }
    ensures count { OnOk result (length dependents.new.items ≡ length dependents.old.items) }
    ensures linked { OnOk result ((input other : ℕ) → is_among (list_at dependents.new.items input) other
        ≡ (is_among (list_at dependents.old.items input) other || ((id == other) && is_among inputs.now input))) }
{
    for input in inputs {
        let found = &mut dependents[*input as usize];
        found.push(id)?;
    }
    Ok(())
}
