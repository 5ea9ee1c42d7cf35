//! Sets of ids that are to be looked at, the least first.
ghost use Rattle.std.specs.Prelude.{◌≡◌, ℕ, ◌||◌, OnOk, IfOk};
ghost use Rattle.std.specs.BTreeSet.{contains};
ghost use Rattle.std.specs.Ordering.{nat_cmp};
ghost use Rattle.re_graph.specs.Kept.{is_among};

use std::alloc::{AllocError, Global};
use std::collections::BTreeSet;

/// Puts ids into the set. The one refusal is want of memory.
pub fn insert_all(pending: &mut BTreeSet<u16>, ids: &[u16]) -> Result<(), AllocError>
    ensures { OnOk result ((id : ℕ) → contains nat_cmp pending.new id ≡ (contains nat_cmp pending.old id || is_among ids.now id)) }
{
    for id in ids {
        pending.insert(*id)?;
    }
    Ok(())
}
