//! Registers.
ghost use Rattle.std.specs.Prelude.{◌≡◌, ◌<◌, ◌+◌, ◌^◌, ◌↔◌, IsFalse, IsOk, OnErr, OnOk};
ghost use Rattle.re_terms.specs.CellStates.{join_written};
ghost use Rattle.re_terms.specs.UpdateStates.{written_after};

use re_terms::{Word, Written};

/// A register's next stamp would reach 2^52.
#[derive(Clone, Copy, Debug, PartialEq, Eq)]
pub struct DotsSpent;

/// Writes a device's word, with a stamp of 1 more than the greatest that the register has seen.
///
/// `DotsSpent` comes exactly where that stamp would reach 2^52, and leaves the register as it was.
pub fn assign(r: &mut Written, device: u8, word: Word) -> Result<(), DotsSpent>
    ensures spent { IsOk result ↔ (r.old.stamp + 1 < 2 ^ 52) }
    ensures ok { OnOk result (r.new ≡ written_after device word r.old) }
    ensures err { OnErr result (r.new ≡ r.old) }
{
    if r.stamp >= (1 << 52) - 1 {
        return Err(DotsSpent);
    }
    *r = Written {
        stamp: r.stamp + 1,
        device,
        word,
    };
    Ok(())
}

/// Merges another register into `a`: the greater stamp and device, and `a`'s own word where both are equal. It says
/// whether `a` changed.
#[tactic(auto, unfolding(re_terms::specs::CellStates::join_written))]
pub fn merge_written(a: &mut Written, b: &Written) -> bool
    ensures joined { a.new ≡ join_written a.old b.now }
    ensures changed { IsFalse result ↔ (a.new ≡ a.old) }
{
    let later = a.stamp < b.stamp || (a.stamp == b.stamp && a.device < b.device);
    if later {
        *a = *b;
    }
    later
}
