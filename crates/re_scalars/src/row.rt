//! Rows: one number for each of 16 devices.
ghost use Rattle.std.specs.Prelude.{◌≡◌, ◌<◌, ◌+◌, ◌^◌, ◌↔◌, IsFalse, IsOk, OnErr, OnOk, slice_index};
ghost use Rattle.std.specs.List.{sum};
ghost use Rattle.re_terms.specs.UpdateStates.{raise};
ghost use Rattle.re_terms.specs.Vectors.{greater_each};

use crate::CounterFull;

/// Raises a device's number, unless it would pass 2^63 - 1.
#[tactic(auto, unfolding(re_terms::specs::UpdateStates::raise))]
pub fn raise(row: &mut [u64; 16], device: u8, by: u64) -> Result<(), CounterFull>
    requires { device < 16 }
    ensures full { IsOk result ↔ (slice_index row.old device + by < 2 ^ 63) }
    ensures ok { OnOk result (row.new ≡ raise device by row.old) }
    ensures err { OnErr result (row.new ≡ row.old) }
{
    let place = usize::from(device);
    match row[place].checked_add(by) {
        Some(total) if total < 1 << 63 => {
            row[place] = total;
            Ok(())
        }
        _ => Err(CounterFull),
    }
}

/// Takes the greater number in each place, and says whether anything changed.
pub fn raise_all(a: &mut [u64; 16], b: &[u64; 16]) -> bool
    ensures joined { a.new ≡ greater_each a.old b.now }
    ensures changed { IsFalse result ↔ (a.new ≡ a.old) }
{
    let mut changed = false;
    for i in 0..16 {
        if a[i] < b[i] {
            a[i] = b[i];
            changed = true;
        }
    }
    changed
}

/// The sum of a row. Sixteen numbers of 64 bits need 68.
pub fn row_sum(row: &[u64; 16]) -> u128
    ensures sum { result ≡ sum row.now }
    ensures bounded { result < 2 ^ 68 }
{
    let mut sum = 0u128;
    for number in row {
        sum += u128::from(*number);
    }
    sum
}
