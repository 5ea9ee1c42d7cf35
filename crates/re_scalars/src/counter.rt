//! Counters.
ghost use Rattle.std.specs.Prelude.{◌≡◌, ◌<◌, ◌^◌, ◌↔◌, IsFalse, IsOk, OnErr, OnOk};
ghost use Rattle.re_terms.specs.Limits.{raised_total};
ghost use Rattle.re_terms.specs.CellStates.{join_rows};
ghost use Rattle.re_terms.specs.UpdateStates.{rows_after};
ghost use Rattle.re_terms.specs.Views.{total};

use crate::row::{raise, raise_all, row_sum};
use re_terms::{Rows, Word};

/// A device's total of increments or of decrements would pass 2^63 - 1.
#[derive(Clone, Copy, Debug, PartialEq, Eq)]
pub struct CounterFull;

/// Adds a device's amount: one of 0 or more raises its increments, a negative one its decrements by the magnitude.
///
/// `CounterFull` comes exactly where the total that is raised would pass 2^63 - 1, and leaves the rows as they were.
pub fn add(rows: &mut Rows, device: u8, amount: i64) -> Result<(), CounterFull>
    requires { device < 16 }
    ensures full { IsOk result ↔ (raised_total rows.old device amount < 2 ^ 63) }
    ensures ok { OnOk result (rows.new ≡ rows_after device amount rows.old) }
    ensures err { OnErr result (rows.new ≡ rows.old) }
{
    let by = amount.unsigned_abs();
    if amount >= 0 {
        raise(&mut rows.plus, device, by)
    } else {
        raise(&mut rows.minus, device, by)
    }
}

/// Merges another counter into `a`: the greater number in each place. It says whether `a` changed.
pub fn merge_rows(a: &mut Rows, b: &Rows) -> bool
    ensures joined { a.new ≡ join_rows a.old b.now }
    ensures changed { IsFalse result ↔ (a.new ≡ a.old) }
{
    let plus = raise_all(&mut a.plus, &b.plus);
    let minus = raise_all(&mut a.minus, &b.minus);
    plus || minus
}

/// A counter's word: the sum of its increments less that of its decrements, or fault 1 where that isn't a number of 64
/// bits.
pub fn total(rows: &Rows) -> Word
    ensures { result ≡ total rows.now }
{
    let difference = row_sum(&rows.plus) as i128 - row_sum(&rows.minus) as i128;
    match i64::try_from(difference) {
        Ok(number) => Word::Int(number),
        Err(_) => Word::Fault(1),
    }
}
