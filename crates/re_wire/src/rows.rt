//! Vectors and counters as bytes.
ghost use Rattle.std.specs.Prelude.{◌≡◌, ◌^◌, ◌*◌, ◌<◌, ◌≤◌, length};
ghost use Rattle.re_terms.specs.Spellings.{vector_bytes, rows_bytes};
ghost use Rattle.re_wire.specs.Appended.{appended};
ghost use Rattle.re_wire.specs.Reading.{Reads, vector_at, row_at, rows_at};

use crate::WireFault;
use crate::numbers::get_u64_below;
use crate::writing::append;
use re_outside::Bytes;
use re_terms::{Rows, Vector};

/// A vector of so many devices, each number below 2^48.
pub fn get_vector(bytes: &[u8], at: u32, devices: u8) -> Result<(Vector, u32), WireFault>
    requires devices { devices ≤ 16 }
    requires limit { length bytes.now < 2 ^ 32 }
    ensures { Reads result (vector_at devices bytes.now at) }
{
    let mut counts = [0; 16];
    let mut behind = at;
    for device in 0..usize::from(devices) {
        let (count, next) = get_u64_below(bytes, behind, 1 << 48)?;
        counts[device] = count;
        behind = next;
    }
    Ok((Vector { counts }, behind))
}

/// A device's increments and decrements, each below 2^63.
#[tactic(auto, unfolding(crate::specs::Reading::row_at))]
fn get_row(bytes: &[u8], at: u32) -> Result<((u64, u64), u32), WireFault>
    requires { length bytes.now < 2 ^ 32 }
    ensures { Reads result (row_at bytes.now at) }
{
    let (plus, next) = get_u64_below(bytes, at, 1 << 63)?;
    let (minus, behind) = get_u64_below(bytes, next, 1 << 63)?;
    Ok(((plus, minus), behind))
}

/// A counter's rows for so many devices.
pub fn get_rows(bytes: &[u8], at: u32, devices: u8) -> Result<(Rows, u32), WireFault>
    requires devices { devices ≤ 16 }
    requires limit { length bytes.now < 2 ^ 32 }
    ensures { Reads result (rows_at devices bytes.now at) }
{
    let mut rows = Rows {
        plus: [0; 16],
        minus: [0; 16],
    };
    let mut behind = at;
    for device in 0..usize::from(devices) {
        let ((plus, minus), next) = get_row(bytes, behind)?;
        rows.plus[device] = plus;
        rows.minus[device] = minus;
        behind = next;
    }
    Ok((rows, behind))
}

/// Writes a vector for which there is room.
pub fn append_vector(out: &mut Bytes, vector: &Vector, devices: u8)
    requires devices { devices ≤ 16 }
    requires room { 8 * devices ≤ out.old.spare }
    ensures { out.new ≡ appended out.old (vector_bytes devices vector.now.counts) }
{
    for device in 0..usize::from(devices) {
        append(out, &vector.counts[device].to_be_bytes());
    }
}

/// Writes a counter's rows for which there is room.
pub fn append_rows(out: &mut Bytes, rows: &Rows, devices: u8)
    requires devices { devices ≤ 16 }
    requires room { 16 * devices ≤ out.old.spare }
    ensures { out.new ≡ appended out.old (rows_bytes devices rows.now) }
{
    for device in 0..usize::from(devices) {
        append(out, &rows.plus[device].to_be_bytes());
        append(out, &rows.minus[device].to_be_bytes());
    }
}
