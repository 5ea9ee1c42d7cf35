//! Numbers, read big-endian.
ghost use Rattle.std.specs.Prelude.{◌≡◌, ◌^◌, ◌<◌, ◌≤◌, length, IfOk};
ghost use Rattle.std.specs.Int.{w8, w16, w32, w64};
ghost use Rattle.re_wire.specs.Reading.{Reads, number_at, below_at};

use re_wire::WireFault;

/// The byte at this place, and the place behind it.
pub fn get_u8(bytes: &[u8], at: u32) -> Result<(u8, u32), WireFault>
    requires { length bytes.now < 2 ^ 32 }
    ensures exact { Reads result (number_at w8 bytes.now at) }
    ensures within { IfOk result (λ x. x.1 ≤ length bytes.now) }
{
    let start = at as usize;
    if bytes.len() < start + 1 {
        return Err(WireFault::At(at));
    }
    let (_, rest) = bytes.split_at(start);
    Ok((u8::from_be_bytes([rest[0]]), (start + 1) as u32))
}

/// The number of two bytes at this place, and the place behind it.
pub fn get_u16(bytes: &[u8], at: u32) -> Result<(u16, u32), WireFault>
    requires { length bytes.now < 2 ^ 32 }
    ensures exact { Reads result (number_at w16 bytes.now at) }
    ensures within { IfOk result (λ x. x.1 ≤ length bytes.now) }
{
    let start = at as usize;
    if bytes.len() < start + 2 {
        return Err(WireFault::At(at));
    }
    let (_, rest) = bytes.split_at(start);
    let (field, _) = rest.split_at(2);
    let number = u16::from_be_bytes([field[0], field[1]]);
    Ok((number, (start + 2) as u32))
}

/// The number of four bytes at this place, and the place behind it.
pub fn get_u32(bytes: &[u8], at: u32) -> Result<(u32, u32), WireFault>
    requires { length bytes.now < 2 ^ 32 }
    ensures exact { Reads result (number_at w32 bytes.now at) }
    ensures within { IfOk result (λ x. x.1 ≤ length bytes.now) }
{
    let start = at as usize;
    if bytes.len() < start + 4 {
        return Err(WireFault::At(at));
    }
    let (_, rest) = bytes.split_at(start);
    let (field, _) = rest.split_at(4);
    let number = u32::from_be_bytes([field[0], field[1], field[2], field[3]]);
    Ok((number, (start + 4) as u32))
}

/// The number of eight bytes at this place, and the place behind it.
pub fn get_u64(bytes: &[u8], at: u32) -> Result<(u64, u32), WireFault>
    requires { length bytes.now < 2 ^ 32 }
    ensures exact { Reads result (number_at w64 bytes.now at) }
    ensures within { IfOk result (λ x. x.1 ≤ length bytes.now) }
{
    let start = at as usize;
    if bytes.len() < start + 8 {
        return Err(WireFault::At(at));
    }
    let (_, rest) = bytes.split_at(start);
    let (field, _) = rest.split_at(8);
    let number = u64::from_be_bytes([
        field[0], field[1], field[2], field[3], field[4], field[5], field[6], field[7],
    ]);
    Ok((number, (start + 8) as u32))
}
