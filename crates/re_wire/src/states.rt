//! Replicated states and packets as bytes.
ghost use Rattle.std.specs.Prelude.{◌≡◌, ℕ, ◌^◌, ◌+◌, ◌<◌, ◌≤◌, ◌++◌, List, length, drop, IfOk, OnErr, OnOk, Ok};
ghost use Rattle.std.specs.List.{All};
ghost use Rattle.re_outside.specs.Listed.{plain};
ghost use Rattle.re_terms.specs.Shapes.{IsShape, FitsShape, pair_count};
ghost use Rattle.re_terms.specs.Spellings.{cell_bytes, state_bytes, packet_bytes};
ghost use Rattle.re_terms.specs.declared.replicated.RState.{RState};
ghost use Rattle.re_wire.specs.Appended.{appended};
ghost use Rattle.re_wire.specs.Reading.{Gives, Reads, listed, cell_at, cells_at, state_at, format_at, packet_at};

use crate::WireFault;
use crate::numbers::get_u8;
use crate::pairs::{append_pairs, get_pairs, pairs_len};
use crate::registers::{append_register, get_register, register_len};
use crate::rows::{append_rows, append_vector, get_rows, get_vector};
use crate::writing::append;
use re_outside::Bytes;
use re_terms::{Layout, RCell, RKind, RState, Seq, Shape, Vector, layout};
use std::alloc::{AllocError, Global};

/// A cell of this kind, where there is room for so many pairs.
#[tactic(auto, unfolding(crate::specs::Reading::content_at))]
fn get_cell(
    alloc: Global,
    bytes: &[u8],
    at: u32,
    shape: &Shape,
    vector: &Vector,
    kind: RKind,
    room: u16,
) -> Result<(RCell, u32), WireFault>
    requires devices { shape.now.devices ≤ 16 }
    requires limit { length bytes.now < 2 ^ 32 }
    ensures exact { Gives result (cell_at shape.now vector.now.counts room kind bytes.now at) }
    ensures room { IfOk result (λ x. pair_count x.0 ≤ room) }
{
    match layout(kind) {
        Layout::Rows => {
            let (rows, behind) = get_rows(bytes, at, shape.devices)?;
            Ok((RCell::Counter(rows), behind))
        }
        Layout::Pairs(elements) => {
            let (pairs, behind) = get_pairs(alloc, bytes, at, shape, vector, elements, room)?;
            Ok((RCell::Set(pairs), behind))
        }
        Layout::Written(words, start) => {
            let (written, behind) = get_register(bytes, at, shape, words, start)?;
            Ok((RCell::Register(written), behind))
        }
    }
}

/// The cells of a state.
fn get_cells(
    alloc: Global,
    bytes: &[u8],
    at: u32,
    shape: &Shape,
    vector: &Vector,
) -> Result<(Seq<RCell>, u32), WireFault>
    requires devices { shape.now.devices ≤ 16 }
    requires limit { length bytes.now < 2 ^ 32 }
    ensures { Gives result (listed (cells_at shape.now vector.now.counts 1024 shape.now.cells.items bytes.now at)) }
{
    let mut cells = Seq::new(alloc);
    let mut room = 1024;
    let mut behind = at;
    for kind in shape.cells.as_slice() {
        let (cell, next) = get_cell(alloc, bytes, behind, shape, vector, *kind, room)?;
        room -= cell.pair_count() as u16;
        cells.push(cell)?;
        behind = next;
    }
    Ok((cells, behind))
}

/// A state of this shape.
#[tactic(auto, unfolding(crate::specs::Reading::state_at))]
fn state(alloc: Global, bytes: &[u8], at: u32, shape: &Shape) -> Result<(RState, u32), WireFault>
    requires devices { shape.now.devices ≤ 16 }
    requires limit { length bytes.now < 2 ^ 32 }
    ensures { Gives result (state_at shape.now bytes.now at) }
{
    let (vector, at_cells) = get_vector(bytes, at, shape.devices)?;
    let (cells, behind) = get_cells(alloc, bytes, at_cells, shape, &vector)?;
    Ok((RState { vector, cells }, behind))
}

/// The format byte.
#[tactic(auto, unfolding(crate::specs::Reading::format_at))]
fn get_format(bytes: &[u8], at: u32) -> Result<(u8, u32), WireFault>
    requires { length bytes.now < 2 ^ 32 }
    ensures { Reads result (format_at bytes.now at) }
{
    let (format, behind) = get_u8(bytes, at)?;
    if format == 1 {
        Ok((format, behind))
    } else {
        Err(WireFault::At(at))
    }
}

/// The state of a packet.
#[tactic(auto, unfolding(crate::specs::Reading::packet_at))]
fn packet(alloc: Global, bytes: &[u8], shape: &Shape) -> Result<RState, WireFault>
    requires devices { shape.now.devices ≤ 16 }
    requires limit { length bytes.now < 2 ^ 32 }
    ensures { Gives result (packet_at shape.now bytes.now) }
{
    let (_, at_state) = get_format(bytes, 0)?;
    let (state, behind) = state(alloc, bytes, at_state, shape)?;
    if (behind as usize) < bytes.len() {
        return Err(WireFault::At(behind));
    }
    Ok(state)
}

/// The replicated state at place `at`, and the place behind it. It is of this shape, and nothing is reserved in its lists.
///
/// The refusals are want of memory, and `At`: the place of the first field, in reading order, that is cut off or holds a
/// value that isn't allowed.
pub fn get_state(
    alloc: Global,
    bytes: &[u8],
    at: u32,
    shape: &Shape,
) -> Result<(RState, u32), WireFault>
    requires shape { IsShape shape.now }
    requires at { at ≤ length bytes.now }
    requires limit { length bytes.now < 2 ^ 32 }
    // What is read fits, and its bytes stand there.
    ensures fits { IfOk result (λ x. FitsShape shape.now x.0) }
    ensures found { IfOk result (λ x. drop at bytes.now ≡ state_bytes shape.now.devices x.0 ++ drop x.1 bytes.now) }
    ensures within { IfOk result (λ x. x.1 ≤ length bytes.now) }
    // What fits and stands there is read, unless memory runs out.
    ensures only { (s : RState) (rest : List ℕ) → FitsShape shape.now s → drop at bytes.now ≡ state_bytes shape.now.devices s ++ rest → Gives result (Ok (s, at + length (state_bytes shape.now.devices s))) }
    // Which place is refused.
    ensures exact { Gives result (state_at shape.now bytes.now at) }
{
    state(alloc, bytes, at, shape)
}

/// The state of a packet: the byte 1, and then a replicated state of this shape up to the end of the bytes. Nothing is
/// reserved in its lists.
///
/// The refusals are want of memory, and `At`: the place of the first field, in reading order, that is cut off or holds a
/// value that isn't allowed, or else of the first byte behind the last field.
pub fn decode(alloc: Global, bytes: &[u8], shape: &Shape) -> Result<RState, WireFault>
    requires shape { IsShape shape.now }
    requires limit { length bytes.now < 2 ^ 32 }
    // What is read fits, and these are its bytes.
    ensures fits { IfOk result (λ s. FitsShape shape.now s) }
    ensures found { IfOk result (λ s. bytes.now ≡ packet_bytes shape.now.devices s) }
    // What fits and has these bytes is read, unless memory runs out.
    ensures only { (s : RState) → FitsShape shape.now s → bytes.now ≡ packet_bytes shape.now.devices s → Gives result (Ok s) }
    // Which place is refused.
    ensures exact { Gives result (packet_at shape.now bytes.now) }
{
    packet(alloc, bytes, shape)
}

/// How many bytes a cell takes.
fn cell_len(cell: &RCell, devices: u8) -> usize
    requires devices { devices ≤ 16 }
    requires pairs { pair_count cell.now ≤ 1024 }
    ensures len { result ≡ length (cell_bytes devices cell.now) }
    ensures bound { result ≤ 20000 }
{
    match cell {
        RCell::Counter(_) => 16 * usize::from(devices),
        RCell::Set(pairs) => pairs_len(pairs.as_slice()),
        RCell::Register(written) => register_len(written),
    }
}

/// How many bytes a state takes.
fn state_len(state: &RState, devices: u8) -> usize
    requires devices { devices ≤ 16 }
    requires cells { length state.now.cells.items ≤ 32 }
    requires pairs { All (λ c. pair_count c ≤ 1024) state.now.cells.items }
    ensures len { result ≡ length (state_bytes devices state.now) }
    ensures bound { result ≤ 1000000 }
{
    let mut len = 8 * usize::from(devices);
    for cell in state.cells.as_slice() {
        len += cell_len(cell, devices);
    }
    len
}

/// Writes a cell for which there is room.
fn append_cell(out: &mut Bytes, cell: &RCell, devices: u8)
    requires devices { devices ≤ 16 }
    requires pairs { pair_count cell.now ≤ 1024 }
    requires room { length (cell_bytes devices cell.now) ≤ out.old.spare }
    ensures { out.new ≡ appended out.old (cell_bytes devices cell.now) }
{
    match cell {
        RCell::Counter(rows) => append_rows(out, rows, devices),
        RCell::Set(pairs) => append_pairs(out, pairs.as_slice()),
        RCell::Register(written) => append_register(out, written),
    }
}

/// Writes a state for which there is room.
fn append_state(out: &mut Bytes, state: &RState, devices: u8)
    requires devices { devices ≤ 16 }
    requires pairs { All (λ c. pair_count c ≤ 1024) state.now.cells.items }
    requires room { length (state_bytes devices state.now) ≤ out.old.spare }
    ensures { out.new ≡ appended out.old (state_bytes devices state.now) }
{
    append_vector(out, &state.vector, devices);
    for cell in state.cells.as_slice() {
        append_cell(out, cell, devices);
    }
}

/// Writes a replicated state of this shape behind the bytes. The one refusal is want of memory, and leaves the bytes as they
/// were. The spare falls by as many bytes as are written, to 0 where it was smaller.
pub fn put_state(out: &mut Bytes, state: &RState, shape: &Shape) -> Result<(), AllocError>
    requires shape { IsShape shape.now }
    requires fits { FitsShape shape.now state.now }
    ensures ok { OnOk result (out.new ≡ appended out.old (state_bytes shape.now.devices state.now)) }
    ensures refused { OnErr result (out.new ≡ out.old) }
{
    out.reserve(state_len(state, shape.devices))?;
    append_state(out, state, shape.devices);
    Ok(())
}

/// The packet of a state: the byte 1, and then the state. Nothing is reserved behind it. The one refusal is want of memory.
pub fn encode(alloc: Global, s: &RState, shape: &Shape) -> Result<Bytes, AllocError>
    requires shape { IsShape shape.now }
    requires fits { FitsShape shape.now s.now }
    ensures { IfOk result (λ out. out ≡ plain (packet_bytes shape.now.devices s.now)) }
{
    let mut out = Bytes::new(alloc);
    out.reserve(1 + state_len(s, shape.devices))?;
    append(&mut out, &[1]);
    append_state(&mut out, s, shape.devices);
    Ok(out)
}
