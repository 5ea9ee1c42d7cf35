//! Turns as bytes.
ghost use Rattle.std.specs.Prelude.{◌≡◌, ◌+◌, ◌^◌, ◌<◌, ◌≤◌, length, IfOk, OnOk};
ghost use Rattle.re_record.specs.Reading.{count_at, part_at, operations_at, turn_at};
ghost use Rattle.re_record.specs.Spellings.{puts_bytes, operations_bytes, turn_bytes};
ghost use Rattle.re_terms.specs.Admission.{part_count};
ghost use Rattle.re_wire.specs.Appended.{appended};
ghost use Rattle.re_wire.specs.Reading.{Gives, Reads};

use crate::numbers::get_u8;
use crate::operations::{get_operations, write_operations};
use crate::puts::{get_puts, write_puts};
use crate::slots::Role;
use crate::writing::write;
use re_outside::Bytes;
use re_terms::{Decl, Put, RepOp, Seq, Shape, Turn};
use re_wire::WireFault;
use std::alloc::{AllocError, Global};

/// How many parts of one sort there are behind `earlier` others: with these at least `least`, and at most 64.
#[tactic(auto, unfolding(crate::specs::Reading::count_at))]
fn get_count(bytes: &[u8], at: u32, least: u8, earlier: u8) -> Result<(u8, u32), WireFault>
    requires earlier { earlier ≤ 64 }
    requires limit { length bytes.now < 2 ^ 32 }
    ensures exact { Reads result (count_at least earlier bytes.now at) }
    ensures within { IfOk result (λ x. x.1 ≤ length bytes.now) }
    ensures few { IfOk result (λ x. earlier + x.0 ≤ 64) }
{
    let (count, behind) = get_u8(bytes, at)?;
    let parts = u16::from(earlier) + u16::from(count);
    if parts >= u16::from(least) && parts <= 64 {
        Ok((count, behind))
    } else {
        Err(WireFault::At(at))
    }
}

/// The sets or fires of a turn behind `earlier` other parts.
#[tactic(auto, unfolding(crate::specs::Reading::part_at))]
fn get_part(
    alloc: Global,
    bytes: &[u8],
    at: u32,
    decls: &[Decl],
    symbols: u16,
    role: Role,
    earlier: u8,
) -> Result<(Seq<Put>, u32), WireFault>
    requires earlier { earlier ≤ 64 }
    requires limit { length bytes.now < 2 ^ 32 }
    ensures exact { Gives result (part_at decls.now symbols role earlier bytes.now at) }
    ensures within { IfOk result (λ x. x.1 ≤ length bytes.now) }
    ensures few { IfOk result (λ x. earlier + length x.0.items ≤ 64) }
{
    let (count, behind) = get_count(bytes, at, 0, earlier)?;
    get_puts(alloc, bytes, behind, decls, symbols, role, u16::from(count))
}

/// The operations of a turn behind `earlier` other parts; a turn has at least one part.
#[tactic(auto, unfolding(crate::specs::Reading::operations_at))]
fn get_turn_operations(
    alloc: Global,
    bytes: &[u8],
    at: u32,
    shape: &Shape,
    earlier: u8,
) -> Result<(Seq<RepOp>, u32), WireFault>
    requires earlier { earlier ≤ 64 }
    requires limit { length bytes.now < 2 ^ 32 }
    ensures exact { Gives result (operations_at shape.now earlier bytes.now at) }
    ensures within { IfOk result (λ x. x.1 ≤ length bytes.now) }
{
    let (count, behind) = get_count(bytes, at, 1, earlier)?;
    get_operations(alloc, bytes, behind, shape, count)
}

/// A turn.
#[tactic(auto, unfolding(crate::specs::Reading::turn_at))]
pub fn get_turn(
    alloc: Global,
    bytes: &[u8],
    at: u32,
    decls: &[Decl],
    shape: &Shape,
) -> Result<(Turn, u32), WireFault>
    requires { length bytes.now < 2 ^ 32 }
    ensures exact { Gives result (turn_at decls.now shape.now bytes.now at) }
    ensures within { IfOk result (λ x. x.1 ≤ length bytes.now) }
{
    let symbols = shape.symbols;
    let (sets, at_fires) = get_part(alloc, bytes, at, decls, symbols, Role::Set, 0)?;
    let set_count = sets.len() as u8;
    let (fires, at_ops) = get_part(
        alloc,
        bytes,
        at_fires,
        decls,
        symbols,
        Role::Fire,
        set_count,
    )?;
    let earlier = set_count + fires.len() as u8;
    let (ops, behind) = get_turn_operations(alloc, bytes, at_ops, shape, earlier)?;
    Ok((Turn { sets, fires, ops }, behind))
}

/// Writes the sets or fires of a turn behind how many there are. The one refusal is want of memory.
#[tactic(auto, unfolding(crate::specs::Spellings::puts_bytes))]
fn write_part(out: &mut Bytes, puts: &[Put]) -> Result<(), AllocError>
    requires { length puts.now ≤ 64 }
    ensures { OnOk result (out.new ≡ appended out.old (puts_bytes puts.now)) }
{
    write(out, &[puts.len() as u8])?;
    write_puts(out, puts)
}

/// Writes the operations of a turn behind how many there are. The one refusal is want of memory.
#[tactic(auto, unfolding(crate::specs::Spellings::operations_bytes))]
fn write_turn_operations(out: &mut Bytes, ops: &[RepOp]) -> Result<(), AllocError>
    requires { length ops.now ≤ 64 }
    ensures { OnOk result (out.new ≡ appended out.old (operations_bytes ops.now)) }
{
    write(out, &[ops.len() as u8])?;
    write_operations(out, ops)
}

/// Writes a turn. The one refusal is want of memory.
#[tactic(auto, unfolding(crate::specs::Spellings::turn_bytes))]
pub fn write_turn(out: &mut Bytes, turn: &Turn) -> Result<(), AllocError>
    requires { part_count turn.now ≤ 64 }
    ensures { OnOk result (out.new ≡ appended out.old (turn_bytes turn.now)) }
{
    write_part(out, turn.sets.as_slice())?;
    write_part(out, turn.fires.as_slice())?;
    write_turn_operations(out, turn.ops.as_slice())
}
