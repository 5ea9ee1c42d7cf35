//! Entries with their changes as bytes.
ghost use Rattle.std.specs.Prelude.{◌≡◌, ◌^◌, ◌<◌, ◌≤◌, length, IfOk, OnOk};
ghost use Rattle.re_record.specs.Logs.{HasEntryBytes, HasBytes};
ghost use Rattle.re_record.specs.Reading.{turn_entry_at, merge_entry_at, entry_at, changes_at, logged_at};
ghost use Rattle.re_record.specs.Spellings.{entry_bytes, changes_bytes, logged_bytes};
ghost use Rattle.re_terms.specs.Shapes.{IsShape};
ghost use Rattle.re_wire.specs.Appended.{appended};
ghost use Rattle.re_wire.specs.Reading.{Gives};

use crate::numbers::{get_u8, get_u16};
use crate::puts::{get_puts, write_puts};
use crate::slots::Role;
use crate::turns::{get_turn, write_turn};
use crate::writing::write;
use re_outside::Bytes;
use re_terms::{Decl, Entry, Logged, Put, Seq, Shape};
use re_wire::{WireFault, get_state, put_state};
use std::alloc::{AllocError, Global};

/// What stands behind the tag of a turn.
fn get_turn_entry(
    alloc: Global,
    bytes: &[u8],
    at: u32,
    decls: &[Decl],
    shape: &Shape,
) -> Result<(Entry, u32), WireFault>
    requires { length bytes.now < 2 ^ 32 }
    ensures exact { Gives result (turn_entry_at decls.now shape.now bytes.now at) }
    ensures within { IfOk result (λ x. x.1 ≤ length bytes.now) }
{
    let (turn, behind) = get_turn(alloc, bytes, at, decls, shape)?;
    Ok((Entry::Turn(turn), behind))
}

/// What stands behind the tag of a merge.
fn get_merge_entry(
    alloc: Global,
    bytes: &[u8],
    at: u32,
    shape: &Shape,
) -> Result<(Entry, u32), WireFault>
    requires shape { IsShape shape.now }
    requires at { at ≤ length bytes.now }
    requires limit { length bytes.now < 2 ^ 32 }
    ensures exact { Gives result (merge_entry_at shape.now bytes.now at) }
    ensures within { IfOk result (λ x. x.1 ≤ length bytes.now) }
{
    let (state, behind) = get_state(alloc, bytes, at, shape)?;
    Ok((Entry::Merge(state), behind))
}

/// An entry.
#[tactic(auto, unfolding(crate::specs::Reading::entry_at, re_wire::specs::Reading::below_at))]
fn get_entry(
    alloc: Global,
    bytes: &[u8],
    at: u32,
    decls: &[Decl],
    shape: &Shape,
) -> Result<(Entry, u32), WireFault>
    requires shape { IsShape shape.now }
    requires limit { length bytes.now < 2 ^ 32 }
    ensures exact { Gives result (entry_at decls.now shape.now bytes.now at) }
    ensures within { IfOk result (λ x. x.1 ≤ length bytes.now) }
{
    let (tag, behind) = get_u8(bytes, at)?;
    if tag >= 2 {
        return Err(WireFault::At(at));
    }
    if tag == 0 {
        get_turn_entry(alloc, bytes, behind, decls, shape)
    } else {
        get_merge_entry(alloc, bytes, behind, shape)
    }
}

/// The changes of an entry.
#[tactic(auto, unfolding(crate::specs::Reading::changes_at, re_wire::specs::Reading::below_at))]
fn get_changes(
    alloc: Global,
    bytes: &[u8],
    at: u32,
    decls: &[Decl],
    symbols: u16,
) -> Result<(Seq<Put>, u32), WireFault>
    requires { length bytes.now < 2 ^ 32 }
    ensures exact { Gives result (changes_at decls.now symbols bytes.now at) }
    ensures within { IfOk result (λ x. x.1 ≤ length bytes.now) }
{
    let (count, behind) = get_u16(bytes, at)?;
    if count > 256 {
        return Err(WireFault::At(at));
    }
    get_puts(alloc, bytes, behind, decls, symbols, Role::Change, count)
}

/// An entry, and its changes.
#[tactic(auto, unfolding(crate::specs::Reading::logged_at))]
pub fn get_logged(
    alloc: Global,
    bytes: &[u8],
    at: u32,
    decls: &[Decl],
    shape: &Shape,
) -> Result<(Logged, u32), WireFault>
    requires shape { IsShape shape.now }
    requires limit { length bytes.now < 2 ^ 32 }
    ensures exact { Gives result (logged_at decls.now shape.now bytes.now at) }
    ensures within { IfOk result (λ x. x.1 ≤ length bytes.now) }
{
    let (entry, at_changes) = get_entry(alloc, bytes, at, decls, shape)?;
    let (changes, behind) = get_changes(alloc, bytes, at_changes, decls, shape.symbols)?;
    Ok((Logged { entry, changes }, behind))
}

/// Writes an entry. The one refusal is want of memory.
fn write_entry(out: &mut Bytes, entry: &Entry, shape: &Shape) -> Result<(), AllocError>
    requires shape { IsShape shape.now }
    requires bytes { HasEntryBytes shape.now entry.now }
    ensures { OnOk result (out.new ≡ appended out.old (entry_bytes shape.now.devices entry.now)) }
{
    match entry {
        Entry::Turn(turn) => {
            write(out, &[0])?;
            write_turn(out, turn)
        }
        Entry::Merge(state) => {
            write(out, &[1])?;
            put_state(out, state, shape)
        }
    }
}

/// Writes changes behind how many there are. The one refusal is want of memory.
#[tactic(auto, unfolding(crate::specs::Spellings::changes_bytes))]
fn write_changes(out: &mut Bytes, puts: &[Put]) -> Result<(), AllocError>
    requires { length puts.now ≤ 256 }
    ensures { OnOk result (out.new ≡ appended out.old (changes_bytes puts.now)) }
{
    write(out, &(puts.len() as u16).to_be_bytes())?;
    write_puts(out, puts)
}

/// Writes an entry and its changes. The one refusal is want of memory.
#[tactic(auto, unfolding(crate::specs::Spellings::logged_bytes))]
pub fn write_logged(out: &mut Bytes, logged: &Logged, shape: &Shape) -> Result<(), AllocError>
    requires shape { IsShape shape.now }
    requires bytes { HasBytes shape.now logged.now }
    ensures { OnOk result (out.new ≡ appended out.old (logged_bytes shape.now.devices logged.now)) }
{
    write_entry(out, &logged.entry, shape)?;
    write_changes(out, logged.changes.as_slice())
}
