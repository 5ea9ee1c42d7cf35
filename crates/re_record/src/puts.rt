//! Ids with words as bytes.
ghost use Rattle.std.specs.Prelude.{◌≡◌, ◌^◌, ◌<◌, ◌≤◌, length, IfOk, OnOk};
ghost use Rattle.re_record.specs.Reading.{id_at, put_at, puts_at};
ghost use Rattle.re_record.specs.Spellings.{put_bytes};
ghost use Rattle.std.specs.List.{flat_map};
ghost use Rattle.re_wire.specs.Appended.{appended};
ghost use Rattle.re_wire.specs.Reading.{Gives, Reads, listed};

use crate::numbers::get_u16;
use crate::slots::{Role, Slot, slot_from};
use crate::writing::write;
use re_outside::Bytes;
use re_terms::{Decl, Put, Seq};
use re_wire::{WireFault, get_word, put_word};
use std::alloc::{AllocError, Global};

/// An id of this role, at least `least`, and the words that its declaration takes.
#[tactic(auto, unfolding(crate::specs::Reading::id_at))]
fn get_id(
    bytes: &[u8],
    at: u32,
    decls: &[Decl],
    role: Role,
    least: u32,
) -> Result<((u16, Slot), u32), WireFault>
    requires { length bytes.now < 2 ^ 32 }
    ensures exact { Reads result (id_at decls.now role least bytes.now at) }
    ensures within { IfOk result (λ x. x.1 ≤ length bytes.now) }
{
    let (id, behind) = get_u16(bytes, at)?;
    match slot_from(decls, role, least, id) {
        None => Err(WireFault::At(at)),
        Some(slot) => Ok(((id, slot), behind)),
    }
}

/// Such an id, and a word that its declaration takes.
#[tactic(auto, unfolding(crate::specs::Reading::put_at))]
fn get_put(
    bytes: &[u8],
    at: u32,
    decls: &[Decl],
    symbols: u16,
    role: Role,
    least: u32,
) -> Result<(Put, u32), WireFault>
    requires { length bytes.now < 2 ^ 32 }
    ensures exact { Reads result (put_at decls.now symbols role least bytes.now at) }
    ensures within { IfOk result (λ x. x.1 ≤ length bytes.now) }
{
    let ((id, slot), at_word) = get_id(bytes, at, decls, role, least)?;
    let (word, behind) = get_word(bytes, at_word, slot.kind, slot.fold, symbols)?;
    Ok((Put { id, word }, behind))
}

/// So many of them, by strictly ascending ids.
pub fn get_puts(
    alloc: Global,
    bytes: &[u8],
    at: u32,
    decls: &[Decl],
    symbols: u16,
    role: Role,
    count: u16,
) -> Result<(Seq<Put>, u32), WireFault>
    requires at { at ≤ length bytes.now }
    requires limit { length bytes.now < 2 ^ 32 }
    ensures exact { Gives result (listed (puts_at decls.now symbols role count 0 bytes.now at)) }
    ensures within { IfOk result (λ x. x.1 ≤ length bytes.now) }
    ensures count { IfOk result (λ x. length x.0.items ≡ count) }
{
    let mut puts = Seq::new(alloc);
    let mut least = 0;
    let mut behind = at;
    for _ in 0..count {
        let (put, next) = get_put(bytes, behind, decls, symbols, role, least)?;
        puts.push(put)?;
        least = u32::from(put.id) + 1;
        behind = next;
    }
    Ok((puts, behind))
}

/// Writes an id and its word. The one refusal is want of memory.
#[tactic(auto, unfolding(crate::specs::Spellings::put_bytes))]
fn write_put(out: &mut Bytes, put: &Put) -> Result<(), AllocError>
    ensures { OnOk result (out.new ≡ appended out.old (put_bytes put.now)) }
{
    write(out, &put.id.to_be_bytes())?;
    put_word(out, put.word)
}

/// Writes each of them. The one refusal is want of memory.
pub fn write_puts(out: &mut Bytes, puts: &[Put]) -> Result<(), AllocError>
    ensures { OnOk result (out.new ≡ appended out.old (flat_map put_bytes puts.now)) }
{
    for put in puts {
        write_put(out, put)?;
    }
    Ok(())
}
