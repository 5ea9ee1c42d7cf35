//! Records: the entries of one commit, with the changes of each, as bytes.
ghost use Rattle.std.specs.Prelude.{◌≡◌, ℕ, ◌^◌, ◌<◌, ◌≤◌, ◌++◌, ◌∷◌, [], List, length, IfOk, Ok, OnOk};
ghost use Rattle.std.specs.List.{All, flat_map};
ghost use Rattle.re_outside.specs.Listed.{plain};
ghost use Rattle.re_record.specs.Logs.{IsRecord, IsRecordOf, HasBytes};
ghost use Rattle.re_record.specs.Reading.{entry_count_at, logged_at, record_at};
ghost use Rattle.re_record.specs.Spellings.{logged_bytes, record_bytes};
ghost use Rattle.re_terms.specs.Listed.{Listed};
ghost use Rattle.re_terms.specs.Programs.{IsProgram};
ghost use Rattle.re_terms.specs.Shapes.{IsShape, shape_of};
ghost use Rattle.re_terms.specs.declared.entry.Logged.{Logged};
ghost use Rattle.re_wire.specs.Appended.{appended};
ghost use Rattle.re_wire.specs.Reading.{Gives, Reads, listed, several_at};

use crate::entries::{get_logged, write_logged};
use crate::numbers::get_u8;
use crate::writing::write;
use re_outside::Bytes;
use re_terms::{Decl, Logged, Program, Seq, Shape};
use re_wire::WireFault;
use std::alloc::{AllocError, Global};

/// How many entries a record has: 1 to 9.
#[tactic(auto, unfolding(crate::specs::Reading::entry_count_at))]
fn get_entry_count(bytes: &[u8], at: u32) -> Result<(u8, u32), WireFault>
    requires { length bytes.now < 2 ^ 32 }
    ensures exact { Reads result (entry_count_at bytes.now at) }
    ensures within { IfOk result (λ x. x.1 ≤ length bytes.now) }
{
    let (count, behind) = get_u8(bytes, at)?;
    if count >= 1 && count <= 9 {
        Ok((count, behind))
    } else {
        Err(WireFault::At(at))
    }
}

/// So many entries.
fn get_several(
    alloc: Global,
    bytes: &[u8],
    at: u32,
    decls: &[Decl],
    shape: &Shape,
    count: u8,
) -> Result<(Seq<Logged>, u32), WireFault>
    requires shape { IsShape shape.now }
    requires at { at ≤ length bytes.now }
    requires limit { length bytes.now < 2 ^ 32 }
    ensures exact { Gives result (listed (several_at (logged_at decls.now shape.now bytes.now) count at)) }
    ensures within { IfOk result (λ x. x.1 ≤ length bytes.now) }
{
    let mut entries = Seq::new(alloc);
    let mut behind = at;
    for _ in 0..count {
        let (logged, next) = get_logged(alloc, bytes, behind, decls, shape)?;
        entries.push(logged)?;
        behind = next;
    }
    Ok((entries, behind))
}

/// The entries of a record.
#[tactic(auto, unfolding(crate::specs::Reading::record_at))]
fn record(alloc: Global, bytes: &[u8], p: &Program, shape: &Shape) -> Result<Seq<Logged>, WireFault>
    requires shape { IsShape shape.now }
    requires limit { length bytes.now < 2 ^ 32 }
    ensures { Gives result (record_at p.now shape.now bytes.now) }
{
    let (count, at_entries) = get_entry_count(bytes, 0)?;
    let decls = p.decls.as_slice();
    let (entries, behind) = get_several(alloc, bytes, at_entries, decls, shape, count)?;
    if (behind as usize) < bytes.len() {
        return Err(WireFault::At(behind));
    }
    Ok(entries)
}

/// The entries of a record of this program, 1 to 9 of them, each with its changes. Nothing is reserved in their lists.
/// `docs/FORMATS.md` has the layout.
///
/// The refusals are want of memory, and `At`: the place, counted from the start of the record, of the first field, in reading
/// order, that is cut off or holds a value that isn't allowed, or else of the first byte behind the last field. That the
/// entries keep the limits of replicated cells, and that the changes are those that the entries made, isn't tested here.
pub fn get_entries(
    alloc: Global,
    bytes: &[u8],
    p: &Program,
    shape: &Shape,
) -> Result<Seq<Logged>, WireFault>
    requires program { IsProgram p.now }
    requires shape { shape.now ≡ shape_of p.now }
    requires limit { length bytes.now < 2 ^ 32 }
    // What is read may stand in a record, and these are its bytes.
    ensures allowed { IfOk result (λ entries. IsRecordOf p.now entries.items) }
    ensures found { IfOk result (λ entries. bytes.now ≡ record_bytes shape.now.devices entries.items) }
    ensures plain { IfOk result (λ entries. entries.spare ≡ 0) }
    // What may stand in a record and has these bytes is read, unless memory runs out.
    ensures only { (entries : List Logged) → IsRecordOf p.now entries → bytes.now ≡ record_bytes shape.now.devices entries → Gives result (Ok (record { items = entries; spare = 0 })) }
    // Which place is refused.
    ensures exact { Gives result (record_at p.now shape.now bytes.now) }
{
    record(alloc, bytes, p, shape)
}

/// Writes entries, each with its changes. The one refusal is want of memory.
fn write_all(out: &mut Bytes, entries: &[Logged], shape: &Shape) -> Result<(), AllocError>
    requires shape { IsShape shape.now }
    requires bytes { All (HasBytes shape.now) entries.now }
    ensures { OnOk result (out.new ≡ appended out.old (flat_map (logged_bytes shape.now.devices) entries.now)) }
{
    for logged in entries {
        write_logged(out, logged, shape)?;
    }
    Ok(())
}

/// The record of 1 to 9 entries with their changes. Nothing is reserved behind it. The one refusal is want of memory.
/// `docs/FORMATS.md` has the layout.
pub fn put_entries(alloc: Global, entries: &Seq<Logged>, shape: &Shape) -> Result<Bytes, AllocError>
    requires shape { IsShape shape.now }
    requires bytes { IsRecord shape.now entries.now.items }
    ensures { IfOk result (λ out. out ≡ plain (record_bytes shape.now.devices entries.now.items)) }
{
    put_record(alloc, entries.as_slice(), shape)
}

/// The same of entries that lie in a longer list.
#[tactic(auto, unfolding(crate::specs::Spellings::record_bytes))]
pub fn put_record(alloc: Global, entries: &[Logged], shape: &Shape) -> Result<Bytes, AllocError>
    requires shape { IsShape shape.now }
    requires bytes { IsRecord shape.now entries.now }
    ensures { IfOk result (λ out. out ≡ plain (record_bytes shape.now.devices entries.now)) }
{
    let mut out = Bytes::new(alloc);
    write(&mut out, &[entries.len() as u8])?;
    write_all(&mut out, entries, shape)?;
    Ok(out)
}

/// The same of entries, and of one more behind them.
#[tactic(auto, unfolding(crate::specs::Spellings::record_bytes))]
pub fn put_record_with(
    alloc: Global,
    before: &[Logged],
    last: &Logged,
    shape: &Shape,
) -> Result<Bytes, AllocError>
    requires shape { IsShape shape.now }
    requires bytes { IsRecord shape.now (before.now ++ last.now ∷ []) }
    ensures { IfOk result (λ out. out ≡ plain (record_bytes shape.now.devices (before.now ++ last.now ∷ []))) }
{
    let mut out = Bytes::new(alloc);
    write(&mut out, &[before.len() as u8 + 1])?;
    write_all(&mut out, before, shape)?;
    write_logged(&mut out, last, shape)?;
    Ok(out)
}
