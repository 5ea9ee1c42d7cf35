//! Snapshots: a program by its canonical text, and a device's state, as bytes.
ghost use Rattle.std.specs.Prelude.{◌≡◌, ℕ, ◌^◌, ◌<◌, ◌≤◌, length, IfOk, Ok, Err, OnOk};
ghost use Rattle.std.specs.Int.{w64};
ghost use Rattle.std.specs.List.{flat_map};
ghost use Rattle.re_outside.specs.Frame.{IsGeneration, generation};
ghost use Rattle.re_outside.specs.Listed.{plain};
ghost use Rattle.re_print.specs.Canonical.{program_text};
ghost use Rattle.re_record.specs.Logs.{IsSnapshotOf};
ghost use Rattle.re_record.specs.Slots.{kept_slots};
ghost use Rattle.re_record.specs.Snapshots.{GivesSnapshot, HasOtherText, owner_at, text_at, head_at, words_at, kept_at, snapshot_at};
ghost use Rattle.re_record.specs.Spellings.{owner_bytes, text_bytes, snapshot_bytes};
ghost use Rattle.re_record.specs.declared.fault.SnapshotFault.TheVariants.{OtherText};
ghost use Rattle.re_terms.specs.Programs.{IsProgram};
ghost use Rattle.re_terms.specs.Shapes.{IsShape, shape_of};
ghost use Rattle.re_terms.specs.Spellings.{word_bytes};
ghost use Rattle.re_terms.specs.WordKinds.{IsStateOf};
ghost use Rattle.re_terms.specs.declared.entry.State.{State};
ghost use Rattle.re_wire.specs.Appended.{appended};
ghost use Rattle.re_wire.specs.Reading.{Gives, Reads, below_at, listed, format_at};

use crate::SnapshotFault;
use crate::numbers::{get_u8, get_u32, get_u64};
use crate::slots::{Role, slot_of};
use crate::writing::write;
use re_outside::Bytes;
use re_print::print_program;
use re_terms::{Decl, Program, Seq, Shape, State, Word};
use re_wire::{WireFault, get_state, get_word, put_state, put_word};
use std::alloc::{AllocError, Global};

/// A device's state, and how many entries made it.
#[derive(Drop)]
pub struct Snapshot {
    /// The number of the last entry, 0 where there was none, below 2^48.
    pub number: u64,
    pub state: State,
}

/// The format, behind the generation.
#[tactic(auto, unfolding(re_wire::specs::Reading::format_at))]
fn get_format(bytes: &[u8], at: u32) -> Result<(u8, u32), WireFault>
    requires { length bytes.now < 2 ^ 32 }
    ensures { Reads result (format_at bytes.now at) }
{
    let (format, behind) = get_u8(bytes, at)?;
    if format == 1 {
        Ok((format, behind))
    } else {
        Err(WireFault::At(at))
    }
}

/// The number of this device.
#[tactic(auto, unfolding(crate::specs::Snapshots::owner_at))]
fn get_owner(bytes: &[u8], at: u32, device: u8) -> Result<(u8, u32), WireFault>
    requires { length bytes.now < 2 ^ 32 }
    ensures { Reads result (owner_at device bytes.now at) }
{
    let (owner, behind) = get_u8(bytes, at)?;
    if owner == device {
        Ok((owner, behind))
    } else {
        Err(WireFault::At(at))
    }
}

/// The entry number, below 2^48.
#[tactic(auto, unfolding(re_wire::specs::Reading::below_at))]
fn get_number(bytes: &[u8], at: u32) -> Result<(u64, u32), WireFault>
    requires { length bytes.now < 2 ^ 32 }
    ensures { Reads result (below_at w64 (2 ^ 48) bytes.now at) }
{
    let (number, behind) = get_u64(bytes, at)?;
    if number < 1 << 48 {
        Ok((number, behind))
    } else {
        Err(WireFault::At(at))
    }
}

/// Where the text behind its length begins and ends.
#[tactic(auto, unfolding(crate::specs::Snapshots::text_at, crate::specs::Snapshots::span_at))]
fn get_text(bytes: &[u8], at: u32) -> Result<(u32, u32), WireFault>
    requires { length bytes.now < 2 ^ 32 }
    ensures exact { Reads result (text_at bytes.now at) }
    ensures within { IfOk result (λ x. (x.0 ≤ x.1) × (x.1 ≤ length bytes.now)) }
{
    let (count, start) = get_u32(bytes, at)?;
    let behind = start as usize + count as usize;
    if bytes.len() < behind {
        return Err(WireFault::At(start));
    }
    Ok((start, behind as u32))
}

/// What stands before the words: the entry number, and where the text begins and ends.
#[tactic(auto, unfolding(crate::specs::Snapshots::head_at))]
fn get_head(body: &[u8], device: u8) -> Result<(u64, (u32, u32)), WireFault>
    requires { length body.now < 2 ^ 32 }
    ensures exact { Reads result (head_at device body.now) }
    ensures within { IfOk result (λ x. (x.1.0 ≤ x.1.1) × (x.1.1 ≤ length body.now)) }
{
    let (_, at_owner) = get_format(body, 8)?;
    let (_, at_number) = get_owner(body, at_owner, device)?;
    let (number, at_text) = get_number(body, at_number)?;
    let text = get_text(body, at_text)?;
    Ok((number, text))
}

/// The words of the vars and folds among these declarations.
fn get_words(
    alloc: Global,
    bytes: &[u8],
    at: u32,
    decls: &[Decl],
    symbols: u16,
) -> Result<(Seq<Word>, u32), WireFault>
    requires at { at ≤ length bytes.now }
    requires limit { length bytes.now < 2 ^ 32 }
    ensures exact { Gives result (listed (words_at symbols (kept_slots decls.now) bytes.now at)) }
    ensures within { IfOk result (λ x. x.1 ≤ length bytes.now) }
{
    let mut words = Seq::new(alloc);
    let mut behind = at;
    for decl in decls {
        if let Some(slot) = slot_of(Role::Change, &decl.body) {
            let (word, next) = get_word(bytes, behind, slot.kind, slot.fold, symbols)?;
            words.push(word)?;
            behind = next;
        }
    }
    Ok((words, behind))
}

/// The words of vars and folds, and a replicated state up to the end of the bytes.
#[tactic(auto, unfolding(crate::specs::Snapshots::kept_at))]
fn get_kept(
    alloc: Global,
    bytes: &[u8],
    at: u32,
    p: &Program,
    shape: &Shape,
) -> Result<State, WireFault>
    requires shape { IsShape shape.now }
    requires at { at ≤ length bytes.now }
    requires limit { length bytes.now < 2 ^ 32 }
    ensures { Gives result (kept_at p.now shape.now bytes.now at) }
{
    let decls = p.decls.as_slice();
    let (words, at_rep) = get_words(alloc, bytes, at, decls, shape.symbols)?;
    let (rep, behind) = get_state(alloc, bytes, at_rep, shape)?;
    if (behind as usize) < bytes.len() {
        return Err(WireFault::At(behind));
    }
    Ok(State { words, rep })
}

/// A snapshot behind its generation.
#[tactic(auto, unfolding(crate::specs::Snapshots::snapshot_at))]
fn get_stored(
    alloc: Global,
    body: &[u8],
    p: &Program,
    shape: &Shape,
    device: u8,
) -> Result<Snapshot, SnapshotFault>
    requires shape { IsShape shape.now }
    requires limit { length body.now < 2 ^ 32 }
    ensures { GivesSnapshot result (snapshot_at p.now shape.now device body.now) }
{
    let (number, (start, behind)) = get_head(body, device)?;
    let text = print_program(alloc, p)?;
    let (_, rest) = body.split_at(start as usize);
    let (stored, _) = rest.split_at((behind - start) as usize);
    if stored != text.as_slice() {
        return Err(SnapshotFault::OtherText);
    }
    let state = get_kept(alloc, body, behind, p, shape)?;
    Ok(Snapshot { number, state })
}

/// How many entries a snapshot of this program and device stands behind, and the state. Nothing is reserved in its lists. The
/// body is a whole snapshot, from the generation on, and is read behind it. `docs/FORMATS.md` has the layout.
///
/// The refusals are want of memory; `OtherText`, exactly where the stored text reads and isn't the program's canonical text,
/// whatever stands behind it; and `At`: the place, counted from the body's start, of the first field, in reading order, that
/// is cut off or holds a value that isn't allowed, or else of the first byte behind the last field.
pub fn get_snapshot(
    alloc: Global,
    body: &[u8],
    p: &Program,
    shape: &Shape,
    device: u8,
) -> Result<Snapshot, SnapshotFault>
    requires program { IsProgram p.now }
    requires shape { shape.now ≡ shape_of p.now }
    requires long { 8 ≤ length body.now }
    requires generation { IsGeneration (generation body.now) }
    requires limit { length body.now < 2 ^ 32 }
    // What is read may stand in a snapshot, and these are its bytes.
    ensures allowed { IfOk result (λ s. IsSnapshotOf p.now s.number s.state) }
    ensures found { IfOk result (λ s. body.now ≡ snapshot_bytes p.now device (generation body.now) s.number s.state) }
    // What may stand in a snapshot and has these bytes is read, unless memory runs out.
    ensures only { (number : ℕ) (s : State) → IsSnapshotOf p.now number s → body.now ≡ snapshot_bytes p.now device (generation body.now) number s → GivesSnapshot result (Ok (record { number = number; state = s })) }
    // The text is refused exactly where it is another one, unless memory runs out.
    ensures other { result ≡ Err OtherText → HasOtherText p.now device body.now }
    ensures other_only { HasOtherText p.now device body.now → GivesSnapshot result (Err OtherText) }
    // Which place is refused.
    ensures exact { GivesSnapshot result (snapshot_at p.now shape.now device body.now) }
{
    get_stored(alloc, body, p, shape, device)
}

/// Writes the generation, the format, the device and the entry number. The one refusal is want of memory.
fn write_owner(out: &mut Bytes, device: u8, generation: u64, number: u64) -> Result<(), AllocError>
    ensures { OnOk result (out.new ≡ appended out.old (owner_bytes device generation number)) }
{
    write(out, &generation.to_be_bytes())?;
    write(out, &[1, device])?;
    write(out, &number.to_be_bytes())
}

/// Writes a text behind its length. The one refusal is want of memory.
#[tactic(auto, unfolding(crate::specs::Spellings::text_bytes))]
fn write_text(out: &mut Bytes, text: &[u8]) -> Result<(), AllocError>
    requires { length text.now < 2 ^ 32 }
    ensures { OnOk result (out.new ≡ appended out.old (text_bytes text.now)) }
{
    write(out, &(text.len() as u32).to_be_bytes())?;
    write(out, text)
}

/// Writes each word. The one refusal is want of memory.
fn write_words(out: &mut Bytes, words: &[Word]) -> Result<(), AllocError>
    ensures { OnOk result (out.new ≡ appended out.old (flat_map word_bytes words.now)) }
{
    for word in words {
        put_word(out, *word)?;
    }
    Ok(())
}

/// The snapshot of a device's state after `number` entries, with this generation. Nothing is reserved behind it. The one
/// refusal is want of memory. `docs/FORMATS.md` has the layout.
#[tactic(auto, unfolding(crate::specs::Spellings::snapshot_bytes, crate::specs::Spellings::head_bytes, crate::specs::Spellings::kept_bytes))]
pub fn put_snapshot(
    alloc: Global,
    p: &Program,
    shape: &Shape,
    device: u8,
    generation: u64,
    number: u64,
    state: &State,
) -> Result<Bytes, AllocError>
    requires program { IsProgram p.now }
    requires text { length (program_text p.now) ≤ 65536 }
    requires shape { shape.now ≡ shape_of p.now }
    requires generation { IsGeneration generation }
    requires number { number < 2 ^ 48 }
    requires state { IsStateOf p.now state.now }
    ensures { IfOk result (λ out. out ≡ plain (snapshot_bytes p.now device generation number state.now)) }
{
    let text = print_program(alloc, p)?;
    let mut out = Bytes::new(alloc);
    write_owner(&mut out, device, generation, number)?;
    write_text(&mut out, text.as_slice())?;
    write_words(&mut out, state.words.as_slice())?;
    put_state(&mut out, &state.rep, shape)?;
    Ok(out)
}
