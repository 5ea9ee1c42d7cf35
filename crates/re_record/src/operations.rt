//! Operations on replicated cells as bytes.
ghost use Rattle.std.specs.Prelude.{◌≡◌, ◌^◌, ◌<◌, ◌≤◌, length, IfOk, OnOk};
ghost use Rattle.std.specs.Int.{w8, w64};
ghost use Rattle.std.specs.List.{flat_map};
ghost use Rattle.re_record.specs.Reading.{is_tag_of, set_act, amount_at, tag_at, operand_at, act_at, act_on_at, operation_at};
ghost use Rattle.re_record.specs.Spellings.{act_bytes, operation_bytes};
ghost use Rattle.re_wire.specs.Appended.{appended};
ghost use Rattle.re_wire.specs.Reading.{Gives, Reads, listed, several_at};

use crate::numbers::{get_u8, get_u64};
use crate::writing::write;
use re_outside::Bytes;
use re_terms::{Act, RKind, RepOp, Seq, Shape, Word};
use re_wire::{WireFault, get_word, put_word};
use std::alloc::{AllocError, Global};

/// An amount behind its tag.
#[tactic(auto, unfolding(crate::specs::Reading::amount_at))]
fn get_amount(bytes: &[u8], at: u32) -> Result<(Act, u32), WireFault>
    requires { length bytes.now < 2 ^ 32 }
    ensures exact { Reads result (amount_at bytes.now at) }
    ensures within { IfOk result (λ x. x.1 ≤ length bytes.now) }
{
    let (number, behind) = get_u64(bytes, at)?;
    Ok((Act::Add(number.cast_signed()), behind))
}

/// Whether a cell of this kind takes the acts with this tag.
fn is_tag_of(kind: RKind, tag: u8) -> bool
    ensures { result ≡ is_tag_of kind tag }
{
    match kind {
        RKind::Counter => tag == 0,
        RKind::Set(_) => tag == 1 || tag == 2,
        RKind::Register(_, _) => tag == 3,
    }
}

/// The tag of an act that a cell of this kind takes.
#[tactic(auto, unfolding(crate::specs::Reading::tag_at))]
fn get_tag(bytes: &[u8], at: u32, kind: RKind) -> Result<(u8, u32), WireFault>
    requires { length bytes.now < 2 ^ 32 }
    ensures exact { Reads result (tag_at kind bytes.now at) }
    ensures within { IfOk result (λ x. x.1 ≤ length bytes.now) }
{
    let (tag, behind) = get_u8(bytes, at)?;
    if is_tag_of(kind, tag) {
        Ok((tag, behind))
    } else {
        Err(WireFault::At(at))
    }
}

/// An insert or a remove, by its tag.
fn set_act(tag: u8, element: Word) -> Act
    ensures { result ≡ set_act tag element }
{
    if tag == 1 {
        Act::Insert(element)
    } else {
        Act::Remove(element)
    }
}

/// What stands behind a tag.
#[tactic(auto, unfolding(crate::specs::Reading::operand_at))]
fn get_operand(
    bytes: &[u8],
    at: u32,
    kind: RKind,
    symbols: u16,
    tag: u8,
) -> Result<(Act, u32), WireFault>
    requires at { at ≤ length bytes.now }
    requires limit { length bytes.now < 2 ^ 32 }
    ensures exact { Reads result (operand_at kind symbols tag bytes.now at) }
    ensures within { IfOk result (λ x. x.1 ≤ length bytes.now) }
{
    match kind {
        RKind::Counter => get_amount(bytes, at),
        RKind::Set(elements) => {
            let (element, behind) = get_word(bytes, at, elements, false, symbols)?;
            Ok((set_act(tag, element), behind))
        }
        RKind::Register(words, _) => {
            let (word, behind) = get_word(bytes, at, words, false, symbols)?;
            Ok((Act::Write(word), behind))
        }
    }
}

/// An act that a cell of this kind takes. Where no kind is known the cell is refused, which stands at `cell`.
#[tactic(auto, unfolding(crate::specs::Reading::act_at))]
fn get_act(
    bytes: &[u8],
    at: u32,
    kind: Option<RKind>,
    symbols: u16,
    cell: u32,
) -> Result<(Act, u32), WireFault>
    requires { length bytes.now < 2 ^ 32 }
    ensures exact { Reads result (act_on_at kind symbols cell bytes.now at) }
    ensures within { IfOk result (λ x. x.1 ≤ length bytes.now) }
{
    match kind {
        None => Err(WireFault::At(cell)),
        Some(kind) => {
            let (tag, behind) = get_tag(bytes, at, kind)?;
            get_operand(bytes, behind, kind, symbols, tag)
        }
    }
}

/// A cell, and an act that it takes.
#[tactic(auto, unfolding(crate::specs::Reading::operation_at))]
fn get_operation(bytes: &[u8], at: u32, shape: &Shape) -> Result<(RepOp, u32), WireFault>
    requires { length bytes.now < 2 ^ 32 }
    ensures exact { Reads result (operation_at shape.now bytes.now at) }
    ensures within { IfOk result (λ x. x.1 ≤ length bytes.now) }
{
    let (cell, at_act) = get_u8(bytes, at)?;
    let kind = shape.cells.get(usize::from(cell)).copied();
    let (act, behind) = get_act(bytes, at_act, kind, shape.symbols, at)?;
    Ok((RepOp { cell, act }, behind))
}

/// So many operations.
pub fn get_operations(
    alloc: Global,
    bytes: &[u8],
    at: u32,
    shape: &Shape,
    count: u8,
) -> Result<(Seq<RepOp>, u32), WireFault>
    requires at { at ≤ length bytes.now }
    requires limit { length bytes.now < 2 ^ 32 }
    ensures exact { Gives result (listed (several_at (operation_at shape.now bytes.now) count at)) }
    ensures within { IfOk result (λ x. x.1 ≤ length bytes.now) }
{
    let mut ops = Seq::new(alloc);
    let mut behind = at;
    for _ in 0..count {
        let (op, next) = get_operation(bytes, behind, shape)?;
        ops.push(op)?;
        behind = next;
    }
    Ok((ops, behind))
}

/// Writes an act. The one refusal is want of memory.
#[tactic(auto, unfolding(crate::specs::Spellings::act_bytes))]
fn write_act(out: &mut Bytes, act: Act) -> Result<(), AllocError>
    ensures { OnOk result (out.new ≡ appended out.old (act_bytes act)) }
{
    match act {
        Act::Add(amount) => {
            let b = amount.cast_unsigned().to_be_bytes();
            write(out, &[0, b[0], b[1], b[2], b[3], b[4], b[5], b[6], b[7]])
        }
        Act::Insert(word) => {
            write(out, &[1])?;
            put_word(out, word)
        }
        Act::Remove(word) => {
            write(out, &[2])?;
            put_word(out, word)
        }
        Act::Write(word) => {
            write(out, &[3])?;
            put_word(out, word)
        }
    }
}

/// Writes an operation. The one refusal is want of memory.
#[tactic(auto, unfolding(crate::specs::Spellings::operation_bytes))]
fn write_operation(out: &mut Bytes, op: &RepOp) -> Result<(), AllocError>
    ensures { OnOk result (out.new ≡ appended out.old (operation_bytes op.now)) }
{
    write(out, &[op.cell])?;
    write_act(out, op.act)
}

/// Writes each of them. The one refusal is want of memory.
pub fn write_operations(out: &mut Bytes, ops: &[RepOp]) -> Result<(), AllocError>
    ensures { OnOk result (out.new ≡ appended out.old (flat_map operation_bytes ops.now)) }
{
    for op in ops {
        write_operation(out, op)?;
    }
    Ok(())
}
