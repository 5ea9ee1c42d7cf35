//! The lines of a sample's session.
ghost use Rattle.std.specs.Prelude.{◌≡◌, ◌+◌, ◌++◌, [], ◌∷◌, ℕ, OnOk, codes};
ghost use Rattle.std.specs.Fmt.{decimal};
ghost use Rattle.re_gen.specs.Draws.{draw, state_at};
ghost use Rattle.re_gen.specs.SampleLines.{action_of, drawn_amount, drawn_by, draws_of, line_at, line_text};

use crate::draws::Draws;
use itoa::{Buffer, Integer};
use std::alloc::AllocError;

/// What a line does on its device.
#[derive(Clone, Copy)]
pub enum Action {
    SetX(u32),
    SetY(u32),
    Fire(u32),
    Add(i32),
    Insert(u32),
    Remove(u32),
    Write(u32),
    LazyAdd(i32),
    Send,
    Deliver(u32),
    Settle,
}

/// A line: the letter of its device, and what it does there.
#[derive(Clone, Copy)]
pub struct Line {
    pub letter: u8,
    pub action: Action,
}

impl Line {
    ghost use Rattle.std.specs.Prelude.{◌≡◌};
    ghost use Rattle.re_gen.specs.SampleLines.{sends};

    /// Whether it sends a packet.
    pub fn sends(&self) -> bool
        ensures { result ≡ sends self.now }
    {
        matches!(self.action, Action::Send)
    }
}

/// Draws an amount from -10 to 10.
fn draw_amount(draws: &mut Draws) -> i32
    ensures drawn { (number taken : ℕ) → draws.old.state ≡ state_at number taken → result ≡ drawn_amount (draw number (taken + 1)) }
    ensures state { (number taken : ℕ) → draws.old.state ≡ state_at number taken → draws.new.state ≡ state_at number (taken + 1) }
{
    draws.below(21) as i32 - 10
}

/// Draws what a line does, where so many lines before it send.
fn draw_action(draws: &mut Draws, sends: u32) -> Action
    ensures drawn { (number taken : ℕ) → draws.old.state ≡ state_at number taken → result ≡ action_of (draw number (taken + 1) 10) (draw number (taken + 2)) sends }
    ensures state { (number taken : ℕ) → draws.old.state ≡ state_at number taken → draws.new.state ≡ state_at number (taken + draws_of result) }
{
    match draws.below(10) {
        0 => Action::SetX(draws.below(1000)),
        1 => Action::SetY(draws.below(10)),
        2 => Action::Fire(draws.below(100)),
        3 => Action::Add(draw_amount(draws)),
        4 => Action::Insert(draws.below(50)),
        5 => Action::Remove(draws.below(50)),
        6 => Action::Write(draws.below(100)),
        7 => Action::LazyAdd(draw_amount(draws)),
        8 => Action::Send,
        _ if sends > 0 => Action::Deliver(draws.below(sends)),
        _ => Action::Settle,
    }
}

/// Draws a line, where so many lines before it send.
pub fn draw_line(draws: &mut Draws, sends: u32) -> Line
    ensures drawn { (number taken : ℕ) → draws.old.state ≡ state_at number taken → result ≡ line_at number taken sends }
    ensures state { (number taken : ℕ) → draws.old.state ≡ state_at number taken → draws.new.state ≡ state_at number (taken + drawn_by result) }
{
    let letter = b'a' + draws.below(3) as u8;
    let action = draw_action(draws, sends);
    Line { letter, action }
}

/// Writes a number in decimal.
fn write_number<I: Integer>(text: &mut Vec<u8>, number: I) -> Result<(), AllocError>
    ensures { OnOk result (text.new.items ≡ text.old.items ++ I.text number) }
{
    let mut buffer = Buffer::new();
    text.extend_from_slice(buffer.format(number).as_bytes())
}

/// Writes the letter of a device behind a word, and a value behind both.
fn write_part<I: Integer>(
    text: &mut Vec<u8>,
    front: &[u8],
    letter: u8,
    middle: &[u8],
    value: I,
) -> Result<(), AllocError>
    ensures { OnOk result (text.new.items ≡ text.old.items ++ (front.now ++ letter ∷ [] ++ middle.now ++ I.text value)) }
{
    text.extend_from_slice(front)?;
    text.push(letter)?;
    text.extend_from_slice(middle)?;
    write_number(text, value)
}

/// Writes the letter of a device behind a word.
fn write_device(text: &mut Vec<u8>, front: &[u8], letter: u8) -> Result<(), AllocError>
    ensures { OnOk result (text.new.items ≡ text.old.items ++ (front.now ++ letter ∷ [])) }
{
    text.extend_from_slice(front)?;
    text.push(letter)?;
    Ok(())
}

/// Writes which packet is delivered to a device.
fn write_delivery(text: &mut Vec<u8>, packet: u32, letter: u8) -> Result<(), AllocError>
    ensures { OnOk result (text.new.items ≡ text.old.items ++ (codes "deliver " ++ decimal packet ++ codes " " ++ letter ∷ [])) }
{
    text.extend_from_slice(b"deliver ")?;
    write_number(text, packet)?;
    write_device(text, b" ", letter)
}

/// Writes a line, without its end.
pub fn write_line(text: &mut Vec<u8>, line: Line) -> Result<(), AllocError>
    ensures { OnOk result (text.new.items ≡ text.old.items ++ line_text line) }
{
    let letter = line.letter;
    match line.action {
        Action::SetX(value) => write_part(text, b"turn ", letter, b" x = ", value),
        Action::SetY(value) => write_part(text, b"turn ", letter, b" y = ", value),
        Action::Fire(value) => write_part(text, b"turn ", letter, b" fire e ", value),
        Action::Add(amount) => write_part(text, b"turn ", letter, b" add k ", amount),
        Action::Insert(element) => write_part(text, b"turn ", letter, b" insert s ", element),
        Action::Remove(element) => write_part(text, b"turn ", letter, b" remove s ", element),
        Action::Write(value) => write_part(text, b"turn ", letter, b" write r ", value),
        Action::LazyAdd(amount) => write_part(text, b"lazy ", letter, b" add k ", amount),
        Action::Send => write_device(text, b"send ", letter),
        Action::Deliver(packet) => write_delivery(text, packet, letter),
        Action::Settle => write_device(text, b"settle ", letter),
    }
}
