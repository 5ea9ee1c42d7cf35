//! What lines mean to a program.
ghost use Rattle.std.specs.Prelude.{◌≡◌, ◌≢◌, ◌<◌, true, IfOk, Err};
ghost use Rattle.re_terms.specs.Programs.{IsProgram};
ghost use Rattle.re_terms.specs.Admission.{IsAdmitted, IsCommandOf, device_count, is_shown_at};
ghost use Rattle.re_commands.specs.Commanding.{both, device_of, device_turn, shown_of, meant};
ghost use Rattle.re_commands.specs.RawLines.{plain_line};

use crate::CommandFault;
use crate::names::{device_of, shown_of};
use crate::raw_line::RawLine;
use re_terms::{Admitted, Command, Program, RawTurn, Text};
use re_types::admit;
use std::alloc::Global;

/// The device with this name, and the turn of these parts for it.
fn device_turn(
    alloc: Global,
    p: &Program,
    device: &Text,
    turn: RawTurn,
) -> Result<(u8, Admitted), CommandFault>
    requires { IsProgram p.now }
    ensures answer { result ≢ Err CommandFault.Memory → result ≡ device_turn p.now device.now turn }
    ensures device { IfOk result (λ found. found.0 < device_count p.now.decls.items) }
    ensures turn { IfOk result (λ found. IsAdmitted p.now found.1.turn) }
{
    let found = device_of(p, device);
    match admit(alloc, p, turn) {
        Ok(turn) => Ok((found?, turn)),
        Err(fault) => match found {
            Ok(_) => Err(CommandFault::from(fault)),
            Err(first) => Err(first.first(CommandFault::from(fault))),
        },
    }
}

/// The device with this name, and what its `get` asks for.
fn device_shown(p: &Program, device: &Text, name: &Text) -> Result<(u8, u16), CommandFault>
    requires { IsProgram p.now }
    ensures answer { result ≡ both (device_of p.now.decls.items device.now) (shown_of p.now.decls.items name.now) }
    ensures device { IfOk result (λ found. found.0 < device_count p.now.decls.items) }
    ensures shown { IfOk result (λ found. is_shown_at p.now.decls.items found.1 ≡ true) }
{
    let found = device_of(p, device);
    match shown_of(p, name) {
        Ok(id) => Ok((found?, id)),
        Err(fault) => match found {
            Ok(_) => Err(fault),
            Err(first) => Err(first.first(fault)),
        },
    }
}

/// The command that a line is.
pub fn meaning(alloc: Global, p: &Program, line: RawLine<'_>) -> Result<Command, CommandFault>
    requires { IsProgram p.now }
    ensures answer { result ≢ Err CommandFault.Memory → result ≡ meant p.now (plain_line line.entry) }
    ensures command { IfOk result (IsCommandOf p.now) }
{
    match line {
        RawLine::Turn { device, turn } => {
            let (device, turn) = device_turn(alloc, p, device, turn)?;
            Ok(Command::Turn { device, turn })
        }
        RawLine::Lazy { device, turn } => {
            let (device, turn) = device_turn(alloc, p, device, turn)?;
            Ok(Command::Lazy { device, turn })
        }
        RawLine::Settle { device } => Ok(Command::Settle {
            device: device_of(p, device)?,
        }),
        RawLine::Get { device, name } => {
            let (device, id) = device_shown(p, device, name)?;
            Ok(Command::Get { device, id })
        }
        RawLine::Send { device } => Ok(Command::Send {
            device: device_of(p, device)?,
        }),
        RawLine::Deliver { packet, device } => Ok(Command::Deliver {
            packet,
            device: device_of(p, device)?,
        }),
        RawLine::Hex { packet } => Ok(Command::Hex { packet }),
        RawLine::Crash { device } => Ok(Command::Crash {
            device: device_of(p, device)?,
        }),
        RawLine::Restart { device } => Ok(Command::Restart {
            device: device_of(p, device)?,
        }),
    }
}
