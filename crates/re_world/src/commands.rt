//! Commands that call nothing outside.
ghost use Rattle.std.specs.Prelude.{◌≡◌, true, false};
ghost use Rattle.re_device.specs.Device.{current};
ghost use Rattle.re_print.specs.AnswerTexts.{AscendsWhereSet};
ghost use Rattle.re_terms.specs.Admission.{IsCommandOf};
ghost use Rattle.re_terms.specs.SignalWords.{signal_word};
ghost use Rattle.re_terms.specs.Views.{view_of};
ghost use Rattle.re_terms.specs.Worlds.{is_set_at};
ghost use Rattle.re_world.specs.Stepping.{DoesInside, IsSetOrMemory};

use crate::World;
use crate::answers::{DOWN, MEMORY, NO_PACKET, TOO_MANY_PACKETS, refused};
use re_device::Device;
use re_eval::Steps;
use re_terms::{Admitted, Answer, Body, Command, Program, Seq, TryCopy};
use std::alloc::Global;
use std::sync::ledger::Ledger;

/// The most packets of a session.
const MOST_PACKETS: usize = 10_000;

/// What `get` shows of a name of a device that runs: a set's pairs, or a word. The one refusal is want of memory, for a set.
fn shown(alloc: Global, device: &Device, id: u16) -> Answer
    ensures word { (is_set_at device.now.memory.program.decls.items id ≡ false) → result ≡ Answer.Value (signal_word device.now.memory.program (current device.now.memory).state.words.items (view_of (current device.now.memory).state.rep) id) }
    ensures set { (is_set_at device.now.memory.program.decls.items id ≡ true) → IsSetOrMemory device.now id result }
    ensures ascends { AscendsWhereSet result }
{
    if !is_set(device.program(), id) {
        return Answer::Value(device.word(id));
    }
    match device.pairs(id).copy(alloc) {
        Ok(pairs) => Answer::Members(pairs),
        Err(_) => Answer::No(MEMORY),
    }
}

/// Whether the declaration with this id is a set.
fn is_set(p: &Program, id: u16) -> bool
    ensures { result ≡ is_set_at p.now.decls.items id }
{
    match p.decls.get(usize::from(id)) {
        Some(decl) => matches!(decl.body, Body::Set { .. }),
        None => false,
    }
}

impl World {
    /// Takes a turn as one entry, in memory alone.
    pub(crate) fn lazy<L: Ledger>(
        &mut self,
        number: u8,
        turn: Admitted,
        steps: &mut Steps<L>,
    ) -> Answer
        requires { IsCommandOf self.old.program (Command.Lazy number turn) }
        ensures { DoesInside self.old self.new (Command.Lazy number turn) result }
    {
        let Some(mut device) = self.take_out(number) else {
            return Answer::No(DOWN);
        };
        let applied = device.lazy(turn, steps);
        self.put_in(number, device);
        match applied {
            Ok(number) => Answer::Applied(number),
            Err(fault) => refused(fault),
        }
    }

    /// Shows a word or a set of a device.
    pub(crate) fn get(&self, number: u8, id: u16) -> Answer
        requires { IsCommandOf self.now.program (Command.Get number id) }
        ensures { DoesInside self.now self.now (Command.Get number id) result }
    {
        let Some(device) = self.device(number) else {
            return Answer::No(DOWN);
        };
        if let Some(at) = device.stopped() {
            return Answer::StoppedAt(at);
        }
        shown(self.alloc, device, id)
    }

    /// Makes a packet of what a device has settled.
    pub(crate) fn send(&mut self, number: u8) -> Answer
        requires { IsCommandOf self.old.program (Command.Send number) }
        ensures { DoesInside self.old self.new (Command.Send number) result }
    {
        let Some(device) = self.device(number) else {
            return Answer::No(DOWN);
        };
        if let Some(at) = device.stopped() {
            return Answer::StoppedAt(at);
        }
        let packet = self.packets.len();
        if packet >= MOST_PACKETS {
            return Answer::No(TOO_MANY_PACKETS);
        }
        let Ok(bytes) = device.packet() else {
            return Answer::No(MEMORY);
        };
        let Ok(()) = self.packets.push(bytes) else {
            return Answer::No(MEMORY);
        };
        Answer::Packet(packet as u64)
    }

    /// Shows the bytes of a packet.
    pub(crate) fn hex(&self, packet: u64) -> Answer
        ensures { DoesInside self.now self.now (Command.Hex packet) result }
    {
        let Some(bytes) = self.packets.get(packet as usize) else {
            return Answer::No(NO_PACKET);
        };
        match bytes.as_slice().to_vec(self.alloc) {
            Ok(copied) => Answer::Hex(Seq::from_vec(copied)),
            Err(_) => Answer::No(MEMORY),
        }
    }

    /// Drops what a device has in memory.
    pub(crate) fn crash(&mut self, number: u8) -> Answer
        requires { IsCommandOf self.old.program (Command.Crash number) }
        ensures { DoesInside self.old self.new (Command.Crash number) result }
    {
        let Some(_dropped) = self.take_out(number) else {
            return Answer::No(DOWN);
        };
        Answer::Down
    }
}
