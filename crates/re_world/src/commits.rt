//! Commands that commit: turns, deliveries and settlings.
ghost use Rattle.std.specs.Prelude.{◌≡◌};
ghost use Rattle.re_device.specs.Stepping.{entered_as, settled_as};
ghost use Rattle.re_terms.specs.Admission.{IsCommandOf};
ghost use Rattle.re_terms.specs.Worlds.{plain_answer};
ghost use Rattle.re_print.specs.AnswerTexts.{AscendsWhereSet};
ghost use Rattle.re_world.specs.Stepping.{DoesCommand};

use crate::World;
use crate::answers::{DOWN, MEMORY, NO_PACKET, refused};
use crate::calls::{settle_entries, take_merge, take_turn};
use re_device::{DeviceFault, Done};
use re_eval::Steps;
use re_outside::Outside;
use re_terms::{Admitted, Answer, Command};
use re_wire::{WireFault, decode};
use std::sync::ledger::Ledger;

/// The answer to an entry that is settled.
fn entered(taken: Result<Done, DeviceFault>) -> Answer
    ensures answer { plain_answer result ≡ entered_as taken }
    ensures ascends { AscendsWhereSet result }
{
    match taken {
        Ok(done) => Answer::Entered(done.number),
        Err(fault) => refused(fault),
    }
}

/// The answer to a settling.
fn settled(taken: Result<u64, DeviceFault>) -> Answer
    ensures answer { plain_answer result ≡ settled_as taken }
    ensures ascends { AscendsWhereSet result }
{
    match taken {
        Ok(number) => Answer::Settled(number),
        Err(fault) => refused(fault),
    }
}

impl World {
    /// Takes a turn as one entry, and settles it with all that are unsettled.
    pub(crate) fn turn<O: Outside, L: Ledger>(
        &mut self,
        out: &mut O,
        number: u8,
        turn: Admitted,
        steps: &mut Steps<L>,
    ) -> Answer
        requires { IsCommandOf self.old.program (Command.Turn number turn) }
        ensures { DoesCommand O.tells self.old self.new (Command.Turn number turn) result (O.seen out.old) (O.seen out.new) }
    {
        let Some(mut device) = self.take_out(number) else {
            return Answer::No(DOWN);
        };
        let taken = take_turn(out, number, &mut device, turn, steps);
        self.put_in(number, device);
        entered(taken)
    }

    /// Merges a packet into a device as one entry, and settles it with all that are unsettled.
    pub(crate) fn deliver<O: Outside, L: Ledger>(
        &mut self,
        out: &mut O,
        packet: u64,
        number: u8,
        steps: &mut Steps<L>,
    ) -> Answer
        requires { IsCommandOf self.old.program (Command.Deliver packet number) }
        ensures { DoesCommand O.tells self.old self.new (Command.Deliver packet number) result (O.seen out.old) (O.seen out.new) }
    {
        let Some(bytes) = self.packets.get(packet as usize) else {
            return Answer::No(NO_PACKET);
        };
        let state = match decode(self.alloc, bytes.as_slice(), &self.shape) {
            Ok(state) => state,
            Err(WireFault::Memory) => return Answer::No(MEMORY),
            Err(WireFault::At(_)) => unreachable!(),
        };
        let Some(mut device) = self.take_out(number) else {
            return Answer::No(DOWN);
        };
        let taken = take_merge(out, number, &mut device, state, steps);
        self.put_in(number, device);
        entered(taken)
    }

    /// Settles all entries of a device that are unsettled.
    pub(crate) fn settle<O: Outside>(&mut self, out: &mut O, number: u8) -> Answer
        requires { IsCommandOf self.old.program (Command.Settle number) }
        ensures { DoesCommand O.tells self.old self.new (Command.Settle number) result (O.seen out.old) (O.seen out.new) }
    {
        let Some(mut device) = self.take_out(number) else {
            return Answer::No(DOWN);
        };
        let taken = settle_entries(out, number, &mut device);
        self.put_in(number, device);
        settled(taken)
    }
}
