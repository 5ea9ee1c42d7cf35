//! A device that is opened again.
ghost use Rattle.std.specs.Prelude.{◌≡◌, ℕ, true, None};
ghost use Rattle.re_outside.specs.Outside.{content_in};
ghost use Rattle.re_print.specs.AnswerTexts.{AscendsWhereSet};
ghost use Rattle.re_record.specs.Stores as stores;
ghost use Rattle.re_record.specs.Stores.{HasStore, Stored};
ghost use Rattle.re_terms.specs.Admission.{IsCommandOf};
ghost use Rattle.re_terms.specs.Worlds.{BadFile, Refused, plain_answer};
ghost use Rattle.re_world.specs.FileSteps.{unopened_as};
ghost use Rattle.re_world.specs.State.{device_in};
ghost use Rattle.re_world.specs.Stepping.{DoesCommand, IsRestartAnswer};

use crate::World;
use crate::answers::{DISK, MEMORY, OTHER_PROGRAM, UP};
use crate::opening::open_outside;
use re_compact::OpenFault;
use re_outside::Outside;
use re_terms::{Answer, Command};

/// The answer to a restart whose opening is refused.
fn unopened(fault: OpenFault) -> Answer
    ensures answer { plain_answer result ≡ unopened_as fault }
    ensures ascends { AscendsWhereSet result }
{
    match fault {
        OpenFault::Memory => Answer::No(MEMORY),
        OpenFault::Disk => Answer::No(DISK),
        OpenFault::BadStore { file, at } => Answer::BadFile { file, at },
        OpenFault::OtherProgram => Answer::No(OTHER_PROGRAM),
    }
}

impl World {
    /// Opens a device that is down.
    pub(crate) fn restart<O: Outside>(&mut self, out: &mut O, number: u8) -> Answer
        requires { IsCommandOf self.old.program (Command.Restart number) }
        ensures does { DoesCommand O.tells self.old self.new (Command.Restart number) result (O.seen out.old) (O.seen out.new) }
        ensures bad { (file at : ℕ) → O.tells ≡ true → plain_answer result ≡ BadFile file at → HasStore self.old.program number (content_in (O.seen out.old) number 0) (content_in (O.seen out.old) number 1) (stores.Bad file at) }
        ensures decided { (stored : Stored) → O.tells ≡ true → device_in self.old number ≡ None → HasStore self.old.program number (content_in (O.seen out.old) number 0) (content_in (O.seen out.old) number 1) stored → IsRestartAnswer self.old.program number stored (plain_answer result) }
        ensures other { O.tells ≡ true → plain_answer result ≡ Refused 39 → HasStore self.old.program number (content_in (O.seen out.old) number 0) (content_in (O.seen out.old) number 1) stores.OtherProgram }
    {
        if self.device(number).is_some() {
            return Answer::No(UP);
        }
        match open_outside(self.alloc, out, &self.program, number) {
            Ok(device) => {
                let entries = device.number();
                self.put_in(number, device);
                Answer::Up(entries)
            }
            Err(fault) => unopened(fault),
        }
    }
}
