//! The world of a session: devices and packets.
ghost use Rattle.std.specs.Prelude.{◌≡◌, ◌≢◌, ◌<◌, ◌≤◌, ◌+◌, ℕ, List, [], length, true, false, Some, None, Err, IfOk, OnOk};
ghost use Rattle.std.specs.Option.{option_copied};
ghost use Rattle.re_outside.specs.Moment.{Throughout};
ghost use Rattle.re_outside.specs.Outside.{Rose, content_in};
ghost use Rattle.re_outside.specs.Port.{disk_faults, other_faults, past_in};
ghost use Rattle.re_outside.specs.Trace.{IsBefore, IsJointImage};
ghost use Rattle.re_compact.specs.declared.fault.OpenFault.{OpenFault as TheFault};
ghost use Rattle.re_compact.specs.declared.fault.OpenFault.TheVariants.{BadStore, Disk as DiskRefusal, OtherProgram};
ghost use Rattle.re_print.specs.Canonical.{program_text};
ghost use Rattle.re_print.specs.AnswerTexts.{AscendsWhereSet};
ghost use Rattle.re_record.specs.Stores as stores;
ghost use Rattle.re_record.specs.Stores.{HasStore, Stored};
ghost use Rattle.re_terms.specs.Admission.{IsCommandOf, device_count};
ghost use Rattle.re_terms.specs.DeviceWorlds.{start_world};
ghost use Rattle.re_terms.specs.Programs.{IsProgram};
ghost use Rattle.re_terms.specs.Runs.{PlainState};
ghost use Rattle.re_terms.specs.Updates.{Update};
ghost use Rattle.re_terms.specs.Worlds.{BadFile, Refused, plain_answer};
ghost use Rattle.re_terms.specs.declared.command.Command.TheVariants as command;
ghost use Rattle.re_world.specs.Images.{Restores};
ghost use Rattle.re_device.specs.Device.{DeviceState};
ghost use Rattle.re_world.specs.Causes.{HasCause};
ghost use Rattle.re_world.specs.FileSteps.{HasFileSteps};
ghost use Rattle.re_world.specs.Opening.{HasAllOpeningSteps, IsOpened, OpenBefore};
ghost use Rattle.re_world.specs.Standing.{IsWorldOf};
ghost use Rattle.re_world.specs.Starting.{StartsAt};
ghost use Rattle.re_world.specs.State.{device_in};
ghost use Rattle.re_world.specs.Stepping.{CountsBy, DoesCommand, HasStepped, IsRestartAnswer, IsStoreRefusal, Keeps};
ghost use Rattle.re_world.specs.Taking.{Takes};

use crate::opening::open_all;
use re_compact::OpenFault;
use re_device::Device;
use re_eval::Steps;
use re_outside::{Bytes, Outside};
use re_terms::{Answer, Command, Program, Seq, Shape};
use std::alloc::Global;
use std::marker::{Brand, Model};
use std::sync::ledger::{Blank, Ledger};

/// The devices of a program, each over its own two files, and the packets that they made.
///
/// A device is down from its crash to its restart: then nothing of it is in memory. Packets are kept as bytes, and counted from 0.
/// docs/SESSION.md has the commands and their answers.
#[derive(Drop)]
pub struct World {
    pub(crate) alloc: Global,
    pub(crate) program: Program,
    pub(crate) shape: Shape,
    pub(crate) devices: Seq<Option<Device>>,
    pub(crate) packets: Seq<Bytes>,
}

impl Model for World {
    ghost use Rattle.std.specs.Coded.{codes};
    ghost use Rattle.re_terms.specs.contracts.expr.Expr as expr;
    ghost use Rattle.re_world.specs.State.{WorldState};

    ghost Value = { WorldState };

    ghost coded = { Prim.hlevel (codes, expr.the_row.coded) };

    ghost use Rattle.re_world.specs.State.{IsKept, state_of};

    ghost view = { state_of };

    ghost invariant = { IsKept };
}

impl World {
    /// Opens the devices of a program over their files, in order. The refusal is that of the first device that can't be opened, with its number;
    /// want of memory may come with the number 0 before any is opened.
    pub fn new<O: Outside>(alloc: Global, out: &mut O, p: Program) -> Result<World, (u8, OpenFault)>
        requires program { IsProgram p }
        requires text { length (program_text p) ≤ 65536 }
        ensures program { IfOk result (λ v. v.program ≡ p) }
        ensures opened { IfOk result (λ v. (d : ℕ) → d < device_count p.decls.items → (x : DeviceState) × (device_in v d ≡ Some x) × IsOpened p d x) }
        ensures packets { IfOk result (λ v. v.packets ≡ []) }
        // Where the files at the call are synced and one log stands behind them, what is opened is the world that they stand for, and a stop
        // at any moment leaves files that stand for it.
        ensures world { (base : ℕ → PlainState) (base_number : ℕ → ℕ) (log : List Update) → O.tells ≡ true → StartsAt p base base_number log (past_in 0 (O.seen out.old)) → IfOk result (λ v. IsWorldOf p (start_world p base base_number log) v (O.seen out.new)) }
        ensures restores { (base : ℕ → PlainState) (base_number : ℕ → ℕ) (log : List Update) → O.tells ≡ true → StartsAt p base base_number log (past_in 0 (O.seen out.old)) → Throughout (past_in 0 (O.seen out.old)) (past_in 0 (O.seen out.new)) (λ now. (files : ℕ → ℕ → List ℕ) → IsJointImage now files → Restores p (start_world p base base_number log) None files) }

        // The number of a refusal is that of a device of the program.
        ensures number { (d : ℕ) (fault : TheFault) → result ≡ Err (d, fault) → d < device_count p.decls.items }
        // A store is refused for what the files of the device hold, as they read at the call.
        ensures bad { (d file at : ℕ) → O.tells ≡ true → result ≡ Err (d, BadStore file at) → HasStore p d (content_in (O.seen out.old) d 0) (content_in (O.seen out.old) d 1) (stores.Bad file at) }
        ensures other { (d : ℕ) → O.tells ≡ true → result ≡ Err (d, OtherProgram) → HasStore p d (content_in (O.seen out.old) d 0) (content_in (O.seen out.old) d 1) stores.OtherProgram }
        // A disk is refused only where its calls failed, and then no others did; unless one is, no call failed.
        ensures disk { (d : ℕ) → result ≡ Err (d, DiskRefusal) → Rose (disk_faults d (O.seen out.old)) (disk_faults d (O.seen out.new)) }
        ensures others { (d : ℕ) → result ≡ Err (d, DiskRefusal) → other_faults d (O.seen out.new) ≡ other_faults d (O.seen out.old) }
        ensures calm { ((d : ℕ) → result ≢ Err (d, DiskRefusal)) → (O.seen out.new).faults ≡ (O.seen out.old).faults }
        // All devices open, or each before the one that is refused.
        ensures all { O.tells ≡ true → OnOk result (OpenBefore p (device_count p.decls.items) (O.seen out.old)) }
        ensures first { (d : ℕ) (fault : TheFault) → O.tells ≡ true → result ≡ Err (d, fault) → OpenBefore p d (O.seen out.old) }

        // The calls on the devices' files, in order, up to the first that failed.
        ensures steps { O.tells ≡ true → HasAllOpeningSteps p (past_in 0 (O.seen out.old)) (past_in 0 (O.seen out.new)) result }

        // No input is taken, and what was done before the call stands.
        ensures left { O.tells ≡ true → (O.seen out.new).left ≡ (O.seen out.old).left }
        ensures goes_on { O.tells ≡ true → IsBefore (past_in 0 (O.seen out.old)) (past_in 0 (O.seen out.new)) }
    {
        let Ok(shape) = Shape::of(alloc, &p) else {
            return Err((0, OpenFault::Memory));
        };
        let devices = open_all(alloc, out, &p)?;
        Ok(World {
            alloc,
            program: p,
            shape,
            devices,
            packets: Seq::new(alloc),
        })
    }

    /// Does a command, and gives its answer.
    ///
    /// The condition is that the command is one of the program. docs/SESSION.md has the refusals with their causes, in the order in which
    /// they come; want of memory, 36, may come in the place of any other answer. A refused command leaves the devices, the packets and
    /// what the files open to; the file calls of a refused restart stay made. Only 33 says that a call of the device's disk failed: a restart
    /// then leaves the device down; after any other command its memory is as before, its files hold all entries that were to be
    /// settled or none of them, and it is stopped until it is crashed and restarted.
    pub fn step<O: Outside>(&mut self, out: &mut O, c: Command) -> Answer
        requires { IsCommandOf self.old.program c }
        // Where the outside tells what is seen, the command is one step of each world that these devices, packets and files are, and a stop at
        // any moment leaves files that restore to the world before it, with the command under way.
        ensures stepped { O.tells ≡ true → HasStepped self.old self.new c (plain_answer result) (O.seen out.old) (O.seen out.new) }

        // What stays: the program, all other devices, and after a refusal all, but for the device that stops where a file call failed.
        ensures keeps { Keeps self.old self.new c (plain_answer result) }
        // What the command leaves in memory of its own device, by its answer.
        ensures takes { Takes self.old self.new c (plain_answer result) }
        // A command is refused for what is in memory exactly where that refuses it, unless memory runs out.
        ensures caused { HasCause self.old c (plain_answer result) }
        // The code 33 comes exactly where the count of the device's disk rose, and no other count changes.
        ensures counts { CountsBy c (plain_answer result) (O.seen out.old) (O.seen out.new) }
        // The calls on the device's files, in order, up to the first that failed, and how many the device has counted.
        ensures files { O.tells ≡ true → HasFileSteps self.old self.new c (plain_answer result) (O.seen out.old) (O.seen out.new) }

        // A restart alone is refused for its store, whatever the outside tells.
        ensures stores { IsStoreRefusal (plain_answer result) → (d : ℕ) × (c ≡ command.Restart d) }
        // What the device's files are to the program, as they read at the call, decides the answer to a restart of a device that is down,
        // unless the disk fails or memory runs out; what a restart is refused with for its store is what they are.
        ensures decided { (d : ℕ) (stored : Stored) → O.tells ≡ true → c ≡ command.Restart d → device_in self.old d ≡ None → HasStore self.old.program d (content_in (O.seen out.old) d 0) (content_in (O.seen out.old) d 1) stored → IsRestartAnswer self.old.program d stored (plain_answer result) }
        ensures bad { (d file at : ℕ) → O.tells ≡ true → c ≡ command.Restart d → plain_answer result ≡ BadFile file at → HasStore self.old.program d (content_in (O.seen out.old) d 0) (content_in (O.seen out.old) d 1) (stores.Bad file at) }
        ensures other { (d : ℕ) → O.tells ≡ true → c ≡ command.Restart d → plain_answer result ≡ Refused 39 → HasStore self.old.program d (content_in (O.seen out.old) d 0) (content_in (O.seen out.old) d 1) stores.OtherProgram }
        ensures left { O.tells ≡ true → (O.seen out.new).left ≡ (O.seen out.old).left }
        ensures ascends { AscendsWhereSet result }
    {
        self.do_command::<Brand, O>(out, c, Blank::new(1))
    }

    /// Does a command, and counts its evaluations in a ledger that is blank.
    fn do_command<L: Ledger, O: Outside>(&mut self, out: &mut O, c: Command, blank: Blank) -> Answer
        requires command { IsCommandOf self.old.program c }
        requires name { blank.name ≡ L.name }
        requires parts { blank.parts ≡ L.parts }
        requires one { 0 < L.parts }
        ensures does { DoesCommand O.tells self.old self.new c result (O.seen out.old) (O.seen out.new) }
        ensures decided { (d : ℕ) (stored : Stored) → O.tells ≡ true → c ≡ command.Restart d → device_in self.old d ≡ None → HasStore self.old.program d (content_in (O.seen out.old) d 0) (content_in (O.seen out.old) d 1) stored → IsRestartAnswer self.old.program d stored (plain_answer result) }
        ensures bad { (d file at : ℕ) → O.tells ≡ true → c ≡ command.Restart d → plain_answer result ≡ BadFile file at → HasStore self.old.program d (content_in (O.seen out.old) d 0) (content_in (O.seen out.old) d 1) (stores.Bad file at) }
        ensures other { (d : ℕ) → O.tells ≡ true → c ≡ command.Restart d → plain_answer result ≡ Refused 39 → HasStore self.old.program d (content_in (O.seen out.old) d 0) (content_in (O.seen out.old) d 1) stores.OtherProgram }
    {
        let mut steps = Steps::<L>::new(blank);
        match c {
            Command::Turn { device, turn } => self.turn(out, device, turn, &mut steps),
            Command::Lazy { device, turn } => self.lazy(device, turn, &mut steps),
            Command::Settle { device } => self.settle(out, device),
            Command::Get { device, id } => self.get(device, id),
            Command::Send { device } => self.send(device),
            Command::Deliver { packet, device } => self.deliver(out, packet, device, &mut steps),
            Command::Hex { packet } => self.hex(packet),
            Command::Crash { device } => self.crash(device),
            Command::Restart { device } => self.restart(out, device),
        }
    }

    /// The program.
    pub fn program(&self) -> &Program
        ensures program { result.now ≡ self.now.program }
        ensures is_program { IsProgram result.now }
    {
        &self.program
    }

    /// The device with this number, none where it is down.
    pub fn device(&self, device: u8) -> Option<&Device>
        requires { device < device_count self.now.program.decls.items }
        ensures { option_copied result ≡ device_in self.now device }
    {
        self.devices.as_slice()[device as usize].as_ref()
    }
}
