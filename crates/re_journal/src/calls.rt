//! Calls on the files of a device that a journal makes and counts.
ghost use Rattle.std.specs.Prelude.{◌≡◌, ◌+◌, ◌-◌, ◌<◌, ◌≤◌, ◌^◌, [], ◌∷◌, Some, length, OnOk, OnErr, MatchResult};
ghost use Rattle.re_outside.specs.Listed.{plain};
ghost use Rattle.re_outside.specs.Outside.{Rose};
ghost use Rattle.re_outside.specs.Plan.{FailsTo};
ghost use Rattle.re_outside.specs.Trace.{with_steps};
ghost use Rattle.re_outside.specs.declared.step.Step.TheVariants as steps;
ghost use Rattle.re_journal.specs.Journals.{calls_after};
ghost use Rattle.re_journal.specs.declared.fault.JournalFault.TheVariants.{Disk as DiskFault};

use crate::{Journal, JournalFault};
use re_outside::Disk;

impl Journal {
    /// Makes one write to a file, and counts it. Where it fails, the journal has stopped.
    pub fn write_file<D: Disk>(
        &mut self,
        disk: &mut D,
        file: u8,
        at: u64,
        bytes: &[u8],
    ) -> Result<(), JournalFault>
        requires { file < 2 }
        ensures fits { OnOk result (at + length bytes.now ≤ 2 ^ 64 - 1) }
        ensures done { D.tells → OnOk result (D.past disk.new ≡ with_steps (D.past disk.old) (steps.Write (D.past disk.old).device file at (plain bytes.now) ∷ [])) }
        ensures failed { D.tells → OnErr result (FailsTo (steps.Write (D.past disk.old).device file at (plain bytes.now)) (D.past disk.old) (D.past disk.new)) }
        ensures journal { MatchResult result (λ _. self.new ≡ record self.old { calls = calls_after 1 self.old.calls }) (λ _. self.new ≡ record self.old { calls = calls_after 1 self.old.calls; stopped = Some (calls_after 1 self.old.calls) }) }
        ensures faults { MatchResult result (λ _. D.faults disk.new ≡ D.faults disk.old) (λ fault. (fault ≡ DiskFault) × Rose (D.faults disk.old) (D.faults disk.new)) }
        ensures device { (D.past disk.new).device ≡ (D.past disk.old).device }
        ensures rest { D.rest disk.new ≡ D.rest disk.old }
    {
        self.calls = self.calls.saturating_add(1);
        match disk.write(file, at, bytes) {
            Ok(()) => Ok(()),
            Err(_) => {
                self.stopped = Some(self.calls);
                Err(JournalFault::Disk)
            }
        }
    }

    /// Makes one cut of a file to this length, and counts it. Where it fails, the journal has stopped.
    pub fn cut_file<D: Disk>(
        &mut self,
        disk: &mut D,
        file: u8,
        size: u64,
    ) -> Result<(), JournalFault>
        requires { file < 2 }
        ensures done { D.tells → OnOk result (D.past disk.new ≡ with_steps (D.past disk.old) (steps.Cut (D.past disk.old).device file size ∷ [])) }
        ensures failed { D.tells → OnErr result (FailsTo (steps.Cut (D.past disk.old).device file size) (D.past disk.old) (D.past disk.new)) }
        ensures journal { MatchResult result (λ _. self.new ≡ record self.old { calls = calls_after 1 self.old.calls }) (λ _. self.new ≡ record self.old { calls = calls_after 1 self.old.calls; stopped = Some (calls_after 1 self.old.calls) }) }
        ensures faults { MatchResult result (λ _. D.faults disk.new ≡ D.faults disk.old) (λ fault. (fault ≡ DiskFault) × Rose (D.faults disk.old) (D.faults disk.new)) }
        ensures device { (D.past disk.new).device ≡ (D.past disk.old).device }
        ensures rest { D.rest disk.new ≡ D.rest disk.old }
    {
        self.calls = self.calls.saturating_add(1);
        match disk.cut(file, size) {
            Ok(()) => Ok(()),
            Err(_) => {
                self.stopped = Some(self.calls);
                Err(JournalFault::Disk)
            }
        }
    }

    /// Makes one sync of a file, and counts it. Where it fails, the journal has stopped.
    pub fn sync_file<D: Disk>(&mut self, disk: &mut D, file: u8) -> Result<(), JournalFault>
        requires { file < 2 }
        ensures done { D.tells → OnOk result (D.past disk.new ≡ with_steps (D.past disk.old) (steps.Sync (D.past disk.old).device file ∷ [])) }
        ensures failed { D.tells → OnErr result (FailsTo (steps.Sync (D.past disk.old).device file) (D.past disk.old) (D.past disk.new)) }
        ensures journal { MatchResult result (λ _. self.new ≡ record self.old { calls = calls_after 1 self.old.calls }) (λ _. self.new ≡ record self.old { calls = calls_after 1 self.old.calls; stopped = Some (calls_after 1 self.old.calls) }) }
        ensures faults { MatchResult result (λ _. D.faults disk.new ≡ D.faults disk.old) (λ fault. (fault ≡ DiskFault) × Rose (D.faults disk.old) (D.faults disk.new)) }
        ensures device { (D.past disk.new).device ≡ (D.past disk.old).device }
        ensures rest { D.rest disk.new ≡ D.rest disk.old }
    {
        self.calls = self.calls.saturating_add(1);
        match disk.sync(file) {
            Ok(()) => Ok(()),
            Err(_) => {
                self.stopped = Some(self.calls);
                Err(JournalFault::Disk)
            }
        }
    }
}
