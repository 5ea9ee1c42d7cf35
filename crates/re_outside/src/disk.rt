//! The two files of one device.
ghost use Rattle.std.specs.Prelude.{◌≡◌, ◌+◌, ◌-◌, ◌<◌, ◌≤◌, ◌^◌, [], ◌∷◌, length, take, drop, min, IfOk, OnOk, OnErr, MatchResult};
ghost use Rattle.re_outside.specs.Listed.{plain};
ghost use Rattle.re_outside.specs.Image.{IsTorn, IsCutShort, IsUnchanged};
ghost use Rattle.re_outside.specs.Trace.{with_steps, content_of};
ghost use Rattle.re_outside.specs.Outside.{Rose};
ghost use Rattle.re_outside.specs.Plan.{FailsOf};

use crate::{Call, Failed, Step};

/// The disk of one device, with the files 0 and 1.
///
/// Contracts see in it the count of its calls that failed, the device's number, a rest that none
/// of its calls changes, and, where it tells them, the steps and with them its files. A call fails
/// only where the count rises in it, and adds no step but its own, which has the device's number.
pub trait Disk {
    ghost use Rattle.std.specs.Prelude.{ℕ};
    ghost use Rattle.re_outside.specs.Trace.{Past, IsCrashImageOf};
    ghost use Rattle.re_outside.specs.Port.{Rest};

    /// Holds where it tells its steps.
    ghost tells: { Type 0 };

    /// Its device, what all files held before the first step, and the steps so far.
    ghost past: { Self → Past };

    /// How many of its calls failed.
    ghost faults: { Self → ℕ };

    /// What belongs to others.
    ghost rest: { Self → Rest };

    /// How many bytes the file has. A refusal changes no file.
    fn size(&mut self, file: u8) -> Result<u64, Failed>
        requires { file < 2 }
        ensures size { tells → IfOk result (λ n. n ≡ length (content_of (past self.old) file)) }
        ensures same { tells → OnOk result (past self.new ≡ past self.old) }
        ensures failed { tells → OnErr result (FailsOf Call.Size file 0 [] IsUnchanged (past self.old) (past self.new)) }
        ensures device { (past self.new).device ≡ (past self.old).device }
        ensures rest { rest self.new ≡ rest self.old }
        ensures faults { MatchResult result (λ _. faults self.new ≡ faults self.old) (λ _. Rose (faults self.old) (faults self.new)) };

    /// Puts the file's bytes from `at` on into the front of `buf`, and answers how many.
    ///
    /// These are as many as there are from `at` on, but at most as `buf` has room for. A refusal
    /// changes no file.
    fn fetch(&mut self, file: u8, at: u64, buf: &mut [u8]) -> Result<usize, Failed>
        requires { file < 2 }
        ensures count { IfOk result (λ n. n ≤ length buf.old) }
        ensures all { tells → IfOk result (λ n. n ≡ min (length buf.old) (length (content_of (past self.old) file) - at)) }
        ensures bytes { tells → IfOk result (λ n. take n buf.new ≡ take n (drop at (content_of (past self.old) file))) }
        ensures same { tells → OnOk result (past self.new ≡ past self.old) }
        ensures failed { tells → OnErr result (FailsOf Call.Fetch file at [] IsUnchanged (past self.old) (past self.new)) }
        ensures device { (past self.new).device ≡ (past self.old).device }
        ensures rest { rest self.new ≡ rest self.old }
        ensures faults { MatchResult result (λ _. faults self.new ≡ faults self.old) (λ _. Rose (faults self.old) (faults self.new)) };

    /// Puts the bytes into the file from `at` on, over those that were there, and zeros into a gap
    /// before them.
    ///
    /// Where `at` and the number of bytes add up to more than 2^64 - 1 it is refused. A refusal may
    /// have changed bytes of its range and of the gap, and never makes the file shorter.
    fn write(&mut self, file: u8, at: u64, bytes: &[u8]) -> Result<(), Failed>
        requires { file < 2 }
        ensures fits { OnOk result (at + length bytes.now ≤ 2 ^ 64 - 1) }
        ensures written { tells → OnOk result (past self.new ≡ with_steps (past self.old) (Step.Write (past self.old).device file at (plain bytes.now) ∷ [])) }
        ensures failed { tells → OnErr result (FailsOf Call.Write file at bytes.now (λ old new. IsTorn (length old) at (length bytes.now) old new) (past self.old) (past self.new)) }
        ensures device { (past self.new).device ≡ (past self.old).device }
        ensures rest { rest self.new ≡ rest self.old }
        ensures faults { MatchResult result (λ _. faults self.new ≡ faults self.old) (λ _. Rose (faults self.old) (faults self.new)) };

    /// Keeps the file's first `length` bytes; a file that has no more stays as it was.
    ///
    /// A refusal leaves a length between the old and the new, and the bytes before it.
    fn cut(&mut self, file: u8, length: u64) -> Result<(), Failed>
        requires { file < 2 }
        ensures cut { tells → OnOk result (past self.new ≡ with_steps (past self.old) (Step.Cut (past self.old).device file length ∷ [])) }
        ensures failed { tells → OnErr result (FailsOf Call.Cut file length [] (IsCutShort length) (past self.old) (past self.new)) }
        ensures device { (past self.new).device ≡ (past self.old).device }
        ensures rest { rest self.new ≡ rest self.old }
        ensures faults { MatchResult result (λ _. faults self.new ≡ faults self.old) (λ _. Rose (faults self.old) (faults self.new)) };

    /// Makes the file outlast a stop as it reads now. A refusal leaves what was read and settles nothing.
    fn sync(&mut self, file: u8) -> Result<(), Failed>
        requires { file < 2 }
        ensures synced { tells → OnOk result (past self.new ≡ with_steps (past self.old) (Step.Sync (past self.old).device file ∷ [])) }
        ensures failed { tells → OnErr result (FailsOf Call.Sync file 0 [] IsUnchanged (past self.old) (past self.new)) }
        ensures device { (past self.new).device ≡ (past self.old).device }
        ensures rest { rest self.new ≡ rest self.old }
        ensures faults { MatchResult result (λ _. faults self.new ≡ faults self.old) (λ _. Rose (faults self.old) (faults self.new)) };

    /// A stop may leave what reads give.
    ghost reads_left: { (disk : Self) (file : ℕ) → tells → IsCrashImageOf (past disk) file (content_of (past disk) file) };
}
