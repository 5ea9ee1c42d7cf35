//! The commit of a record, and what a journal tells of itself.
ghost use Rattle.std.specs.Prelude.{◌≡◌, ◌⊎◌, ◌+◌, ◌-◌, ◌<◌, ◌≤◌, ◌^◌, ◌++◌, [], ◌∷◌, List, ℕ, None, Some, Err, length, IfOk, IfSome, OnOk, OnErr, MatchResult};
ghost use Rattle.re_outside.specs.Frame.{journal_bytes};
ghost use Rattle.re_outside.specs.Listed.{plain};
ghost use Rattle.re_outside.specs.Moment.{Throughout, Leaves};
ghost use Rattle.re_outside.specs.Outside.{Rose};
ghost use Rattle.re_outside.specs.Trace.{Past, with_steps, content_of};
ghost use Rattle.re_journal.specs.Commits.{commit_steps, StopsJournal, StopsInTurn, IsStopOf, IsStopInTurn, HasCause};
ghost use Rattle.re_journal.specs.Journals.{calls_after, frame_of, StandsOn, MayFollow, HasAllOrOneMore, Commits};
ghost use Rattle.re_journal.specs.declared.fault.JournalFault.TheVariants.{Disk as DiskFault, Stopped};

use crate::{Journal, JournalFault};
use re_outside::{Bytes, Disk};
use std::alloc::{AllocError, Global};

/// The frame of a body: its length, the body, and a closed gate, as docs/FORMATS.md has it. The one refusal is want of memory.
pub fn frame(alloc: Global, body: &[u8]) -> Result<Bytes, AllocError>
    requires { length body.now < 2 ^ 32 }
    ensures { IfOk result (λ bytes. bytes ≡ plain (frame_of body.now)) }
{
    let mut bytes = Vec::with_capacity(alloc, body.len() + 5)?;
    bytes.extend_from_slice(&(body.len() as u32).to_be_bytes())?;
    bytes.extend_from_slice(body)?;
    bytes.push(0)?;
    Ok(Bytes::from_vec(bytes))
}

impl Journal {
    /// The number of the call at which it stopped, if it did.
    pub fn stopped(&self) -> Option<u64>
        ensures { result ≡ self.now.stopped }
    {
        self.stopped
    }

    /// How many bytes its journal has: those behind the gate that follows the snapshot, up to its closed gate.
    ///
    /// It has none where that gate is the closed one, and none where its file is blank.
    pub fn bytes(&self) -> u64
        ensures gates { result ≡ self.now.gate - self.now.start - 1 }
        ensures records { (snapshot : List ℕ) (bodies : List (List ℕ)) (past : Past) → StandsOn self.now snapshot bodies past → result ≡ journal_bytes bodies }
    {
        self.gate.saturating_sub(self.start).saturating_sub(1)
    }

    /// Counts its calls from 1 again.
    pub fn count_anew(&mut self)
        ensures { self.new ≡ record self.old { calls = 0 } }
    {
        self.calls = 0;
    }

    /// Commits a record: its frame is written behind the closed gate and synced, and then the gate is opened and synced.
    ///
    /// `framed` is what `frame` gives for a body of 1 to 65,536 bytes. It takes no memory. `Disk` comes where a call failed, and
    /// the journal has then stopped; `Stopped` where it had stopped before, with the number of that call, and then no call is made.
    ///
    /// What is said of the store is said where the journal stands on one, and the frame may follow there: the journal has at most
    /// 65,536 bytes, or its file the last generation.
    pub fn append<D: Disk>(&mut self, disk: &mut D, framed: &[u8]) -> Result<(), JournalFault>
        // The calls, in order, up to the first that failed.
        ensures done { D.tells → OnOk result (D.past disk.new ≡ with_steps (D.past disk.old) (commit_steps (D.past disk.old).device self.old.file self.old.gate framed.now)) }
        ensures failed { D.tells → result ≡ Err DiskFault → StopsJournal (commit_steps (D.past disk.old).device self.old.file self.old.gate framed.now) self.old.calls self.new.stopped (D.past disk.old) (D.past disk.new) }
        ensures cause { HasCause self.old.stopped (D.faults disk.old) (D.faults disk.new) result }

        // A stop at any moment leaves the records that were there, or these and this one whole.
        ensures each_moment { (snapshot : List ℕ) (bodies : List (List ℕ)) (body : List ℕ) → D.tells → StandsOn self.old snapshot bodies (D.past disk.old) → MayFollow snapshot bodies body framed.now → Throughout (D.past disk.old) (D.past disk.new) (Leaves self.old.file (HasAllOrOneMore snapshot bodies body) (D.past disk.old)) }
        ensures reads { (snapshot : List ℕ) (bodies : List (List ℕ)) (body : List ℕ) → D.tells → StandsOn self.old snapshot bodies (D.past disk.old) → MayFollow snapshot bodies body framed.now → HasAllOrOneMore snapshot bodies body (content_of (D.past disk.new) self.old.file) }
        ensures stands { (snapshot : List ℕ) (bodies : List (List ℕ)) (body : List ℕ) → D.tells → OnOk result (StandsOn self.old snapshot bodies (D.past disk.old) → MayFollow snapshot bodies body framed.now → StandsOn self.new snapshot (bodies ++ body ∷ []) (D.past disk.new)) }

        ensures journal { OnOk result (Commits (length framed.now) self.old self.new) }
        ensures stopped_at { result ≡ Err DiskFault → IsStopOf 4 self.old.calls self.new.stopped }
        ensures untouched { IfSome self.old.stopped (λ at. (result ≡ Err (Stopped at)) × (self.new ≡ self.old) × (D.past disk.new ≡ D.past disk.old)) }
        ensures file { self.new.file ≡ self.old.file }
        ensures device { (D.past disk.new).device ≡ (D.past disk.old).device }
        ensures rest { D.rest disk.new ≡ D.rest disk.old }
    {
        if let Some(at) = self.stopped {
            return Err(JournalFault::Stopped { at });
        }
        self.make_calls(disk, framed)?;
        self.gate += framed.len() as u64;
        self.length = self.length.max(self.gate + 1);
        Ok(())
    }

    /// Makes the calls of a commit.
    fn make_calls<D: Disk>(&mut self, disk: &mut D, framed: &[u8]) -> Result<(), JournalFault>
        ensures fits { OnOk result (self.old.gate + 1 + length framed.now ≤ 2 ^ 64 - 1) }
        ensures done { D.tells → OnOk result (D.past disk.new ≡ with_steps (D.past disk.old) (commit_steps (D.past disk.old).device self.old.file self.old.gate framed.now)) }
        ensures failed { D.tells → OnErr result (StopsInTurn (commit_steps (D.past disk.old).device self.old.file self.old.gate framed.now) self.old.calls self.new.stopped (D.past disk.old) (D.past disk.new)) }
        ensures journal { OnOk result (self.new ≡ record self.old { calls = calls_after 4 self.old.calls }) }
        ensures stopped_at { OnErr result (IsStopInTurn 4 self.old.calls self.new.stopped) }
        ensures file { self.new.file ≡ self.old.file }
        ensures faults { MatchResult result (λ _. D.faults disk.new ≡ D.faults disk.old) (λ fault. (fault ≡ DiskFault) × Rose (D.faults disk.old) (D.faults disk.new)) }
        ensures device { (D.past disk.new).device ≡ (D.past disk.old).device }
        ensures rest { D.rest disk.new ≡ D.rest disk.old }
    {
        self.write_file(disk, self.file, self.gate + 1, framed)?;
        self.sync_file(disk, self.file)?;
        self.write_file(disk, self.file, self.gate, &[1])?;
        self.sync_file(disk, self.file)?;
        Ok(())
    }
}
