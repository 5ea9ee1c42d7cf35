//! What a device's files hold, and how entries get there.
ghost use Rattle.std.specs.Prelude.{◌≡◌, ◌+◌, ◌<◌, ◌≤◌, ◌^◌, ◌≢◌, ◌++◌, ◌∷◌, [], ℕ, List, Option, length, option_map, unwrap_or, IfOk, OnOk, OnErr, Err, true, false, None, Some};
ghost use Rattle.re_outside.specs.Moment.{Throughout};
ghost use Rattle.re_record.specs.Restoring.{after_all};
ghost use Rattle.re_terms.specs.Listed.{plain};
ghost use Rattle.re_terms.specs.declared.entry.Logged.{Logged as LoggedEntry};
ghost use Rattle.re_journal.specs.Commits.{HasCause, StopsJournal};
ghost use Rattle.re_journal.specs.Journals.{calls_after};
ghost use Rattle.re_journal.specs.declared.fault.JournalFault.{JournalFault as TheJournalFault};
ghost use Rattle.re_journal.specs.declared.fault.JournalFault.TheVariants.{Disk as JournalDisk, Stopped as JournalStopped};
ghost use Rattle.re_outside.specs.Trace.{with_steps};
ghost use Rattle.re_device.specs.Committing.{HasDiskCause, HasSettlingSteps, due_snapshot, framed_record, is_due, next_generation, record_reads_open, settling_calls, settling_steps};
ghost use Rattle.re_device.specs.Device.{all_settled, current, logged, takes_no_more, with_entry};
ghost use Rattle.re_device.specs.Ready.{IsFrameOf, IsReady, MaySettle};
ghost use Rattle.re_device.specs.Standing.{LeavesEither, ReadsBy, StandsAt, StandsSettled};
ghost use Rattle.re_device.specs.Taking.{IsCommitFault, MayBeTaken};

use crate::device::Device;
use crate::fault::{DeviceFault, Done};
use crate::taking::Taken;
use re_compact::commit_record;
use re_journal::{JournalFault, frame};
use re_outbox::Outbox;
use re_outside::{Bytes, Disk};
use re_record::{put_record, put_record_with, put_snapshot};
use re_terms::{Logged, RState, Seq, State, TryCopy, Word};
use std::alloc::{AllocError, Global};

/// How many bytes a journal has at most where a further record is committed to it, but for the last generation.
const JOURNAL: u64 = 65_536;

/// The last generation.
const GENERATIONS: u64 = 1 << 62;

/// What the files of a device hold: a state, with its replicated part in the outbox, and entries.
#[derive(Drop)]
pub struct Settled {
    /// The words of vars and folds, in order of declaration.
    pub words: Seq<Word>,
    pub outbox: Outbox,
    /// The number of the last entry.
    pub number: u64,
    /// How many of the entries since the opening they hold.
    pub count: usize,
}

impl Settled {
    /// What the files hold at the opening. The one refusal is want of memory.
    pub fn of(alloc: Global, state: &State, number: u64) -> Result<Settled, AllocError>
        ensures { IfOk result (λ s. s ≡ record { words = plain state.now.words.items; outbox = state.now.rep; number = number; count = 0 }) }
    {
        let words = Seq::from_vec(state.words.as_slice().to_vec(alloc)?);
        Ok(Settled {
            words,
            outbox: Outbox::new(alloc, state.rep.copy(alloc)?),
            number,
            count: 0,
        })
    }

    /// Takes down what the files hold now: these words, this replicated state, where it is another one, and entries up to
    /// this number, so many since the opening.
    pub fn settle(&mut self, words: &[Word], rep: Option<RState>, number: u64, count: usize)
        requires { length words.now ≡ length self.old.words.items }
        ensures { self.new ≡ record { words = record { items = words.now; spare = self.old.words.spare }; outbox = unwrap_or rep self.old.outbox; number = number; count = count } }
    {
        put_all_words(&mut self.words, words);
        if let Some(state) = rep {
            self.outbox.settled(state);
        }
        self.number = number;
        self.count = count;
    }
}

/// Puts words in the place of as many others.
fn put_all_words(words: &mut Seq<Word>, new: &[Word])
    requires { length new.now ≡ length words.old.items }
    ensures { words.new ≡ record { items = new.now; spare = words.old.spare } }
{
    for (i, word) in new.iter().enumerate() {
        words.set(i, *word);
    }
}

/// What is written when entries are settled, and what is kept then.
#[derive(Drop)]
pub struct Ready {
    /// The frame of the record.
    pub record: Bytes,
    /// The frame of a new snapshot, where one is due.
    pub snapshot: Option<Bytes>,
    /// A copy of the replicated state, where it isn't the one that is settled.
    pub rep: Option<RState>,
}

impl Device {
    /// Whether a new snapshot is due.
    fn is_due(&self) -> bool
        ensures { result ≡ is_due self.now }
    {
        self.journal.bytes() > JOURNAL && self.generation < GENERATIONS
    }

    /// The frame of the snapshot that is due, where one is. The one refusal is want of memory.
    fn due_snapshot(&self) -> Result<Option<Bytes>, AllocError>
        ensures { IfOk result (λ due. IsFrameOf due (due_snapshot self.now)) }
    {
        if !self.is_due() {
            return Ok(None);
        }
        let state = State {
            words: self.settled.words.copy(self.alloc)?,
            rep: self.settled.outbox.state().copy(self.alloc)?,
        };
        let snapshot = put_snapshot(
            self.alloc,
            &self.program,
            &self.shape,
            self.device,
            self.generation + 1,
            self.settled.number,
            &state,
        )?;
        Ok(Some(frame(self.alloc, snapshot.as_slice())?))
    }

    /// Whether no entry is in memory alone.
    pub(crate) fn is_settled(&self) -> bool
        ensures settled { result ≡ true → self.now.memory.unsettled ≡ [] }
        ensures unsettled { result ≡ false → self.now.memory.unsettled ≢ [] }
    {
        self.unsettled().is_empty()
    }

    /// The entries that are in memory alone.
    pub(crate) fn unsettled(&self) -> &[Logged]
        ensures { result.now ≡ self.now.memory.unsettled }
    {
        &self.entries.as_slice()[self.settled.count..]
    }

    /// What is written and kept where this entry is settled, behind all that are unsettled. The one refusal is want of memory.
    fn ready_with(&self, taken: &Taken) -> Result<Ready, AllocError>
        requires { MayBeTaken self.now.memory taken.now }
        ensures settles { OnOk result (takes_no_more self.now.memory ≡ false → MaySettle self.now.memory (self.now.memory.unsettled ++ taken.now.logged ∷ [])) }
        ensures ready { IfOk result (IsReady self.now (self.now.memory.unsettled ++ taken.now.logged ∷ [])) }
        ensures rep { IfOk result (λ ready. unwrap_or ready.rep self.now.memory.settled.state.rep ≡ unwrap_or taken.now.after (current self.now.memory).state.rep) }
    {
        let unsettled = self.unsettled();
        let body = put_record_with(self.alloc, unsettled, &taken.logged, &self.shape)?;
        let rep = match &taken.after {
            Some(after) => Some(after.copy(self.alloc)?),
            None => self.unsettled_rep()?,
        };
        Ok(Ready {
            record: frame(self.alloc, body.as_slice())?,
            snapshot: self.due_snapshot()?,
            rep,
        })
    }

    /// What is written and kept where the unsettled entries are settled, of which there is one. The one refusal is want of memory.
    pub(crate) fn ready_unsettled(&self) -> Result<Ready, AllocError>
        requires { self.now.memory.unsettled ≢ [] }
        ensures settles { OnOk result (MaySettle self.now.memory self.now.memory.unsettled) }
        ensures ready { IfOk result (IsReady self.now self.now.memory.unsettled) }
        ensures rep { IfOk result (λ ready. unwrap_or ready.rep self.now.memory.settled.state.rep ≡ (current self.now.memory).state.rep) }
    {
        let body = put_record(self.alloc, self.unsettled(), &self.shape)?;
        Ok(Ready {
            record: frame(self.alloc, body.as_slice())?,
            snapshot: self.due_snapshot()?,
            rep: self.unsettled_rep()?,
        })
    }

    /// A copy of the replicated state, where entries are unsettled. The one refusal is want of memory.
    fn unsettled_rep(&self) -> Result<Option<RState>, AllocError>
        ensures { IfOk result (λ rep. unwrap_or rep self.now.memory.settled.state.rep ≡ (current self.now.memory).state.rep) }
    {
        if self.settled.count == self.entries.len() {
            return Ok(None);
        }
        Ok(Some(self.state.rep.copy(self.alloc)?))
    }

    /// Makes the calls by which these entries are settled, and changes nothing else in memory.
    pub(crate) fn write_store<D: Disk>(
        &mut self,
        disk: &mut D,
        ready: &Ready,
    ) -> Result<(), JournalFault>
        requires { (entries : List LoggedEntry) × IsReady self.old entries ready.now }
        ensures memory { (self.new.memory ≡ self.old.memory) × (self.new.room ≡ self.old.room) }
        ensures generation { OnOk result (self.new.generation ≡ next_generation self.old) }
        ensures runs { OnOk result (self.new.journal.stopped ≡ self.old.journal.stopped) }
        ensures calls { OnOk result (self.new.journal.calls ≡ calls_after (settling_calls self.old) self.old.journal.calls) }
        ensures done { (entries : List LoggedEntry) → D.tells → IsReady self.old entries ready.now → OnOk result (D.past disk.new ≡ with_steps (D.past disk.old) (settling_steps (D.past disk.old).device self.old entries)) }
        ensures failed { (entries : List LoggedEntry) → D.tells → IsReady self.old entries ready.now → result ≡ Err JournalDisk → StopsJournal (settling_steps (D.past disk.old).device self.old entries) self.old.journal.calls self.new.journal.stopped (D.past disk.old) (D.past disk.new) }
        ensures cause { HasCause self.old.journal.stopped (D.faults disk.old) (D.faults disk.new) result }
        ensures stops { result ≡ Err JournalDisk → self.new.journal.stopped ≢ None }
        ensures each_moment { (entries : List LoggedEntry) → D.tells → StandsSettled self.old (D.past disk.old) → IsReady self.old entries ready.now → MaySettle self.old.memory entries → Throughout (D.past disk.old) (D.past disk.new) (LeavesEither self.old.memory (after_all self.old.memory.program self.old.memory.device entries self.old.memory.settled) (D.past disk.old)) }
        ensures reads { (entries : List LoggedEntry) → D.tells → StandsSettled self.old (D.past disk.old) → IsReady self.old entries ready.now → MaySettle self.old.memory entries → ReadsBy self.old.memory (after_all self.old.memory.program self.old.memory.device entries self.old.memory.settled) (record_reads_open self.old (D.past disk.old) (D.past disk.new)) (D.past disk.new) }
        ensures stands { (entries : List LoggedEntry) → D.tells → OnOk result (StandsSettled self.old (D.past disk.old) → IsReady self.old entries ready.now → MaySettle self.old.memory entries → StandsAt self.old.memory (after_all self.old.memory.program self.old.memory.device entries self.old.memory.settled) self.new.generation self.new.journal (D.past disk.new)) }
        ensures device { (D.past disk.new).device ≡ (D.past disk.old).device }
        ensures rest { D.rest disk.new ≡ D.rest disk.old }
    {
        let record = ready.record.as_slice();
        match &ready.snapshot {
            Some(snapshot) => {
                commit_record(&mut self.journal, disk, Some(snapshot.as_slice()), record)?;
                self.generation += 1;
                Ok(())
            }
            None => commit_record(&mut self.journal, disk, None, record),
        }
    }

    /// Settles an entry with all that are unsettled, and takes it into memory then.
    pub(crate) fn commit<D: Disk>(
        &mut self,
        disk: &mut D,
        taken: Taken,
    ) -> Result<Done, DeviceFault>
        requires running { self.old.journal.stopped ≡ None }
        requires more { takes_no_more self.old.memory ≡ false }
        requires taken { MayBeTaken self.old.memory taken }
        ensures memory { OnOk result (self.new.memory ≡ all_settled (with_entry self.old.memory taken.logged)) }
        ensures runs { OnOk result (self.new.journal.stopped ≡ None) }
        ensures calls { OnOk result (self.new.journal.calls ≡ calls_after (settling_calls self.old) self.old.journal.calls) }
        ensures done { IfOk result (λ done. (done.number ≡ (current self.old.memory).number + 1) × (done.evaluated ≡ taken.evaluated)) }
        ensures cause { HasDiskCause (D.faults disk.old) (D.faults disk.new) result }
        ensures refused { (f : DeviceFault) → result ≡ Err f → self.new.memory ≡ self.old.memory }
        ensures unchanged { (f : DeviceFault) → result ≡ Err f → f ≢ DeviceFault.Disk → self.new ≡ self.old }
        ensures only { (f : DeviceFault) → result ≡ Err f → IsCommitFault f }
        ensures stops { result ≡ Err DeviceFault.Disk → self.new.journal.stopped ≢ None }
        ensures steps { D.tells → HasSettlingSteps self.old (self.old.memory.unsettled ++ taken.logged ∷ []) self.new.journal.stopped (D.past disk.old) (D.past disk.new) result }
        ensures each_moment { D.tells → StandsSettled self.old (D.past disk.old) → Throughout (D.past disk.old) (D.past disk.new) (LeavesEither self.old.memory (current (with_entry self.old.memory taken.logged)) (D.past disk.old)) }
        ensures reads { D.tells → StandsSettled self.old (D.past disk.old) → ReadsBy self.old.memory (current (with_entry self.old.memory taken.logged)) (record_reads_open self.old (D.past disk.old) (D.past disk.new)) (D.past disk.new) }
        ensures stands { D.tells → OnOk result (StandsSettled self.old (D.past disk.old) → StandsSettled self.new (D.past disk.new)) }
        ensures device { (D.past disk.new).device ≡ (D.past disk.old).device }
        ensures rest { D.rest disk.new ≡ D.rest disk.old }
    {
        let ready = self.ready_with(&taken)?;
        self.make_room()?;
        self.write_store(disk, &ready)?;
        let evaluated = taken.evaluated;
        self.enter_settled(taken, ready.rep);
        Ok(Done {
            number: self.number(),
            evaluated,
        })
    }
}
