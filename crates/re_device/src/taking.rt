//! Taking an entry: whether the device takes it, what it changes, and its way into memory.
ghost use Rattle.std.specs.Prelude.{◌≡◌, ◌+◌, ◌<◌, ◌≤◌, length, slice_index, unwrap_or, IfOk, OnOk, OnErr, true, false, Some, None, Err, ℕ};
ghost use Rattle.std.specs.List.{All};
ghost use Rattle.re_prop.specs.Caching.{put_all, put_at};
ghost use Rattle.re_record.specs.Logs.{IsTurn};
ghost use Rattle.re_terms.specs.Admission.{IsEntryOf};
ghost use Rattle.re_device.specs.Device.{all_settled, current, limit_against, takes_no_more, with_entry};
ghost use Rattle.re_device.specs.Taking.{IsTakenBy, IsTakingFault, MayBeTaken};

use crate::advance::{advanced, newest, put_rep};
use crate::device::Device;
use crate::fault::DeviceFault;
use re_eval::Steps;
use re_prop::{Cache, propagate};
use re_terms::{Entry, Logged, Places, Put, RState, Seq, State, Word};
use std::alloc::AllocError;
use std::sync::ledger::Ledger;

/// How many entries a device takes.
const ENTRIES: usize = 4096;

/// How many entries may be unsettled.
const UNSETTLED: usize = 8;

/// The greatest number of an entry.
const GREATEST: u64 = (1 << 48) - 1;

/// An entry that a device may take, and all that it does.
#[derive(Drop)]
pub struct Taken {
    pub logged: Logged,
    /// The signals whose words it changes, with the new words.
    pub signals: Seq<Put>,
    /// The replicated state after it, where it is another one.
    pub after: Option<RState>,
    /// How many expressions were evaluated.
    pub evaluated: u32,
}

impl Device {
    /// Refuses where the device has stopped.
    pub(crate) fn check_running(&self) -> Result<(), DeviceFault>
        ensures running { OnOk result (self.now.journal.stopped ≡ None) }
        ensures stopped { (f : DeviceFault) → result ≡ Err f → (at : ℕ) × (self.now.journal.stopped ≡ Some at) × (f ≡ DeviceFault.Stopped at) }
    {
        match self.journal.stopped() {
            Some(at) => Err(DeviceFault::Stopped { at }),
            None => Ok(()),
        }
    }

    /// Refuses where the device takes no more entries.
    pub(crate) fn check_room(&self) -> Result<(), DeviceFault>
        ensures room { OnOk result (takes_no_more self.now.memory ≡ false) }
        ensures full { (f : DeviceFault) → result ≡ Err f → (takes_no_more self.now.memory ≡ true) × (f ≡ DeviceFault.Full) }
    {
        if self.entries.len() >= ENTRIES || self.number >= GREATEST {
            return Err(DeviceFault::Full);
        }
        Ok(())
    }

    /// Refuses where as many entries are unsettled as may be.
    pub(crate) fn check_unsettled(&self) -> Result<(), DeviceFault>
        ensures few { OnOk result (length self.now.memory.unsettled < 8) }
        ensures loose_full { (f : DeviceFault) → result ≡ Err f → (8 ≤ length self.now.memory.unsettled) × (f ≡ DeviceFault.LooseFull) }
    {
        if self.unsettled().len() >= UNSETTLED {
            return Err(DeviceFault::LooseFull);
        }
        Ok(())
    }

    /// Works out what an entry does, and changes nothing. The refusals are those of its limits, and want of memory.
    pub(crate) fn take<L: Ledger>(
        &self,
        entry: Entry,
        steps: &mut Steps<L>,
    ) -> Result<Taken, DeviceFault>
        requires { IsEntryOf self.now.memory.program entry }
        ensures taken { IfOk result (IsTakenBy self.now.memory entry) }
        ensures evaluated { IfOk result (λ taken. steps.new ≡ steps.old + taken.evaluated) }
        ensures limits { OnOk result (limit_against self.now.memory entry ≡ None) }
        ensures refused { (f : DeviceFault) → result ≡ Err f → IsTakingFault f (limit_against self.now.memory entry) }
    {
        let rep = &self.state.rep;
        let after = advanced(self.alloc, &self.shape, self.device, rep, &entry)?;
        let prepared = propagate(
            self.alloc,
            &self.program,
            &self.graph,
            &self.cache,
            &self.state,
            &entry,
            newest(&after, rep),
            steps,
        )?;
        Ok(Taken {
            logged: Logged {
                entry: prepared.entry,
                changes: prepared.changes,
            },
            signals: prepared.signals,
            after,
            evaluated: prepared.evaluated,
        })
    }

    /// Makes room for one entry more. The one refusal is want of memory.
    pub(crate) fn make_room(&mut self) -> Result<(), AllocError>
        ensures room { OnOk result ((self.new ≡ record self.old { room = self.new.room }) × (0 < self.new.room)) }
        ensures refused { OnErr result (self.new ≡ self.old) }
    {
        self.entries.reserve(1)?;
        Ok(())
    }

    /// Takes an entry into memory, for which there is room, and leaves it unsettled. It takes no memory.
    pub(crate) fn enter(&mut self, taken: Taken)
        requires room { 0 < self.old.room }
        requires more { takes_no_more self.old.memory ≡ false }
        requires few { length self.old.memory.unsettled < 8 }
        requires taken { IsTurn taken.logged.entry × MayBeTaken self.old.memory taken }
        ensures memory { self.new.memory ≡ with_entry self.old.memory taken.logged }
        ensures store { (self.new.journal ≡ self.old.journal) × (self.new.generation ≡ self.old.generation) }
    {
        let after = taken.after;
        put_taken(
            &mut self.state,
            &mut self.cache,
            &self.places,
            &taken.logged,
            &taken.signals,
            after,
        );
        self.number += 1;
        self.entries.push(taken.logged).unwrap();
    }

    /// Takes an entry into memory, for which there is room, where the files hold it and all that were unsettled. It takes no memory.
    ///
    /// `rep` is the replicated state after it, where it isn't the one that was settled before.
    pub(crate) fn enter_settled(&mut self, taken: Taken, rep: Option<RState>)
        requires room { 0 < self.old.room }
        requires more { takes_no_more self.old.memory ≡ false }
        requires taken { MayBeTaken self.old.memory taken }
        requires rep { unwrap_or rep self.old.memory.settled.state.rep ≡ unwrap_or taken.after (current self.old.memory).state.rep }
        ensures memory { self.new.memory ≡ all_settled (with_entry self.old.memory taken.logged) }
        ensures store { (self.new.journal ≡ self.old.journal) × (self.new.generation ≡ self.old.generation) }
    {
        let after = taken.after;
        put_taken(
            &mut self.state,
            &mut self.cache,
            &self.places,
            &taken.logged,
            &taken.signals,
            after,
        );
        self.number += 1;
        self.entries.push(taken.logged).unwrap();
        self.settled.settle(
            self.state.words.as_slice(),
            rep,
            self.number,
            self.entries.len(),
        );
    }

    /// Takes down that the files hold all entries. It takes no memory.
    ///
    /// `rep` is the replicated state, where it isn't the one that was settled before.
    pub(crate) fn settle_all(&mut self, rep: Option<RState>)
        requires { unwrap_or rep self.old.memory.settled.state.rep ≡ (current self.old.memory).state.rep }
        ensures memory { self.new.memory ≡ all_settled self.old.memory }
        ensures store { (self.new.journal ≡ self.old.journal) × (self.new.generation ≡ self.old.generation) }
    {
        self.settled.settle(
            self.state.words.as_slice(),
            rep,
            self.number,
            self.entries.len(),
        );
    }
}

/// Puts what an entry changes into a state and into the words of signals.
fn put_taken(
    state: &mut State,
    cache: &mut Cache,
    places: &Places,
    logged: &Logged,
    signals: &Seq<Put>,
    after: Option<RState>,
)
    requires declared { All (λ put. put.id < length places.now.words.items) logged.now.changes.items }
    requires placed { All (λ put. slice_index places.now.words.items put.id < length state.old.words.items) logged.now.changes.items }
    requires signals { All (λ put. put.id < length cache.old) signals.now.items }
    ensures words { state.new.words ≡ record { items = put_at (slice_index places.now.words.items) state.old.words.items logged.now.changes.items; spare = state.old.words.spare } }
    ensures rep { state.new.rep ≡ unwrap_or after state.old.rep }
    ensures cache { cache.new ≡ put_all cache.old signals.now.items }
{
    put_words(
        &mut state.words,
        places.words.as_slice(),
        logged.changes.as_slice(),
    );
    cache.put(signals);
    put_rep(&mut state.rep, after);
}

/// Puts words in the places of their declarations.
fn put_words(words: &mut Seq<Word>, places: &[u16], puts: &[Put])
    requires declared { All (λ put. put.id < length places.now) puts.now }
    requires placed { All (λ put. slice_index places.now put.id < length words.old.items) puts.now }
    ensures { words.new ≡ record { items = put_at (slice_index places.now) words.old.items puts.now; spare = words.old.spare } }
{
    for put in puts {
        words.set(places[put.id as usize] as usize, put.word);
    }
}
