//! A device as the entries of its store are replayed.
ghost use Rattle.std.specs.Prelude.{◌≡◌, ◌<◌, ◌^◌, true, false, IfOk, OnOk};
ghost use Rattle.re_record.specs.Logs.{IsLoggedOf};
ghost use Rattle.re_record.specs.Restoring.{is_refused, opened_after};
ghost use Rattle.re_restore.specs.Replaying.{IsReplayOf, replayed};
ghost use Rattle.re_restore.specs.declared.entries.EntryFault.TheVariants.{Limit};
ghost use Rattle.re_terms.specs.Admission.{device_count};
ghost use Rattle.re_terms.specs.Programs.{IsProgram};
ghost use Rattle.re_terms.specs.Shapes.{shape_of};
ghost use Rattle.re_terms.specs.WordKinds.{IsStateOf};
ghost use Rattle.re_terms.specs.declared.program.Program.{Program as AProgram};

use crate::entries::{EntryFault, do_entry, put_changes};
use re_replica::Replica;
use re_terms::{Logged, Places, Program, Seq, Shape, State, Word};
use std::alloc::{AllocError, Global};

/// No entry has this number or a greater one.
const NUMBERS: u64 = 1 << 48;

/// A device as far as its store was replayed: the words of vars and folds, the replicated state, and the last entry's number.
#[derive(Drop)]
pub struct Replay {
    words: Seq<Word>,
    places: Places,
    replica: Replica,
    number: u64,
}

impl Replay {
    /// A replay that begins with this state after so many entries. The one refusal is want of memory.
    pub fn of(
        alloc: Global,
        p: &Program,
        shape: Shape,
        device: u8,
        state: State,
        number: u64,
    ) -> Result<Replay, AllocError>
        requires program { IsProgram p.now }
        requires shape { shape ≡ shape_of p.now }
        requires device { device < device_count p.now.decls.items }
        requires state { IsStateOf p.now state }
        requires unreserved { state.words.spare ≡ 0 }
        requires number { number < 2 ^ 48 }
        ensures keeps { IfOk result (λ r. IsReplayOf p.now r) }
        ensures device { IfOk result (λ r. r.replica.device ≡ device) }
        ensures begins { IfOk result (λ r. replayed r ≡ record { state = state; number = number }) }
    {
        let places = Places::of(alloc, p)?;
        Ok(Replay {
            words: state.words,
            places,
            replica: Replica::new(alloc, shape, device, state.rep),
            number,
        })
    }

    /// The state and the number of the last entry that it has come to.
    pub fn into_state(self) -> (State, u64)
        ensures fits { (p : AProgram) → IsReplayOf p self → IsStateOf p result.0 × (result.1 < 2 ^ 48) }
        ensures state { result.0 ≡ (replayed self).state }
        ensures number { result.1 ≡ (replayed self).number }
    {
        let state = State {
            words: self.words,
            rep: self.replica.into_state(),
        };
        (state, self.number)
    }

    /// Replays one entry: its operations or its merge are done, and its changes are put.
    pub fn replay_entry(&mut self, p: &Program, logged: &Logged) -> Result<(), EntryFault>
        requires keeps { IsReplayOf p.now self.old }
        requires entry { IsLoggedOf p.now logged.now }
        ensures keeps { OnOk result (IsReplayOf p.now self.new) }
        ensures device { OnOk result (self.new.replica.device ≡ self.old.replica.device) }
        ensures entry { OnOk result (replayed self.new ≡ opened_after p.now self.old.replica.device logged.now (replayed self.old)) }
        ensures accepted { OnOk result (is_refused p.now self.old.replica.device (replayed self.old) logged.now.entry ≡ false) }
        ensures limit { result ≡ Err Limit → is_refused p.now self.old.replica.device (replayed self.old) logged.now.entry ≡ true }
    {
        let number = self.number + 1;
        if number >= NUMBERS {
            return Err(EntryFault::Limit);
        }
        do_entry(&mut self.replica, &logged.entry)?;
        let changes = logged.changes.as_slice();
        put_changes(&mut self.words, p, self.places.words.as_slice(), changes);
        self.number = number;
        Ok(())
    }
}
