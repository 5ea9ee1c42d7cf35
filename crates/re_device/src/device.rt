//! A device of a program, with its store.
ghost use Rattle.std.specs.Prelude.{◌≡◌, ◌≢◌, ◌+◌, ◌<◌, ◌≤◌, ◌^◌, ◌↔◌, ◌++◌, ◌∷◌, [], ℕ, List, length, nat_le, IfOk, OnOk, true, false, None, Some, Err};
ghost use Rattle.re_journal.specs.Journals.{calls_after};
ghost use Rattle.re_outside.specs.Frame.{IsGeneration};
ghost use Rattle.re_outside.specs.Moment.{Throughout};
ghost use Rattle.re_print.specs.Canonical.{program_text};
ghost use Rattle.re_prop.specs.Caching.{signal_words};
ghost use Rattle.re_terms.specs.Admission.{IsAdmitted, device_count};
ghost use Rattle.re_terms.specs.Dependencies.{graph_of};
ghost use Rattle.re_terms.specs.Limits.{OperationFault};
ghost use Rattle.re_terms.specs.Programs.{IsProgram};
ghost use Rattle.re_terms.specs.Shapes.{FitsShape, shape_of};
ghost use Rattle.re_terms.specs.Views.{view_of};
ghost use Rattle.re_terms.specs.WordKinds.{IsStateOf};
ghost use Rattle.re_terms.specs.declared.command.Command.TheVariants as command;
ghost use Rattle.re_device.specs.Causes.{IsCausedBy, entry_refusal, stop_refusal, unsettled_refusal};
ghost use Rattle.re_device.specs.Committing.{HasDiskCause, HasSettlingSteps, record_reads_open, settling_calls};
ghost use Rattle.re_device.specs.Device.{all_settled, current, limit_against, logged, opened_at, takes_no_more, with_entry};
ghost use Rattle.re_device.specs.Refusals.{fault_of_limit};
ghost use Rattle.re_device.specs.Taking.{IsSettlingFault};
ghost use Rattle.re_device.specs.Standing.{LeavesEither, ReadsBy, StandsSettled};
ghost use Rattle.re_device.specs.Stepping.{IsPacketOf, StepsTo, StepsWhere, applied_as, entered_as, fared_as, settled_as};

use crate::fault::{DeviceFault, Done};
use crate::store::Settled;
use re_eval::Steps;
use re_graph::Graph;
use re_journal::Journal;
use re_outbox::Outbox;
use re_outside::Disk;
use re_prop::Cache;
use re_terms::{Admitted, Entry, Logged, Places, Program, RState, Seq, Shape, State, TryCopy};
use std::alloc::{AllocError, Global};
use std::marker::Model;
use std::sync::ledger::Ledger;

/// One device of a program: its state, the entries that it took since it was opened, and the store that keeps them.
///
/// An entry is settled once its files hold it, and unsettled while it is in memory alone. Beside its state the device keeps what can be
/// worked out from it and from the program: the dependency graph, the shape of the replicated state, the places of the cells, and
/// the words of the signals. docs/SESSION.md has the rules.
#[derive(Drop)]
pub struct Device {
    pub(crate) alloc: Global,
    pub(crate) program: Program,
    pub(crate) graph: Graph,
    pub(crate) shape: Shape,
    pub(crate) places: Places,
    pub(crate) device: u8,
    pub(crate) state: State,
    pub(crate) cache: Cache,
    pub(crate) number: u64,
    pub(crate) entries: Seq<Logged>,
    pub(crate) settled: Settled,
    pub(crate) generation: u64,
    pub(crate) journal: Journal,
}

impl Model for Device {
    ghost use Rattle.std.specs.Coded.{codes};
    ghost use Rattle.re_terms.specs.contracts.expr.Expr as expr;
    ghost use Rattle.re_device.specs.Device.{DeviceState};

    ghost Value = { DeviceState };

    ghost coded = { Prim.hlevel (codes, expr.the_row.coded) };

    ghost use Rattle.re_device.specs.Keeping.{IsKept, seen_of};

    ghost view = { seen_of };

    ghost invariant = { IsKept };
}

impl Device {
    /// The device with this place among the program's devices, as its files were opened: at this state, entry number and generation,
    /// with the journal that stands there, and the words of the signals in that state. The one refusal is want of memory.
    ///
    /// The conditions are that the program has the device and a canonical text of at most 65,536 bytes, that the graph is the
    /// program's and the cache the state's, that the number is below 2^48, and the generation from 1 to 2^62.
    pub fn new(
        alloc: Global,
        p: Program,
        g: Graph,
        device: u8,
        state: State,
        number: u64,
        generation: u64,
        journal: Journal,
        cache: Cache,
    ) -> Result<Device, AllocError>
        requires is_program { IsProgram p }
        requires text { length (program_text p) ≤ 65536 }
        requires graph { g ≡ graph_of p.decls.items }
        requires device { device < device_count p.decls.items }
        requires state { IsStateOf p state }
        requires number { number < 2 ^ 48 }
        requires generation { IsGeneration generation }
        requires cache { cache ≡ signal_words p state.words.items (view_of state.rep) }
        ensures { IfOk result (λ d. d ≡ record { memory = opened_at p device state number; room = 0; generation = generation; journal = journal }) }
    {
        let shape = Shape::of(alloc, &p)?;
        let places = Places::of(alloc, &p)?;
        let settled = Settled::of(alloc, &state, number)?;
        Ok(Device {
            alloc,
            program: p,
            graph: g,
            shape,
            places,
            device,
            state,
            cache,
            number,
            entries: Seq::new(alloc),
            settled,
            generation,
            journal,
        })
    }

    /// Takes a turn that the program allows, as one entry, and settles it with all that are unsettled, in one record. Its operations
    /// are done in listed order, each with the device's next dot.
    ///
    /// `Stopped` comes exactly where a call of the disk failed since the device was opened, with its number; `Full` exactly where the device took 4,096
    /// entries since then, or its last one has the number 2^48 - 1; then the first operation that is refused decides, in the state
    /// after those before it: `DotsSpent` where its dot would have the number 2^48 or its write the stamp 2^52, else `SetFull` where
    /// all sets together would have more than 1,024 pairs, else `CounterFull` where the device's total would pass 2^63 - 1. `Disk` comes
    /// exactly where the disk failed in this call. `LooseFull` never comes.
    ///
    /// All memory is taken before the first write. A refused turn changes nothing, but for `Disk`: then the memory is as before, the
    /// device has stopped, and its files hold all of the record's entries or none.
    pub fn turn<D: Disk, L: Ledger>(
        &mut self,
        disk: &mut D,
        turn: Admitted,
        steps: &mut Steps<L>,
    ) -> Result<Done, DeviceFault>
        requires { IsAdmitted self.old.memory.program turn.turn }
        ensures memory { OnOk result (self.new.memory ≡ all_settled (with_entry self.old.memory (logged self.old.memory (Entry.Turn turn.turn)))) }
        ensures number { IfOk result (λ done. done.number ≡ (current self.old.memory).number + 1) }
        ensures evaluated { IfOk result (λ done. steps.new ≡ steps.old + done.evaluated) }
        ensures runs { OnOk result (self.new.journal.stopped ≡ None) }

        // It is one step of each world whose device this is.
        ensures world { StepsTo self.old self.new (command.Turn self.old.memory.device turn) (fared_as self.new.journal.stopped (record_reads_open self.old (D.past disk.old) (D.past disk.new)) result) (entered_as result) }

        // When each refusal comes, and that nothing has changed then.
        ensures caused { IsCausedBy (entry_refusal self.old (Entry.Turn turn.turn)) (entered_as result) }
        ensures running { OnOk result (self.old.journal.stopped ≡ None) }
        ensures stopped { (at : ℕ) → (result ≡ Err (DeviceFault.Stopped at)) ↔ (self.old.journal.stopped ≡ Some at) }
        ensures full { (result ≡ Err DeviceFault.Full) ↔ ((self.old.journal.stopped ≡ None) × (takes_no_more self.old.memory ≡ true)) }
        ensures room { OnOk result (takes_no_more self.old.memory ≡ false) }
        ensures limits { OnOk result (limit_against self.old.memory (Entry.Turn turn.turn) ≡ None) }
        ensures limit { (f : OperationFault) → result ≡ Err (fault_of_limit f) → (self.old.journal.stopped ≡ None) × (takes_no_more self.old.memory ≡ false) × (limit_against self.old.memory (Entry.Turn turn.turn) ≡ Some f) }
        ensures never { result ≡ Err DeviceFault.LooseFull → ⊥ }
        ensures cause { HasDiskCause (D.faults disk.old) (D.faults disk.new) result }
        ensures refused { (f : DeviceFault) → result ≡ Err f → self.new.memory ≡ self.old.memory }
        ensures unchanged { (f : DeviceFault) → result ≡ Err f → f ≢ DeviceFault.Disk → self.new ≡ self.old }
        ensures stops { result ≡ Err DeviceFault.Disk → self.new.journal.stopped ≢ None }

        // The calls of the disk, in order, up to the first that failed.
        ensures steps { D.tells → HasSettlingSteps self.old (self.old.memory.unsettled ++ logged self.old.memory (Entry.Turn turn.turn) ∷ []) self.new.journal.stopped (D.past disk.old) (D.past disk.new) result }

        // How many calls the device has made since it was opened, by which a failed one is numbered.
        ensures calls { OnOk result (self.new.journal.calls ≡ calls_after (settling_calls self.old) self.old.journal.calls) }

        // A stop at any moment leaves all that was settled, with the entries of the record whole or with none of them.
        ensures each_moment { D.tells → StandsSettled self.old (D.past disk.old) → Throughout (D.past disk.old) (D.past disk.new) (LeavesEither self.old.memory (current (with_entry self.old.memory (logged self.old.memory (Entry.Turn turn.turn)))) (D.past disk.old)) }

        // Whatever failed, the files read as with these entries where the record's gate reads as open, and else as before: so where no call
        // was made, or one of those failed that lay a due snapshot and open its gate.
        ensures reads { D.tells → StandsSettled self.old (D.past disk.old) → ReadsBy self.old.memory (current (with_entry self.old.memory (logged self.old.memory (Entry.Turn turn.turn)))) (record_reads_open self.old (D.past disk.old) (D.past disk.new)) (D.past disk.new) }

        // After Ok the journal stands on what is then settled.
        ensures stands { D.tells → OnOk result (StandsSettled self.old (D.past disk.old) → StandsSettled self.new (D.past disk.new)) }
        ensures device { (D.past disk.new).device ≡ (D.past disk.old).device }
        ensures rest { D.rest disk.new ≡ D.rest disk.old }
    {
        self.check_running()?;
        self.check_room()?;
        let taken = self.take(Entry::Turn(turn.turn), steps)?;
        self.commit(disk, taken)
    }

    /// Takes in a replicated state, as one entry, and settles it with all entries that are unsettled, in one record.
    ///
    /// The condition is that the state fits the program's shape. `SetFull` comes only where all sets of the joined states together
    /// have more than 1,024 pairs. `CounterFull`, `DotsSpent` and `LooseFull` never come; all else is as with a turn.
    pub fn merge<D: Disk, L: Ledger>(
        &mut self,
        disk: &mut D,
        state: RState,
        steps: &mut Steps<L>,
    ) -> Result<Done, DeviceFault>
        requires { FitsShape (shape_of self.old.memory.program) state }
        ensures memory { OnOk result (self.new.memory ≡ all_settled (with_entry self.old.memory (logged self.old.memory (Entry.Merge state)))) }
        ensures number { IfOk result (λ done. done.number ≡ (current self.old.memory).number + 1) }
        ensures evaluated { IfOk result (λ done. steps.new ≡ steps.old + done.evaluated) }
        ensures runs { OnOk result (self.new.journal.stopped ≡ None) }

        // It is one step of each world whose device this is, and which has a packet that the state stands for.
        ensures world { (k : ℕ) → StepsWhere (IsPacketOf self.old k state) self.old self.new (command.Deliver k self.old.memory.device) (fared_as self.new.journal.stopped (record_reads_open self.old (D.past disk.old) (D.past disk.new)) result) (entered_as result) }

        // When each refusal comes, and that nothing has changed then.
        ensures caused { IsCausedBy (entry_refusal self.old (Entry.Merge state)) (entered_as result) }
        ensures running { OnOk result (self.old.journal.stopped ≡ None) }
        ensures stopped { (at : ℕ) → (result ≡ Err (DeviceFault.Stopped at)) ↔ (self.old.journal.stopped ≡ Some at) }
        ensures full { (result ≡ Err DeviceFault.Full) ↔ ((self.old.journal.stopped ≡ None) × (takes_no_more self.old.memory ≡ true)) }
        ensures room { OnOk result (takes_no_more self.old.memory ≡ false) }
        ensures limits { OnOk result (limit_against self.old.memory (Entry.Merge state) ≡ None) }
        ensures limit { (f : OperationFault) → result ≡ Err (fault_of_limit f) → (self.old.journal.stopped ≡ None) × (takes_no_more self.old.memory ≡ false) × (limit_against self.old.memory (Entry.Merge state) ≡ Some f) }
        ensures never { (result ≡ Err DeviceFault.LooseFull → ⊥) × (result ≡ Err DeviceFault.CounterFull → ⊥) × (result ≡ Err DeviceFault.DotsSpent → ⊥) }
        ensures cause { HasDiskCause (D.faults disk.old) (D.faults disk.new) result }
        ensures refused { (f : DeviceFault) → result ≡ Err f → self.new.memory ≡ self.old.memory }
        ensures unchanged { (f : DeviceFault) → result ≡ Err f → f ≢ DeviceFault.Disk → self.new ≡ self.old }
        ensures stops { result ≡ Err DeviceFault.Disk → self.new.journal.stopped ≢ None }

        // The calls of the disk, in order, up to the first that failed.
        ensures steps { D.tells → HasSettlingSteps self.old (self.old.memory.unsettled ++ logged self.old.memory (Entry.Merge state) ∷ []) self.new.journal.stopped (D.past disk.old) (D.past disk.new) result }

        // How many calls the device has made since it was opened, by which a failed one is numbered.
        ensures calls { OnOk result (self.new.journal.calls ≡ calls_after (settling_calls self.old) self.old.journal.calls) }

        // A stop at any moment leaves all that was settled, with the entries of the record whole or with none of them.
        ensures each_moment { D.tells → StandsSettled self.old (D.past disk.old) → Throughout (D.past disk.old) (D.past disk.new) (LeavesEither self.old.memory (current (with_entry self.old.memory (logged self.old.memory (Entry.Merge state)))) (D.past disk.old)) }

        // Whatever failed, the files read as with these entries where the record's gate reads as open, and else as before: so where no call
        // was made, or one of those failed that lay a due snapshot and open its gate.
        ensures reads { D.tells → StandsSettled self.old (D.past disk.old) → ReadsBy self.old.memory (current (with_entry self.old.memory (logged self.old.memory (Entry.Merge state)))) (record_reads_open self.old (D.past disk.old) (D.past disk.new)) (D.past disk.new) }

        // After Ok the journal stands on what is then settled.
        ensures stands { D.tells → OnOk result (StandsSettled self.old (D.past disk.old) → StandsSettled self.new (D.past disk.new)) }
        ensures device { (D.past disk.new).device ≡ (D.past disk.old).device }
        ensures rest { D.rest disk.new ≡ D.rest disk.old }
    {
        self.check_running()?;
        self.check_room()?;
        let taken = self.take(Entry::Merge(state), steps)?;
        self.commit(disk, taken)
    }

    /// Takes a turn that the program allows, as one entry, in memory alone: it is unsettled, and answers with its number.
    ///
    /// Beside the refusals of a turn, `LooseFull` comes exactly where the device isn't stopped and takes more entries, and 8 are
    /// unsettled. `Disk` never comes: no call of a disk is made. A refused turn changes nothing.
    pub fn lazy<L: Ledger>(
        &mut self,
        turn: Admitted,
        steps: &mut Steps<L>,
    ) -> Result<u64, DeviceFault>
        requires { IsAdmitted self.old.memory.program turn.turn }
        ensures memory { OnOk result (self.new.memory ≡ with_entry self.old.memory (logged self.old.memory (Entry.Turn turn.turn))) }
        ensures number { IfOk result (λ number. number ≡ (current self.old.memory).number + 1) }
        ensures store { (self.new.journal ≡ self.old.journal) × (self.new.generation ≡ self.old.generation) }

        // It is one step of each world whose device this is.
        ensures world { StepsTo self.old self.new (command.Lazy self.old.memory.device turn) (fared_as self.new.journal.stopped false result) (applied_as result) }

        // When each refusal comes, and that nothing has changed then.
        ensures caused { IsCausedBy (unsettled_refusal self.old (Entry.Turn turn.turn)) (applied_as result) }
        ensures running { OnOk result (self.old.journal.stopped ≡ None) }
        ensures stopped { (at : ℕ) → (result ≡ Err (DeviceFault.Stopped at)) ↔ (self.old.journal.stopped ≡ Some at) }
        ensures full { (result ≡ Err DeviceFault.Full) ↔ ((self.old.journal.stopped ≡ None) × (takes_no_more self.old.memory ≡ true)) }
        ensures room { OnOk result (takes_no_more self.old.memory ≡ false) }
        ensures loose_full { (result ≡ Err DeviceFault.LooseFull) ↔ ((self.old.journal.stopped ≡ None) × (takes_no_more self.old.memory ≡ false) × (nat_le 8 (length self.old.memory.unsettled) ≡ true)) }
        ensures few { OnOk result (length self.old.memory.unsettled < 8) }
        ensures limits { OnOk result (limit_against self.old.memory (Entry.Turn turn.turn) ≡ None) }
        ensures limit { (f : OperationFault) → result ≡ Err (fault_of_limit f) → (self.old.journal.stopped ≡ None) × (takes_no_more self.old.memory ≡ false) × (length self.old.memory.unsettled < 8) × (limit_against self.old.memory (Entry.Turn turn.turn) ≡ Some f) }
        ensures never { result ≡ Err DeviceFault.Disk → ⊥ }
        ensures unchanged { (f : DeviceFault) → result ≡ Err f → self.new ≡ self.old }
    {
        self.check_running()?;
        self.check_room()?;
        self.check_unsettled()?;
        let taken = self.take(Entry::Turn(turn.turn), steps)?;
        self.make_room()?;
        self.enter(taken);
        Ok(self.number())
    }

    /// Settles all entries that are unsettled, in one record, and answers the number of the last entry. Where none is unsettled no
    /// call of the disk is made.
    ///
    /// The refusals are `Stopped` and `Disk`, as with a turn, and want of memory.
    pub fn settle<D: Disk>(&mut self, disk: &mut D) -> Result<u64, DeviceFault>
        ensures memory { OnOk result (self.new.memory ≡ all_settled self.old.memory) }
        ensures number { IfOk result (λ number. number ≡ (current self.old.memory).number) }
        ensures runs { OnOk result (self.new.journal.stopped ≡ None) }

        // It is one step of each world whose device this is.
        ensures world { StepsTo self.old self.new (command.Settle self.old.memory.device) (fared_as self.new.journal.stopped (record_reads_open self.old (D.past disk.old) (D.past disk.new)) result) (settled_as result) }

        // When each refusal comes, and that nothing has changed then.
        ensures caused { IsCausedBy (stop_refusal self.old) (settled_as result) }
        ensures running { OnOk result (self.old.journal.stopped ≡ None) }
        ensures stopped { (at : ℕ) → (result ≡ Err (DeviceFault.Stopped at)) ↔ (self.old.journal.stopped ≡ Some at) }
        ensures only { (f : DeviceFault) → result ≡ Err f → IsSettlingFault f }
        ensures none { self.old.memory.unsettled ≡ [] → (self.new ≡ self.old) × (D.past disk.new ≡ D.past disk.old) }
        ensures cause { HasDiskCause (D.faults disk.old) (D.faults disk.new) result }
        ensures refused { (f : DeviceFault) → result ≡ Err f → self.new.memory ≡ self.old.memory }
        ensures unchanged { (f : DeviceFault) → result ≡ Err f → f ≢ DeviceFault.Disk → self.new ≡ self.old }
        ensures stops { result ≡ Err DeviceFault.Disk → self.new.journal.stopped ≢ None }

        // The calls of the disk, in order, up to the first that failed; where nothing is unsettled `none` says that no call is made.
        ensures steps { D.tells → self.old.memory.unsettled ≢ [] → HasSettlingSteps self.old self.old.memory.unsettled self.new.journal.stopped (D.past disk.old) (D.past disk.new) result }

        // How many calls the device has made since it was opened, by which a failed one is numbered.
        ensures calls { self.old.memory.unsettled ≢ [] → OnOk result (self.new.journal.calls ≡ calls_after (settling_calls self.old) self.old.journal.calls) }

        // A stop at any moment leaves all that was settled, with the unsettled entries whole or with none of them.
        ensures each_moment { D.tells → StandsSettled self.old (D.past disk.old) → Throughout (D.past disk.old) (D.past disk.new) (LeavesEither self.old.memory (current self.old.memory) (D.past disk.old)) }

        // Whatever failed, the files read as with these entries where the record's gate reads as open, and else as before: so where no call
        // was made, or one of those failed that lay a due snapshot and open its gate.
        ensures reads { D.tells → StandsSettled self.old (D.past disk.old) → ReadsBy self.old.memory (current self.old.memory) (record_reads_open self.old (D.past disk.old) (D.past disk.new)) (D.past disk.new) }

        // After Ok the journal stands on what is then settled.
        ensures stands { D.tells → OnOk result (StandsSettled self.old (D.past disk.old) → StandsSettled self.new (D.past disk.new)) }
        ensures device { (D.past disk.new).device ≡ (D.past disk.old).device }
        ensures rest { D.rest disk.new ≡ D.rest disk.old }
    {
        self.check_running()?;
        if self.is_settled() {
            return Ok(self.number());
        }
        let ready = self.ready_unsettled()?;
        self.write_store(disk, &ready)?;
        self.settle_all(ready.rep);
        Ok(self.number())
    }
}
