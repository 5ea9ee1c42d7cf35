//! What can be relied on of a device that stands on its files, and of one that is a world's.
ghost use Rattle.std.specs.Prelude.{◌≡◌, ◌+◌, ◌++◌, ◌∷◌, [], ℕ, true, false, None, Some, slice_get};
ghost use Rattle.re_journal.specs.declared.journal.Journal.{Journal};
ghost use Rattle.re_outside.specs.Trace.{Past};
ghost use Rattle.re_terms.specs.Admission.{IsAdmitted};
ghost use Rattle.re_terms.specs.DeviceWorlds.{World, device_state, last_number, limit_fault, settled_number, settled_taken, spelled, takes_no_more as world_takes_no_more};
ghost use Rattle.re_terms.specs.Entries.{Merge, run_entries, turn_entry};
ghost use Rattle.re_terms.specs.Listed.{Listed};
ghost use Rattle.re_terms.specs.Shapes.{shape_of};
ghost use Rattle.re_terms.specs.SignalWords.{replicated_place, signal_word};
ghost use Rattle.re_terms.specs.Spellings.{packet_bytes};
ghost use Rattle.re_terms.specs.Views.{view_of};
ghost use Rattle.re_terms.specs.WordKinds.{IsStateOf};
ghost use Rattle.re_terms.specs.WordOrder.{elements_of};
ghost use Rattle.re_terms.specs.Worlds.{Members, Value, is_set_at, shown};
ghost use Rattle.re_terms.specs.declared.command.Command.TheVariants as command;
ghost use Rattle.re_terms.specs.declared.entry.Admitted.{Admitted};
ghost use Rattle.re_terms.specs.declared.entry.Entry.TheVariants as entry;
ghost use Rattle.re_terms.specs.declared.entry.State.{State};
ghost use Rattle.re_terms.specs.declared.program.Program.{Program};
ghost use Rattle.re_terms.specs.declared.replicated.Pair.{Pair};
ghost use Rattle.re_terms.specs.declared.replicated.RCell.TheVariants as cell;
ghost use Rattle.re_terms.specs.declared.replicated.RState.{RState};
ghost use Rattle.re_device.specs.Device.{DeviceState, current, limit_against, logged, opened_at, takes_no_more, with_entry};
ghost use Rattle.re_device.specs.Standing.{LeavesOnly, StandsSettled};
ghost use Rattle.re_device.specs.Stepping.{IsDeviceOf, IsPacketOf, IsPlainly, WasOpenedAt};

/// Where the journal of a device stands on a store that comes to what the device has settled, as it does after an opening and after
/// each call that is `Ok`, a stop leaves files that open to just this.
pub fn standing_law()
    ensures { (d : DeviceState) (now : Past) → StandsSettled d now → LeavesOnly d.memory d.memory.settled now }
{}

/// A device that was opened just now is that of each world that has opened it at the same state and number.
pub fn opening_law()
    ensures { (p : Program) (w : World) (device : ℕ) (s : State) (number room generation : ℕ) (journal : Journal) → IsStateOf p s → journal.stopped ≡ None → WasOpenedAt p w device s number → IsDeviceOf p w (record { memory = opened_at p device s number; room = room; generation = generation; journal = journal }) }
{}

/// What an entry makes of a world's device: behind all that are unsettled it leads to the state and the number to which the world's entries lead. The
/// device takes no more entries exactly where the world's doesn't, and the same limit stands against an entry.
pub fn entering_law()
    ensures turn { (p : Program) (w : World) (d : DeviceState) (t : Admitted) → IsDeviceOf p w d → IsPlainly p (current (with_entry d.memory (logged d.memory (entry.Turn t.turn)))) (run_entries p d.memory.device (w.base d.memory.device) (w.settled d.memory.device ++ (w.unsettled d.memory.device ++ turn_entry t ∷ []))) (last_number w d.memory.device + 1) }
    ensures merge { (p : Program) (w : World) (d : DeviceState) (k : ℕ) (state : RState) → IsDeviceOf p w d → (of : IsPacketOf d k state p w) → IsPlainly p (current (with_entry d.memory (logged d.memory (entry.Merge state)))) (run_entries p d.memory.device (w.base d.memory.device) (w.settled d.memory.device ++ (w.unsettled d.memory.device ++ Merge of.packet ∷ []))) (last_number w d.memory.device + 1) }
    ensures full { (p : Program) (w : World) (d : DeviceState) → IsDeviceOf p w d → takes_no_more d.memory ≡ world_takes_no_more w d.memory.device }
    ensures turn_limit { (p : Program) (w : World) (d : DeviceState) (t : Admitted) → IsDeviceOf p w d → IsAdmitted p t.turn → limit_against d.memory (entry.Turn t.turn) ≡ limit_fault p w (command.Turn d.memory.device t) }
    ensures merge_limit { (p : Program) (w : World) (d : DeviceState) (k : ℕ) (state : RState) → IsDeviceOf p w d → IsPacketOf d k state p w → limit_against d.memory (entry.Merge state) ≡ limit_fault p w (command.Deliver k d.memory.device) }
{}

/// What is read of a world's device is what the world has of it: each word, the elements of each set, the numbers of the last entry and of the last
/// settled one, the packet of what is settled, and the call since which it is stopped.
pub fn shown_law()
    ensures word { (p : Program) (w : World) (d : DeviceState) (id : ℕ) → IsDeviceOf p w d → is_set_at d.memory.program.decls.items id ≡ false → shown p (device_state p w d.memory.device) id ≡ Value (signal_word d.memory.program (current d.memory).state.words.items (view_of (current d.memory).state.rep) id) }
    ensures set { (p : Program) (w : World) (d : DeviceState) (id : ℕ) (pairs : Listed Pair) → IsDeviceOf p w d → is_set_at d.memory.program.decls.items id ≡ true → slice_get (current d.memory).state.rep.cells.items (replicated_place d.memory.program.decls.items id) ≡ Some (cell.Set pairs) → shown p (device_state p w d.memory.device) id ≡ Members (elements_of pairs.items) }
    ensures number { (p : Program) (w : World) (d : DeviceState) → IsDeviceOf p w d → (current d.memory).number ≡ last_number w d.memory.device }
    ensures settled_number { (p : Program) (w : World) (d : DeviceState) → IsDeviceOf p w d → d.memory.settled.number ≡ settled_number w d.memory.device }
    ensures packet { (p : Program) (w : World) (d : DeviceState) → IsDeviceOf p w d → packet_bytes (shape_of d.memory.program).devices d.memory.settled.state.rep ≡ spelled p (settled_taken w d.memory.device) }
    ensures stop { (p : Program) (w : World) (d : DeviceState) → IsDeviceOf p w d → d.journal.stopped ≡ w.stop d.memory.device }
{}
