//! The calls of a device that commit, over its files outside.
ghost use Rattle.std.specs.Prelude.{◌≡◌, ◌+◌, ◌++◌, ◌∷◌, [], true, ℕ, IfOk, OnOk};
ghost use Rattle.re_device.specs.Causes.{IsCausedBy, entry_refusal, stop_refusal};
ghost use Rattle.re_device.specs.Committing.{HasDiskCause};
ghost use Rattle.re_device.specs.Device.{all_settled, current, logged, with_entry};
ghost use Rattle.re_device.specs.Stepping.{IsPacketOf, entered_as, settled_as};
ghost use Rattle.re_outside.specs.Outside.{Seen};
ghost use Rattle.re_outside.specs.Port.{disk_faults, other_faults, past_in};
ghost use Rattle.re_terms.specs.Admission.{IsAdmitted};
ghost use Rattle.re_terms.specs.Shapes.{FitsShape, shape_of};
ghost use Rattle.re_terms.specs.declared.command.Command.TheVariants as command;
ghost use Rattle.re_world.specs.Calls.{Commits, Leaves};

use re_device::{Device, DeviceFault, Done};
use re_eval::Steps;
use re_outside::{Outside, Port};
use re_terms::{Admitted, Entry, RState};
use std::sync::ledger::Ledger;

/// A turn of a device over its files outside.
pub(crate) fn take_turn<O: Outside, L: Ledger>(
    out: &mut O,
    number: u8,
    device: &mut Device,
    turn: Admitted,
    steps: &mut Steps<L>,
) -> Result<Done, DeviceFault>
    requires turn { IsAdmitted device.old.memory.program turn.turn }
    ensures commits { O.tells ≡ true → Commits (λ p w. Unit {0}) (device.old.memory.unsettled ++ logged device.old.memory (Entry.Turn turn.turn) ∷ []) (current (with_entry device.old.memory (logged device.old.memory (Entry.Turn turn.turn)))) (command.Turn device.old.memory.device turn) entered_as device.old device.new (past_in number (O.seen out.old)) (past_in number (O.seen out.new)) result }
    ensures leaves { Leaves device.old device.new result }
    ensures memory { OnOk result (device.new.memory ≡ all_settled (with_entry device.old.memory (logged device.old.memory (Entry.Turn turn.turn)))) }
    ensures number { IfOk result (λ done. done.number ≡ (current device.old.memory).number + 1) }
    ensures caused { IsCausedBy (entry_refusal device.old (Entry.Turn turn.turn)) (entered_as result) }
    ensures cause { HasDiskCause (disk_faults number (O.seen out.old)) (disk_faults number (O.seen out.new)) result }
    ensures others { other_faults number (O.seen out.new) ≡ other_faults number (O.seen out.old) }
    ensures left { O.tells ≡ true → (O.seen out.new).left ≡ (O.seen out.old).left }
{
    let mut port = Port::new(out, number);
    device.turn(&mut port, turn, steps)
}

/// A merge of a device over its files outside.
pub(crate) fn take_merge<O: Outside, L: Ledger>(
    out: &mut O,
    number: u8,
    device: &mut Device,
    state: RState,
    steps: &mut Steps<L>,
) -> Result<Done, DeviceFault>
    requires state { FitsShape (shape_of device.old.memory.program) state }
    ensures commits { (k : ℕ) → O.tells ≡ true → Commits (IsPacketOf device.old k state) (device.old.memory.unsettled ++ logged device.old.memory (Entry.Merge state) ∷ []) (current (with_entry device.old.memory (logged device.old.memory (Entry.Merge state)))) (command.Deliver k device.old.memory.device) entered_as device.old device.new (past_in number (O.seen out.old)) (past_in number (O.seen out.new)) result }
    ensures leaves { Leaves device.old device.new result }
    ensures memory { OnOk result (device.new.memory ≡ all_settled (with_entry device.old.memory (logged device.old.memory (Entry.Merge state)))) }
    ensures number { IfOk result (λ done. done.number ≡ (current device.old.memory).number + 1) }
    ensures caused { IsCausedBy (entry_refusal device.old (Entry.Merge state)) (entered_as result) }
    ensures cause { HasDiskCause (disk_faults number (O.seen out.old)) (disk_faults number (O.seen out.new)) result }
    ensures others { other_faults number (O.seen out.new) ≡ other_faults number (O.seen out.old) }
    ensures left { O.tells ≡ true → (O.seen out.new).left ≡ (O.seen out.old).left }
{
    let mut port = Port::new(out, number);
    device.merge(&mut port, state, steps)
}

/// A settling of a device's entries over its files outside.
pub(crate) fn settle_entries<O: Outside>(
    out: &mut O,
    number: u8,
    device: &mut Device,
) -> Result<u64, DeviceFault>
    ensures commits { O.tells ≡ true → Commits (λ p w. Unit {0}) device.old.memory.unsettled (current device.old.memory) (command.Settle device.old.memory.device) settled_as device.old device.new (past_in number (O.seen out.old)) (past_in number (O.seen out.new)) result }
    ensures leaves { Leaves device.old device.new result }
    ensures memory { OnOk result (device.new.memory ≡ all_settled device.old.memory) }
    ensures number { IfOk result (λ number. number ≡ (current device.old.memory).number) }
    ensures caused { IsCausedBy (stop_refusal device.old) (settled_as result) }
    ensures cause { HasDiskCause (disk_faults number (O.seen out.old)) (disk_faults number (O.seen out.new)) result }
    ensures others { other_faults number (O.seen out.new) ≡ other_faults number (O.seen out.old) }
    ensures left { O.tells ≡ true → (O.seen out.new).left ≡ (O.seen out.old).left }
{
    let mut port = Port::new(out, number);
    device.settle(&mut port)
}
