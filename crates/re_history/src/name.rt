//! What names one shared device.
use std::marker::Brand;

/// Names one shared device by its board and by what it began with.
///
/// The members are data alone and say nothing of each other. The call that passes std's `Brand` for a parameter
/// `N: Name` picks them.
pub trait Name {
    ghost use Rattle.std.specs.Prelude.{ℕ, List};
    ghost use Rattle.re_terms.specs.declared.program.Program.{Program};
    ghost use Rattle.re_terms.specs.declared.entry.State.{State};
    ghost use Rattle.re_outside.specs.Port.{Rest};
    ghost use Rattle.re_outside.specs.declared.step.Step.{Step};
    ghost use Rattle.re_history.specs.Boards.{BoardName};

    /// The board of its history.
    ghost board: { BoardName };

    /// The device's place among the devices of the program, from 0.
    ghost device: { ℕ };

    ghost program: { Program };

    /// The device's state at the start.
    ghost state: { State };

    /// The device's entry number at the start.
    ghost number: { ℕ };

    /// How many entries the device took since it was opened, at the start.
    ghost taken: { ℕ };

    /// How many calls of its disk had failed at the start.
    ghost faults: { ℕ };

    /// The number of the device whose disk it is.
    ghost disk_device: { ℕ };

    /// What no call of the disk changes.
    ghost rest: { Rest };

    /// The trace at the start, where the disk tells it.
    ghost trace: { List Step };
}

impl Name for Brand {
    ghost use Rattle.std.specs.Prelude.{[]};
    ghost use Rattle.re_history.specs.Boards.{no_board};
    ghost use Rattle.re_history.specs.Names.{no_program, no_state, no_rest};

    ghost board = { no_board };

    ghost device = { 0 };

    ghost program = { no_program };

    ghost state = { no_state };

    ghost number = { 0 };

    ghost taken = { 0 };

    ghost faults = { 0 };

    ghost disk_device = { 0 };

    ghost rest = { no_rest };

    ghost trace = { [] };
}
