//! What can be relied on of the files of all devices.
ghost use Rattle.std.specs.Prelude.{◌≡◌, ℕ, ◌<◌, true, None, List, Option};
ghost use Rattle.re_outside.specs.Outside.{AreOutputs, Faults, Moves, Seen};
ghost use Rattle.re_outside.specs.Port.{past_in};
ghost use Rattle.re_outside.specs.Trace.{IsJointImage};
ghost use Rattle.re_outside.specs.declared.step.Step.{Step};
ghost use Rattle.re_terms.specs.Admission.{device_count};
ghost use Rattle.re_terms.specs.CausalWorlds.{IsCausalWorld};
ghost use Rattle.re_terms.specs.DeviceWorlds.{World};
ghost use Rattle.re_terms.specs.Lines.{Done, entry_under_way};
ghost use Rattle.re_terms.specs.Parts.{AllFit};
ghost use Rattle.re_terms.specs.declared.program.Program.{Program};
ghost use Rattle.re_world.specs.Images.{OpensToLine, Restores};
ghost use Rattle.re_world.specs.Standing.{IsWorldOf};
ghost use Rattle.re_world.specs.State.{WorldState};

/// Where each device's two files open to its settled entries, or, where they may hold further ones, to these and all of them, they are
/// together what a stop may leave of the world: one update log stands behind the files of all devices, of which the world's is a
/// front, whichever device's files hold further entries and whichever don't.
pub fn joint_law()
    ensures { (p : Program) (w : World) (under_way : Option Done) (files : ℕ → ℕ → List ℕ) → IsCausalWorld (device_count p.decls.items) w → ((d : ℕ) → AllFit w.log (entry_under_way p w under_way d)) → ((d : ℕ) → d < device_count p.decls.items → OpensToLine p w under_way d (files d 0) (files d 1)) → Restores p w under_way files }
{}

/// Between two commands a world stays what it is, whatever is taken or said and whichever of these calls fails; and a stop then leaves
/// files of all devices that restore to it, with no command under way.
pub fn resting_law()
    ensures said { (p : Program) (w : World) (v : WorldState) (old new : Seen) (read : List ℕ) (steps : List Step) (faults : Faults) → IsWorldOf p w v old → old.told ≡ true → Moves old new read steps faults → AreOutputs steps → IsWorldOf p w v new }
    ensures restores { (p : Program) (w : World) (v : WorldState) (s : Seen) (files : ℕ → ℕ → List ℕ) → IsWorldOf p w v s → IsJointImage (past_in 0 s) files → Restores p w None files }
{}
