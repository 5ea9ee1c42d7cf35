//! What can be relied on of files that are opened again.
ghost use Rattle.std.specs.Prelude.{◌<◌, ℕ, List};
ghost use Rattle.re_outside.specs.Trace.{Past, IsCrashImageOf, content_of};
ghost use Rattle.re_record.specs.Restoring.{Opened};
ghost use Rattle.re_record.specs.Stores.{OpensTo};
ghost use Rattle.re_restore.specs.Opening.{StillOpens};
ghost use Rattle.re_terms.specs.Programs.{IsProgram};
ghost use Rattle.re_terms.specs.declared.program.Program.{Program};

/// Where the files of a device open to a state and an entry number, as they read and whatever a stop leaves of them, so does all that a stop
/// leaves while they are opened: opening it again, or after a stop at any moment of an opening, gives the same state and number.
pub fn reopening_law()
    ensures { (p : Program) (device : ℕ) (old now : Past) (o : Opened) → IsProgram p → device < 256 → OpensTo p device (content_of old 0) (content_of old 1) o → ((first second : List ℕ) → IsCrashImageOf old 0 first → IsCrashImageOf old 1 second → OpensTo p device first second o) → StillOpens p device old now → (first second : List ℕ) → IsCrashImageOf now 0 first → IsCrashImageOf now 1 second → OpensTo p device first second o }
{}
