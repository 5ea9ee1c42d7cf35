//! The commit of a record, behind a new snapshot where one is due.
ghost use Rattle.std.specs.Prelude.{◌≡◌, true, List, ℕ, Option, Some, Err, IfSome, OnOk};
ghost use Rattle.std.specs.Option.{option_copied};
ghost use Rattle.re_outside.specs.Frame.{Store};
ghost use Rattle.re_outside.specs.Moment.{Throughout};
ghost use Rattle.re_outside.specs.Trace.{with_steps};
ghost use Rattle.re_journal.specs.Commits.{StopsJournal, IsStopOf, HasCause};
ghost use Rattle.re_journal.specs.declared.fault.JournalFault.TheVariants.{Disk as DiskFault, Stopped};
ghost use Rattle.re_compact.specs.Committing.{MayCommit, committing_steps, committing_calls, HasCommitted, store_after, IsLeftBy, ReadAs, IsReadBy, reads_open};
ghost use Rattle.re_compact.specs.Pair.{StandsIn, Holds};

use crate::laying::{prepare_other, publish};
use re_journal::{Journal, JournalFault};
use re_outside::Disk;

/// Commits a record to the store on which the journal stands, behind a new snapshot where one is handed in.
///
/// `next` is what `frame` gives for a new snapshot of 8 to 131,072 bytes, if one is due, and `framed` what it gives for a record of 1 to
/// 65,536 bytes. A new snapshot is laid into the other file, which then counts, and the record is committed there; else it is committed
/// behind the records that are there. It takes no memory. `Disk` comes where a call failed, and the journal has then stopped; `Stopped`
/// where it had stopped before, with the number of that call, and then no call is made. docs/FORMATS.md has the layout.
///
/// What is said of the store is said where the journal stands on one, and the record may be committed: a new snapshot has a greater
/// generation than the one that is there; without a new one the journal has at most 65,536 bytes, or its file the last generation.
pub fn commit_record<D: Disk>(
    journal: &mut Journal,
    disk: &mut D,
    next: Option<&[u8]>,
    framed: &[u8],
) -> Result<(), JournalFault>
    // The calls, in order, up to the first that failed.
    ensures done { D.tells → OnOk result (D.past disk.new ≡ with_steps (D.past disk.old) (committing_steps (D.past disk.old).device journal.old (option_copied next.entry) framed.now)) }
    ensures failed { D.tells → result ≡ Err DiskFault → StopsJournal (committing_steps (D.past disk.old).device journal.old (option_copied next.entry) framed.now) journal.old.calls journal.new.stopped (D.past disk.old) (D.past disk.new) }
    ensures cause { HasCause journal.old.stopped (D.faults disk.old) (D.faults disk.new) result }

    // A stop at any moment leaves the store before it, the new snapshot alone, or the store after it.
    ensures each_moment { (snapshot : List ℕ) (bodies : List (List ℕ)) (new : Option (List ℕ)) (body : List ℕ) → D.tells → StandsIn journal.old (Store journal.old.file snapshot bodies) (D.past disk.old) → MayCommit snapshot bodies new body (option_copied next.entry) framed.now → Throughout (D.past disk.old) (D.past disk.new) (Holds (IsLeftBy journal.old.file snapshot bodies new body) (D.past disk.old)) }

    // Whatever failed, the files read as the store after it where the record's gate reads as open, and else as the store before it or as
    // the new snapshot alone. The gate is open after Ok; where a call of the new snapshot failed it counts as closed.
    ensures reads { (snapshot : List ℕ) (bodies : List (List ℕ)) (new : Option (List ℕ)) (body : List ℕ) → D.tells → StandsIn journal.old (Store journal.old.file snapshot bodies) (D.past disk.old) → MayCommit snapshot bodies new body (option_copied next.entry) framed.now → ReadAs (IsReadBy journal.old.file snapshot bodies new body (reads_open journal.old (option_copied next.entry) (D.past disk.old) (D.past disk.new))) (D.past disk.new) }
    ensures opened { (snapshot : List ℕ) (bodies : List (List ℕ)) (new : Option (List ℕ)) (body : List ℕ) → D.tells → StandsIn journal.old (Store journal.old.file snapshot bodies) (D.past disk.old) → MayCommit snapshot bodies new body (option_copied next.entry) framed.now → OnOk result (reads_open journal.old (option_copied next.entry) (D.past disk.old) (D.past disk.new) ≡ true) }

    // After Ok the journal stands on the store after it.
    ensures stands { (snapshot : List ℕ) (bodies : List (List ℕ)) (new : Option (List ℕ)) (body : List ℕ) → D.tells → OnOk result (StandsIn journal.old (Store journal.old.file snapshot bodies) (D.past disk.old) → MayCommit snapshot bodies new body (option_copied next.entry) framed.now → StandsIn journal.new (store_after journal.old.file snapshot bodies new body) (D.past disk.new)) }

    ensures journal { OnOk result (HasCommitted (option_copied next.entry) framed.now journal.old journal.new) }
    ensures running { OnOk result (journal.new.stopped ≡ journal.old.stopped) }
    ensures stopped_at { result ≡ Err DiskFault → IsStopOf (committing_calls journal.old (option_copied next.entry)) journal.old.calls journal.new.stopped }
    ensures untouched { IfSome journal.old.stopped (λ at. (result ≡ Err (Stopped at)) × (journal.new ≡ journal.old) × (D.past disk.new ≡ D.past disk.old)) }
    ensures device { (D.past disk.new).device ≡ (D.past disk.old).device }
    ensures rest { D.rest disk.new ≡ D.rest disk.old }
{
    match next {
        Some(laid) => commit_behind(journal, disk, laid, framed),
        None => journal.append(disk, framed),
    }
}

/// Commits a record behind a new snapshot, whose frame this is.
fn commit_behind<D: Disk>(
    journal: &mut Journal,
    disk: &mut D,
    laid: &[u8],
    framed: &[u8],
) -> Result<(), JournalFault>
    ensures done { D.tells → OnOk result (D.past disk.new ≡ with_steps (D.past disk.old) (committing_steps (D.past disk.old).device journal.old (Some laid.now) framed.now)) }
    ensures failed { D.tells → result ≡ Err DiskFault → StopsJournal (committing_steps (D.past disk.old).device journal.old (Some laid.now) framed.now) journal.old.calls journal.new.stopped (D.past disk.old) (D.past disk.new) }
    ensures cause { HasCause journal.old.stopped (D.faults disk.old) (D.faults disk.new) result }
    ensures each_moment { (snapshot : List ℕ) (bodies : List (List ℕ)) (new : List ℕ) (body : List ℕ) → D.tells → StandsIn journal.old (Store journal.old.file snapshot bodies) (D.past disk.old) → MayCommit snapshot bodies (Some new) body (Some laid.now) framed.now → Throughout (D.past disk.old) (D.past disk.new) (Holds (IsLeftBy journal.old.file snapshot bodies (Some new) body) (D.past disk.old)) }
    ensures reads { (snapshot : List ℕ) (bodies : List (List ℕ)) (new : List ℕ) (body : List ℕ) → D.tells → StandsIn journal.old (Store journal.old.file snapshot bodies) (D.past disk.old) → MayCommit snapshot bodies (Some new) body (Some laid.now) framed.now → ReadAs (IsReadBy journal.old.file snapshot bodies (Some new) body (reads_open journal.old (Some laid.now) (D.past disk.old) (D.past disk.new))) (D.past disk.new) }
    ensures opened { (snapshot : List ℕ) (bodies : List (List ℕ)) (new : List ℕ) (body : List ℕ) → D.tells → StandsIn journal.old (Store journal.old.file snapshot bodies) (D.past disk.old) → MayCommit snapshot bodies (Some new) body (Some laid.now) framed.now → OnOk result (reads_open journal.old (Some laid.now) (D.past disk.old) (D.past disk.new) ≡ true) }
    ensures stands { (snapshot : List ℕ) (bodies : List (List ℕ)) (new : List ℕ) (body : List ℕ) → D.tells → OnOk result (StandsIn journal.old (Store journal.old.file snapshot bodies) (D.past disk.old) → MayCommit snapshot bodies (Some new) body (Some laid.now) framed.now → StandsIn journal.new (store_after journal.old.file snapshot bodies (Some new) body) (D.past disk.new)) }
    ensures journal { OnOk result (HasCommitted (Some laid.now) framed.now journal.old journal.new) }
    ensures stopped_at { result ≡ Err DiskFault → IsStopOf (committing_calls journal.old (Some laid.now)) journal.old.calls journal.new.stopped }
    ensures untouched { IfSome journal.old.stopped (λ at. (result ≡ Err (Stopped at)) × (journal.new ≡ journal.old) × (D.past disk.new ≡ D.past disk.old)) }
    ensures device { (D.past disk.new).device ≡ (D.past disk.old).device }
    ensures rest { D.rest disk.new ≡ D.rest disk.old }
{
    prepare_other(journal, disk, laid)?;
    publish(journal, disk)?;
    journal.append(disk, framed)
}
