//! Laying a new snapshot into the file that isn't in use.
ghost use Rattle.std.specs.Prelude.{◌≡◌, ◌+◌, nat_le, true, [], List, ℕ, length, Err, IfSome, OnOk, OnErr, MatchResult};
ghost use Rattle.re_outside.specs.Frame.{StoreFrame, Store};
ghost use Rattle.re_outside.specs.Moment.{Throughout};
ghost use Rattle.re_outside.specs.Outside.{Rose};
ghost use Rattle.re_outside.specs.Trace.{with_steps, content_of};
ghost use Rattle.re_journal.specs.Commits.{StopsJournal, StopsInTurn, IsStopOf, IsStopInTurn, HasCause};
ghost use Rattle.re_journal.specs.Journals.{calls_after, frame_of, other_file};
ghost use Rattle.re_journal.specs.declared.fault.JournalFault.TheVariants.{Disk as DiskFault, Stopped};
ghost use Rattle.re_compact.specs.Laying.{prepare_steps, laying_calls, shut_steps, trim_steps, frame_steps, two_unless, publish_steps};
ghost use Rattle.re_compact.specs.Pair.{StandsIn, Holds, IsPrepared, MayReplace, IsOldOrNew, TurnsOver};

use re_journal::{Journal, JournalFault};
use re_outside::Disk;

/// Shuts the gate of the other file, unless it is blank.
fn shut_other<D: Disk>(journal: &mut Journal, disk: &mut D) -> Result<(), JournalFault>
    ensures done { D.tells → OnOk result (D.past disk.new ≡ with_steps (D.past disk.old) (shut_steps (D.past disk.old).device (other_file journal.old.file) journal.old.other_blank)) }
    ensures failed { D.tells → OnErr result (StopsInTurn (shut_steps (D.past disk.old).device (other_file journal.old.file) journal.old.other_blank) journal.old.calls journal.new.stopped (D.past disk.old) (D.past disk.new)) }
    ensures journal { OnOk result (journal.new ≡ record journal.old { calls = two_unless journal.old.other_blank journal.old.calls }) }
    ensures stopped_at { OnErr result (IsStopInTurn 2 journal.old.calls journal.new.stopped) }
    ensures file { journal.new.file ≡ journal.old.file }
    ensures faults { MatchResult result (λ _. D.faults disk.new ≡ D.faults disk.old) (λ fault. (fault ≡ DiskFault) × Rose (D.faults disk.old) (D.faults disk.new)) }
    ensures device { (D.past disk.new).device ≡ (D.past disk.old).device }
    ensures rest { D.rest disk.new ≡ D.rest disk.old }
{
    if journal.other_blank {
        return Ok(());
    }
    let other = 1 - journal.file;
    journal.write_file(disk, other, 0, &[0])?;
    journal.sync_file(disk, other)?;
    Ok(())
}

/// Cuts the other file to one byte, unless it has no more.
fn trim_other<D: Disk>(journal: &mut Journal, disk: &mut D) -> Result<(), JournalFault>
    ensures done { D.tells → OnOk result (D.past disk.new ≡ with_steps (D.past disk.old) (trim_steps (D.past disk.old).device (other_file journal.old.file) journal.old.other_length)) }
    ensures failed { D.tells → OnErr result (StopsInTurn (trim_steps (D.past disk.old).device (other_file journal.old.file) journal.old.other_length) journal.old.calls journal.new.stopped (D.past disk.old) (D.past disk.new)) }
    ensures journal { OnOk result (journal.new ≡ record journal.old { calls = two_unless (nat_le journal.old.other_length 1) journal.old.calls }) }
    ensures stopped_at { OnErr result (IsStopInTurn 2 journal.old.calls journal.new.stopped) }
    ensures file { journal.new.file ≡ journal.old.file }
    ensures faults { MatchResult result (λ _. D.faults disk.new ≡ D.faults disk.old) (λ fault. (fault ≡ DiskFault) × Rose (D.faults disk.old) (D.faults disk.new)) }
    ensures device { (D.past disk.new).device ≡ (D.past disk.old).device }
    ensures rest { D.rest disk.new ≡ D.rest disk.old }
{
    if journal.other_length <= 1 {
        return Ok(());
    }
    let other = 1 - journal.file;
    journal.cut_file(disk, other, 1)?;
    journal.sync_file(disk, other)?;
    Ok(())
}

/// Writes a closed gate to the front of the other file, and a frame behind it.
fn write_frame<D: Disk>(
    journal: &mut Journal,
    disk: &mut D,
    framed: &[u8],
) -> Result<(), JournalFault>
    ensures done { D.tells → OnOk result (D.past disk.new ≡ with_steps (D.past disk.old) (frame_steps (D.past disk.old).device (other_file journal.old.file) framed.now)) }
    ensures failed { D.tells → OnErr result (StopsInTurn (frame_steps (D.past disk.old).device (other_file journal.old.file) framed.now) journal.old.calls journal.new.stopped (D.past disk.old) (D.past disk.new)) }
    ensures journal { OnOk result (journal.new ≡ record journal.old { calls = calls_after 4 journal.old.calls }) }
    ensures stopped_at { OnErr result (IsStopInTurn 4 journal.old.calls journal.new.stopped) }
    ensures file { journal.new.file ≡ journal.old.file }
    ensures faults { MatchResult result (λ _. D.faults disk.new ≡ D.faults disk.old) (λ fault. (fault ≡ DiskFault) × Rose (D.faults disk.old) (D.faults disk.new)) }
    ensures device { (D.past disk.new).device ≡ (D.past disk.old).device }
    ensures rest { D.rest disk.new ≡ D.rest disk.old }
{
    let other = 1 - journal.file;
    journal.write_file(disk, other, 0, &[0])?;
    journal.sync_file(disk, other)?;
    journal.write_file(disk, other, 1, framed)?;
    journal.sync_file(disk, other)?;
    Ok(())
}

/// Makes the calls that write a frame behind a closed gate of the other file.
fn make_prepare_calls<D: Disk>(
    journal: &mut Journal,
    disk: &mut D,
    framed: &[u8],
) -> Result<(), JournalFault>
    ensures done { D.tells → OnOk result (D.past disk.new ≡ with_steps (D.past disk.old) (prepare_steps (D.past disk.old).device (other_file journal.old.file) journal.old.other_blank journal.old.other_length framed.now)) }
    ensures failed { D.tells → OnErr result (StopsInTurn (prepare_steps (D.past disk.old).device (other_file journal.old.file) journal.old.other_blank journal.old.other_length framed.now) journal.old.calls journal.new.stopped (D.past disk.old) (D.past disk.new)) }
    ensures journal { OnOk result (journal.new ≡ record journal.old { calls = calls_after (laying_calls journal.old.other_blank journal.old.other_length) journal.old.calls }) }
    ensures stopped_at { OnErr result (IsStopOf (laying_calls journal.old.other_blank journal.old.other_length) journal.old.calls journal.new.stopped) }
    ensures file { journal.new.file ≡ journal.old.file }
    ensures faults { MatchResult result (λ _. D.faults disk.new ≡ D.faults disk.old) (λ fault. (fault ≡ DiskFault) × Rose (D.faults disk.old) (D.faults disk.new)) }
    ensures device { (D.past disk.new).device ≡ (D.past disk.old).device }
    ensures rest { D.rest disk.new ≡ D.rest disk.old }
{
    shut_other(journal, disk)?;
    trim_other(journal, disk)?;
    write_frame(journal, disk, framed)?;
    Ok(())
}

/// Makes the calls that open the gate of the other file.
fn make_publish_calls<D: Disk>(journal: &mut Journal, disk: &mut D) -> Result<(), JournalFault>
    ensures done { D.tells → OnOk result (D.past disk.new ≡ with_steps (D.past disk.old) (publish_steps (D.past disk.old).device (other_file journal.old.file))) }
    ensures failed { D.tells → OnErr result (StopsInTurn (publish_steps (D.past disk.old).device (other_file journal.old.file)) journal.old.calls journal.new.stopped (D.past disk.old) (D.past disk.new)) }
    ensures journal { OnOk result (journal.new ≡ record journal.old { calls = calls_after 2 journal.old.calls }) }
    ensures stopped_at { OnErr result (IsStopInTurn 2 journal.old.calls journal.new.stopped) }
    ensures file { journal.new.file ≡ journal.old.file }
    ensures faults { MatchResult result (λ _. D.faults disk.new ≡ D.faults disk.old) (λ fault. (fault ≡ DiskFault) × Rose (D.faults disk.old) (D.faults disk.new)) }
    ensures device { (D.past disk.new).device ≡ (D.past disk.old).device }
    ensures rest { D.rest disk.new ≡ D.rest disk.old }
{
    let other = 1 - journal.file;
    journal.write_file(disk, other, 0, &[1])?;
    journal.sync_file(disk, other)?;
    Ok(())
}

/// Lays a snapshot into the other file, behind a closed gate.
///
/// `framed` is what `frame` gives for a snapshot of 8 to 131,072 bytes. The other file is emptied first where it holds something:
/// its gate is shut and it is cut to one byte; then the frame is written behind a closed gate. Each change is synced before the next.
/// It takes no memory. `Disk` comes where a call failed, and the journal has then stopped; `Stopped` where it had stopped before,
/// with the number of that call, and then no call is made. docs/FORMATS.md has the layout.
///
/// What is said of the two files is said where the journal stands on them.
pub fn prepare_other<D: Disk>(
    journal: &mut Journal,
    disk: &mut D,
    framed: &[u8],
) -> Result<(), JournalFault>
    // The calls, in order, up to the first that failed.
    ensures done { D.tells → OnOk result (D.past disk.new ≡ with_steps (D.past disk.old) (prepare_steps (D.past disk.old).device (other_file journal.old.file) journal.old.other_blank journal.old.other_length framed.now)) }
    ensures failed { D.tells → result ≡ Err DiskFault → StopsJournal (prepare_steps (D.past disk.old).device (other_file journal.old.file) journal.old.other_blank journal.old.other_length framed.now) journal.old.calls journal.new.stopped (D.past disk.old) (D.past disk.new) }
    ensures cause { HasCause journal.old.stopped (D.faults disk.old) (D.faults disk.new) result }

    // A stop at any moment leaves what the files held, whatever the other file was.
    ensures each_moment { (held : StoreFrame) → D.tells → StandsIn journal.old held (D.past disk.old) → Throughout (D.past disk.old) (D.past disk.new) (Holds (λ frame. frame ≡ held) (D.past disk.old)) }
    ensures stands { (held : StoreFrame) → D.tells → OnOk result (StandsIn journal.old held (D.past disk.old) → StandsIn journal.new held (D.past disk.new)) }
    ensures prepared { (held : StoreFrame) (snapshot : List ℕ) → D.tells → OnOk result (StandsIn journal.old held (D.past disk.old) → framed.now ≡ frame_of snapshot → IsPrepared journal.new snapshot (D.past disk.new)) }

    ensures journal { OnOk result (journal.new ≡ record journal.old { calls = calls_after (laying_calls journal.old.other_blank journal.old.other_length) journal.old.calls; other_length = 1 + length framed.now; other_blank = true }) }
    ensures stopped_at { result ≡ Err DiskFault → IsStopOf (laying_calls journal.old.other_blank journal.old.other_length) journal.old.calls journal.new.stopped }
    ensures untouched { IfSome journal.old.stopped (λ at. (result ≡ Err (Stopped at)) × (journal.new ≡ journal.old) × (D.past disk.new ≡ D.past disk.old)) }
    ensures file { journal.new.file ≡ journal.old.file }
    ensures device { (D.past disk.new).device ≡ (D.past disk.old).device }
    ensures rest { D.rest disk.new ≡ D.rest disk.old }
{
    if let Some(at) = journal.stopped {
        return Err(JournalFault::Stopped { at });
    }
    make_prepare_calls(journal, disk, framed)?;
    journal.other_length = 1 + framed.len() as u64;
    journal.other_blank = true;
    Ok(())
}

/// Opens the gate of the snapshot that `prepare_other` laid into the other file, which then counts, and in which the journal then stands.
///
/// It takes no memory. `Disk` comes where a call failed, and the journal has then stopped; `Stopped` where it had stopped before, with
/// the number of that call, and then no call is made.
///
/// What is said of the two files is said where the journal stands on them, `prepare_other` laid the snapshot, and its generation is
/// greater than that of the file in use.
pub fn publish<D: Disk>(journal: &mut Journal, disk: &mut D) -> Result<(), JournalFault>
    // The calls, in order, up to the first that failed.
    ensures done { D.tells → OnOk result (D.past disk.new ≡ with_steps (D.past disk.old) (publish_steps (D.past disk.old).device (other_file journal.old.file))) }
    ensures failed { D.tells → result ≡ Err DiskFault → StopsJournal (publish_steps (D.past disk.old).device (other_file journal.old.file)) journal.old.calls journal.new.stopped (D.past disk.old) (D.past disk.new) }
    ensures cause { HasCause journal.old.stopped (D.faults disk.old) (D.faults disk.new) result }

    // A stop at any moment leaves what the files held, or the new store; afterwards this one counts.
    ensures each_moment { (held : StoreFrame) (snapshot : List ℕ) → D.tells → StandsIn journal.old held (D.past disk.old) → IsPrepared journal.old snapshot (D.past disk.old) → MayReplace (content_of (D.past disk.old) journal.old.file) snapshot → Throughout (D.past disk.old) (D.past disk.new) (Holds (IsOldOrNew held (other_file journal.old.file) snapshot) (D.past disk.old)) }
    ensures stands { (held : StoreFrame) (snapshot : List ℕ) → D.tells → OnOk result (StandsIn journal.old held (D.past disk.old) → IsPrepared journal.old snapshot (D.past disk.old) → MayReplace (content_of (D.past disk.old) journal.old.file) snapshot → StandsIn journal.new (Store (other_file journal.old.file) snapshot []) (D.past disk.new)) }

    ensures journal { OnOk result (TurnsOver (calls_after 2 journal.old.calls) journal.old journal.new) }
    ensures stopped_at { result ≡ Err DiskFault → IsStopOf 2 journal.old.calls journal.new.stopped }
    ensures untouched { IfSome journal.old.stopped (λ at. (result ≡ Err (Stopped at)) × (journal.new ≡ journal.old) × (D.past disk.new ≡ D.past disk.old)) }
    ensures device { (D.past disk.new).device ≡ (D.past disk.old).device }
    ensures rest { D.rest disk.new ≡ D.rest disk.old }
{
    if let Some(at) = journal.stopped {
        return Err(JournalFault::Stopped { at });
    }
    make_publish_calls(journal, disk)?;
    turn_over(journal);
    Ok(())
}

/// Takes the other file for its own, which holds a snapshot and no record.
fn turn_over(journal: &mut Journal)
    ensures { TurnsOver journal.old.calls journal.old journal.new }
{
    let length = journal.length;
    let blank = journal.start == 0;
    let gate = journal.other_length.saturating_sub(1);
    journal.file = 1 - journal.file;
    journal.start = gate;
    journal.gate = gate;
    journal.length = journal.other_length;
    journal.other_length = length;
    journal.other_blank = blank;
}
