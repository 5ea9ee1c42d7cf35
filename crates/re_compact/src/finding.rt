//! Finding the store that two files hold.
ghost use Rattle.std.specs.Prelude.{◌≡◌, ◌<◌, ℕ, Err, IfOk, OnOk, OnErr, MatchResult};
ghost use Rattle.re_outside.specs.Frame.{HasStoreFrame, Bad, IsGeneration};
ghost use Rattle.re_outside.specs.Moment.{Throughout};
ghost use Rattle.re_outside.specs.Outside.{Rose};
ghost use Rattle.re_outside.specs.Plan.{StopsAt};
ghost use Rattle.re_outside.specs.Trace.{with_steps, content_of};
ghost use Rattle.re_journal.specs.Scans.{FailsReading};
ghost use Rattle.re_compact.specs.Choices.{ChoosesFittingGeneration};
ghost use Rattle.re_compact.specs.Finding.{frame_found, journal_found, HasItsGeneration, IsFramedFound, IsFreshlyFound, open_steps, HasOpenSteps, HasOpenCause, HasReadSteps, KeepsFiles, AreSettled, IsMeasured, CountsIn, IsBlankJournal};
ghost use Rattle.re_compact.specs.Pair.{StandsIn};
ghost use Rattle.re_compact.specs.declared.fault.OpenFault.TheVariants.{BadStore};

use crate::OpenFault;
use crate::choice::{Choice, choose};
use crate::heads::read_head;
use re_journal::{Journal, ScanFault, scan};
use re_outside::{Bytes, Disk, Failed};
use re_terms::Seq;
use std::alloc::Global;

/// What the two files of a device hold.
#[derive(Drop)]
pub enum Found {
    /// Both are blank. The journal has file 1 as its own, so that a first snapshot is laid into file 0.
    Blank {
        journal: Journal,
    },
    /// A store: the journal that stands on it, its generation, its snapshot, and its records in order.
    Store {
        journal: Journal,
        /// From 1 to 2^62.
        generation: u64,
        snapshot: Bytes,
        bodies: Seq<Bytes>,
    },
}

/// Finds the store that the two files of a device hold. docs/FORMATS.md has the rules.
///
/// It begins with a sync of each file and asks for their lengths. Then it reads the front of each file that has more than one byte, and
/// of the file that counts the frame. It takes memory for what it gives, and a constant more. `BadStore` names the file and the place of the first
/// field that is cut off or isn't allowed, `Disk` comes where a call on the disk failed, and `Memory` where there is no memory.
/// `OtherProgram` never comes: what a snapshot holds isn't looked at.
pub fn find_store<D: Disk>(alloc: Global, disk: &mut D) -> Result<Found, OpenFault>
    // What the files hold, as they read.
    ensures frame { D.tells → IfOk result (λ found. HasStoreFrame (content_of (D.past disk.old) 0) (content_of (D.past disk.old) 1) (frame_found found)) }
    ensures bad { (file at : ℕ) → D.tells → result ≡ Err (BadStore file at) → HasStoreFrame (content_of (D.past disk.old) 0) (content_of (D.past disk.old) 1) (Bad file at) }
    ensures generation { D.tells → IfOk result HasItsGeneration }

    // Whatever the disk tells of its content, what it gives has the lengths and the generation that a store may have.
    ensures framed { IfOk result IsFramedFound }

    // The journal stands there, and both files are settled.
    ensures stands { D.tells → IfOk result (λ found. StandsIn (journal_found found) (frame_found found) (D.past disk.new)) }
    ensures fresh { IfOk result IsFreshlyFound }

    // A stop at any moment leaves nothing that it couldn't have left before.
    ensures each_moment { D.tells → Throughout (D.past disk.old) (D.past disk.new) (KeepsFiles (D.past disk.old)) }

    ensures steps { D.tells → HasOpenSteps (D.past disk.old) (D.past disk.new) result }
    ensures cause { HasOpenCause (D.faults disk.old) (D.faults disk.new) result }
    ensures device { (D.past disk.new).device ≡ (D.past disk.old).device }
    ensures rest { D.rest disk.new ≡ D.rest disk.old }
{
    settle(disk)?;
    let measured = measure(disk)?;
    open_measured(alloc, disk, measured)
}

/// Makes both files outlast a stop as they read.
fn settle<D: Disk>(disk: &mut D) -> Result<(), Failed>
    ensures done { D.tells → OnOk result (D.past disk.new ≡ with_steps (D.past disk.old) (open_steps (D.past disk.old).device)) }
    ensures failed { D.tells → OnErr result ((at : ℕ) × StopsAt (open_steps (D.past disk.old).device) 0 at (D.past disk.old) (D.past disk.new)) }
    ensures faults { MatchResult result (λ _. D.faults disk.new ≡ D.faults disk.old) (λ _. Rose (D.faults disk.old) (D.faults disk.new)) }
    ensures device { (D.past disk.new).device ≡ (D.past disk.old).device }
    ensures rest { D.rest disk.new ≡ D.rest disk.old }
{
    disk.sync(0)?;
    disk.sync(1)?;
    Ok(())
}

/// The lengths of the two files, and what their heads say.
#[derive(Clone, Copy, Debug, PartialEq, Eq)]
struct Measured {
    first: u64,
    second: u64,
    choice: Choice,
}

/// Asks for the lengths of the two files, and reads their fronts.
fn measure<D: Disk>(disk: &mut D) -> Result<Measured, Failed>
    ensures same { D.tells → OnOk result (D.past disk.new ≡ D.past disk.old) }
    ensures failed { D.tells → OnErr result ((file : ℕ) × FailsReading file (D.past disk.old) (D.past disk.new)) }
    ensures fits { IfOk result (λ m. ChoosesFittingGeneration m.choice) }
    ensures measured { D.tells → IfOk result (λ m. IsMeasured m.choice m.first m.second (D.past disk.old)) }
    ensures faults { MatchResult result (λ _. D.faults disk.new ≡ D.faults disk.old) (λ _. Rose (D.faults disk.old) (D.faults disk.new)) }
    ensures device { (D.past disk.new).device ≡ (D.past disk.old).device }
    ensures rest { D.rest disk.new ≡ D.rest disk.old }
{
    let first = disk.size(0)?;
    let second = disk.size(1)?;
    let first_head = read_head(disk, 0, first)?;
    let second_head = read_head(disk, 1, second)?;
    Ok(Measured {
        first,
        second,
        choice: choose(first_head, second_head),
    })
}

/// Reads the file that counts, if one does.
fn open_measured<D: Disk>(
    alloc: Global,
    disk: &mut D,
    measured: Measured,
) -> Result<Found, OpenFault>
    requires { ChoosesFittingGeneration measured.choice }
    ensures stands { D.tells → AreSettled (D.past disk.old) → IsMeasured measured.choice measured.first measured.second (D.past disk.old) → IfOk result (λ found. StandsIn (journal_found found) (frame_found found) (D.past disk.old) × HasItsGeneration found) }
    ensures bad { (file at : ℕ) → D.tells → AreSettled (D.past disk.old) → IsMeasured measured.choice measured.first measured.second (D.past disk.old) → result ≡ Err (BadStore file at) → HasStoreFrame (content_of (D.past disk.old) 0) (content_of (D.past disk.old) 1) (Bad file at) }
    ensures framed { IfOk result IsFramedFound }
    ensures fresh { IfOk result IsFreshlyFound }
    ensures steps { D.tells → HasReadSteps (D.past disk.old) (D.past disk.new) result }
    ensures cause { HasOpenCause (D.faults disk.old) (D.faults disk.new) result }
    ensures device { (D.past disk.new).device ≡ (D.past disk.old).device }
    ensures rest { D.rest disk.new ≡ D.rest disk.old }
{
    match measured.choice {
        Choice::Bad { file, at } => Err(OpenFault::BadStore { file, at }),
        Choice::Blank => Ok(Found::Blank {
            journal: blank_journal(measured.first, measured.second),
        }),
        Choice::First {
            generation,
            other_blank,
        } => read_store(alloc, disk, 0, generation, measured.second, other_blank),
        Choice::Second {
            generation,
            other_blank,
        } => read_store(alloc, disk, 1, generation, measured.first, other_blank),
    }
}

/// The journal of two blank files of these lengths.
fn blank_journal(first: u64, second: u64) -> Journal
    ensures { IsBlankJournal first second result }
{
    Journal {
        file: 1,
        start: 0,
        gate: 0,
        length: second,
        calls: 0,
        other_length: first,
        other_blank: true,
        stopped: None,
    }
}

/// Reads the file that counts, of this generation. The other one has so many bytes, and is blank or not.
fn read_store<D: Disk>(
    alloc: Global,
    disk: &mut D,
    file: u8,
    generation: u64,
    other_length: u64,
    other_blank: bool,
) -> Result<Found, OpenFault>
    requires file { file < 2 }
    requires generation { IsGeneration generation }
    ensures stands { D.tells → CountsIn file generation other_length other_blank (D.past disk.old) → IfOk result (λ found. StandsIn (journal_found found) (frame_found found) (D.past disk.old) × HasItsGeneration found) }
    ensures bad { (number at : ℕ) → D.tells → CountsIn file generation other_length other_blank (D.past disk.old) → result ≡ Err (BadStore number at) → HasStoreFrame (content_of (D.past disk.old) 0) (content_of (D.past disk.old) 1) (Bad number at) }
    ensures framed { IfOk result IsFramedFound }
    ensures fresh { IfOk result IsFreshlyFound }
    ensures steps { D.tells → HasReadSteps (D.past disk.old) (D.past disk.new) result }
    ensures cause { HasOpenCause (D.faults disk.old) (D.faults disk.new) result }
    ensures device { (D.past disk.new).device ≡ (D.past disk.old).device }
    ensures rest { D.rest disk.new ≡ D.rest disk.old }
{
    match scan(alloc, disk, file) {
        Ok(scanned) => {
            let mut journal = scanned.journal;
            journal.other_length = other_length;
            journal.other_blank = other_blank;
            Ok(Found::Store {
                journal,
                generation,
                snapshot: scanned.snapshot,
                bodies: scanned.bodies,
            })
        }
        Err(ScanFault::Memory) => Err(OpenFault::Memory),
        Err(ScanFault::Disk) => Err(OpenFault::Disk),
        Err(ScanFault::Bad { at }) => Err(OpenFault::BadStore { file, at }),
    }
}
