//! Reading the frame of one file.
ghost use Rattle.std.specs.Prelude.{◌≡◌, ◌+◌, ◌<◌, ◌≤◌, ◌^◌, ◌==◌, ◌||◌, nat_le, [], false, length, IfOk, IfSome, ℕ, Err};
ghost use Rattle.re_outside.specs.Frame.{is_blank, generation, IsSnapshotLength, IsGeneration, IsRecordLength, IsRefusedBody, ReadsTo};
ghost use Rattle.re_outside.specs.Trace.{content_of};
ghost use Rattle.re_journal.specs.Journals.{HasGates};
ghost use Rattle.re_journal.specs.Readings.{coming, KnowsSize, Passes, IsBetween, FoundFramed, RefusesBehind, FoundRecord, PassesRecord, IsRefusedRecord};
ghost use Rattle.re_journal.specs.Scans.{all_bytes, IsRefusedAt, IsFramed, IsFresh, HasScanSteps, HasScanCause};
ghost use Rattle.re_journal.specs.declared.fault.ScanFault.TheVariants.{Bad};

use crate::reader::Reader;
use crate::{Journal, ScanFault};
use re_outside::{Bytes, Disk};
use re_terms::Seq;
use std::alloc::Global;

/// The most bytes that the journal of a file has at an open gate, where the generation isn't the last.
const JOURNAL_BYTES: u64 = 65_536;

/// The last generation.
const LAST_GENERATION: u64 = 1 << 62;

/// What a file holds: its snapshot and its records, and the journal that goes on behind them.
#[derive(Drop)]
pub struct Scanned {
    pub journal: Journal,
    /// 8 to 131,072 bytes, which begin with a generation.
    pub snapshot: Bytes,
    /// The records in order, each of 1 to 65,536 bytes.
    pub bodies: Seq<Bytes>,
}

/// The generation that a snapshot of 8 bytes or more begins with.
fn generation(snapshot: &[u8]) -> u64
    requires { 8 ≤ length snapshot.now }
    ensures { result ≡ generation snapshot.now }
{
    let (front, _) = snapshot.split_at(8);
    u64::from_be_bytes([
        front[0], front[1], front[2], front[3], front[4], front[5], front[6], front[7],
    ])
}

/// Whether a gate may be open in a file of this generation, so many bytes behind the first gate of its records.
fn may_be_open(generation: u64, behind: u64) -> bool
    ensures { result ≡ (nat_le behind 65537 || generation == 2 ^ 62) }
{
    behind <= JOURNAL_BYTES + 1 || generation == LAST_GENERATION
}

/// Reads a length, which is at least `least` and at most `most`, and the body behind it.
fn framed_body<D: Disk>(
    alloc: Global,
    disk: &mut D,
    reader: &mut Reader,
    least: u32,
    most: u32,
) -> Result<Bytes, ScanFault>
    ensures found { D.tells → KnowsSize reader.old (D.past disk.old) → IfOk result (λ body. FoundFramed body.items reader.old reader.new (D.past disk.old)) }
    ensures bad { (place : ℕ) → D.tells → KnowsSize reader.old (D.past disk.old) → result ≡ Err (Bad place) → RefusesBehind (IsRefusedBody (IsBetween least most) (coming reader.old (D.past disk.old))) reader.old place }
    ensures fits { IfOk result (λ body. IsBetween least most (length body.items)) }
    ensures passes { IfOk result (λ body. Passes (4 + length body.items) reader.old reader.new) }
    ensures steps { D.tells → HasScanSteps reader.old.file (D.past disk.old) (D.past disk.new) result }
    ensures cause { HasScanCause (D.faults disk.old) (D.faults disk.new) result }
    ensures device { (D.past disk.new).device ≡ (D.past disk.old).device }
    ensures rest { D.rest disk.new ≡ D.rest disk.old }
{
    let at = reader.place;
    let Some(size) = reader.number(disk)? else {
        return Err(ScanFault::Bad { at });
    };
    if size < least || most < size {
        return Err(ScanFault::Bad { at });
    }
    let first = reader.place;
    let Some(body) = reader.body(alloc, disk, size)? else {
        return Err(ScanFault::Bad { at: first });
    };
    Ok(body)
}

/// Reads the first gate of a file, the length of its snapshot and the snapshot.
fn head<D: Disk>(alloc: Global, disk: &mut D, reader: &mut Reader) -> Result<Bytes, ScanFault>
    ensures found { D.tells → KnowsSize reader.old (D.past disk.old) → IfOk result (λ snapshot. ReadsTo (coming reader.old (D.past disk.old)) snapshot.items [] (coming reader.new (D.past disk.old))) }
    ensures bad { (place : ℕ) → D.tells → KnowsSize reader.old (D.past disk.old) → is_blank (coming reader.old (D.past disk.old)) ≡ false → reader.old.place ≡ 0 → result ≡ Err (Bad place) → IsRefusedAt (coming reader.old (D.past disk.old)) place }
    ensures length { IfOk result (λ snapshot. IsSnapshotLength (length snapshot.items)) }
    ensures generation { IfOk result (λ snapshot. IsGeneration (generation snapshot.items)) }
    ensures passes { IfOk result (λ snapshot. Passes (5 + length snapshot.items) reader.old reader.new) }
    ensures steps { D.tells → HasScanSteps reader.old.file (D.past disk.old) (D.past disk.new) result }
    ensures cause { HasScanCause (D.faults disk.old) (D.faults disk.new) result }
    ensures device { (D.past disk.new).device ≡ (D.past disk.old).device }
    ensures rest { D.rest disk.new ≡ D.rest disk.old }
{
    let Some(1) = reader.byte(disk)? else {
        return Err(ScanFault::Bad { at: 0 });
    };
    let snapshot = framed_body(alloc, disk, reader, 8, 131_072)?;
    let number = generation(snapshot.as_slice());
    if number < 1 || LAST_GENERATION < number {
        return Err(ScanFault::Bad { at: 5 });
    }
    Ok(snapshot)
}

/// Reads a gate and, where it is open, the record behind it. It gives `None` where the gate is closed.
fn record<D: Disk>(
    alloc: Global,
    disk: &mut D,
    reader: &mut Reader,
    may_open: bool,
) -> Result<Option<Bytes>, ScanFault>
    ensures found { D.tells → KnowsSize reader.old (D.past disk.old) → IfOk result (FoundRecord may_open reader.old reader.new (D.past disk.old)) }
    ensures bad { (place : ℕ) → D.tells → KnowsSize reader.old (D.past disk.old) → result ≡ Err (Bad place) → RefusesBehind (IsRefusedRecord may_open (coming reader.old (D.past disk.old))) reader.old place }
    ensures fits { IfOk result (λ found. IfSome found (λ body. IsRecordLength (length body.items))) }
    ensures passes { IfOk result (PassesRecord reader.old reader.new) }
    ensures room { IfOk result (λ _. reader.old.place + 1 < 2 ^ 64) }
    ensures ahead { IfOk result (λ _. reader.old.place + 1 ≤ reader.new.place) }
    ensures steps { D.tells → HasScanSteps reader.old.file (D.past disk.old) (D.past disk.new) result }
    ensures cause { HasScanCause (D.faults disk.old) (D.faults disk.new) result }
    ensures device { (D.past disk.new).device ≡ (D.past disk.old).device }
    ensures rest { D.rest disk.new ≡ D.rest disk.old }
{
    let at = reader.place;
    let Some(gate) = reader.byte(disk)? else {
        return Err(ScanFault::Bad { at });
    };
    if gate != 1 {
        return Ok(None);
    }
    if !may_open {
        return Err(ScanFault::Bad { at });
    }
    Ok(Some(framed_body(alloc, disk, reader, 1, 65_536)?))
}

/// Reads the frame of a file that isn't blank, up to its first closed gate. docs/FORMATS.md has the layout.
///
/// It reads the file in pieces of fixed size, each byte at most once, and looks at nothing behind that gate. It takes memory for
/// what it gives, and a constant more. `Bad` names the first field that is cut off or isn't allowed, `Disk` comes where a call on
/// the disk failed, and `Memory` where there is no memory. The journal that it gives knows nothing of the other file.
pub fn scan<D: Disk>(alloc: Global, disk: &mut D, file: u8) -> Result<Scanned, ScanFault>
    requires { file < 2 }
    // What it holds, or the place at which it is refused.
    ensures frame { D.tells → is_blank (content_of (D.past disk.old) file) ≡ false → IfOk result (λ found. HasGates found.journal (content_of (D.past disk.old) file) found.snapshot.items (all_bytes found.bodies.items)) }
    ensures bad { (at : ℕ) → D.tells → is_blank (content_of (D.past disk.old) file) ≡ false → result ≡ Err (Bad at) → IsRefusedAt (content_of (D.past disk.old) file) at }
    ensures size { D.tells → IfOk result (λ found. found.journal.length ≡ length (content_of (D.past disk.old) file)) }
    ensures fresh { IfOk result (λ found. IsFresh found.journal file) }

    // Whatever the disk tells of its content, what it gives has the lengths and the generation that a store may have.
    ensures framed { IfOk result (λ found. IsFramed found.journal found.snapshot.items (all_bytes found.bodies.items)) }

    ensures steps { D.tells → HasScanSteps file (D.past disk.old) (D.past disk.new) result }
    ensures cause { HasScanCause (D.faults disk.old) (D.faults disk.new) result }
    ensures device { (D.past disk.new).device ≡ (D.past disk.old).device }
    ensures rest { D.rest disk.new ≡ D.rest disk.old }
{
    let mut reader = Reader::open(alloc, disk, file)?;
    let snapshot = head(alloc, disk, &mut reader)?;
    let number = generation(snapshot.as_slice());
    let start = reader.place;
    let mut bodies = Seq::new(alloc);
    loop {
        let gate = reader.place;
        let may_open = may_be_open(number, gate - start);
        let Some(body) = record(alloc, disk, &mut reader, may_open)? else {
            let journal = Journal {
                file,
                start,
                gate,
                length: reader.size,
                calls: 0,
                other_length: 0,
                other_blank: true,
                stopped: None,
            };
            return Ok(Scanned {
                journal,
                snapshot,
                bodies,
            });
        };
        bodies.push(body)?;
    }
}
