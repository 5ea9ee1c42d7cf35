//! Opening the files of a device.
ghost use Rattle.std.specs.Prelude.{◌≡◌, ◌⊎◌, ◌<◌, ◌≤◌, ◌^◌, ◌++◌, ℕ, List, [], None, Ok, Err, true, length, IfOk, OnOk, OnErr};
ghost use Rattle.re_outside.specs.Frame.{IsGeneration, StoreFrame, Blank, Store};
ghost use Rattle.re_outside.specs.Moment.{Throughout};
ghost use Rattle.re_outside.specs.Trace.{content_of, with_steps};
ghost use Rattle.re_journal.specs.Commits.{HasCause};
ghost use Rattle.re_journal.specs.Journals.{frame_of, other_file};
ghost use Rattle.re_journal.specs.Scans.{IsFramed, all_bytes};
ghost use Rattle.re_journal.specs.declared.fault.JournalFault.TheVariants.{Disk as DiskFault};
ghost use Rattle.re_compact.specs.Laying.{IsSnapshot};
ghost use Rattle.re_compact.specs.Pair.{Holds, IsOldOrNew, StandsIn};
ghost use Rattle.re_compact.specs.declared.fault.OpenFault.{OpenFault as TheFault};
ghost use Rattle.re_compact.specs.declared.fault.OpenFault.TheVariants.{BadStore, Disk as DiskRefusal, Memory as MemoryRefusal, OtherProgram};
ghost use Rattle.re_print.specs.Canonical.{program_text};
ghost use Rattle.re_prop.specs.Caching.{signal_words};
ghost use Rattle.re_record.specs.Restoring.{Opened, unopened};
ghost use Rattle.re_record.specs.Snapshots.{HasOtherText};
ghost use Rattle.re_record.specs.Stores.{ComesTo, HasStore, OpensTo, Stored};
ghost use Rattle.re_restore.specs.Opening.{HasPlannedSteps, HasRestoreCause, HasRestoreSteps, IsAnswerTo, IsRestoredOf, StandsOpened, StillOpens, StopsIn, lay_steps, opened_as, start_snapshot};
ghost use Rattle.re_restore.specs.Reading.{IsRefusedStore};
ghost use Rattle.re_restore.specs.Refusals.{refusal_in};
ghost use Rattle.re_terms.specs.Admission.{device_count};
ghost use Rattle.re_terms.specs.Programs.{IsProgram};
ghost use Rattle.re_terms.specs.Shapes.{start_state};
ghost use Rattle.re_terms.specs.Views.{view_of};

use crate::stores::{StoreFault, read_store};
use re_compact::{Found, OpenFault, find_store, prepare_other, publish};
use re_journal::{Journal, JournalFault, frame};
use re_outside::{Bytes, Disk};
use re_prop::Cache;
use re_record::put_snapshot;
use re_terms::{Program, Seq, Shape, State};
use std::alloc::{AllocError, Global};

/// No file that is longer fits into memory.
const MOST_BYTES: u64 = 1 << 62;

/// What the files of a device open to.
#[derive(Drop)]
pub struct Restored {
    pub state: State,
    /// The number of the last entry, 0 where there was none, below 2^48.
    pub number: u64,
    /// The generation of the snapshot that counts, from 1 to 2^62.
    pub generation: u64,
    /// The journal, which stands on the store, and counts its calls from here on.
    pub journal: Journal,
    /// The words of the signals in this state.
    pub cache: Cache,
}

/// The start of a program, as it is laid where both files are blank.
#[derive(Drop)]
struct Beginning {
    state: State,
    cache: Cache,
    framed: Bytes,
}

/// The start of a program, with its cache and the frame of its snapshot. The one refusal is want of memory.
fn begin(alloc: Global, p: &Program, device: u8) -> Result<Beginning, AllocError>
    requires program { IsProgram p.now }
    requires text { length (program_text p.now) ≤ 65536 }
    requires device { device < device_count p.now.decls.items }
    ensures state { IfOk result (λ b. b.state ≡ start_state p.now) }
    ensures cache { IfOk result (λ b. b.cache ≡ signal_words p.now (start_state p.now).words.items (view_of (start_state p.now).rep)) }
    ensures framed { IfOk result (λ b. b.framed.items ≡ frame_of (start_snapshot p.now device)) }
{
    let state = State::start(alloc, p)?;
    let shape = Shape::of(alloc, p)?;
    let snapshot = put_snapshot(alloc, p, &shape, device, 1, 0, &state)?;
    let framed = frame(alloc, snapshot.as_slice())?;
    let cache = Cache::fill(alloc, p, &state)?;
    Ok(Beginning {
        state,
        cache,
        framed,
    })
}

/// The refusal of a store that was found in this file.
fn refusal(file: u8, fault: StoreFault) -> OpenFault
    ensures { result ≡ refusal_in file fault }
{
    match fault {
        StoreFault::Memory => OpenFault::Memory,
        StoreFault::At(at) => OpenFault::BadStore { file, at },
        StoreFault::OtherProgram => OpenFault::OtherProgram,
    }
}

/// Opens a store that was found: its state is read, and the words of its signals are worked out.
fn open_found(
    alloc: Global,
    p: &Program,
    device: u8,
    journal: Journal,
    generation: u64,
    snapshot: &Bytes,
    bodies: &Seq<Bytes>,
) -> Result<Restored, OpenFault>
    requires program { IsProgram p.now }
    requires device { device < device_count p.now.decls.items }
    requires framed { IsFramed journal snapshot.now.items (all_bytes bodies.now.items) }
    requires generation { IsGeneration generation }
    requires running { journal.stopped ≡ None }
    ensures opened { IfOk result (λ r. ComesTo p.now device snapshot.now.items (all_bytes bodies.now.items) (opened_as r)) }
    ensures restored { IfOk result (IsRestoredOf p.now) }
    ensures cache { IfOk result (λ r. r.cache ≡ signal_words p.now r.state.words.items (view_of r.state.rep)) }
    ensures generation { IfOk result (λ r. r.generation ≡ generation) }
    ensures journal { IfOk result (λ r. r.journal ≡ record journal { calls = 0 }) }
    ensures bad { (file at : ℕ) → result ≡ Err (BadStore file at) → (file ≡ journal.file) × IsRefusedStore p.now device snapshot.now.items (all_bytes bodies.now.items) at }
    ensures other { result ≡ Err OtherProgram → HasOtherText p.now device snapshot.now.items }
    ensures no_disk { result ≡ Err DiskRefusal → ⊥ }
{
    if journal.gate >= MOST_BYTES {
        return Err(OpenFault::Memory);
    }
    let found = read_store(alloc, p, device, snapshot.as_slice(), bodies.as_slice());
    let (state, number) = match found {
        Ok(found) => found,
        Err(fault) => return Err(refusal(journal.file, fault)),
    };
    let Ok(cache) = Cache::fill(alloc, p, &state) else {
        return Err(OpenFault::Memory);
    };
    let mut journal = journal;
    journal.count_anew();
    Ok(Restored {
        state,
        number,
        generation,
        journal,
        cache,
    })
}

/// Lays a snapshot into the other file and opens its gate.
fn lay<D: Disk>(journal: &mut Journal, disk: &mut D, framed: &[u8]) -> Result<(), JournalFault>
    requires { journal.old.stopped ≡ None }
    ensures done { D.tells → OnOk result (D.past disk.new ≡ with_steps (D.past disk.old) (lay_steps (D.past disk.old).device (other_file journal.old.file) journal.old.other_blank journal.old.other_length framed.now)) }
    ensures failed { D.tells → OnErr result (StopsIn (lay_steps (D.past disk.old).device (other_file journal.old.file) journal.old.other_blank journal.old.other_length framed.now) (D.past disk.old) (D.past disk.new)) }
    ensures cause { HasCause None (D.faults disk.old) (D.faults disk.new) result }
    ensures each_moment { (snapshot : List ℕ) → D.tells → StandsIn journal.old Blank (D.past disk.old) → framed.now ≡ frame_of snapshot → IsSnapshot snapshot 1 → Throughout (D.past disk.old) (D.past disk.new) (Holds (IsOldOrNew Blank (other_file journal.old.file) snapshot) (D.past disk.old)) }
    ensures stands { (snapshot : List ℕ) → D.tells → OnOk result (StandsIn journal.old Blank (D.past disk.old) → framed.now ≡ frame_of snapshot → IsSnapshot snapshot 1 → StandsIn journal.new (Store (other_file journal.old.file) snapshot []) (D.past disk.new)) }
    ensures running { OnOk result (journal.new.stopped ≡ None) }
    ensures file { OnOk result (journal.new.file ≡ other_file journal.old.file) }
    ensures device { (D.past disk.new).device ≡ (D.past disk.old).device }
    ensures rest { D.rest disk.new ≡ D.rest disk.old }
{
    prepare_other(journal, disk, framed)?;
    publish(journal, disk)
}

/// Lays the start of a program into file 0, where both files are blank.
fn open_blank<D: Disk>(
    alloc: Global,
    disk: &mut D,
    p: &Program,
    device: u8,
    journal: Journal,
) -> Result<Restored, OpenFault>
    requires program { IsProgram p.now }
    requires text { length (program_text p.now) ≤ 65536 }
    requires device { device < device_count p.now.decls.items }
    requires running { journal.stopped ≡ None }
    ensures opened { IfOk result (λ r. opened_as r ≡ unopened p.now) }
    ensures restored { IfOk result (IsRestoredOf p.now) }
    ensures cache { IfOk result (λ r. r.cache ≡ signal_words p.now r.state.words.items (view_of r.state.rep)) }
    ensures generation { IfOk result (λ r. r.generation ≡ 1) }
    ensures running { IfOk result (λ r. (r.journal.calls ≡ 0) × (r.journal.stopped ≡ None)) }
    ensures stands { D.tells → IfOk result (λ r. StandsIn journal Blank (D.past disk.old) → StandsIn r.journal (Store (other_file journal.file) (start_snapshot p.now device) []) (D.past disk.new)) }
    ensures each_moment { D.tells → StandsIn journal Blank (D.past disk.old) → Throughout (D.past disk.old) (D.past disk.new) (Holds (IsOldOrNew Blank (other_file journal.file) (start_snapshot p.now device)) (D.past disk.old)) }
    ensures steps { D.tells → HasPlannedSteps (lay_steps (D.past disk.old).device (other_file journal.file) journal.other_blank journal.other_length (frame_of (start_snapshot p.now device))) (D.past disk.old) (D.past disk.new) result }
    ensures refused { (fault : TheFault) → result ≡ Err fault → (fault ≡ MemoryRefusal) ⊎ (fault ≡ DiskRefusal) }
    ensures cause { HasRestoreCause (D.faults disk.old) (D.faults disk.new) result }
    ensures device { (D.past disk.new).device ≡ (D.past disk.old).device }
    ensures rest { D.rest disk.new ≡ D.rest disk.old }
{
    let Ok(beginning) = begin(alloc, p, device) else {
        return Err(OpenFault::Memory);
    };
    let mut journal = journal;
    match lay(&mut journal, disk, beginning.framed.as_slice()) {
        Ok(()) => {}
        Err(_) => return Err(OpenFault::Disk),
    }
    journal.count_anew();
    Ok(Restored {
        state: beginning.state,
        number: 0,
        generation: 1,
        journal,
        cache: beginning.cache,
    })
}

/// Opens the files of the device with this place among the program's devices: the state to which they open, and the entry
/// number, the journal that stands on them, and the words of the signals. docs/FORMATS.md has the rules.
///
/// It begins with a sync of each file. Where both files are blank the start of the program is laid into file 0, with generation
/// 1. Each entry's changes are taken as they stand, and no fold's step is run. All memory is taken before anything is laid.
///
/// `Disk` comes exactly where the disk failed in this call; `BadStore` names the first place that is refused, and its file;
/// `OtherProgram` comes where the stored text isn't the program's; `Memory` where there is no memory. What a refused opening has
/// written stays.
///
/// The conditions are that the program has the device, and that its canonical text has at most 65,536 bytes.
pub fn restore<D: Disk>(
    alloc: Global,
    disk: &mut D,
    p: &Program,
    device: u8,
) -> Result<Restored, OpenFault>
    requires program { IsProgram p.now }
    requires text { length (program_text p.now) ≤ 65536 }
    requires device { device < device_count p.now.decls.items }
    // What is restored is that to which the files open, as they read.
    ensures opened { D.tells → IfOk result (λ r. OpensTo p.now device (content_of (D.past disk.old) 0) (content_of (D.past disk.old) 1) (opened_as r)) }
    ensures restored { IfOk result (IsRestoredOf p.now) }
    ensures cache { IfOk result (λ r. r.cache ≡ signal_words p.now r.state.words.items (view_of r.state.rep)) }

    // The journal stands on the store that then is there.
    ensures stands { D.tells → IfOk result (λ r. StandsOpened p.now device r (D.past disk.new)) }
    ensures running { IfOk result (λ r. (r.journal.calls ≡ 0) × (r.journal.stopped ≡ None)) }

    // A stop at any moment leaves what one could have left before, or files that open to the start, where both were blank.
    ensures each_moment { D.tells → Throughout (D.past disk.old) (D.past disk.new) (StillOpens p.now device (D.past disk.old)) }

    // The two syncs, where both files are blank the laying behind them, and no other step, up to the first call that failed.
    ensures steps { D.tells → HasRestoreSteps p.now device (D.past disk.old) (D.past disk.new) result }

    ensures bad { (file at : ℕ) → D.tells → result ≡ Err (BadStore file at) → HasStore p.now device (content_of (D.past disk.old) 0) (content_of (D.past disk.old) 1) (Stored.Bad file at) }
    ensures other { D.tells → result ≡ Err OtherProgram → HasStore p.now device (content_of (D.past disk.old) 0) (content_of (D.past disk.old) 1) Stored.OtherProgram }
    // What the files hold decides the answer, unless the disk fails or memory runs out.
    ensures decided { (stored : Stored) → D.tells → HasStore p.now device (content_of (D.past disk.old) 0) (content_of (D.past disk.old) 1) stored → IsAnswerTo p.now device stored result }

    // Whatever it answers, the files then read as a store of the same state.
    ensures reads { (o : Opened) → D.tells → OpensTo p.now device (content_of (D.past disk.old) 0) (content_of (D.past disk.old) 1) o → OpensTo p.now device (content_of (D.past disk.new) 0) (content_of (D.past disk.new) 1) o }

    ensures cause { HasRestoreCause (D.faults disk.old) (D.faults disk.new) result }
    ensures device { (D.past disk.new).device ≡ (D.past disk.old).device }
    ensures rest { D.rest disk.new ≡ D.rest disk.old }
{
    match find_store(alloc, disk)? {
        Found::Blank { journal } => open_blank(alloc, disk, p, device, journal),
        Found::Store {
            journal,
            generation,
            snapshot,
            bodies,
        } => open_found(alloc, p, device, journal, generation, &snapshot, &bodies),
    }
}
