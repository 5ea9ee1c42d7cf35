//! Reading the store of one file: its snapshot, and the records behind it.
ghost use Rattle.std.specs.Prelude.{◌≡◌, ◌<◌, ◌≤◌, ◌+◌, ◌^◌, ℕ, length, IfOk};
ghost use Rattle.std.specs.List.{All, flat_map};
ghost use Rattle.re_outside.specs.Frame.{IsGeneration, IsSnapshotLength, generation, opened};
ghost use Rattle.re_record.specs.Snapshots.{HasOtherText};
ghost use Rattle.re_restore.specs.Reading.{IsRefusedStore};
ghost use Rattle.re_record.specs.Stores.{ComesTo};
ghost use Rattle.re_restore.specs.Replaying.{items_of};
ghost use Rattle.re_restore.specs.declared.stores.StoreFault.TheVariants.{At, OtherProgram};
ghost use Rattle.re_terms.specs.Admission.{device_count};
ghost use Rattle.re_terms.specs.Programs.{IsProgram};
ghost use Rattle.re_terms.specs.WordKinds.{IsStateOf};

use crate::records::{ReplayFault, replay_records};
use crate::replay::Replay;
use re_outside::Bytes;
use re_record::{SnapshotFault, get_snapshot};
use re_terms::{Program, Shape, State, TryCopy};
use std::alloc::{AllocError, Global};

/// Why the store of a file isn't opened.
#[derive(Clone, Copy, Debug, PartialEq, Eq)]
pub enum StoreFault {
    /// There is no memory for what it holds.
    Memory,
    /// The first place of the file that is refused.
    At(u64),
    /// The stored text isn't the canonical text of the program in hand.
    OtherProgram,
}

impl From<AllocError> for StoreFault {
    ghost use Rattle.re_restore.specs.declared.stores.StoreFault.TheVariants.{Memory};

    ghost from_gives = { λ _ e. e ≡ Memory };

    fn from(_e: AllocError) -> StoreFault {
        StoreFault::Memory
    }
}

impl From<SnapshotFault> for StoreFault {
    ghost use Rattle.re_restore.specs.Refusals.{snapshot_refusal};

    ghost from_gives = { λ f e. e ≡ snapshot_refusal f };

    fn from(e: SnapshotFault) -> StoreFault {
        match e {
            SnapshotFault::Memory => StoreFault::Memory,
            SnapshotFault::At(place) => StoreFault::At(5 + u64::from(place)),
            SnapshotFault::OtherText => StoreFault::OtherProgram,
        }
    }
}

impl From<ReplayFault> for StoreFault {
    ghost use Rattle.re_restore.specs.Refusals.{record_refusal};

    ghost from_gives = { λ f e. e ≡ record_refusal f };

    fn from(e: ReplayFault) -> StoreFault {
        match e {
            ReplayFault::Memory => StoreFault::Memory,
            ReplayFault::At(place) => StoreFault::At(place),
        }
    }
}

/// The state and the entry number, below 2^48, that a file's snapshot and the records behind it come to. Each entry's changes
/// are put as they stand, and its operations or its merge are done; no fold's step is run. docs/FORMATS.md has the rules.
///
/// The conditions are that the program has the device, that the snapshot has 8 to 131,072 bytes and begins with a generation
/// from 1 to 2^62, and that each record has at most 65,536 bytes and all of them fit into a file.
///
/// `At` names the first place of the file that is refused, `OtherProgram` comes where the snapshot's text is another one, and
/// `Memory` where there is no memory.
pub fn read_store(
    alloc: Global,
    p: &Program,
    device: u8,
    snapshot: &[u8],
    bodies: &[Bytes],
) -> Result<(State, u64), StoreFault>
    requires program { IsProgram p.now }
    requires device { device < device_count p.now.decls.items }
    requires snapshot { IsSnapshotLength (length snapshot.now) }
    requires generation { IsGeneration (generation snapshot.now) }
    requires bodies { All (λ body. length body.items ≤ 65536) bodies.now }
    requires limit { 5 + length snapshot.now + length (flat_map opened (items_of bodies.now)) < 2 ^ 63 }
    ensures opened { IfOk result (λ x. ComesTo p.now device snapshot.now (items_of bodies.now) (record { state = x.0; number = x.1 })) }
    ensures fits { IfOk result (λ x. IsStateOf p.now x.0 × (x.1 < 2 ^ 48)) }
    ensures bad { (place : ℕ) → result ≡ Err (At place) → IsRefusedStore p.now device snapshot.now (items_of bodies.now) place }
    ensures other { result ≡ Err OtherProgram → HasOtherText p.now device snapshot.now }
{
    let shape = Shape::of(alloc, p)?;
    let kept = shape.copy(alloc)?;
    let found = get_snapshot(alloc, snapshot, p, &shape, device)?;
    let mut replay = Replay::of(alloc, p, kept, device, found.state, found.number)?;
    let start = 5 + snapshot.len() as u64;
    replay_records(alloc, &mut replay, p, &shape, start, bodies)?;
    Ok(replay.into_state())
}
