//! Replaying the records of a store, one behind the other.
ghost use Rattle.std.specs.Prelude.{◌≡◌, ◌<◌, ◌≤◌, ◌^◌, ◌+◌, ℕ, length, Ok, Err, None, Some, IfOk, OnOk, take};
ghost use Rattle.std.specs.List.{All, flat_map};
ghost use Rattle.re_outside.specs.Frame.{opened};
ghost use Rattle.re_record.specs.Logs.{IsLoggedOf, IsRecordOf};
ghost use Rattle.re_record.specs.Restoring.{AreAccepted, IsFirstRefused, after_all};
ghost use Rattle.re_record.specs.Stores.{IsBadRecord, tag_place};
ghost use Rattle.re_restore.specs.Replaying.{HasRefusedRecord, HasReplayed, HasReplayedRecord, IsReplayOf, items_of, replayed};
ghost use Rattle.re_restore.specs.declared.records.ReplayFault.TheVariants.{At};
ghost use Rattle.re_terms.specs.Programs.{IsProgram};
ghost use Rattle.re_terms.specs.Shapes.{shape_of};

use crate::entries::EntryFault;
use crate::replay::Replay;
use re_outside::Bytes;
use re_record::{get_entries, put_entries};
use re_terms::{Logged, Program, Seq, Shape};
use re_wire::WireFault;
use std::alloc::{AllocError, Global};

/// Why records aren't replayed.
#[derive(Clone, Copy)]
pub enum ReplayFault {
    Memory,
    /// The first place that is refused.
    At(u64),
}

impl From<AllocError> for ReplayFault {
    ghost use Rattle.re_restore.specs.declared.records.ReplayFault.TheVariants.{Memory};

    ghost from_gives = { λ _ e. e ≡ Memory };

    fn from(_e: AllocError) -> ReplayFault {
        ReplayFault::Memory
    }
}

impl From<WireFault> for ReplayFault {
    ghost use Rattle.re_restore.specs.Refusals.{replay_fault_of};

    ghost from_gives = { λ w e. e ≡ replay_fault_of w };

    fn from(e: WireFault) -> ReplayFault {
        match e {
            WireFault::Memory => ReplayFault::Memory,
            WireFault::At(place) => ReplayFault::At(u64::from(place)),
        }
    }
}

/// Replays entries, up to the first that a limit refuses, whose place among them is the answer.
fn replay_entries(
    replay: &mut Replay,
    p: &Program,
    entries: &[Logged],
) -> Result<Option<usize>, AllocError>
    requires keeps { IsReplayOf p.now replay.old }
    requires entries { All (IsLoggedOf p.now) entries.now }
    ensures keeps { result ≡ Ok None → IsReplayOf p.now replay.new }
    ensures device { result ≡ Ok None → replay.new.replica.device ≡ replay.old.replica.device }
    ensures all { result ≡ Ok None → replayed replay.new ≡ after_all p.now replay.old.replica.device entries.now (replayed replay.old) }
    ensures accepted { result ≡ Ok None → AreAccepted p.now replay.old.replica.device (replayed replay.old) entries.now }
    ensures refused { (i : ℕ) → result ≡ Ok (Some i) → IsFirstRefused p.now replay.old.replica.device (replayed replay.old) entries.now (take i entries.now) }
    ensures within { (i : ℕ) → result ≡ Ok (Some i) → i < length entries.now }
{
    for (i, logged) in entries.iter().enumerate() {
        match replay.replay_entry(p, logged) {
            Ok(()) => {}
            Err(EntryFault::Memory) => return Err(AllocError),
            Err(EntryFault::Limit) => return Ok(Some(i)),
        }
    }
    Ok(None)
}

/// Where the tag of the entry at this place stands in its record. The one refusal is want of memory.
fn tag_place(
    alloc: Global,
    entries: Seq<Logged>,
    i: usize,
    p: &Program,
    shape: &Shape,
) -> Result<u64, AllocError>
    requires program { IsProgram p.now }
    requires shape { shape.now ≡ shape_of p.now }
    requires record { IsRecordOf p.now entries.items }
    requires within { i < length entries.items }
    ensures place { IfOk result (λ place. place ≡ tag_place p.now (take i entries.items)) }
    ensures fits { IfOk result (λ place. place < 2 ^ 63) }
{
    if i == 0 {
        return Ok(1);
    }
    let mut before = entries;
    before.truncate(i);
    Ok(put_entries(alloc, &before, shape)?.len() as u64)
}

/// Replays the record with these bytes. `At` is the first place of it that is refused: by its bytes, or, where they read, the
/// tag of the first entry that a limit refuses.
fn replay_record(
    alloc: Global,
    replay: &mut Replay,
    p: &Program,
    shape: &Shape,
    body: &[u8],
) -> Result<(), ReplayFault>
    requires program { IsProgram p.now }
    requires shape { shape.now ≡ shape_of p.now }
    requires keeps { IsReplayOf p.now replay.old }
    requires limit { length body.now < 2 ^ 32 }
    ensures keeps { OnOk result (IsReplayOf p.now replay.new) }
    ensures device { OnOk result (replay.new.replica.device ≡ replay.old.replica.device) }
    ensures record { OnOk result (HasReplayedRecord p.now replay.old.replica.device (replayed replay.old) body.now (replayed replay.new)) }
    ensures bad { (place : ℕ) → result ≡ Err (At place) → IsBadRecord p.now replay.old.replica.device (replayed replay.old) body.now place }
    ensures fits { (place : ℕ) → result ≡ Err (At place) → place < 2 ^ 63 }
{
    let entries = get_entries(alloc, body, p, shape)?;
    match replay_entries(replay, p, entries.as_slice())? {
        None => Ok(()),
        Some(i) => {
            let place = tag_place(alloc, entries, i, p, shape)?;
            Err(ReplayFault::At(place))
        }
    }
}

/// Replays the records with these bytes, one behind the other, the first of which has its gate at `start` in the file. `At` is
/// the first place of the file that is refused.
pub fn replay_records(
    alloc: Global,
    replay: &mut Replay,
    p: &Program,
    shape: &Shape,
    start: u64,
    bodies: &[Bytes],
) -> Result<(), ReplayFault>
    requires program { IsProgram p.now }
    requires shape { shape.now ≡ shape_of p.now }
    requires keeps { IsReplayOf p.now replay.old }
    requires bodies { All (λ body. length body.items ≤ 65536) bodies.now }
    requires limit { start + length (flat_map opened (items_of bodies.now)) < 2 ^ 63 }
    ensures keeps { OnOk result (IsReplayOf p.now replay.new) }
    ensures device { OnOk result (replay.new.replica.device ≡ replay.old.replica.device) }
    ensures records { OnOk result (HasReplayed p.now replay.old.replica.device (replayed replay.old) (items_of bodies.now) (replayed replay.new)) }
    ensures bad { (place : ℕ) → result ≡ Err (At place) → HasRefusedRecord p.now replay.old.replica.device (replayed replay.old) start (items_of bodies.now) place }
{
    let mut gate = start;
    for body in bodies {
        match replay_record(alloc, replay, p, shape, body.as_slice()) {
            Ok(()) => gate += 5 + body.len() as u64,
            Err(ReplayFault::Memory) => return Err(ReplayFault::Memory),
            Err(ReplayFault::At(place)) => return Err(ReplayFault::At(gate + 5 + place)),
        }
    }
    Ok(())
}
