//! What a stop leaves of the files.
ghost use Rattle.std.specs.Prelude.{ℕ, ◌≡◌, ◌<◌, IfOk};
ghost use Rattle.re_outside.specs.Trace.{acts_of};
ghost use Rattle.re_fakes.specs.Files.{file_at, place_of};
ghost use Rattle.re_fakes.specs.Stops.{IsChosen};
ghost use Rattle.re_fakes.specs.Replay.{fill_of};

use crate::Files;
use crate::replay::Replay;
use re_outside::Step;
use re_terms::TryCopy;
use std::alloc::{AllocError, Global};

/// What is taken to be left of each file at a stop.
///
/// `Stable` keeps the synced bytes and length. `Read` gives what reads give. `Sevens` and `Ones`
/// have the greatest length since the last successful sync, and fill each byte that may be any
/// one with 7 or 1.
#[derive(Clone, Copy, Debug, PartialEq, Eq)]
pub enum Choice {
    Stable,
    Read,
    Sevens,
    Ones,
}

impl Choice {
    /// The byte that it puts at each pending place.
    fn fill(self) -> Option<u8>
        ensures { result ≡ fill_of self }
    {
        match self {
            Choice::Stable => None,
            Choice::Read => None,
            Choice::Sevens => Some(7),
            Choice::Ones => Some(1),
        }
    }
}

/// What is left by a choice of the files that were these at first, after the steps.
///
/// The one refusal is want of memory.
pub(crate) fn files_after(
    alloc: Global,
    start: &Files,
    steps: &[Step],
    choice: Choice,
) -> Result<Files, AllocError>
    ensures { IfOk result (λ files. (d f : ℕ) → f < 2 → IsChosen choice (file_at start.now (place_of d f)) (acts_of d f steps.now) (file_at files (place_of d f))) }
{
    let mut replay = Replay {
        alloc,
        fill: choice.fill(),
        now: start.copy(alloc)?,
        left: start.copy(alloc)?,
    };
    for step in steps {
        replay.follow(step)?;
    }
    match choice {
        Choice::Read => Ok(replay.now),
        _ => Ok(replay.left),
    }
}
