//! Runs over a world in memory, each over the files that a stop left of the one before.
ghost use Rattle.std.specs.Prelude.{◌≡◌, IfOk, IfSome, IsNone};
ghost use Rattle.re_tool.specs.Relay.{IsPast, KeepsLog, Passes, Relays, StopsPast, steps_of};

use crate::running::session;
use crate::words::Job;
use re_fakes::{Choice, Files, MemoryWorld};
use re_outside::{Bytes, Step};
use re_terms::Seq;
use std::alloc::{AllocError, Global};

/// One run of a relay, and where it is stopped.
#[derive(Drop)]
pub struct Leg {
    /// All that the run may read.
    pub input: Bytes,
    /// How many steps of the run stand before the stop.
    pub stop: u64,
    /// What is taken to be left of the files.
    pub choice: Choice,
}

/// What a relay left.
#[derive(Drop)]
pub struct Relayed {
    /// The files behind the last stop.
    pub files: Files,
    /// The steps of each run, those behind its stop as well.
    pub traces: Seq<Seq<Step>>,
}

/// A run that was stopped.
#[derive(Drop)]
struct Stopped {
    files: Files,
    trace: Seq<Step>,
}

/// The same steps.
fn copy_steps(alloc: Global, steps: &Seq<Step>) -> Result<Seq<Step>, AllocError>
    ensures { IfOk result (λ copied. copied.items ≡ steps.now.items) }
{
    let mut copied = Seq::new(alloc);
    for step in steps.as_slice() {
        copied.push(step.copy(alloc)?)?;
    }
    Ok(copied)
}

/// Runs a leg over these files. It is `None` where the run has fewer steps than its stop.
fn run_leg(alloc: Global, job: &Job, leg: &Leg, files: Files) -> Result<Option<Stopped>, AllocError>
    requires run { job.now ≡ Job.Run }
    ensures passes { IfOk result (λ ended. IfSome ended (λ stopped. Passes leg.now files stopped.trace.items stopped.files)) }
    ensures past { IfOk result (λ ended. IsNone ended → IsPast leg.now files) }
{
    let mut world = MemoryWorld::new(alloc, leg.input.as_slice(), files, Seq::new(alloc))?;
    session(alloc, job, &mut world);
    if !world.is_faultless() {
        return Err(AllocError);
    }
    let Some(files) = world.stop_at(leg.stop, leg.choice)? else {
        return Ok(None);
    };
    let trace = copy_steps(alloc, world.trace())?;
    Ok(Some(Stopped { files, trace }))
}

/// Runs the session of each leg over a world in memory, the first over these files and each other one over those that the stop of the
/// one before left.
///
/// `None` comes exactly where a run has fewer steps than its stop. No call fails, so that a count of faults rises only where memory ran out for
/// a step or a file; want of memory is the one refusal, and is answered there too. `docs/PROMISES.md` says what stands behind the stops.
pub fn relay(
    alloc: Global,
    job: &Job,
    legs: &Seq<Leg>,
    files: Files,
) -> Result<Option<Relayed>, AllocError>
    requires run { job.now ≡ Job.Run }
    ensures relays { IfOk result (λ ended. IfSome ended (λ relayed. Relays legs.now.items files (steps_of relayed.traces.items) relayed.files)) }
    ensures log { IfOk result (λ ended. IfSome ended (λ relayed. KeepsLog legs.now.items files relayed.files)) }
    ensures past { IfOk result (λ ended. IsNone ended → StopsPast legs.now.items files) }
{
    let mut files = files;
    let mut traces = Seq::new(alloc);
    for leg in legs.as_slice() {
        let Some(stopped) = run_leg(alloc, job, leg, files)? else {
            return Ok(None);
        };
        traces.push(stopped.trace)?;
        files = stopped.files;
    }
    Ok(Some(Relayed { files, traces }))
}
