//! The top call.
ghost use Rattle.std.specs.Prelude.{◌≡◌, Some, None, map};
ghost use Rattle.std.specs.String.{string_bytes};
ghost use Rattle.re_tool.specs.Causes.{Completes, EndCause, InputCause, OpeningCause, OutputCause, ProgramCause, TooLongCause};
ghost use Rattle.re_tool.specs.Failures.{StopsAtFailures};
ghost use Rattle.re_tool.specs.Session.{Runs, Refuses};
ghost use Rattle.re_tool.specs.Stops.{Survives};
ghost use Rattle.re_tool.specs.Words.{job_of};

use crate::running::{finish, session};
use crate::status::Status;
use crate::words::{Job, Wish, WordFault, read_words};
use re_outside::{Gate, Outside};
use std::alloc::Global;
use std::sync::Wait;
use std::thread::Threads;

/// Reads the words of a command line and does what they ask for, and gives the status that the
/// process is to end with.
///
/// Words that aren't accepted are refused with `rescala: bad words`. `docs/SESSION.md` has all
/// statuses. The runtime and the gate serve commands that run in threads.
pub fn tool<R: Threads + Wait + Sync, O: Outside + Send, G: Gate>(
    _rt: &R,
    alloc: Global,
    words: &[String],
    out: &mut O,
    _gate: &G,
) -> Status
    ensures runs { (job : Job) → job_of (map string_bytes words.now) ≡ Some job → Runs job (O.Outside.seen out.old) (O.Outside.seen out.new) result }
    ensures survives { (job : Job) → job_of (map string_bytes words.now) ≡ Some job → Survives job (O.Outside.seen out.old) (O.Outside.seen out.new) result }
    ensures refused { job_of (map string_bytes words.now) ≡ None → Refuses (O.Outside.seen out.old) (O.Outside.seen out.new) result }
    ensures words { result ≡ Status.Words → job_of (map string_bytes words.now) ≡ None }
    ensures end { (job : Job) → job_of (map string_bytes words.now) ≡ Some job → EndCause job (O.Outside.seen out.old) (O.Outside.seen out.new) result }
    ensures program { (job : Job) → job_of (map string_bytes words.now) ≡ Some job → ProgramCause (O.Outside.seen out.old) (O.Outside.seen out.new) result }
    ensures opening { (job : Job) → job_of (map string_bytes words.now) ≡ Some job → OpeningCause job (O.Outside.seen out.old) (O.Outside.seen out.new) result }
    ensures input { InputCause (O.Outside.seen out.old) (O.Outside.seen out.new) result }
    ensures output { OutputCause (O.Outside.seen out.old) (O.Outside.seen out.new) result }
    ensures too_long { TooLongCause (O.Outside.seen out.old) (O.Outside.seen out.new) result }
    ensures complete { (job : Job) → job_of (map string_bytes words.now) ≡ Some job → Completes job (O.Outside.seen out.old) (O.Outside.seen out.new) result }
    ensures failures { StopsAtFailures (O.Outside.seen out.old) (O.Outside.seen out.new) result }
{
    match read_words(alloc, words) {
        Ok(Wish::Job(job)) => session(alloc, &job, out),
        Err(WordFault::Words) => finish(out, Status::Words),
        Err(WordFault::Memory) => finish(out, Status::Memory),
    }
}
