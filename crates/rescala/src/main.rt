//! The command: its words and standard input go in, answers go out to standard output.
#![tactic(auto)]

ghost use Rattle.std.specs.Prelude.{◌≡◌, [], drop, IfOk};
ghost use Rattle.std.specs.Vec.Iter.{into_iter_items};
ghost use Rattle.re_real.specs.Counts.{seen_of};
ghost use Rattle.re_tool.specs.Endings.{NoMemory, last_line};
ghost use Rattle.re_tool.specs.Session.{Finishes};

#[cfg(test)]
mod tests;

use re_outside::{Gate, say_all};
use re_real::RealWorld;
use re_tool::{Status, tool};
use std::alloc::{AllocError, Global};
use std::env;
use std::env::Args;
use std::io::ErrorKind;
use std::process::ExitCode;

/// A gate that lets every turn pass at once.
struct OpenGate;

impl Gate for OpenGate {
    fn evaluated(&self, _pass: u32, _turn: u32, _count: u32) {}

    fn between(&self, _pass: u32, _turn: u32) {}

    fn after(&self, _pass: u32, _turn: u32) {}
}

/// These words without the first. The one refusal is want of memory.
fn without_first(alloc: Global, mut all: Args) -> Result<Vec<String>, AllocError>
    ensures { IfOk result (λ words. words.items ≡ drop 1 (into_iter_items all)) }
{
    let mut words = Vec::new(alloc);
    let _first = all.next();
    for word in all {
        words.push(word)?;
    }
    Ok(words)
}

/// The words of the command line, without the program's name.
///
/// A command line that isn't text has no words. The one refusal is want of memory.
fn read_words(rt: &HostRuntime) -> Result<Vec<String>, AllocError> {
    match env::args(rt) {
        Ok(all) => without_first(rt.alloc(), all),
        Err(e) if e.kind() == ErrorKind::OutOfMemory => Err(AllocError),
        Err(_) => Ok(Vec::new(rt.alloc())),
    }
}

/// Says that there is no memory, and answers the status that this ends with: that of memory, or
/// that of output where the line could not be said.
fn out_of_memory(out: &mut RealWorld) -> Status
    ensures { Finishes (seen_of out.old) (seen_of out.new) (last_line NoMemory) Status.Memory result }
{
    match say_all(out, b"rescala: no memory\n".as_slice()) {
        Ok(()) => Status::Memory,
        Err(_) => Status::Output,
    }
}

fn main(rt: HostRuntime) -> ExitCode {
    let mut out = RealWorld::new(&rt);
    let status = match read_words(&rt) {
        Ok(words) => tool(&rt, rt.alloc(), words.as_slice(), &mut out, &OpenGate),
        Err(_) => out_of_memory(&mut out),
    };
    ExitCode::from(status.code())
}
