//! A whole run over a stream.
ghost use Rattle.std.specs.Prelude.{◌≡◌, ◌≢◌, ◌≤◌, ◌<◌, ◌⊎◌, [], length, IfOk, OnOk, OnErr, Err};
ghost use Rattle.re_outside.specs.Outside.{Seen, Does, Breaks, none};
ghost use Rattle.re_print.specs.Canonical.{program_text};
ghost use Rattle.re_terms.specs.Programs.{IsProgram};
ghost use Rattle.re_tool.specs.Answers.{unopened_end};
ghost use Rattle.re_tool.specs.Causes.{Completes, EndCause, InputCause, OpeningCause, OutputCause, ProgramCause, TooLongCause};
ghost use Rattle.re_tool.specs.Clipped.{Clipped};
ghost use Rattle.re_tool.specs.Endings.{RefusedProgram, NoMemory, status_at, last_line, plain_ending};
ghost use Rattle.re_tool.specs.Failures.{StopsAtFailures};
ghost use Rattle.re_tool.specs.Opening.{Opens};
ghost use Rattle.re_tool.specs.PartReading.{PartIs};
ghost use Rattle.re_tool.specs.Reads.{limit};
ghost use Rattle.re_tool.specs.Serving.{Starts};
ghost use Rattle.re_tool.specs.Session.{Finishes, Runs};
ghost use Rattle.re_tool.specs.Stops.{Survives};
ghost use Rattle.re_tool.specs.Verdict.{Accepted, Decides, text_limit};

use crate::faults::{ProgramFault, Refusal, refusal_text};
use crate::line::ClippedLine;
use crate::opening::{open_devices, refuse_opening};
use crate::part::{Stop, read_part, trim_return};
use crate::reader::{Halt, Next, Reader};
use crate::reading::read_program;
use crate::status::Status;
use crate::words::Job;
use re_outside::{Failed, Outside, say_all};
use re_print::print_program;
use re_session::{SayFault, do_line};
use re_terms::{Program, TryCopy};
use re_world::World;
use std::alloc::{AllocError, Global};

/// Two bytes more than a line may have: with them it is too long, whatever comes behind.
const LINE_KEPT: usize = 1026;

/// What is said last of a status but that of a refused program.
fn last_line(status: Status) -> &'static [u8]
    requires { status ≢ Status.Program }
    ensures { result.now ≡ last_line (plain_ending status) }
{
    match status {
        Status::Words => b"rescala: bad words\n",
        Status::Input => b"rescala: input fault\n",
        Status::Memory => b"rescala: no memory\n",
        Status::TooLong => b"rescala: input too long\n",
        _ => &[],
    }
}

/// Says the last line of a status that has one with nothing to fill in, or none to say.
pub fn finish<O: Outside>(out: &mut O, status: Status) -> Status
    requires said { status ≢ Status.Output }
    requires told { status_at (plain_ending status) ≡ status }
    ensures { Finishes (O.seen out.old) (O.seen out.new) (last_line (plain_ending status)) status result }
{
    if say_all(out, last_line(status)).is_err() {
        return Status::Output;
    }
    status
}

/// The line that says why a program part is refused. The one refusal of its own is want of memory.
fn refusal_line(alloc: Global, why: Refusal) -> Result<Vec<u8>, AllocError>
    ensures { IfOk result (λ line. line.items ≡ last_line (RefusedProgram why)) }
{
    let text = refusal_text(alloc, why)?;
    let mut line = b"rescala: program: ".to_vec(alloc)?;
    line.extend_from_slice(&text)?;
    line.push(b'\n')?;
    Ok(line)
}

/// Says why a program part is refused, or that memory ran out for it.
fn refuse<O: Outside>(alloc: Global, out: &mut O, why: Refusal) -> Status
    ensures { Finishes (O.seen out.old) (O.seen out.new) (last_line (RefusedProgram why)) Status.Program result ⊎ Finishes (O.seen out.old) (O.seen out.new) (last_line NoMemory) Status.Memory result }
{
    let Ok(line) = refusal_line(alloc, why) else {
        return finish(out, Status::Memory);
    };
    if say_all(out, &line).is_err() {
        return Status::Output;
    }
    Status::Program
}

/// Does the lines behind the program part, and ends the run.
fn serve<O: Outside>(alloc: Global, devices: &mut World, reader: &mut Reader, out: &mut O) -> Status
    requires few { reader.old.taken ≤ limit }
    ensures { (start : Seen) → Starts start (O.seen out.old) devices.old.program reader.old devices.old → Runs Job.Run start (O.seen out.new) result }
{
    let mut line = ClippedLine::new(alloc, LINE_KEPT);
    'lines: loop {
        match reader.next(&mut line, out) {
            Err(Halt::Memory) => return finish(out, Status::Memory),
            Err(Halt::Input) => return finish(out, Status::Input),
            Ok(Next::TooLong) => return finish(out, Status::TooLong),
            Ok(Next::Line) => {
                match do_line(alloc, devices, trim_return(line.bytes()), out) {
                    Ok(()) => {}
                    Err(SayFault::Memory) => return finish(out, Status::Memory),
                    Err(SayFault::Output) => return Status::Output,
                }
            }
            Ok(Next::End) => {
                return match do_line(alloc, devices, line.bytes(), out) {
                    Ok(()) => Status::Done,
                    Err(SayFault::Memory) => finish(out, Status::Memory),
                    Err(SayFault::Output) => Status::Output,
                };
            }
        }
    }
}

/// Opens the devices of a program whose part was read, up to a separator or to the end of the input, and runs it.
fn run_program<O: Outside>(
    alloc: Global,
    read: ProgramRead,
    reader: &mut Reader,
    out: &mut O,
) -> Status
    requires program { IsProgram read.program }
    requires short { length (program_text read.program) ≤ text_limit }
    requires few { reader.old.taken ≤ limit }
    ensures { (start : Seen) (text : Clipped) → PartIs reader.old text read.is_divided start (O.seen out.old) → Decides text.items (Accepted read.program) → Runs Job.Run start (O.seen out.new) result }
{
    let Ok(program) = read.program.copy(alloc) else {
        return finish(out, Status::Memory);
    };
    match open_devices(alloc, out, program) {
        Ok(mut devices) if read.is_divided => serve(alloc, &mut devices, reader, out),
        Ok(_) => Status::Done,
        Err((device, fault)) => refuse_opening(alloc, out, &read.program, device, fault),
    }
}

/// A program that was read, and whether a separator stands behind it.
#[derive(Drop)]
struct ProgramRead {
    program: Program,
    is_divided: bool,
}

/// Reads the program part. Where that can't be, each job has ended, and the refusal is its status.
fn open<O: Outside>(alloc: Global, reader: &mut Reader, out: &mut O) -> Result<ProgramRead, Status>
    requires start { reader.old ≡ record { chunk = []; taken = 0 } }
    ensures opened { IfOk result (λ read. Opens reader.new read.is_divided read.program (O.seen out.old) (O.seen out.new)) }
    ensures program { IfOk result (λ read. IsProgram read.program) }
    ensures short { IfOk result (λ read. length (program_text read.program) ≤ text_limit) }
    ensures ended { (j : Job) (s : Status) → result ≡ Err s → Runs j (O.seen out.old) (O.seen out.new) s }
{
    let part = match read_part(alloc, reader, out) {
        Ok(part) => part,
        Err(Stop::Memory) => return Err(finish(out, Status::Memory)),
        Err(Stop::Input) => return Err(finish(out, Status::Input)),
        Err(Stop::TooLong) => return Err(finish(out, Status::TooLong)),
    };
    match read_program(alloc, part.text.bytes()) {
        Ok(program) => Ok(ProgramRead {
            program,
            is_divided: part.is_divided,
        }),
        Err(ProgramFault::Memory) => Err(finish(out, Status::Memory)),
        Err(ProgramFault::Refused(why)) => Err(refuse(alloc, out, why)),
    }
}

/// Reads a program part and runs it.
fn run<O: Outside>(alloc: Global, out: &mut O) -> Status
    ensures { Runs Job.Run (O.seen out.old) (O.seen out.new) result }
{
    let mut reader = Reader::new();
    match open(alloc, &mut reader, out) {
        Ok(read) => run_program(alloc, read, &mut reader, out),
        Err(status) => status,
    }
}

/// How many bytes the first line of a text has, with its LF.
fn line_len(text: &[u8]) -> usize
    ensures some { 0 < length text.now → 0 < result }
    ensures within { result ≤ length text.now }
{
    for (place, byte) in text.iter().enumerate() {
        if *byte == b'\n' {
            return place + 1;
        }
    }
    text.len()
}

/// Says a text, line by line.
fn say_lines<O: Outside>(out: &mut O, text: &[u8]) -> Result<(), Failed>
    ensures said { OnOk result (Does (O.seen out.old) (O.seen out.new) [] text.now none) }
    ensures failed { OnErr result (Breaks (O.seen out.old) (O.seen out.new) text.now none) }
{
    let mut told = 0;
    while told < text.len() {
        let behind = told + line_len(&text[told..]);
        say_all(out, &text[told..behind])?;
        told = behind;
    }
    Ok(())
}

/// Reads a program part and says its canonical text.
fn check<O: Outside>(alloc: Global, out: &mut O) -> Status
    ensures { Runs Job.Check (O.seen out.old) (O.seen out.new) result }
{
    let mut reader = Reader::new();
    let read = match open(alloc, &mut reader, out) {
        Ok(read) => read,
        Err(status) => return status,
    };
    let Ok(text) = print_program(alloc, &read.program) else {
        return finish(out, Status::Memory);
    };
    match say_lines(out, text.as_slice()) {
        Ok(()) => Status::Done,
        Err(_) => Status::Output,
    }
}

/// Does a job over the input and the output of an outside, and gives the status that it ends with.
///
/// What it says is a function of the bytes read and of what failed: `docs/SESSION.md` has the
/// answers, and when each status comes. Memory for the input is constant, whatever its length.
pub fn session<O: Outside>(alloc: Global, job: &Job, out: &mut O) -> Status
    ensures runs { Runs job.now (O.seen out.old) (O.seen out.new) result }
    ensures survives { Survives job.now (O.seen out.old) (O.seen out.new) result }
    ensures end { EndCause job.now (O.seen out.old) (O.seen out.new) result }
    ensures program { ProgramCause (O.seen out.old) (O.seen out.new) result }
    ensures opening { OpeningCause job.now (O.seen out.old) (O.seen out.new) result }
    ensures input { InputCause (O.seen out.old) (O.seen out.new) result }
    ensures output { OutputCause (O.seen out.old) (O.seen out.new) result }
    ensures too_long { TooLongCause (O.seen out.old) (O.seen out.new) result }
    ensures complete { Completes job.now (O.seen out.old) (O.seen out.new) result }
    ensures failures { StopsAtFailures (O.seen out.old) (O.seen out.new) result }
{
    match job {
        Job::Run => run(alloc, out),
        Job::Check => check(alloc, out),
    }
}
