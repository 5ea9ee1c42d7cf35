//! Opens the devices of a program, and says why one doesn't open.
ghost use Rattle.std.specs.Prelude.{◌≡◌, ◌≢◌, ◌≤◌, ◌⊎◌, ◌++◌, ℕ, codes, length, IfOk, Some, Err};
ghost use Rattle.re_compact.specs.declared.fault.OpenFault.{OpenFault as TheFault};
ghost use Rattle.re_compact.specs.declared.fault.OpenFault.TheVariants as unopened;
ghost use Rattle.re_print.specs.Canonical.{program_text};
ghost use Rattle.re_terms.specs.Programs.{IsProgram};
ghost use Rattle.re_tool.specs.Acts.{IsOpening, OpensAs};
ghost use Rattle.re_tool.specs.Answers.{unopened_end};
ghost use Rattle.re_tool.specs.Endings.{NoMemory, device_line, last_line, status_at};
ghost use Rattle.std.specs.Fmt.{decimal};
ghost use Rattle.re_tool.specs.Session.{Finishes};

use crate::names::device_name;
use crate::running::finish;
use crate::status::Status;
use re_compact::OpenFault;
use re_outside::{Outside, say_all};
use re_terms::Program;
use re_world::World;
use std::alloc::{AllocError, Global};
use std::string::ToString;

/// Opens the devices of a program in order. The refusal is that of the first that doesn't open, with its number.
pub fn open_devices<O: Outside>(
    alloc: Global,
    out: &mut O,
    p: Program,
) -> Result<World, (u8, OpenFault)>
    requires program { IsProgram p }
    requires text { length (program_text p) ≤ 65536 }
    ensures opened { IfOk result (λ devices. OpensAs p devices (O.seen out.old) (O.seen out.new)) }
    ensures refused { (d : ℕ) (fault : TheFault) → result ≡ Err (d, fault) → IsOpening p (Some (d, fault)) (O.seen out.old) (O.seen out.new) }
{
    World::new(alloc, out, p)
}

/// What is said of a store that is bad. The one refusal is want of memory.
fn bad_store_text(alloc: Global, file: u8, at: u64) -> Result<Vec<u8>, AllocError>
    ensures { IfOk result (λ text. text.items ≡ codes "bad store, file " ++ (decimal file ++ (codes " at " ++ decimal at))) }
{
    let file = file.to_string(alloc)?;
    let at = at.to_string(alloc)?;
    let mut text = b"bad store, file ".to_vec(alloc)?;
    text.extend_from_slice(file.as_bytes())?;
    text.extend_from_slice(b" at ")?;
    text.extend_from_slice(at.as_bytes())?;
    Ok(text)
}

/// The line that tells this of a device. The one refusal is want of memory.
fn device_line(alloc: Global, name: &[u8], text: &[u8]) -> Result<Vec<u8>, AllocError>
    ensures { IfOk result (λ line. line.items ≡ device_line name.now text.now) }
{
    let mut line = b"rescala: device ".to_vec(alloc)?;
    line.extend_from_slice(name)?;
    line.extend_from_slice(b": ")?;
    line.extend_from_slice(text)?;
    line.push(b'\n')?;
    Ok(line)
}

/// The line of a device that doesn't open. The one refusal is want of memory.
fn unopened_line(
    alloc: Global,
    p: &Program,
    device: u8,
    fault: OpenFault,
) -> Result<Vec<u8>, AllocError>
    requires { fault ≢ OpenFault.Memory }
    ensures { IfOk result (λ line. line.items ≡ last_line (unopened_end p.now (device, fault))) }
{
    let name = device_name(p, device);
    match fault {
        OpenFault::BadStore { file, at } => device_line(
            alloc,
            name,
            &bad_store_text(alloc, file, at)?,
        ),
        OpenFault::OtherProgram => device_line(alloc, name, b"other program"),
        _ => device_line(alloc, name, b"disk fault"),
    }
}

/// The status of a device that doesn't open.
fn unopened_status(fault: OpenFault) -> Status
    ensures { (p : Program) (d : ℕ) → result ≡ status_at (unopened_end p (d, fault)) }
{
    match fault {
        OpenFault::Memory => Status::Memory,
        OpenFault::Disk => Status::Disk,
        OpenFault::BadStore { .. } => Status::Store,
        OpenFault::OtherProgram => Status::OtherProgram,
    }
}

/// Says why a device doesn't open, or that memory ran out for it, and gives the status that the run ends with.
pub fn refuse_opening<O: Outside>(
    alloc: Global,
    out: &mut O,
    p: &Program,
    device: u8,
    fault: OpenFault,
) -> Status
    ensures { Finishes (O.seen out.old) (O.seen out.new) (last_line (unopened_end p.now (device, fault))) (status_at (unopened_end p.now (device, fault))) result ⊎ Finishes (O.seen out.old) (O.seen out.new) (last_line NoMemory) Status.Memory result }
{
    if fault == OpenFault::Memory {
        return finish(out, Status::Memory);
    }
    let Ok(line) = unopened_line(alloc, p, device, fault) else {
        return finish(out, Status::Memory);
    };
    if say_all(out, &line).is_err() {
        return Status::Output;
    }
    unopened_status(fault)
}
