//! Opening the devices of a world.
ghost use Rattle.std.specs.Prelude.{◌≡◌, ◌<◌, ◌≤◌, ◌+◌, ℕ, length, true, IfOk, OnOk, Err};
ghost use Rattle.re_outside.specs.Moment.{Throughout};
ghost use Rattle.re_outside.specs.Outside.{Seen, content_in};
ghost use Rattle.re_outside.specs.Trace.{content_of};
ghost use Rattle.re_print.specs.Canonical.{program_text};
ghost use Rattle.re_record.specs.Stores as stores;
ghost use Rattle.re_record.specs.Stores.{HasStore, OpensTo, Stored};
ghost use Rattle.re_terms.specs.Admission.{device_count};
ghost use Rattle.re_terms.specs.Programs.{IsProgram};
ghost use Rattle.re_compact.specs.declared.fault.OpenFault.{OpenFault as TheFault};
ghost use Rattle.re_compact.specs.declared.fault.OpenFault.TheVariants.{BadStore, OtherProgram};
ghost use Rattle.re_device.specs.Standing.{StandsSettled};
ghost use Rattle.re_restore.specs.Opening.{HasRestoreCause, StillOpens};
ghost use Rattle.re_outside.specs.Port.{disk_faults, other_faults, past_in};
ghost use Rattle.re_record.specs.Restoring.{Opened};
ghost use Rattle.re_world.specs.Opening.{AreOpened, EachOpened, HasAllOpeningSteps, HasNextSteps, HasOpeningCause, HasOpeningSteps, IsOpened, IsOpeningAnswer, KeepsOpening, OpenBefore};
ghost use Rattle.re_world.specs.State.{AllPlaced};

use re_compact::OpenFault;
use re_device::Device;
use re_graph::Graph;
use re_outside::{Disk, Outside, Port};
use re_restore::restore;
use re_terms::{Program, Seq, TryCopy, count_devices};
use std::alloc::Global;

/// Opens a device of a program over its two files.
///
/// The refusals are those of opening the files; want of memory may come behind it too.
pub fn open_device<D: Disk>(
    alloc: Global,
    disk: &mut D,
    p: &Program,
    number: u8,
) -> Result<Device, OpenFault>
    requires program { IsProgram p.now }
    requires text { length (program_text p.now) ≤ 65536 }
    requires device { number < device_count p.now.decls.items }
    // What is opened is that to which the files open, as they read.
    ensures opened { IfOk result (IsOpened p.now number) }
    ensures settled { D.tells → IfOk result (λ d. OpensTo p.now number (content_of (D.past disk.old) 0) (content_of (D.past disk.old) 1) d.memory.settled) }
    ensures stands { D.tells → IfOk result (λ d. StandsSettled d (D.past disk.new)) }
    ensures each_moment { D.tells → Throughout (D.past disk.old) (D.past disk.new) (StillOpens p.now number (D.past disk.old)) }
    // Whatever it answers, the files then read as a store of the same state.
    ensures reads { (o : Opened) → D.tells → OpensTo p.now number (content_of (D.past disk.old) 0) (content_of (D.past disk.old) 1) o → OpensTo p.now number (content_of (D.past disk.new) 0) (content_of (D.past disk.new) 1) o }
    ensures bad { (file at : ℕ) → D.tells → result ≡ Err (BadStore file at) → HasStore p.now number (content_of (D.past disk.old) 0) (content_of (D.past disk.old) 1) (stores.Bad file at) }
    ensures other { D.tells → result ≡ Err OtherProgram → HasStore p.now number (content_of (D.past disk.old) 0) (content_of (D.past disk.old) 1) stores.OtherProgram }
    // What the files hold decides the answer, unless the disk fails or memory runs out.
    ensures decided { (stored : Stored) → D.tells → HasStore p.now number (content_of (D.past disk.old) 0) (content_of (D.past disk.old) 1) stored → IsOpeningAnswer p.now number stored result }
    // The calls of the disk, in order, up to the first that failed.
    ensures steps { D.tells → HasOpeningSteps p.now number (D.past disk.old) (D.past disk.new) result }
    ensures cause { HasRestoreCause (D.faults disk.old) (D.faults disk.new) result }
    ensures device { (D.past disk.new).device ≡ (D.past disk.old).device }
    ensures rest { D.rest disk.new ≡ D.rest disk.old }
{
    let restored = restore(alloc, disk, p, number)?;
    let (Ok(program), Ok(graph)) = (p.copy(alloc), Graph::build(alloc, p)) else {
        return Err(OpenFault::Memory);
    };
    let device = Device::new(
        alloc,
        program,
        graph,
        number,
        restored.state,
        restored.number,
        restored.generation,
        restored.journal,
        restored.cache,
    );
    match device {
        Ok(device) => Ok(device),
        Err(_) => Err(OpenFault::Memory),
    }
}

/// Opens a device of a program over its files outside.
///
/// The refusals are those of `open_device`.
pub(crate) fn open_outside<O: Outside>(
    alloc: Global,
    out: &mut O,
    p: &Program,
    number: u8,
) -> Result<Device, OpenFault>
    requires program { IsProgram p.now }
    requires text { length (program_text p.now) ≤ 65536 }
    requires device { number < device_count p.now.decls.items }
    ensures opened { IfOk result (IsOpened p.now number) }
    ensures settled { O.tells ≡ true → IfOk result (λ d. OpensTo p.now number (content_in (O.seen out.old) number 0) (content_in (O.seen out.old) number 1) d.memory.settled) }
    ensures stands { O.tells ≡ true → IfOk result (λ d. StandsSettled d (past_in number (O.seen out.new))) }
    ensures each_moment { O.tells ≡ true → Throughout (past_in number (O.seen out.old)) (past_in number (O.seen out.new)) (StillOpens p.now number (past_in number (O.seen out.old))) }
    // Whatever it answers, the files then read as a store of the same state.
    ensures reads { (o : Opened) → O.tells ≡ true → OpensTo p.now number (content_in (O.seen out.old) number 0) (content_in (O.seen out.old) number 1) o → OpensTo p.now number (content_in (O.seen out.new) number 0) (content_in (O.seen out.new) number 1) o }
    ensures bad { (file at : ℕ) → O.tells ≡ true → result ≡ Err (BadStore file at) → HasStore p.now number (content_in (O.seen out.old) number 0) (content_in (O.seen out.old) number 1) (stores.Bad file at) }
    ensures other { O.tells ≡ true → result ≡ Err OtherProgram → HasStore p.now number (content_in (O.seen out.old) number 0) (content_in (O.seen out.old) number 1) stores.OtherProgram }
    ensures decided { (stored : Stored) → O.tells ≡ true → HasStore p.now number (content_in (O.seen out.old) number 0) (content_in (O.seen out.old) number 1) stored → IsOpeningAnswer p.now number stored result }
    ensures steps { O.tells ≡ true → HasOpeningSteps p.now number (past_in number (O.seen out.old)) (past_in number (O.seen out.new)) result }
    ensures cause { HasRestoreCause (disk_faults number (O.seen out.old)) (disk_faults number (O.seen out.new)) result }
    ensures others { other_faults number (O.seen out.new) ≡ other_faults number (O.seen out.old) }
    ensures left { O.tells ≡ true → (O.seen out.new).left ≡ (O.seen out.old).left }
{
    let mut port = Port::new(out, number);
    open_device(alloc, &mut port, p, number)
}

/// Opens the next device of a program, behind those that are opened.
fn open_next<O: Outside>(
    alloc: Global,
    out: &mut O,
    p: &Program,
    devices: &mut Seq<Option<Device>>,
) -> Result<(), OpenFault>
    requires program { IsProgram p.now }
    requires text { length (program_text p.now) ≤ 65536 }
    requires device { length devices.old.items < device_count p.now.decls.items }
    ensures count { OnOk result (length devices.new.items ≡ length devices.old.items + 1) }
    ensures placed { OnOk result (AllPlaced p.now devices.old.items → AllPlaced p.now devices.new.items) }
    ensures each { OnOk result (EachOpened p.now devices.old.items → EachOpened p.now devices.new.items) }
    ensures opened { (start : Seen) → O.tells ≡ true → OnOk result (AreOpened p.now devices.old.items start (O.seen out.old) → AreOpened p.now devices.new.items start (O.seen out.new)) }
    ensures moments { (start : Seen) → O.tells ≡ true → AreOpened p.now devices.old.items start (O.seen out.old) → Throughout (past_in 0 start) (past_in 0 (O.seen out.new)) (KeepsOpening p.now (past_in 0 start)) }
    ensures bad { (file at : ℕ) → O.tells ≡ true → result ≡ Err (BadStore file at) → HasStore p.now (length devices.old.items) (content_in (O.seen out.old) (length devices.old.items) 0) (content_in (O.seen out.old) (length devices.old.items) 1) (stores.Bad file at) }
    ensures other { O.tells ≡ true → result ≡ Err OtherProgram → HasStore p.now (length devices.old.items) (content_in (O.seen out.old) (length devices.old.items) 0) (content_in (O.seen out.old) (length devices.old.items) 1) stores.OtherProgram }
    ensures steps { O.tells ≡ true → HasNextSteps p.now (length devices.old.items) (past_in (length devices.old.items) (O.seen out.old)) (past_in (length devices.old.items) (O.seen out.new)) result }
    ensures cause { HasRestoreCause (disk_faults (length devices.old.items) (O.seen out.old)) (disk_faults (length devices.old.items) (O.seen out.new)) result }
    ensures others { other_faults (length devices.old.items) (O.seen out.new) ≡ other_faults (length devices.old.items) (O.seen out.old) }
    ensures left { O.tells ≡ true → (O.seen out.new).left ≡ (O.seen out.old).left }
{
    let number = devices.len() as u8;
    let Ok(()) = devices.reserve(1) else {
        return Err(OpenFault::Memory);
    };
    let device = open_outside(alloc, out, p, number)?;
    devices.push(Some(device)).unwrap();
    Ok(())
}

/// Opens all devices of a program, in order. The refusal is that of the first device that can't be opened, with its number.
pub fn open_all<O: Outside>(
    alloc: Global,
    out: &mut O,
    p: &Program,
) -> Result<Seq<Option<Device>>, (u8, OpenFault)>
    requires program { IsProgram p.now }
    requires text { length (program_text p.now) ≤ 65536 }
    ensures count { IfOk result (λ devices. length devices.items ≡ device_count p.now.decls.items) }
    ensures placed { IfOk result (λ devices. AllPlaced p.now devices.items) }
    ensures each { IfOk result (λ devices. EachOpened p.now devices.items) }
    ensures opened { O.tells ≡ true → IfOk result (λ devices. AreOpened p.now devices.items (O.seen out.old) (O.seen out.new)) }
    ensures moments { O.tells ≡ true → Throughout (past_in 0 (O.seen out.old)) (past_in 0 (O.seen out.new)) (KeepsOpening p.now (past_in 0 (O.seen out.old))) }
    // A store is refused for what the files hold, as they read at the call, and a disk for its own calls alone.
    ensures bad { (d file at : ℕ) → O.tells ≡ true → result ≡ Err (d, BadStore file at) → HasStore p.now d (content_in (O.seen out.old) d 0) (content_in (O.seen out.old) d 1) (stores.Bad file at) }
    ensures other { (d : ℕ) → O.tells ≡ true → result ≡ Err (d, OtherProgram) → HasStore p.now d (content_in (O.seen out.old) d 0) (content_in (O.seen out.old) d 1) stores.OtherProgram }
    ensures cause { HasOpeningCause (O.seen out.old) (O.seen out.new) result }
    // The calls on the devices' files, in order, up to the first that failed.
    ensures steps { O.tells ≡ true → HasAllOpeningSteps p.now (past_in 0 (O.seen out.old)) (past_in 0 (O.seen out.new)) result }
    ensures first { (d : ℕ) (fault : TheFault) → O.tells ≡ true → result ≡ Err (d, fault) → OpenBefore p.now d (O.seen out.old) }
    ensures number { (d : ℕ) (fault : TheFault) → result ≡ Err (d, fault) → d < device_count p.now.decls.items }
    ensures left { O.tells ≡ true → (O.seen out.new).left ≡ (O.seen out.old).left }
{
    let mut devices = Seq::new(alloc);
    for number in 0..count_devices(p.decls.as_slice()) as u8 {
        if let Err(fault) = open_next(alloc, out, p, &mut devices) {
            return Err((number, fault));
        }
    }
    Ok(devices)
}
