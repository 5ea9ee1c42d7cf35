//! Standard input and output, and the files of a folder, as what lies outside a run.
ghost use Rattle.std.specs.Prelude.{◌≡◌, ◌+◌, ◌≤◌, length, IfOk};
ghost use Rattle.re_outside.specs.Outside.{Input, Output, Disk};
ghost use Rattle.re_real.specs.Counts.{seen_of, fresh, Rises};

use crate::folder::Folder;
use re_outside::{Failed, Outside};
use std::io::{Read, Stdin, Stdout, Write};
use std::marker::Model;

/// Standard input and standard output with no buffer, and the files `re-D-F` of a folder, where `D`
/// is a device's number and `F` that of its file, 0 or 1.
///
/// A file is made where it is missing, opened at its first call and kept open. It is opened under
/// an exclusive lock of the system that isn't waited for: where another process holds it the call
/// fails. Contracts see how many reads, how many writes and how many calls on each device's files
/// failed, and nothing of what is read or written. A count that has reached 2^64 - 1 stays there.
#[derive(Drop)]
pub struct RealWorld {
    input: Stdin,
    output: Stdout,
    folder: Folder,
    input_faults: u64,
    output_faults: u64,
    disk_faults: [u64; 256],
}

impl Model for RealWorld {
    ghost use Rattle.std.specs.Prelude.{◌≡◌, length};
    ghost use Rattle.re_real.specs.Counts.{Counted};

    ghost Value = { Counted };

    ghost view = { λ w. record { input = w.input_faults; output = w.output_faults; disks = w.disk_faults } };

    ghost invariant = { λ w. length w.disk_faults ≡ 256 };
}

impl RealWorld {
    /// The standard streams and the current folder, where no call failed yet.
    pub fn new(rt: &HostRuntime) -> RealWorld
        ensures { result ≡ fresh }
    {
        RealWorld::in_folder(rt, ".")
    }

    /// The same with the files of the folder that this path names.
    pub fn in_folder(rt: &HostRuntime, path: &'static str) -> RealWorld
        ensures { result ≡ fresh }
    {
        RealWorld {
            input: rt.stdin(),
            output: rt.stdout(),
            folder: Folder::new(*rt, path),
            input_faults: 0,
            output_faults: 0,
            disk_faults: [0; 256],
        }
    }

    /// A read failed.
    fn read_failed(&mut self) -> Failed
        ensures { Rises Input self.old self.new }
    {
        self.input_faults = self.input_faults.saturating_add(1);
        Failed
    }

    /// A write failed.
    fn write_failed(&mut self) -> Failed
        ensures { Rises Output self.old self.new }
    {
        self.output_faults = self.output_faults.saturating_add(1);
        Failed
    }

    /// A call on a file of this device failed.
    fn disk_failed(&mut self, device: u8) -> Failed
        ensures { Rises (Disk device) self.old self.new }
    {
        let place = usize::from(device);
        self.disk_faults[place] = self.disk_faults[place].saturating_add(1);
        Failed
    }
}

impl Outside for RealWorld {
    ghost use Rattle.std.specs.Prelude.{false, refl};
    ghost use Rattle.re_real.specs.Counts.{untold};

    ghost tells = { false };

    ghost seen = { seen_of };

    ghost tells_always = { λ w. refl };

    ghost reads_left = { λ w device file told. untold told };

    /// Takes what one read of standard input gives. The one refusal is a read that fails.
    fn take(&mut self, buf: &mut [u8]) -> Result<usize, Failed> {
        match self.input.read(buf) {
            Ok(n) => Ok(n),
            Err(_) => Err(self.read_failed()),
        }
    }

    /// Says what one write to standard output takes of the whole piece.
    ///
    /// The refusals are a write that fails, and one that takes nothing of a piece that isn't
    /// empty.
    fn say(&mut self, bytes: &[u8]) -> Result<usize, Failed> {
        match self.output.write(bytes) {
            Ok(n) if n > 0 || bytes.is_empty() => Ok(n),
            _ => Err(self.write_failed()),
        }
    }

    /// How many bytes the file has. The refusals are those of the system.
    fn size(&mut self, device: u8, file: u8) -> Result<u64, Failed> {
        match self.folder.size(device, file) {
            Ok(n) => Ok(n),
            Err(_) => Err(self.disk_failed(device)),
        }
    }

    /// Reads until the buffer is full or the file ends. The refusals are those of the system.
    fn fetch(&mut self, device: u8, file: u8, at: u64, buf: &mut [u8]) -> Result<usize, Failed> {
        match self.folder.fetch(device, file, at, buf) {
            Ok(n) => Ok(n),
            Err(_) => Err(self.disk_failed(device)),
        }
    }

    /// Writes all the bytes, and goes on where the system takes some of them.
    ///
    /// The refusals are those of the system, and a place and number of bytes that add up to more
    /// than 2^64 - 1.
    fn write(&mut self, device: u8, file: u8, at: u64, bytes: &[u8]) -> Result<(), Failed> {
        if at.checked_add(bytes.len() as u64).is_none() {
            return Err(self.disk_failed(device));
        }
        match self.folder.write(device, file, at, bytes) {
            Ok(()) => Ok(()),
            Err(_) => Err(self.disk_failed(device)),
        }
    }

    /// Cuts the file where it is longer. The refusals are those of the system.
    fn cut(&mut self, device: u8, file: u8, length: u64) -> Result<(), Failed> {
        match self.folder.cut(device, file, length) {
            Ok(()) => Ok(()),
            Err(_) => Err(self.disk_failed(device)),
        }
    }

    /// Forces the file to the disk, and before its first sync the folder, which has its name.
    ///
    /// The refusals are those of the system. Behind one each later sync of the file is refused,
    /// since the system may have dropped what it couldn't keep.
    fn sync(&mut self, device: u8, file: u8) -> Result<(), Failed> {
        match self.folder.sync(device, file) {
            Ok(()) => Ok(()),
            Err(_) => Err(self.disk_failed(device)),
        }
    }
}
