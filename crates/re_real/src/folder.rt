//! The files of devices in a folder of the system.
ghost use Rattle.std.specs.Prelude.{◌<◌, ◌≤◌, length, vec_len, IfOk, OnOk};

use std::alloc::Global;
use std::fs::{File, OpenOptions};
use std::io;
use std::io::ErrorKind;
use std::os::unix::fs::FileExt;

/// The greatest place that the system takes. No file is longer.
const GREATEST_PLACE: u64 = 9_223_372_036_854_775_807;

/// A file that was opened, and stays open.
#[derive(Drop)]
struct Opened {
    device: u8,
    file: u8,
    handle: File,
    /// How many bytes it has, where no call that failed left this open.
    length: Option<u64>,
    /// The folder was synced since it was opened, so that its name outlasts a stop.
    is_named: bool,
    /// A sync of it failed: what it was to keep may be lost, whatever a later one says.
    is_lost: bool,
}

/// The files `re-D-F` of a folder, with device and file number, made where they are missing.
///
/// A file is opened at its first call, under an exclusive lock that isn't waited for.
#[derive(Drop)]
pub(crate) struct Folder {
    rt: HostRuntime,
    path: &'static str,
    opened: Vec<Opened>,
}

/// Fills the buffer with what the file holds from `at` on, as far as there is, and answers how much.
fn fill_from(handle: &File, at: u64, buf: &mut [u8]) -> io::Result<usize>
    ensures { IfOk result (λ n. n ≤ length buf.old) }
{
    let mut got = 0;
    for _ in 0..u64::MAX {
        if got >= buf.len() {
            break;
        }
        match handle.read_at(&mut buf[got..], at.saturating_add(got as u64)) {
            Ok(0) => break,
            Ok(n) => got += n,
            Err(e) if e.kind() == ErrorKind::Interrupted => {}
            Err(e) => return Err(e),
        }
    }
    Ok(got)
}

impl Opened {
    fn length(&self) -> io::Result<u64> {
        match self.length {
            Some(length) => Ok(length),
            None => Ok(self.handle.metadata()?.len()),
        }
    }

    fn write(&mut self, at: u64, bytes: &[u8]) -> io::Result<()> {
        let before = self.length;
        self.length = None;
        self.handle.write_all_at(bytes, at)?;
        let end = at.saturating_add(bytes.len() as u64);
        if let Some(length) = before {
            self.length = Some(length.max(end));
        }
        Ok(())
    }

    fn sync(&mut self) -> io::Result<()> {
        if self.is_lost {
            return Err(io::Error::from(ErrorKind::Other));
        }
        self.is_lost = true;
        self.handle.sync_all()?;
        self.is_lost = false;
        Ok(())
    }

    fn cut(&mut self, length: u64) -> io::Result<()> {
        if length >= self.length()? {
            return Ok(());
        }
        self.length = None;
        self.handle.set_len(length)?;
        self.length = Some(length);
        Ok(())
    }
}

impl Folder {
    /// The files of the folder with this path.
    pub(crate) fn new(rt: HostRuntime, path: &'static str) -> Folder {
        Folder {
            rt,
            path,
            opened: Vec::new(rt.alloc()),
        }
    }

    /// Opens a file of a device under a lock, and keeps it open.
    fn open(&mut self, device: u8, file: u8) -> io::Result<()>
        ensures { OnOk result (0 < vec_len self.new.opened) }
    {
        let alloc: Global = self.rt.alloc();
        let path = format!(in alloc; "{}/re-{device}-{file}", self.path)?;
        let handle = OpenOptions::new()
            .read(true)
            .write(true)
            .create(true)
            .open(&self.rt, path.as_str())?;
        if handle.try_lock().is_err() {
            return Err(io::Error::from(ErrorKind::WouldBlock));
        }
        let length = Some(handle.metadata()?.len());
        self.opened.push(Opened {
            device,
            file,
            handle,
            length,
            is_named: false,
            is_lost: false,
        })?;
        Ok(())
    }

    /// The place of a file of a device among the opened ones. It is opened where it wasn't so far.
    fn place_of(&mut self, device: u8, file: u8) -> io::Result<usize>
        ensures { IfOk result (λ place. place < vec_len self.new.opened) }
    {
        for (place, opened) in self.opened.iter().enumerate() {
            if opened.device == device && opened.file == file {
                return Ok(place);
            }
        }
        self.open(device, file)?;
        Ok(self.opened.len() - 1)
    }

    /// How many bytes a file has.
    pub(crate) fn size(&mut self, device: u8, file: u8) -> io::Result<u64> {
        let place = self.place_of(device, file)?;
        Ok(self.opened[place].handle.metadata()?.len())
    }

    /// Fills the buffer with what a file holds from `at` on, as far as there is, and answers how much.
    pub(crate) fn fetch(
        &mut self,
        device: u8,
        file: u8,
        at: u64,
        buf: &mut [u8],
    ) -> io::Result<usize>
        ensures { IfOk result (λ n. n ≤ length buf.old) }
    {
        let place = self.place_of(device, file)?;
        if at > GREATEST_PLACE {
            return Ok(0);
        }
        fill_from(&self.opened[place].handle, at, buf)
    }

    /// Writes all the bytes at a place of a file.
    pub(crate) fn write(&mut self, device: u8, file: u8, at: u64, bytes: &[u8]) -> io::Result<()> {
        let place = self.place_of(device, file)?;
        if bytes.is_empty() {
            return Ok(());
        }
        self.opened[place].write(at, bytes)
    }

    /// Cuts a file that is longer to this length.
    pub(crate) fn cut(&mut self, device: u8, file: u8, length: u64) -> io::Result<()> {
        let place = self.place_of(device, file)?;
        self.opened[place].cut(length)
    }

    /// Forces the bytes and the length of a file to the disk, and its name at its first sync.
    ///
    /// Behind a sync that failed each later one is refused.
    pub(crate) fn sync(&mut self, device: u8, file: u8) -> io::Result<()> {
        let place = self.place_of(device, file)?;
        if !self.opened[place].is_named {
            File::open(&self.rt, self.path)?.sync_all()?;
        }
        let opened = &mut self.opened[place];
        opened.is_named = true;
        opened.sync()
    }
}
