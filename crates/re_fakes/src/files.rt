//! The files of all devices.
ghost use Rattle.std.specs.Prelude.{◌≡◌, ◌<◌, ◌+◌, ◌-◌, ◌^◌, ◌++◌, length, take, replicate, OnOk, OnErr};
ghost use Rattle.re_outside.specs.Image.{written};
ghost use Rattle.re_fakes.specs.Files.{place_of, file_at, SameFiles, IsPut};

use crate::edits::{grow_to, write_over};
use re_outside::Bytes;
use re_terms::{Seq, TryCopy};
use std::alloc::{AllocError, Global};
use std::marker::Model;

/// The files of all devices: the bytes of file `F` of device `D` stand at place `2 * D + F`.
///
/// A place that isn't there is an empty file. Contracts see a list of bytes for each place.
#[derive(Drop)]
pub struct Files {
    pub list: Seq<Bytes>,
}

impl Model for Files {
    ghost use Rattle.std.specs.Prelude.{ℕ, List};
    ghost use Rattle.re_fakes.specs.Files.{all_bytes};

    ghost Value = { List (List ℕ) };

    ghost view = { λ f. all_bytes f.list.items };
}

impl TryCopy for Files {
    /// Files with equal bytes at each place. The one refusal is want of memory.
    fn copy(&self, alloc: Global) -> Result<Files, AllocError> {
        let mut list = Seq::with_capacity(alloc, self.list.len())?;
        for bytes in self.list.as_slice() {
            list.push(bytes.copy(alloc)?)?;
        }
        Ok(Files { list })
    }
}

/// The place of a file of a device in the list.
fn place_of(device: u8, file: u8) -> usize
    ensures { result ≡ place_of device file }
{
    2 * device as usize + file as usize
}

impl Files {
    /// The bytes of a file of a device, none where it isn't in the list.
    pub fn bytes(&self, device: u8, file: u8) -> &[u8]
        ensures { result.now ≡ file_at self.now (place_of device file) }
    {
        match self.list.get(place_of(device, file)) {
            Some(bytes) => bytes.as_slice(),
            None => &[],
        }
    }

    /// Writes the bytes over those of a file from place `at` on, behind zeros where that is past
    /// its end.
    ///
    /// It takes time for what it writes. The one refusal is want of memory, and leaves the files
    /// as they were.
    pub(crate) fn write(
        &mut self,
        alloc: Global,
        device: u8,
        file: u8,
        at: usize,
        bytes: &[u8],
    ) -> Result<(), AllocError>
        requires { at + length bytes.now < 2 ^ 64 }
        ensures ok { OnOk result (IsPut self.old self.new (place_of device file) (written (file_at self.old (place_of device file)) at bytes.now)) }
        ensures err { OnErr result (SameFiles self.old self.new) }
    {
        let place = place_of(device, file);
        self.reach(alloc, place)?;
        let mut edited = self.list.replace(place, Bytes::new(alloc));
        match write_over(&mut edited, at, bytes) {
            Ok(()) => {
                self.list.set(place, edited);
                Ok(())
            }
            Err(error) => {
                self.list.set(place, edited);
                Err(error)
            }
        }
    }

    /// Makes a file at least this long, with this byte behind its end.
    ///
    /// The one refusal is want of memory, and leaves the files as they were.
    pub(crate) fn grow(
        &mut self,
        alloc: Global,
        device: u8,
        file: u8,
        size: usize,
        byte: u8,
    ) -> Result<(), AllocError>
        ensures ok { OnOk result (IsPut self.old self.new (place_of device file) (let old = file_at self.old (place_of device file) in old ++ replicate (size - length old) byte)) }
        ensures err { OnErr result (SameFiles self.old self.new) }
    {
        let place = place_of(device, file);
        self.reach(alloc, place)?;
        let mut edited = self.list.replace(place, Bytes::new(alloc));
        match grow_to(&mut edited, size, byte) {
            Ok(()) => {
                self.list.set(place, edited);
                Ok(())
            }
            Err(error) => {
                self.list.set(place, edited);
                Err(error)
            }
        }
    }

    /// Keeps the first `n` bytes of a file.
    pub(crate) fn cut(&mut self, alloc: Global, device: u8, file: u8, n: usize)
        ensures { IsPut self.old self.new (place_of device file) (take n (file_at self.old (place_of device file))) }
    {
        let place = place_of(device, file);
        if place < self.list.len() {
            let mut edited = self.list.replace(place, Bytes::new(alloc));
            edited.truncate(n);
            self.list.set(place, edited);
        }
    }

    /// Puts these bytes in the place of a file's.
    ///
    /// The one refusal is want of memory, and leaves the files as they were.
    pub(crate) fn put(
        &mut self,
        alloc: Global,
        device: u8,
        file: u8,
        bytes: Bytes,
    ) -> Result<(), AllocError>
        ensures ok { OnOk result (IsPut self.old self.new (place_of device file) bytes.items) }
        ensures err { OnErr result (SameFiles self.old self.new) }
    {
        let place = place_of(device, file);
        self.reach(alloc, place)?;
        self.list.set(place, bytes);
        Ok(())
    }

    /// Puts empty files behind the others until the list has this place.
    ///
    /// The one refusal is want of memory.
    fn reach(&mut self, alloc: Global, place: usize) -> Result<(), AllocError>
        ensures there { OnOk result (place < length self.new) }
        ensures same { SameFiles self.old self.new }
    {
        while self.list.len() <= place {
            self.list.push(Bytes::new(alloc))?;
        }
        Ok(())
    }
}
