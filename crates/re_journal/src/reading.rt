//! Reading a file from front to back.
ghost use Rattle.std.specs.Prelude.{◌≡◌, ◌+◌, ◌-◌, ◌<◌, ◌≤◌, ◌^◌, ◌++◌, [], Ok, None, false, true, length, vec_len, OnOk, IfOk, IfSome};
ghost use Rattle.re_outside.specs.Trace.{content_of};
ghost use Rattle.re_journal.specs.Readings.{coming, KnowsSize, Passes, PassesFound, FoundByte, FoundNumber, FoundBody};
ghost use Rattle.re_journal.specs.Scans.{HasScanSteps, HasScanCause, NamesNoPlace};

use crate::ScanFault;
use crate::reader::{PIECE, Reader};
use re_outside::{Bytes, Disk};
use std::alloc::Global;

impl Reader {
    /// Begins to read a file.
    pub(crate) fn open<D: Disk>(alloc: Global, disk: &mut D, file: u8) -> Result<Reader, ScanFault>
        requires { file < 2 }
        ensures size { D.tells → IfOk result (λ reader. KnowsSize reader (D.past disk.old)) }
        ensures coming { D.tells → IfOk result (λ reader. coming reader (D.past disk.old) ≡ content_of (D.past disk.old) file) }
        ensures file { IfOk result (λ reader. (reader.file ≡ file) × (reader.place ≡ 0)) }
        ensures no_place { NamesNoPlace result }
        ensures steps { D.tells → HasScanSteps file (D.past disk.old) (D.past disk.new) result }
        ensures cause { HasScanCause (D.faults disk.old) (D.faults disk.new) result }
        ensures device { (D.past disk.new).device ≡ (D.past disk.old).device }
        ensures rest { D.rest disk.new ≡ D.rest disk.old }
    {
        let piece = vec![in alloc; 0; PIECE]?;
        let size = disk.size(file)?;
        Ok(Reader {
            file,
            size,
            place: 0,
            piece,
            used: 0,
            filled: 0,
        })
    }

    /// Fetches the next piece where the one in hand is used up.
    fn refill<D: Disk>(&mut self, disk: &mut D) -> Result<(), ScanFault>
        ensures same { D.tells → KnowsSize self.old (D.past disk.old) → OnOk result (coming self.new (D.past disk.old) ≡ coming self.old (D.past disk.old)) }
        ensures end { D.tells → KnowsSize self.old (D.past disk.old) → OnOk result (self.new.used ≡ self.new.filled → coming self.old (D.past disk.old) ≡ []) }
        ensures passes { OnOk result (Passes 0 self.old self.new) }
        ensures no_place { NamesNoPlace result }
        ensures steps { D.tells → HasScanSteps self.old.file (D.past disk.old) (D.past disk.new) result }
        ensures cause { HasScanCause (D.faults disk.old) (D.faults disk.new) result }
        ensures device { (D.past disk.new).device ≡ (D.past disk.old).device }
        ensures rest { D.rest disk.new ≡ D.rest disk.old }
    {
        if self.used < self.filled {
            return Ok(());
        }
        let n = disk.fetch(self.file, self.place, &mut self.piece)?;
        self.used = 0;
        self.filled = n.min((self.size - self.place) as usize);
        Ok(())
    }

    /// The next byte, and `None` at the end of the file.
    pub(crate) fn byte<D: Disk>(&mut self, disk: &mut D) -> Result<Option<u8>, ScanFault>
        ensures found { D.tells → KnowsSize self.old (D.past disk.old) → IfOk result (FoundByte self.old self.new (D.past disk.old)) }
        ensures passes { IfOk result (PassesFound 1 self.old self.new) }
        ensures room { IfOk result (λ found. IfSome found (λ _. self.old.place + 1 < 2 ^ 64)) }
        ensures no_place { NamesNoPlace result }
        ensures steps { D.tells → HasScanSteps self.old.file (D.past disk.old) (D.past disk.new) result }
        ensures cause { HasScanCause (D.faults disk.old) (D.faults disk.new) result }
        ensures device { (D.past disk.new).device ≡ (D.past disk.old).device }
        ensures rest { D.rest disk.new ≡ D.rest disk.old }
    {
        self.refill(disk)?;
        if self.used == self.filled {
            return Ok(None);
        }
        let byte = self.piece[self.used];
        self.used += 1;
        self.place += 1;
        Ok(Some(byte))
    }

    /// The next number of four bytes, and `None` where fewer are left.
    pub(crate) fn number<D: Disk>(&mut self, disk: &mut D) -> Result<Option<u32>, ScanFault>
        ensures found { D.tells → KnowsSize self.old (D.past disk.old) → IfOk result (FoundNumber self.old self.new (D.past disk.old)) }
        ensures passes { IfOk result (PassesFound 4 self.old self.new) }
        ensures no_place { NamesNoPlace result }
        ensures steps { D.tells → HasScanSteps self.old.file (D.past disk.old) (D.past disk.new) result }
        ensures cause { HasScanCause (D.faults disk.old) (D.faults disk.new) result }
        ensures device { (D.past disk.new).device ≡ (D.past disk.old).device }
        ensures rest { D.rest disk.new ≡ D.rest disk.old }
    {
        let Some(first) = self.byte(disk)? else {
            return Ok(None);
        };
        let Some(second) = self.byte(disk)? else {
            return Ok(None);
        };
        let Some(third) = self.byte(disk)? else {
            return Ok(None);
        };
        let Some(fourth) = self.byte(disk)? else {
            return Ok(None);
        };
        Ok(Some(u32::from_be_bytes([first, second, third, fourth])))
    }

    /// Takes as many bytes of the piece in hand, or of the next one, as there are, but no more than fit into a body of this size.
    fn take<D: Disk>(
        &mut self,
        disk: &mut D,
        body: &mut Vec<u8>,
        size: usize,
    ) -> Result<(), ScanFault>
        requires { vec_len body.old ≤ size }
        ensures bytes { D.tells → KnowsSize self.old (D.past disk.old) → OnOk result (body.old.items ++ coming self.old (D.past disk.old) ≡ body.new.items ++ coming self.new (D.past disk.old)) }
        ensures end { D.tells → KnowsSize self.old (D.past disk.old) → OnOk result (vec_len body.new ≡ vec_len body.old → vec_len body.old < size → coming self.old (D.past disk.old) ≡ []) }
        ensures size { (vec_len body.old ≤ vec_len body.new) × (vec_len body.new ≤ size) }
        ensures passes { OnOk result (Passes (vec_len body.new - vec_len body.old) self.old self.new) }
        ensures no_place { NamesNoPlace result }
        ensures steps { D.tells → HasScanSteps self.old.file (D.past disk.old) (D.past disk.new) result }
        ensures cause { HasScanCause (D.faults disk.old) (D.faults disk.new) result }
        ensures device { (D.past disk.new).device ≡ (D.past disk.old).device }
        ensures rest { D.rest disk.new ≡ D.rest disk.old }
    {
        self.refill(disk)?;
        let n = (self.filled - self.used).min(size - body.len());
        body.extend_from_slice(&self.piece[self.used..self.used + n])?;
        self.used += n;
        self.place += n as u64;
        Ok(())
    }

    /// A body of this many bytes, which come next, and `None` where fewer are left.
    pub(crate) fn body<D: Disk>(
        &mut self,
        alloc: Global,
        disk: &mut D,
        size: u32,
    ) -> Result<Option<Bytes>, ScanFault>
        ensures found { D.tells → KnowsSize self.old (D.past disk.old) → IfOk result (FoundBody size self.old self.new (D.past disk.old)) }
        ensures size { IfOk result (λ found. IfSome found (λ body. length body.items ≡ size)) }
        ensures passes { IfOk result (PassesFound size self.old self.new) }
        ensures no_place { NamesNoPlace result }
        ensures steps { D.tells → HasScanSteps self.old.file (D.past disk.old) (D.past disk.new) result }
        ensures cause { HasScanCause (D.faults disk.old) (D.faults disk.new) result }
        ensures device { (D.past disk.new).device ≡ (D.past disk.old).device }
        ensures rest { D.rest disk.new ≡ D.rest disk.old }
    {
        let wanted = size as usize;
        let mut body = Vec::with_capacity(alloc, wanted)?;
        while body.len() < wanted {
            let before = body.len();
            self.take(disk, &mut body, wanted)?;
            if body.len() == before {
                return Ok(None);
            }
        }
        Ok(Some(Bytes::from_vec(body)))
    }
}
