//! The calls of a world in memory.
ghost use Rattle.std.specs.Prelude.{◌≡◌, ◌≤◌, ◌<◌, ◌+◌, ◌-◌, ◌^◌, [], ◌∷◌, true, length, take, drop, min, IfOk, OnOk, OnErr, IsSome, IsNone, IsTrue, ◌↔◌};
ghost use Rattle.re_outside.specs.Listed.{plain};
ghost use Rattle.re_outside.specs.Image.{IsTorn, IsCutShort, IsUnchanged};
ghost use Rattle.re_outside.specs.Outside.{Moves, Fails, FailsOn, IsAtEnd, Input, Output, Disk, content_in, none, input_fault, output_fault};
ghost use Rattle.re_fakes.specs.World.{seen_of, next_entry, counted, taken, spoken, stepped, faulted, short, FailsFor, output_failure, file_failure, write_failure};
ghost use Rattle.re_fakes.specs.Told.{world_of};

use crate::MemoryWorld;
use re_outside::{Call, Failed, Outside, Step};

impl Outside for MemoryWorld {
    ghost use Rattle.std.specs.Prelude.{refl};
    ghost use Rattle.re_fakes.specs.World.{seen_of};
    ghost use Rattle.re_fakes.specs.Told.{world_of};
    ghost use Rattle.re_fakes.specs.Past.{possible_now};

    ghost tells = { true };

    ghost seen = { λ w. seen_of (world_of w) };

    ghost tells_always = { λ w. refl };

    ghost reads_left = { λ w device file t. possible_now w.disks.start w.disks.files w.disks.trace.items w.disks.past device file };

    /// Gives as many bytes as are left and fit. It fails where the list says so.
    fn take(&mut self, buf: &mut [u8]) -> Result<usize, Failed>
        ensures count { IfOk result (λ n. n ≤ length buf.old) }
        ensures given { IfOk result (λ n. Moves (seen_of (world_of self.old)) (seen_of (world_of self.new)) (take n buf.new) [] none) }
        ensures end { IfOk result (λ n. n ≡ 0 → 0 < length buf.old → IsAtEnd (seen_of (world_of self.new))) }
        ensures failed { OnErr result (Fails (seen_of (world_of self.old)) (seen_of (world_of self.new)) Call.Take input_fault) }
        ensures most { IfOk result (λ n. n ≡ min (length buf.old) (length (world_of self.old).left)) }
        ensures after { IfOk result (λ n. world_of self.new ≡ taken n (world_of self.old)) }
        ensures unlisted { OnOk result (IsNone (next_entry Call.Take (world_of self.old))) }
        ensures listed { OnErr result (IsSome (next_entry Call.Take (world_of self.old))) }
        ensures cause { OnErr result (FailsFor Call.Take Input (output_failure Call.Take) (world_of self.old) (world_of self.new)) }
    {
        if self.begin(Call::Take).is_some() {
            self.raise_input();
            self.note_output(Call::Take);
            return Err(Failed);
        }
        Ok(self.give(buf))
    }

    /// Says the whole piece. It fails where the list says so, and where there is no memory for
    /// its step.
    fn say(&mut self, bytes: &[u8]) -> Result<usize, Failed>
        ensures count { IfOk result (λ n. n ≤ length bytes.now) }
        ensures some { 0 < length bytes.now → IfOk result (λ n. 0 < n) }
        ensures said { IfOk result (λ n. Moves (seen_of (world_of self.old)) (seen_of (world_of self.new)) [] (Step.Say (plain (take n bytes.now)) ∷ []) none) }
        ensures failed { OnErr result (Fails (seen_of (world_of self.old)) (seen_of (world_of self.new)) Call.Say output_fault) }
        ensures whole { IfOk result (λ n. n ≡ length bytes.now) }
        ensures after { OnOk result (world_of self.new ≡ spoken bytes.now (world_of self.old)) }
        ensures unlisted { OnOk result (IsNone (next_entry Call.Say (world_of self.old))) }
        ensures cause { OnErr result (FailsFor Call.Say Output (output_failure Call.Say) (world_of self.old) (world_of self.new)) }
    {
        if self.begin(Call::Say).is_some() {
            self.raise_output();
            self.note_output(Call::Say);
            return Err(Failed);
        }
        self.speak(bytes)
    }

    /// How many bytes the file has. It fails where the list says so.
    fn size(&mut self, device: u8, file: u8) -> Result<u64, Failed>
        requires { file < 2 }
        ensures size { (seen_of (world_of self.old)).told ≡ true → IfOk result (λ n. n ≡ length (content_in (seen_of (world_of self.old)) device file)) }
        ensures same { OnOk result (Moves (seen_of (world_of self.old)) (seen_of (world_of self.new)) [] [] none) }
        ensures failed { OnErr result (FailsOn (seen_of (world_of self.old)) (seen_of (world_of self.new)) Call.Size device file 0 [] IsUnchanged) }
        ensures after { OnOk result (world_of self.new ≡ counted Call.Size (world_of self.old)) }
        ensures unlisted { OnOk result (IsNone (next_entry Call.Size (world_of self.old))) }
        ensures listed { OnErr result (IsSome (next_entry Call.Size (world_of self.old))) }
        ensures cause { OnErr result (FailsFor Call.Size (Disk device) (file_failure Call.Size device file 0 (world_of self.old)) (world_of self.old) (world_of self.new)) }
    {
        if self.begin(Call::Size).is_some() {
            self.raise_disk(device);
            self.note_file(Call::Size, device, file, 0);
            return Err(Failed);
        }
        Ok(self.bytes(device, file).len() as u64)
    }

    /// Copies what the file has from `at` on, as far as it fits. It fails where the list says so.
    fn fetch(&mut self, device: u8, file: u8, at: u64, buf: &mut [u8]) -> Result<usize, Failed>
        requires { file < 2 }
        ensures count { IfOk result (λ n. n ≤ length buf.old) }
        ensures all { (seen_of (world_of self.old)).told ≡ true → IfOk result (λ n. n ≡ min (length buf.old) (length (content_in (seen_of (world_of self.old)) device file) - at)) }
        ensures bytes { (seen_of (world_of self.old)).told ≡ true → IfOk result (λ n. take n buf.new ≡ take n (drop at (content_in (seen_of (world_of self.old)) device file))) }
        ensures same { OnOk result (Moves (seen_of (world_of self.old)) (seen_of (world_of self.new)) [] [] none) }
        ensures failed { OnErr result (FailsOn (seen_of (world_of self.old)) (seen_of (world_of self.new)) Call.Fetch device file at [] IsUnchanged) }
        ensures after { OnOk result (world_of self.new ≡ counted Call.Fetch (world_of self.old)) }
        ensures unlisted { OnOk result (IsNone (next_entry Call.Fetch (world_of self.old))) }
        ensures listed { OnErr result (IsSome (next_entry Call.Fetch (world_of self.old))) }
        ensures cause { OnErr result (FailsFor Call.Fetch (Disk device) (file_failure Call.Fetch device file at (world_of self.old)) (world_of self.old) (world_of self.new)) }
    {
        if self.begin(Call::Fetch).is_some() {
            self.raise_disk(device);
            self.note_file(Call::Fetch, device, file, at);
            return Err(Failed);
        }
        Ok(copy_front(self.bytes(device, file), at, buf))
    }

    /// Writes the bytes. It fails where the list says so, and where there is no memory for its
    /// step or for the file, as for one that ends past 2^64 - 1.
    fn write(&mut self, device: u8, file: u8, at: u64, bytes: &[u8]) -> Result<(), Failed>
        requires { file < 2 }
        ensures fits { OnOk result (at + length bytes.now ≤ 2 ^ 64 - 1) }
        ensures written { OnOk result (Moves (seen_of (world_of self.old)) (seen_of (world_of self.new)) [] (Step.Write device file at (plain bytes.now) ∷ []) none) }
        ensures failed { OnErr result (FailsOn (seen_of (world_of self.old)) (seen_of (world_of self.new)) Call.Write device file at bytes.now (λ old new. IsTorn (length old) at (length bytes.now) old new)) }
        ensures after { OnOk result (world_of self.new ≡ stepped (Step.Write device file at (plain bytes.now)) (counted Call.Write (world_of self.old))) }
        ensures unlisted { OnOk result (IsNone (next_entry Call.Write (world_of self.old))) }
        ensures beyond { 2 ^ 64 ≤ at + length bytes.now → world_of self.new ≡ short (faulted (Disk device) (counted Call.Write (world_of self.old))) }
        ensures cause { OnErr result (FailsFor Call.Write (Disk device) (write_failure device file at bytes.now (world_of self.old)) (world_of self.old) (world_of self.new)) }
    {
        let listed = self.begin(Call::Write);
        if !is_within(at, bytes.len()) {
            return Err(self.refuse(device));
        }
        let Some(fail) = listed else {
            return self.write_all(device, file, at, bytes);
        };
        self.raise_disk(device);
        self.note_write(device, file, at, bytes, fail.done);
        Err(Failed)
    }

    /// Cuts the file. It fails where the list says so, and where there is no memory for its step.
    fn cut(&mut self, device: u8, file: u8, length: u64) -> Result<(), Failed>
        requires { file < 2 }
        ensures cut { OnOk result (Moves (seen_of (world_of self.old)) (seen_of (world_of self.new)) [] (Step.Cut device file length ∷ []) none) }
        ensures failed { OnErr result (FailsOn (seen_of (world_of self.old)) (seen_of (world_of self.new)) Call.Cut device file length [] (IsCutShort length)) }
        ensures after { OnOk result (world_of self.new ≡ stepped (Step.Cut device file length) (counted Call.Cut (world_of self.old))) }
        ensures unlisted { OnOk result (IsNone (next_entry Call.Cut (world_of self.old))) }
        ensures cause { OnErr result (FailsFor Call.Cut (Disk device) (file_failure Call.Cut device file length (world_of self.old)) (world_of self.old) (world_of self.new)) }
    {
        if self.begin(Call::Cut).is_some() {
            self.raise_disk(device);
            self.note_file(Call::Cut, device, file, length);
            return Err(Failed);
        }
        self.cut_all(device, file, length)
    }

    /// Syncs the file. It fails where the list says so, and where there is no memory for its
    /// step.
    fn sync(&mut self, device: u8, file: u8) -> Result<(), Failed>
        requires { file < 2 }
        ensures synced { OnOk result (Moves (seen_of (world_of self.old)) (seen_of (world_of self.new)) [] (Step.Sync device file ∷ []) none) }
        ensures failed { OnErr result (FailsOn (seen_of (world_of self.old)) (seen_of (world_of self.new)) Call.Sync device file 0 [] IsUnchanged) }
        ensures after { OnOk result (world_of self.new ≡ stepped (Step.Sync device file) (counted Call.Sync (world_of self.old))) }
        ensures unlisted { OnOk result (IsNone (next_entry Call.Sync (world_of self.old))) }
        ensures cause { OnErr result (FailsFor Call.Sync (Disk device) (file_failure Call.Sync device file 0 (world_of self.old)) (world_of self.old) (world_of self.new)) }
    {
        if self.begin(Call::Sync).is_some() {
            self.raise_disk(device);
            self.note_file(Call::Sync, device, file, 0);
            return Err(Failed);
        }
        self.sync_all(device, file)
    }
}

/// Whether a write of so many bytes ends within 2^64 - 1.
fn is_within(at: u64, count: usize) -> bool
    ensures { IsTrue result ↔ (at + count < 2 ^ 64) }
{
    at.checked_add(count as u64).is_some()
}

/// Copies what stands from `at` on into the front of `buf`, as far as it fits, and answers how
/// many bytes.
fn copy_front(bytes: &[u8], at: u64, buf: &mut [u8]) -> usize
    ensures count { result ≡ min (length buf.old) (length bytes.now - at) }
    ensures bytes { take result buf.new ≡ take result (drop at bytes.now) }
{
    let len = bytes.len();
    if at >= len as u64 {
        return 0;
    }
    let start = at as usize;
    let n = buf.len().min(len - start);
    buf[..n].copy_from_slice(&bytes[start..start + n]);
    n
}
