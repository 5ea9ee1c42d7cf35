//! The world in memory.
ghost use Rattle.std.specs.Prelude.{ℕ, ◌≡◌, ◌==◌, ◌≤◌, ◌<◌, length};
ghost use Rattle.std.specs.List.{list_all};

use crate::calls::Calls;
use crate::disks::Disks;
use crate::fails::entry;
use crate::stops::files_after;
use crate::{Choice, Fail, Files};
use re_outside::{Call, Failed, Step};
use re_terms::Seq;
use std::alloc::{AllocError, Global};

/// A world in memory, with given input and files, in which the calls of a list fail.
///
/// Contracts see the input left, the files before the first step, the steps so far, the list,
/// how many calls of each kind were made, and the counts of faults and of calls that found no
/// memory. What reads give of the files follows from the steps.
#[derive(Drop)]
pub struct MemoryWorld {
    alloc: Global,
    input: Vec<u8>,
    at: usize,
    disks: Disks,
    fails: Seq<Fail>,
    calls: Calls,
    input_faults: u64,
    output_faults: u64,
    disk_faults: Seq<u64>,
    shorts: u64,
    ghost in_range: { at ≤ length input.items },
    ghost counted: { length disk_faults.items ≡ 256 },
}

/// Whether each of these counts is 0.
fn are_zero(counts: &[u64]) -> bool
    ensures { result ≡ list_all (λ n. n == 0) counts.now }
{
    counts.iter().all(|count| *count == 0)
}

impl MemoryWorld {
    ghost use Rattle.std.specs.Prelude.{true, ◌+◌, ◌^◌, ◌⊎◌, ◌++◌, min, IfOk, OnOk, OnErr, IfSome, IsNone, ◌↔◌, take};
    ghost use Rattle.re_outside.specs.Image.{written};
    ghost use Rattle.re_outside.specs.Listed.{plain};
    ghost use Rattle.re_outside.specs.Trace.{acts_of, IsJointImage};
    ghost use Rattle.re_outside.specs.Outside.{FaultKind, Input, Output, Disk, IsOutput};
    ghost use Rattle.re_fakes.specs.Files.{file_in};
    ghost use Rattle.re_fakes.specs.Stops.{IsChosen};
    ghost use Rattle.re_fakes.specs.World.{faults_of, new_world, next_entry, counted as with_call, faulted, short, stepped, given, output_failure, file_failure, reads_of, moment_at};
    ghost use Rattle.re_fakes.specs.Told.{world_of};

    /// A world with this input and these files, in which the calls of the list fail.
    ///
    /// Its trace is empty, and all its counts are 0. The one refusal is want of memory.
    pub fn new(
        alloc: Global,
        input: &[u8],
        files: Files,
        fails: Seq<Fail>,
    ) -> Result<MemoryWorld, AllocError>
        ensures { IfOk result (λ world. world_of world ≡ new_world input.now files fails.items) }
    {
        let disk_faults = vec![in alloc; 0u64; 256]?;
        Ok(MemoryWorld {
            alloc,
            input: input.to_vec(alloc)?,
            at: 0,
            disks: Disks::new(alloc, files)?,
            fails,
            calls: Calls::new(),
            input_faults: 0,
            output_faults: 0,
            disk_faults: Seq::from_vec(disk_faults),
            shorts: 0,
        })
    }

    /// The steps so far, in order.
    pub fn trace(&self) -> &Seq<Step>
        ensures { result.now.items ≡ (world_of self.now).trace }
    {
        self.disks.trace()
    }

    /// What reads of the files give, which is what the steps made of them.
    pub fn files(&self) -> &Files
        ensures { (device file : ℕ) → file_in result.now device file ≡ reads_of (world_of self.now) device file }
    {
        self.disks.files()
    }

    /// How many calls found no memory for their step or for a file. At 2^64 - 1 it stays.
    pub fn shorts(&self) -> u64
        ensures { result ≡ (world_of self.now).shorts }
    {
        self.shorts
    }

    /// Whether no call failed: each count of faults is 0.
    pub fn is_faultless(&self) -> bool
        ensures { result ≡ true ↔ ((kind : FaultKind) → faults_of (world_of self.now) kind ≡ 0) }
    {
        self.input_faults == 0 && self.output_faults == 0 && are_zero(self.disk_faults.as_slice())
    }

    /// What a choice takes to be left of the files by a stop after the first `step` steps.
    ///
    /// It is `None` exactly where `step` passes the length of the trace. The one refusal is want
    /// of memory.
    pub fn stop_at(&self, step: u64, choice: Choice) -> Result<Option<Files>, AllocError>
        ensures passed { IfOk result (λ left. IsNone left ↔ (length (world_of self.now).trace < step)) }
        ensures chosen { IfOk result (λ left. IfSome left (λ files. (device file : ℕ) → IsChosen choice (file_in (world_of self.now).start device file) (acts_of device file (take step (world_of self.now).trace)) (file_in files device file))) }
        ensures image { IfOk result (λ left. IfSome left (λ files. IsJointImage (moment_at (world_of self.now) step) (file_in files))) }
    {
        let trace = self.disks.trace().as_slice();
        if step > trace.len() as u64 {
            return Ok(None);
        }
        let left = files_after(
            self.alloc,
            self.disks.start(),
            &trace[..step as usize],
            choice,
        )?;
        Ok(Some(left))
    }

    /// Counts a call, and finds the entry of the list that speaks of it.
    pub(crate) fn begin(&mut self, call: Call) -> Option<Fail>
        ensures entry { result ≡ next_entry call (world_of self.old) }
        ensures call { world_of self.new ≡ with_call call (world_of self.old) }
    {
        let listed = entry(self.fails.as_slice(), call, self.calls.of(call));
        self.calls.raise(call);
        listed
    }

    /// Counts a fault of input.
    pub(crate) fn raise_input(&mut self)
        ensures { world_of self.new ≡ faulted Input (world_of self.old) }
    {
        self.input_faults = self.input_faults.saturating_add(1);
    }

    /// Counts a fault of output.
    pub(crate) fn raise_output(&mut self)
        ensures { world_of self.new ≡ faulted Output (world_of self.old) }
    {
        self.output_faults = self.output_faults.saturating_add(1);
    }

    /// Counts a fault of a device's disk.
    pub(crate) fn raise_disk(&mut self, device: u8)
        ensures { world_of self.new ≡ faulted (Disk device) (world_of self.old) }
    {
        let place = device as usize;
        let count = self.disk_faults.as_slice()[place].saturating_add(1);
        self.disk_faults.set(place, count);
    }

    /// Counts a call that found no memory.
    pub(crate) fn run_short(&mut self)
        ensures { world_of self.new ≡ short (world_of self.old) }
    {
        self.shorts = self.shorts.saturating_add(1);
    }

    /// Counts a call on a device's disk that found no memory, and its fault.
    pub(crate) fn refuse(&mut self, device: u8) -> Failed
        ensures { world_of self.new ≡ short (faulted (Disk device) (world_of self.old)) }
    {
        self.raise_disk(device);
        self.run_short();
        Failed
    }

    /// Adds the step of a failed call that takes or says, or counts it as short of memory.
    pub(crate) fn note_output(&mut self, call: Call)
        requires { IsOutput call }
        ensures { (world_of self.new ≡ stepped (output_failure call) (world_of self.old)) ⊎ (world_of self.new ≡ short (world_of self.old)) }
    {
        match self.disks.fail_output(call) {
            Ok(()) => (),
            Err(_) => self.run_short(),
        }
    }

    /// Adds the step of a failed call on a file that did nothing, or counts it as short of memory.
    pub(crate) fn note_file(&mut self, call: Call, device: u8, file: u8, at: u64)
        requires { file < 2 }
        ensures { (world_of self.new ≡ stepped (file_failure call device file at (world_of self.old)) (world_of self.old)) ⊎ (world_of self.new ≡ short (world_of self.old)) }
    {
        match self.disks.fail(call, device, file, at) {
            Ok(()) => (),
            Err(_) => self.run_short(),
        }
    }

    /// Makes the first `done` bytes of a write with the step of one that failed, or counts it as
    /// short of memory.
    pub(crate) fn note_write(&mut self, device: u8, file: u8, at: u64, bytes: &[u8], done: u32)
        requires file { file < 2 }
        requires fits { at + length bytes.now < 2 ^ 64 }
        ensures { (world_of self.new ≡ stepped (Step.Fail Call.Write device file at (plain bytes.now) (plain (written (reads_of (world_of self.old) device file) at (take done bytes.now)))) (world_of self.old)) ⊎ (world_of self.new ≡ short (world_of self.old)) }
    {
        let done = bytes.len().min(done as usize);
        match self.disks.fail_write(device, file, at, bytes, done) {
            Ok(()) => (),
            Err(_) => self.run_short(),
        }
    }

    /// What reads of a file give.
    pub(crate) fn bytes(&self, device: u8, file: u8) -> &[u8]
        requires { file < 2 }
        ensures { result.now ≡ reads_of (world_of self.now) device file }
    {
        self.disks.bytes(device, file)
    }

    /// Gives as many bytes of the input as are left and fit.
    pub(crate) fn give(&mut self, buf: &mut [u8]) -> usize
        ensures most { result ≡ min (length buf.old) (length (world_of self.old).left) }
        ensures given { (world_of self.old).left ≡ take result buf.new ++ (world_of self.new).left }
        ensures after { world_of self.new ≡ given result (world_of self.old) }
    {
        let left = self.input.len() - self.at;
        let n = buf.len().min(left);
        buf[..n].copy_from_slice(&self.input[self.at..self.at + n]);
        self.at += n;
        n
    }

    /// Says the whole piece, or counts its fault and that it found no memory.
    pub(crate) fn speak(&mut self, bytes: &[u8]) -> Result<usize, Failed>
        ensures whole { IfOk result (λ n. n ≡ length bytes.now) }
        ensures ok { OnOk result (world_of self.new ≡ stepped (Step.Say (plain bytes.now)) (world_of self.old)) }
        ensures err { OnErr result (world_of self.new ≡ short (faulted Output (world_of self.old))) }
    {
        match self.disks.say(bytes) {
            Ok(()) => Ok(bytes.len()),
            Err(_) => {
                self.raise_output();
                self.run_short();
                Err(Failed)
            }
        }
    }

    /// Writes the bytes, or counts its fault and that it found no memory.
    pub(crate) fn write_all(
        &mut self,
        device: u8,
        file: u8,
        at: u64,
        bytes: &[u8],
    ) -> Result<(), Failed>
        requires file { file < 2 }
        requires fits { at + length bytes.now < 2 ^ 64 }
        ensures ok { OnOk result (world_of self.new ≡ stepped (Step.Write device file at (plain bytes.now)) (world_of self.old)) }
        ensures err { OnErr result (world_of self.new ≡ short (faulted (Disk device) (world_of self.old))) }
    {
        match self.disks.write(device, file, at, bytes) {
            Ok(()) => Ok(()),
            Err(_) => Err(self.refuse(device)),
        }
    }

    /// Cuts the file, or counts its fault and that it found no memory.
    pub(crate) fn cut_all(&mut self, device: u8, file: u8, length: u64) -> Result<(), Failed>
        requires { file < 2 }
        ensures ok { OnOk result (world_of self.new ≡ stepped (Step.Cut device file length) (world_of self.old)) }
        ensures err { OnErr result (world_of self.new ≡ short (faulted (Disk device) (world_of self.old))) }
    {
        match self.disks.cut(device, file, length) {
            Ok(()) => Ok(()),
            Err(_) => Err(self.refuse(device)),
        }
    }

    /// Syncs the file, or counts its fault and that it found no memory.
    pub(crate) fn sync_all(&mut self, device: u8, file: u8) -> Result<(), Failed>
        requires { file < 2 }
        ensures ok { OnOk result (world_of self.new ≡ stepped (Step.Sync device file) (world_of self.old)) }
        ensures err { OnErr result (world_of self.new ≡ short (faulted (Disk device) (world_of self.old))) }
    {
        match self.disks.sync(device, file) {
            Ok(()) => Ok(()),
            Err(_) => Err(self.refuse(device)),
        }
    }
}
