//! The files of all devices, with the steps that made them what they are.
ghost use Rattle.std.specs.Prelude.{ℕ, ◌≡◌, ◌≤◌, ◌<◌, ◌+◌, ◌^◌, [], ◌∷◌, ◌++◌, length, take, IfOk, OnOk, OnErr};
ghost use Rattle.re_outside.specs.Listed.{plain};
ghost use Rattle.re_outside.specs.Image.{content, written};
ghost use Rattle.re_outside.specs.Trace.{acts_of};
ghost use Rattle.re_outside.specs.Outside.{IsOutput};
ghost use Rattle.re_outside.specs.declared.step.Call.TheVariants.{Write as WriteCall};
ghost use Rattle.re_fakes.specs.Files.{file_in};
ghost use Rattle.re_fakes.specs.Past.{IsPast};

use crate::edits::write_over;
use crate::Files;
use re_outside::{Bytes, Call, Step};
use re_terms::{Seq, TryCopy};
use std::alloc::{AllocError, Global};

/// The files of all devices, what they were at first, and the steps since then.
#[derive(Drop)]
pub(crate) struct Disks {
    alloc: Global,
    start: Files,
    files: Files,
    trace: Seq<Step>,
    ghost past: { IsPast start files trace.items },
}

impl Disks {
    /// These files, and no step. The one refusal is want of memory.
    pub(crate) fn new(alloc: Global, start: Files) -> Result<Disks, AllocError>
        ensures start { IfOk result (λ disks. disks.start ≡ start) }
        ensures trace { IfOk result (λ disks. disks.trace.items ≡ []) }
    {
        let files = start.copy(alloc)?;
        Ok(Disks {
            alloc,
            start,
            files,
            trace: Seq::new(alloc),
        })
    }

    /// The files before the first step.
    pub(crate) fn start(&self) -> &Files
        ensures { result.now ≡ self.now.start }
    {
        &self.start
    }

    /// The steps so far.
    pub(crate) fn trace(&self) -> &Seq<Step>
        ensures { result.now ≡ self.now.trace }
    {
        &self.trace
    }

    /// What reads of the files give.
    pub(crate) fn files(&self) -> &Files
        ensures { (d f : ℕ) → file_in result.now d f ≡ content (file_in self.now.start d f) (acts_of d f self.now.trace.items) }
    {
        &self.files
    }

    /// What reads of a file give.
    pub(crate) fn bytes(&self, device: u8, file: u8) -> &[u8]
        requires { file < 2 }
        ensures { result.now ≡ content (file_in self.now.start device file) (acts_of device file self.now.trace.items) }
    {
        self.files.bytes(device, file)
    }

    /// The step that says these bytes. The one refusal is want of memory.
    pub(crate) fn say(&mut self, bytes: &[u8]) -> Result<(), AllocError>
        ensures ok { OnOk result (self.new.trace.items ≡ self.old.trace.items ++ Step.Say (plain bytes.now) ∷ []) }
        ensures err { OnErr result (self.new.trace.items ≡ self.old.trace.items) }
        ensures start { self.new.start ≡ self.old.start }
    {
        let bytes = Bytes::from_slice(self.alloc, bytes)?;
        self.trace.push(Step::Say { bytes })?;
        Ok(())
    }

    /// The step of a failed call that takes or says. The one refusal is want of memory.
    pub(crate) fn fail_output(&mut self, call: Call) -> Result<(), AllocError>
        requires { IsOutput call }
        ensures ok { OnOk result (self.new.trace.items ≡ self.old.trace.items ++ Step.Fail call 0 0 0 (plain []) (plain []) ∷ []) }
        ensures err { OnErr result (self.new.trace.items ≡ self.old.trace.items) }
        ensures start { self.new.start ≡ self.old.start }
    {
        self.trace.push(Step::Fail {
            call,
            device: 0,
            file: 0,
            at: 0,
            bytes: Bytes::new(self.alloc),
            content: Bytes::new(self.alloc),
        })?;
        Ok(())
    }

    /// The step of a failed call on a file that did nothing. The one refusal is want of memory.
    pub(crate) fn fail(
        &mut self,
        call: Call,
        device: u8,
        file: u8,
        at: u64,
    ) -> Result<(), AllocError>
        requires { file < 2 }
        ensures ok { OnOk result (self.new.trace.items ≡ self.old.trace.items ++ Step.Fail call device file at (plain []) (plain (content (file_in self.old.start device file) (acts_of device file self.old.trace.items))) ∷ []) }
        ensures err { OnErr result (self.new.trace.items ≡ self.old.trace.items) }
        ensures start { self.new.start ≡ self.old.start }
    {
        let content = Bytes::from_slice(self.alloc, self.bytes(device, file))?;
        self.trace.push(Step::Fail {
            call,
            device,
            file,
            at,
            bytes: Bytes::new(self.alloc),
            content,
        })?;
        Ok(())
    }

    /// Writes the bytes, with its step. The one refusal is want of memory, and did nothing.
    pub(crate) fn write(
        &mut self,
        device: u8,
        file: u8,
        at: u64,
        bytes: &[u8],
    ) -> Result<(), AllocError>
        requires file { file < 2 }
        requires fits { at + length bytes.now < 2 ^ 64 }
        ensures ok { OnOk result (self.new.trace.items ≡ self.old.trace.items ++ Step.Write device file at (plain bytes.now) ∷ []) }
        ensures err { OnErr result (self.new.trace.items ≡ self.old.trace.items) }
        ensures start { self.new.start ≡ self.old.start }
    {
        let step = Step::Write {
            device,
            file,
            at,
            bytes: Bytes::from_slice(self.alloc, bytes)?,
        };
        self.trace.reserve(1)?;
        self.files
            .write(self.alloc, device, file, at as usize, bytes)?;
        add(&mut self.trace, step);
        Ok(())
    }

    /// Writes the first `done` bytes, with the step of the whole write as one that failed.
    ///
    /// The one refusal is want of memory, and did nothing.
    pub(crate) fn fail_write(
        &mut self,
        device: u8,
        file: u8,
        at: u64,
        bytes: &[u8],
        done: usize,
    ) -> Result<(), AllocError>
        requires file { file < 2 }
        requires fits { at + length bytes.now < 2 ^ 64 }
        requires some { done ≤ length bytes.now }
        ensures ok { OnOk result (self.new.trace.items ≡ self.old.trace.items ++ Step.Fail WriteCall device file at (plain bytes.now) (plain (written (content (file_in self.old.start device file) (acts_of device file self.old.trace.items)) at (take done bytes.now))) ∷ []) }
        ensures err { OnErr result (self.new.trace.items ≡ self.old.trace.items) }
        ensures start { self.new.start ≡ self.old.start }
    {
        let mut content = Bytes::from_slice(self.alloc, self.bytes(device, file))?;
        write_over(&mut content, at as usize, &bytes[..done])?;
        let step = Step::Fail {
            call: Call::Write,
            device,
            file,
            at,
            bytes: Bytes::from_slice(self.alloc, bytes)?,
            content: Bytes::from_slice(self.alloc, content.as_slice())?,
        };
        self.trace.reserve(1)?;
        self.files.put(self.alloc, device, file, content)?;
        add(&mut self.trace, step);
        Ok(())
    }

    /// Keeps the first `length` bytes, with its step. The one refusal is want of memory, and did
    /// nothing.
    pub(crate) fn cut(&mut self, device: u8, file: u8, length: u64) -> Result<(), AllocError>
        requires { file < 2 }
        ensures ok { OnOk result (self.new.trace.items ≡ self.old.trace.items ++ Step.Cut device file length ∷ []) }
        ensures err { OnErr result (self.new.trace.items ≡ self.old.trace.items) }
        ensures start { self.new.start ≡ self.old.start }
    {
        self.trace.reserve(1)?;
        self.files.cut(self.alloc, device, file, length as usize);
        add(
            &mut self.trace,
            Step::Cut {
                device,
                file,
                length,
            },
        );
        Ok(())
    }

    /// The step of a sync. The one refusal is want of memory.
    pub(crate) fn sync(&mut self, device: u8, file: u8) -> Result<(), AllocError>
        requires { file < 2 }
        ensures ok { OnOk result (self.new.trace.items ≡ self.old.trace.items ++ Step.Sync device file ∷ []) }
        ensures err { OnErr result (self.new.trace.items ≡ self.old.trace.items) }
        ensures start { self.new.start ≡ self.old.start }
    {
        self.trace.push(Step::Sync { device, file })?;
        Ok(())
    }
}

/// Puts a step behind the others, where the list has room.
fn add(trace: &mut Seq<Step>, step: Step)
    requires { 0 < trace.old.spare }
    ensures { trace.new.items ≡ trace.old.items ++ step ∷ [] }
{
    let _ = trace.push(step);
}
