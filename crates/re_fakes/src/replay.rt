//! The steps of a trace gone through again.
ghost use Rattle.std.specs.Prelude.{◌≡◌, ◌<◌, ◌^◌, ◌+◌, length, OnOk, IfOk};
ghost use Rattle.re_outside.specs.FileAct.{Wrote, CutTo, Synced, WriteFailed, CutFailed, SyncFailed};
ghost use Rattle.re_fakes.specs.Files.{file_at, place_of};
ghost use Rattle.re_outside.specs.Image.{write_end};
ghost use Rattle.re_fakes.specs.Replay.{file_of, MarksAt, FollowsAct, FollowsStep};

use crate::Files;
use re_outside::{Bytes, Call, Step};
use std::alloc::{AllocError, Global};

/// What reads give of the files, and what a stop leaves of them, as the steps go on.
///
/// Where a byte to fill with is given, a stop leaves it at each pending place, and else the
/// synced bytes.
#[derive(Drop)]
pub(crate) struct Replay {
    pub alloc: Global,
    pub fill: Option<u8>,
    pub now: Files,
    pub left: Files,
}

impl Replay {
    /// Goes on by one step. The one refusal is want of memory.
    pub(crate) fn follow(&mut self, step: &Step) -> Result<(), AllocError>
        ensures fill { self.new.fill ≡ self.old.fill }
        ensures ok { OnOk result (FollowsStep self.old.fill step.now self.old.now self.old.left self.new.now self.new.left) }
    {
        if file_of(step) > 1 {
            return Ok(());
        }
        match step {
            Step::Write {
                device,
                file,
                at,
                bytes,
            } => self.write(*device, *file, *at, bytes),
            Step::Cut {
                device,
                file,
                length,
            } => {
                self.cut(*device, *file, *length);
                Ok(())
            }
            Step::Sync { device, file } => self.sync(*device, *file),
            Step::Say { bytes: _ } => Ok(()),
            Step::Fail {
                call,
                device,
                file,
                at,
                bytes,
                content,
            } => match call {
                Call::Write => self.fail_write(*device, *file, *at, bytes, content),
                Call::Cut => self.fail_cut(*device, *file, *at, content),
                Call::Take | Call::Say | Call::Size | Call::Fetch | Call::Sync => Ok(()),
            },
        }
    }

    /// A write that came through.
    fn write(&mut self, device: u8, file: u8, at: u64, bytes: &Bytes) -> Result<(), AllocError>
        requires { file < 2 }
        ensures fill { self.new.fill ≡ self.old.fill }
        ensures ok { OnOk result (FollowsAct self.old.fill device file (Wrote at bytes.now.items) self.old.now self.old.left self.new.now self.new.left) }
    {
        let at = within(at, bytes.len())?;
        self.mark(device, file, at, bytes.len(), 0)?;
        self.now
            .write(self.alloc, device, file, at, bytes.as_slice())?;
        Ok(())
    }

    /// A cut that came through.
    fn cut(&mut self, device: u8, file: u8, length: u64)
        requires { file < 2 }
        ensures fill { self.new.fill ≡ self.old.fill }
        ensures ok { FollowsAct self.old.fill device file (CutTo length) self.old.now self.old.left self.new.now self.new.left }
    {
        self.now.cut(self.alloc, device, file, length as usize);
    }

    /// A sync that came through.
    fn sync(&mut self, device: u8, file: u8) -> Result<(), AllocError>
        requires { file < 2 }
        ensures fill { self.new.fill ≡ self.old.fill }
        ensures ok { OnOk result (FollowsAct self.old.fill device file Synced self.old.now self.old.left self.new.now self.new.left) }
    {
        let bytes = Bytes::from_slice(self.alloc, self.now.bytes(device, file))?;
        self.left.put(self.alloc, device, file, bytes)?;
        Ok(())
    }

    /// A write that failed and left this content.
    fn fail_write(
        &mut self,
        device: u8,
        file: u8,
        at: u64,
        bytes: &Bytes,
        content: &Bytes,
    ) -> Result<(), AllocError>
        requires { file < 2 }
        ensures fill { self.new.fill ≡ self.old.fill }
        ensures ok { OnOk result (FollowsAct self.old.fill device file (WriteFailed at bytes.now.items content.now.items) self.old.now self.old.left self.new.now self.new.left) }
    {
        let at = within(at, bytes.len())?;
        self.mark(device, file, at, bytes.len(), content.len())?;
        let bytes = Bytes::from_slice(self.alloc, content.as_slice())?;
        self.now.put(self.alloc, device, file, bytes)?;
        Ok(())
    }

    /// A cut that failed and left this content.
    fn fail_cut(
        &mut self,
        device: u8,
        file: u8,
        length: u64,
        content: &Bytes,
    ) -> Result<(), AllocError>
        requires { file < 2 }
        ensures fill { self.new.fill ≡ self.old.fill }
        ensures ok { OnOk result (FollowsAct self.old.fill device file (CutFailed length content.now.items) self.old.now self.old.left self.new.now self.new.left) }
    {
        self.mark(device, file, 0, 0, content.len())?;
        let bytes = Bytes::from_slice(self.alloc, content.as_slice())?;
        self.now.put(self.alloc, device, file, bytes)?;
        Ok(())
    }

    /// Marks what a write of so many bytes may have touched, where a byte to fill with is given,
    /// and the length that the file had afterwards.
    ///
    /// The one refusal is want of memory.
    fn mark(
        &mut self,
        device: u8,
        file: u8,
        at: usize,
        count: usize,
        reached: usize,
    ) -> Result<(), AllocError>
        requires { at + count < 2 ^ 64 }
        ensures fill { self.new.fill ≡ self.old.fill }
        ensures now { self.new.now ≡ self.old.now }
        ensures ok { OnOk result (let place = place_of device file in MarksAt self.old.fill place (length (file_at self.old.now place)) at count reached self.old.left self.new.left) }
    {
        let Some(byte) = self.fill else {
            return Ok(());
        };
        let size = self.now.bytes(device, file).len();
        let end = end_of(at, count);
        self.left
            .grow(self.alloc, device, file, size.max(end).max(reached), byte)?;
        let from = at.min(size);
        if from < end {
            let marks = vec![in self.alloc; byte; end - from]?;
            self.left.write(self.alloc, device, file, from, &marks)?;
        }
        Ok(())
    }
}

/// Where a write of so many bytes ends. One of no bytes does nothing.
fn end_of(at: usize, count: usize) -> usize
    requires { at + count < 2 ^ 64 }
    ensures { result ≡ write_end at count }
{
    if count == 0 { 0 } else { at + count }
}

/// The file that a step names, and 0 where it names none.
fn file_of(step: &Step) -> u8
    ensures { result ≡ file_of step.now }
{
    match step {
        Step::Write { file, .. } => *file,
        Step::Cut { file, .. } => *file,
        Step::Sync { file, .. } => *file,
        Step::Say { .. } => 0,
        Step::Fail { file, .. } => *file,
    }
}

/// The place as an index, where a write of so many bytes there ends within 2^64 - 1. No file
/// could hold another one, so its refusal is want of memory.
fn within(at: u64, count: usize) -> Result<usize, AllocError>
    ensures { IfOk result (λ place. (place ≡ at) × (at + count < 2 ^ 64)) }
{
    match at.checked_add(count as u64) {
        Some(_) => Ok(at as usize),
        None => Err(AllocError),
    }
}
