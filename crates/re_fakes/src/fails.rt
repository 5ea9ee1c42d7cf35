//! The list of failing calls.
ghost use Rattle.std.specs.Prelude.{◌≡◌, ◌+◌};
ghost use Rattle.re_fakes.specs.Fails.{fits, entry};

use re_outside::Call;
use re_terms::TryCopy;
use std::alloc::{AllocError, Global};

/// An entry of the list of failing calls: the `nth` call of its kind fails, counted from 1 over
/// all devices.
///
/// A failed write has written its first `done` bytes, and all of them where it has no more. Any
/// other failed call did nothing.
#[derive(Clone, Copy, Debug, PartialEq, Eq)]
pub struct Fail {
    pub call: Call,
    pub nth: u64,
    pub done: u32,
}

impl TryCopy for Fail {
    fn copy(&self, _alloc: Global) -> Result<Fail, AllocError> {
        Ok(*self)
    }
}

impl Fail {
    /// Whether it speaks of the next call of this kind, where `before` were made.
    pub fn fits(&self, call: Call, before: u64) -> bool
        ensures { result ≡ fits call (before + 1) self.now }
    {
        let nth = self.nth;
        match before.checked_add(1) {
            Some(number) => self.call == call && nth == number,
            None => false,
        }
    }
}

/// The entry that speaks of the next call of this kind, where `before` were made: the first in
/// the list, where it has several.
pub(crate) fn entry(fails: &[Fail], call: Call, before: u64) -> Option<Fail>
    ensures { result ≡ entry call (before + 1) fails.now }
{
    fails.iter().copied().find(|fail| fail.fits(call, before))
}
