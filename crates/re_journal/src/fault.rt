//! Why a journal refuses.
ghost use Rattle.std.specs.Prelude.{◌≡◌};
ghost use Rattle.re_journal.specs.declared.fault.JournalFault.TheVariants.{Disk as JournalDisk};
ghost use Rattle.re_journal.specs.declared.fault.ScanFault.TheVariants.{Memory, Disk};

use re_outside::Failed;
use std::alloc::{AllocError, AllocFailed};

/// Why a commit, or another change of a device's files, isn't made.
#[derive(Clone, Copy, Debug, PartialEq, Eq)]
pub enum JournalFault {
    /// The disk failed in this call, and the journal has stopped.
    Disk,
    /// The journal stopped earlier, at the call with this number.
    Stopped { at: u64 },
}

/// Why a file can't be read as a store.
#[derive(Clone, Copy, Debug, PartialEq, Eq)]
pub enum ScanFault {
    /// There is no memory for what it holds.
    Memory,
    /// The disk failed in this call.
    Disk,
    /// At this place, counted in bytes from the file's start, begins the first field that is cut off or isn't allowed.
    Bad { at: u64 },
}

impl From<Failed> for JournalFault {
    ghost from_gives = { λ _ e. e ≡ JournalDisk };

    fn from(_e: Failed) -> JournalFault {
        JournalFault::Disk
    }
}

impl From<Failed> for ScanFault {
    ghost from_gives = { λ _ e. e ≡ Disk };

    fn from(_e: Failed) -> ScanFault {
        ScanFault::Disk
    }
}

impl From<AllocError> for ScanFault {
    ghost from_gives = { λ _ e. e ≡ Memory };

    fn from(_e: AllocError) -> ScanFault {
        ScanFault::Memory
    }
}

impl<T: Drop> From<AllocFailed<T>> for ScanFault {
    ghost from_gives = { λ _ e. e ≡ Memory };

    fn from(_e: AllocFailed<T>) -> ScanFault {
        ScanFault::Memory
    }
}
