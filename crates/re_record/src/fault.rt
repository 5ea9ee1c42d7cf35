//! Why a snapshot can't be read.
ghost use Rattle.std.specs.Prelude.{◌≡◌};
ghost use Rattle.re_record.specs.Snapshots.{snapshot_fault};
ghost use Rattle.re_record.specs.declared.fault.SnapshotFault.TheVariants.{Memory};

use re_wire::WireFault;
use std::alloc::AllocError;

/// Why a snapshot can't be read.
#[derive(Clone, Copy, Debug, PartialEq, Eq)]
pub enum SnapshotFault {
    Memory,
    /// The place, counted from the body's start, of the first field, in reading order, that is cut off or holds a value that
    /// isn't allowed; or of the first byte behind the last field.
    At(u32),
    /// The text isn't the canonical text of the program in hand.
    OtherText,
}

impl From<AllocError> for SnapshotFault {
    ghost from_gives = { λ _ e. e ≡ Memory };

    fn from(_e: AllocError) -> SnapshotFault {
        SnapshotFault::Memory
    }
}

impl From<WireFault> for SnapshotFault {
    ghost from_gives = { λ w e. e ≡ snapshot_fault w };

    fn from(e: WireFault) -> SnapshotFault {
        match e {
            WireFault::Memory => SnapshotFault::Memory,
            WireFault::At(place) => SnapshotFault::At(place),
        }
    }
}
