//! Why the files of a device can't be opened.
ghost use Rattle.std.specs.Prelude.{◌≡◌};
ghost use Rattle.re_compact.specs.declared.fault.OpenFault.TheVariants.{Disk};

use re_outside::Failed;

/// Why the files of a device can't be opened.
#[derive(Clone, Copy, Debug, PartialEq, Eq)]
pub enum OpenFault {
    /// There is no memory for what they hold.
    Memory,
    /// The disk failed in this call.
    Disk,
    /// In this file, at this place, counted in bytes from its start, begins the first field that is cut off or isn't allowed.
    BadStore { file: u8, at: u64 },
    /// They hold the store of another program.
    OtherProgram,
}

impl From<Failed> for OpenFault {
    ghost from_gives = { λ _ e. e ≡ Disk };

    fn from(_e: Failed) -> OpenFault {
        OpenFault::Disk
    }
}
