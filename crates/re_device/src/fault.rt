//! What a device answers.
use re_journal::JournalFault;
use re_replica::ReplicaFault;
use std::alloc::AllocError;
use thiserror::Error;

/// An entry that was taken and settled.
#[derive(Clone, Copy, Debug, PartialEq, Eq)]
pub struct Done {
    /// The number of the entry, from 1.
    pub number: u64,
    /// How many expressions were evaluated for it.
    pub evaluated: u32,
}

/// Why a device refuses.
#[derive(Clone, Copy, Debug, PartialEq, Eq, Error)]
pub enum DeviceFault {
    /// Memory ran out, and nothing has changed.
    #[error("memory ran out")]
    Memory,
    /// A call of the disk failed. The memory is as before, the files may hold the entry or not, and the device has stopped.
    #[error("the disk failed")]
    Disk,
    /// An earlier call of the disk failed, the one with this number since the device was opened, counted from 1.
    #[error("the device has stopped at call {at}")]
    Stopped { at: u64 },
    /// The device took 4,096 entries since it was opened, or its last entry's number is 2^48 - 1.
    #[error("the device takes no more entries")]
    Full,
    /// 8 entries are unsettled.
    #[error("the device takes no more entries before some are settled")]
    LooseFull,
    /// All sets together would have more than 1,024 pairs.
    #[error("the sets have no room for the element")]
    SetFull,
    /// The device's total of a counter's increments or of its decrements would pass 2^63 - 1.
    #[error("the counter has no room for the amount")]
    CounterFull,
    /// The dot of an operation would have the number 2^48, or a write the stamp 2^52.
    #[error("the device has no more numbers for operations")]
    DotsSpent,
}

impl From<AllocError> for DeviceFault {
    ghost use Rattle.std.specs.Prelude.{◌≡◌};
    ghost use Rattle.re_device.specs.declared.fault.DeviceFault.TheVariants.{Memory};

    ghost from_gives = { λ _ fault. fault ≡ Memory };

    fn from(_error: AllocError) -> DeviceFault {
        DeviceFault::Memory
    }
}

impl From<ReplicaFault> for DeviceFault {
    ghost use Rattle.std.specs.Prelude.{◌≡◌};
    ghost use Rattle.re_device.specs.Refusals.{fault_of_replica};

    ghost from_gives = { λ refusal fault. fault ≡ fault_of_replica refusal };

    fn from(refusal: ReplicaFault) -> DeviceFault {
        match refusal {
            ReplicaFault::Memory => DeviceFault::Memory,
            ReplicaFault::SetFull => DeviceFault::SetFull,
            ReplicaFault::CounterFull => DeviceFault::CounterFull,
            ReplicaFault::DotsSpent => DeviceFault::DotsSpent,
        }
    }
}

impl From<JournalFault> for DeviceFault {
    ghost use Rattle.std.specs.Prelude.{◌≡◌};
    ghost use Rattle.re_device.specs.Refusals.{fault_of_journal};

    ghost from_gives = { λ refusal fault. fault ≡ fault_of_journal refusal };

    fn from(refusal: JournalFault) -> DeviceFault {
        match refusal {
            JournalFault::Disk => DeviceFault::Disk,
            JournalFault::Stopped { at } => DeviceFault::Stopped { at },
        }
    }
}
