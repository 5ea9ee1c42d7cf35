//! The codes of refusals, and what a device's answers are in a session.
ghost use Rattle.std.specs.Prelude.{◌≡◌};
ghost use Rattle.re_device.specs.Stepping.{refused_as};
ghost use Rattle.re_terms.specs.Worlds.{plain_answer};

use re_device::DeviceFault;
use re_terms::Answer;

/// The device is down.
pub(crate) const DOWN: u8 = 26;
/// The device is up already.
pub(crate) const UP: u8 = 27;
/// There is no such packet.
pub(crate) const NO_PACKET: u8 = 28;
/// The device takes no more entries.
const FULL: u8 = 29;
/// The sets have no room.
const SET_FULL: u8 = 30;
/// The counter has no room.
const COUNTER_FULL: u8 = 31;
/// The device has no more numbers for operations.
const DOTS_SPENT: u8 = 32;
/// The disk failed.
pub(crate) const DISK: u8 = 33;
/// As many packets were made as there may be.
pub(crate) const TOO_MANY_PACKETS: u8 = 35;
/// Memory ran out.
pub(crate) const MEMORY: u8 = 36;
/// As many entries are unsettled as there may be.
const LOOSE_FULL: u8 = 38;
/// The store is another program's.
pub(crate) const OTHER_PROGRAM: u8 = 39;

/// A device's refusal, as an answer: docs/SESSION.md has the codes.
pub(crate) fn refused(fault: DeviceFault) -> Answer
    ensures { plain_answer result ≡ refused_as fault }
{
    match fault {
        DeviceFault::Memory => Answer::No(MEMORY),
        DeviceFault::Disk => Answer::No(DISK),
        DeviceFault::Stopped { at } => Answer::StoppedAt(at),
        DeviceFault::Full => Answer::No(FULL),
        DeviceFault::LooseFull => Answer::No(LOOSE_FULL),
        DeviceFault::SetFull => Answer::No(SET_FULL),
        DeviceFault::CounterFull => Answer::No(COUNTER_FULL),
        DeviceFault::DotsSpent => Answer::No(DOTS_SPENT),
    }
}
