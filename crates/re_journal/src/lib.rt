//! The journal of a device: records that are committed one by one, each whole or not at all, and read again after a stop.
//!
//! A file is a gate, the length of a snapshot and the snapshot, a gate, and then records, each its length, the record and a gate.
//! The gate behind the last record is closed. A commit writes the record behind it, syncs, opens the gate and syncs again.
#![tactic(auto)]

mod calls;
mod commits;
mod fault;
mod journal;
mod reader;
mod reading;
mod scans;

pub use commits::frame;
pub use fault::{JournalFault, ScanFault};
pub use journal::Journal;
pub use scans::{Scanned, scan};
