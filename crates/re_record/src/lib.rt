//! Records and snapshots: what a device's store holds, as bytes, written and read.
//!
//! Each value has one spelling, and a refusal tells the first field that is cut off or holds a value that isn't allowed.
#![tactic(auto)]

mod entries;
pub mod fault;
pub mod laws;
pub mod limits;
mod numbers;
mod operations;
mod puts;
pub mod records;
pub mod slots;
pub mod snapshots;
mod turns;
mod writing;

pub use fault::SnapshotFault;
pub use records::{get_entries, put_entries, put_record, put_record_with};
pub use snapshots::{Snapshot, get_snapshot, put_snapshot};
