//! What a run meets outside: input, output, the files of devices, and the steps that it leaves there.
#![tactic(auto)]

pub mod bytes;
pub mod disk;
pub mod laws;
pub mod outside;
pub mod port;
pub mod step;

pub use bytes::Bytes;
pub use disk::Disk;
pub use outside::{Gate, Outside, say_all};
pub use port::Port;
pub use step::{Call, Failed, Step};
