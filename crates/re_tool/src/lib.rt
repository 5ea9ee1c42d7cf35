//! The top call: the words of a command line and a stream of bytes come in, answers go out.
#![tactic(auto)]

mod chunk;
mod faults;
pub mod laws;
mod line;
mod names;
mod opening;
mod part;
mod reader;
mod reading;
pub mod relays;
mod running;
mod status;
mod top;
mod words;

pub use relays::{Leg, Relayed, relay};
pub use running::session;
pub use status::Status;
pub use top::tool;
pub use words::{Job, Wish, WordFault, read_words};
