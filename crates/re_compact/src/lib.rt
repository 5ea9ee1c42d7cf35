//! The two files of a device: finding the store that they hold, laying a new snapshot into the file that isn't in use, and committing
//! a record behind it.
#![tactic(auto)]

mod choice;
mod commit;
mod fault;
mod finding;
mod heads;
mod laying;

pub use choice::Choice;
pub use commit::commit_record;
pub use fault::OpenFault;
pub use finding::{Found, find_store};
pub use heads::Head;
pub use laying::{prepare_other, publish};
