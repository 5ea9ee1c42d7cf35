//! What is known of an entry before it is taken.
use re_terms::{Entry, Put, Seq};

/// An entry, and what it changes. Each list ascends by id.
#[derive(Drop)]
pub struct Prepared {
    pub entry: Entry,
    /// The vars and folds whose words it changes, with the new words.
    pub changes: Seq<Put>,
    /// The signals whose words it changes, with the new words.
    pub signals: Seq<Put>,
    /// The words before the entry that the new ones were computed from.
    pub read: Seq<Put>,
    /// How many expressions were evaluated.
    pub evaluated: u32,
}
