//! How many bytes entries, records and snapshots take at most.

/// The most bytes that an entry takes with its changes. It is most with a merge of the longest state behind a tag, and 256
/// changes of 11 bytes behind their count.
pub const ENTRY_BYTES: u32 = 29_317;

/// The most bytes that a turn takes with its changes: a tag, three counts, 64 parts of 11 bytes, and 256 changes.
pub const TURN_BYTES: u32 = 3_526;

/// The most bytes that a record of up to eight turns and one further entry takes.
pub const RECORD_BYTES: u32 = 57_526;

/// The most bytes that a snapshot takes. The text takes at most 65,536, the words of 256 vars and folds 9 each, and what
/// stands before the text 22.
pub const SNAPSHOT_BYTES: u32 = 94_360;
