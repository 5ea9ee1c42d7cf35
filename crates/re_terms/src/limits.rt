//! Limits that code and definitions share.

/// The most pairs that all sets of a replicated state have together.
pub const PAIRS: u32 = 1_024;

/// The most bytes that a replicated state takes. The vector of 16 devices takes 128, a counter 256, a register at most 18,
/// and a set 2 and at most 18 for each pair: so it is most with 31 counters and one set of all the pairs.
pub const STATE_BYTES: u32 = 26_498;

/// The most bytes that a packet takes, which has a format byte before the state.
pub const PACKET_BYTES: u32 = 26_499;
