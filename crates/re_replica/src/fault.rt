//! What a replica answers.

/// Why an operation or a merge was refused.
#[derive(Clone, Copy, Debug, PartialEq, Eq)]
pub enum ReplicaFault {
    Memory,
    /// All sets together would have more than 1,024 pairs.
    SetFull,
    /// The device's total of a counter's increments or of its decrements would pass 2^63 - 1.
    CounterFull,
    /// The number of the operation's dot would reach 2^48, or the stamp of its write 2^52.
    DotsSpent,
}

/// Which cells a merge changed.
#[derive(Clone, Copy, Debug, PartialEq, Eq)]
pub struct Changed {
    /// The bit at a place, counted from the least, is set where the cell at this place among the replicated ones changed.
    pub cells: u32,
}
