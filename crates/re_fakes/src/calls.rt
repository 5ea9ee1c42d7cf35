//! How many calls of each kind were made.
ghost use Rattle.std.specs.Prelude.{◌≡◌};
ghost use Rattle.re_fakes.specs.World.{no_calls, count_of, one_more};

use re_outside::Call;

/// Counts of calls by kind. Each stays at 2^64 - 1.
#[derive(Clone, Copy, Debug, PartialEq, Eq)]
pub(crate) struct Calls {
    pub takes: u64,
    pub says: u64,
    pub sizes: u64,
    pub fetches: u64,
    pub writes: u64,
    pub cuts: u64,
    pub syncs: u64,
}

impl Calls {
    /// No call.
    pub(crate) fn new() -> Calls
        ensures { result ≡ no_calls }
    {
        Calls {
            takes: 0,
            says: 0,
            sizes: 0,
            fetches: 0,
            writes: 0,
            cuts: 0,
            syncs: 0,
        }
    }

    /// How many calls of this kind were made.
    pub(crate) fn of(&self, call: Call) -> u64
        ensures { result ≡ count_of self.now call }
    {
        match call {
            Call::Take => self.takes,
            Call::Say => self.says,
            Call::Size => self.sizes,
            Call::Fetch => self.fetches,
            Call::Write => self.writes,
            Call::Cut => self.cuts,
            Call::Sync => self.syncs,
        }
    }

    /// One call of this kind more.
    pub(crate) fn raise(&mut self, call: Call)
        ensures { self.new ≡ one_more call self.old }
    {
        match call {
            Call::Take => self.takes = self.takes.saturating_add(1),
            Call::Say => self.says = self.says.saturating_add(1),
            Call::Size => self.sizes = self.sizes.saturating_add(1),
            Call::Fetch => self.fetches = self.fetches.saturating_add(1),
            Call::Write => self.writes = self.writes.saturating_add(1),
            Call::Cut => self.cuts = self.cuts.saturating_add(1),
            Call::Sync => self.syncs = self.syncs.saturating_add(1),
        }
    }
}
