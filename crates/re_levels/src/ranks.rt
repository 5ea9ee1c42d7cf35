//! Sets of ranks.
ghost use Rattle.std.specs.Prelude.{◌≡◌, ◌<◌, ◌==◌, ◌||◌, ℕ, false, IfNone, IfSome};
ghost use Rattle.re_levels.specs.Ranks.{TakesLowest, has_rank};

/// A set of numbers below 512, in 64 bytes.
#[derive(Clone, Copy)]
pub struct Ranks {
    bits: [u64; 8],
}

impl Ranks {
    /// The set of nothing.
    pub fn new() -> Ranks
        ensures { (rank : ℕ) → has_rank result rank ≡ false }
    {
        Ranks { bits: [0; 8] }
    }

    /// Puts a number into the set.
    pub fn insert(&mut self, rank: u16)
        requires { rank < 512 }
        ensures { (other : ℕ) → has_rank self.new other ≡ (has_rank self.old other || (rank == other)) }
    {
        let place = rank as usize / 64;
        self.bits[place] |= 1 << (rank % 64);
    }

    /// Takes the lowest number out of the set, where there is one.
    pub fn take_lowest(&mut self) -> Option<u16>
        ensures taken { IfSome result (TakesLowest self.old self.new) }
        ensures none { IfNone result ((rank : ℕ) → has_rank self.old rank ≡ false) }
    {
        for place in 0..8 {
            let word = self.bits[place];
            if word != 0 {
                let bit = word.trailing_zeros();
                self.bits[place] = word & !(1 << bit);
                return Some(place as u16 * 64 + bit as u16);
            }
        }
        None
    }
}
