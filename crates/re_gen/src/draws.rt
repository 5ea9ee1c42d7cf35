//! The draws of a sample.
ghost use Rattle.std.specs.Prelude.{◌≡◌, ◌<◌, ◌+◌, ◌^◌, ℕ};
ghost use Rattle.re_gen.specs.Draws.{state_at, draw};

const MODULUS: u64 = 2_147_483_648;

/// A linear congruence, as it stands behind the draws made so far.
#[derive(Drop)]
pub struct Draws {
    pub state: u32,
}

impl Draws {
    /// The congruence of a number, before its first draw.
    pub fn new(number: u64) -> Draws
        ensures { result.state ≡ state_at number 0 }
    {
        Draws {
            state: (number % MODULUS) as u32,
        }
    }

    /// Draws a number below a bound.
    pub fn below(&mut self, bound: u32) -> u32
        requires { 0 < bound }
        ensures drawn { (number taken : ℕ) → self.old.state ≡ state_at number taken → result ≡ draw number (taken + 1) bound }
        ensures state { (number taken : ℕ) → self.old.state ≡ state_at number taken → self.new.state ≡ state_at number (taken + 1) }
        ensures below { result < bound }
    {
        self.state = ((u64::from(self.state) * 1_103_515_245 + 12_345) % MODULUS) as u32;
        self.state / 65_536 % bound
    }
}
