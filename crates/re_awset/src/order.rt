//! The order of pairs.
ghost use Rattle.std.specs.Prelude.{◌≡◌};
ghost use Rattle.re_terms.specs.WordOrder.{pair_cmp};

use re_terms::{Pair, compare_words};
use std::cmp::Ordering;

/// Compares two pairs: by element, device and number.
#[tactic(auto, unfolding(re_terms::specs::WordOrder::pair_cmp))]
pub fn compare_pairs(a: &Pair, b: &Pair) -> Ordering
    ensures { result ≡ pair_cmp a.now b.now }
{
    match compare_words(a.element, b.element) {
        Ordering::Less => Ordering::Less,
        Ordering::Greater => Ordering::Greater,
        Ordering::Equal => match a.dot.device.cmp(&b.dot.device) {
            Ordering::Less => Ordering::Less,
            Ordering::Greater => Ordering::Greater,
            Ordering::Equal => a.dot.number.cmp(&b.dot.number),
        },
    }
}
