//! Where an element's pairs stand in a list that ascends.
ghost use Rattle.std.specs.Prelude.{◌≡◌, ◌++◌, ◌≤◌, count_by, drop, length, take};
ghost use Rattle.std.specs.List.Sorted.{IsStrictlySortedBy};
ghost use Rattle.re_awset.specs.Places.{is_below, is_up_to};
ghost use Rattle.re_terms.specs.WordOrder.{pair_cmp};

use re_terms::{Pair, Seq, Word, compare_words};
use std::cmp::Ordering;

/// The places of an element's pairs: from the first of them up to the one behind the last.
#[derive(Clone, Copy)]
pub struct Places {
    pub from: usize,
    pub to: usize,
}

/// Whether a pair's element is below this one.
fn is_below(pair: &Pair, element: Word) -> bool
    ensures { result ≡ is_below element pair.now }
{
    compare_words(pair.element, element) == Ordering::Less
}

/// Whether a pair's element is this one or below it.
fn is_up_to(pair: &Pair, element: Word) -> bool
    ensures { result ≡ is_up_to element pair.now }
{
    compare_words(pair.element, element) != Ordering::Greater
}

/// The places of an element's pairs. Where it has none, both are the place at which it would stand.
pub fn places_of(pairs: &[Pair], element: Word) -> Places
    requires { IsStrictlySortedBy pair_cmp pairs.now }
    ensures from { result.from ≡ count_by (is_below element) pairs.now }
    ensures to { result.to ≡ count_by (is_up_to element) pairs.now }
    ensures order { result.from ≤ result.to }
    ensures within { result.to ≤ length pairs.now }
{
    let from = pairs.partition_point(|pair| is_below(pair, element));
    let to = pairs.partition_point(|pair| is_up_to(pair, element));
    Places { from, to }
}

/// Takes out the pairs at these places.
pub fn take_out(s: &mut Seq<Pair>, from: usize, to: usize)
    requires order { from ≤ to }
    requires within { to ≤ length s.old.items }
    ensures { s.new ≡ record { items = take from s.old.items ++ drop to s.old.items; spare = s.old.spare } }
{
    let mut left = to - from;
    while left > 0 {
        s.remove(from);
        left -= 1;
    }
}
