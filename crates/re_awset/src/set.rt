//! A set's inserts, removes and reads.
ghost use Rattle.std.specs.Prelude.{◌≡◌, ◌↔◌, ◌++◌, ◌∷◌, ◌-◌, ◌^◌, ◌<◌, ◌≤◌, OnOk, OnErr, drop, length, min, not, slice_index_or, take, false};
ghost use Rattle.std.specs.List.{list_any};
ghost use Rattle.std.specs.List.Sorted.{IsStrictlySortedBy};
ghost use Rattle.re_terms.specs.UpdateStates.{pairs_after, without};
ghost use Rattle.re_terms.specs.WordOrder.{elements_of, pair_cmp, same_word};
ghost use Rattle.re_terms.specs.declared.replicated.Pair.{Pair as APair};

use crate::places::{Places, places_of, take_out};
use re_terms::{Dot, Pair, Seq, SetFault, Word, compare_words};
use std::alloc::AllocError;
use std::cmp::Ordering;

/// Puts a pair in the place of those at these places.
fn put_at(s: &mut Seq<Pair>, places: Places, pair: Pair) -> Result<(), AllocError>
    requires order { places.from ≤ places.to }
    requires within { places.to ≤ length s.old.items }
    ensures ok { OnOk result (s.new.items ≡ take places.from s.old.items ++ pair ∷ drop places.to s.old.items) }
    ensures spare { s.new.spare ≤ s.old.spare }
    ensures memory { OnErr result ((s.old.spare ≡ 0) × (places.from ≡ places.to)) }
    ensures err { OnErr result (s.new ≡ s.old) }
{
    if places.from == places.to {
        return s.insert(places.from, pair);
    }
    s.set(places.from, pair);
    take_out(s, places.from + 1, places.to);
    Ok(())
}

/// Puts one pair of the element, by this dot, in the place of all its pairs.
///
/// The condition is that the pairs ascend. `SetFull` comes exactly where the set would have over `room` pairs. Memory can
/// be wanting only where none is reserved and the element isn't there. A refusal changes nothing.
pub fn insert(s: &mut Seq<Pair>, element: Word, dot: Dot, room: u32) -> Result<(), SetFault>
    requires { IsStrictlySortedBy pair_cmp s.old.items }
    ensures ok { OnOk result (s.new.items ≡ pairs_after dot element s.old.items) }
    ensures spare { s.new.spare ≤ s.old.spare }
    ensures full { (result ≡ Err SetFault.SetFull) ↔ (room < length (pairs_after dot element s.old.items)) }
    ensures memory { result ≡ Err SetFault.Memory → (s.old.spare ≡ 0) × (list_any (λ p. same_word p.element element) s.old.items ≡ false) }
    ensures err { OnErr result (s.new ≡ s.old) }
{
    let places = places_of(s.as_slice(), element);
    let others = s.len() - (places.to - places.from);
    if others >= room as usize {
        return Err(SetFault::SetFull);
    }
    match put_at(s, places, Pair { element, dot }) {
        Ok(()) => Ok(()),
        Err(AllocError) => Err(SetFault::Memory),
    }
}

/// Takes away all pairs of an element. The condition is that the pairs ascend. It takes no memory.
pub fn remove(s: &mut Seq<Pair>, element: Word)
    requires { IsStrictlySortedBy pair_cmp s.old.items }
    ensures { s.new ≡ record { items = without element s.old.items; spare = s.old.spare } }
{
    let places = places_of(s.as_slice(), element);
    take_out(s, places.from, places.to);
}

/// Whether the set has an element. The condition is that the pairs ascend. It takes no memory.
pub fn has(s: &Seq<Pair>, element: Word) -> bool
    requires { IsStrictlySortedBy pair_cmp s.now.items }
    ensures { result ≡ list_any (λ p. same_word p.element element) s.now.items }
{
    let places = places_of(s.as_slice(), element);
    places.from < places.to
}

/// Whether the pair at this place is the first of its element.
fn is_first(pairs: &[Pair], place: usize) -> bool
    requires ascend { IsStrictlySortedBy pair_cmp pairs.now }
    requires within { place < length pairs.now }
    ensures { (d : APair) → result ≡ not (list_any (λ p. same_word p.element (slice_index_or pairs.now place d).element) (take place pairs.now)) }
{
    place == 0 || compare_words(pairs[place - 1].element, pairs[place].element) != Ordering::Equal
}

/// How many elements the set has, each counted once. The condition is that the pairs ascend. It takes no memory.
pub fn size(s: &Seq<Pair>) -> u32
    requires { IsStrictlySortedBy pair_cmp s.now.items }
    ensures few { length s.now.items < 2 ^ 32 → result ≡ length (elements_of s.now.items) }
    // A list of 2^32 pairs or more can have more elements than the type has numbers.
    ensures clipped { result ≡ min (length (elements_of s.now.items)) (2 ^ 32 - 1) }
{
    let pairs = s.as_slice();
    let mut count: u32 = 0;
    for place in 0..pairs.len() {
        if is_first(pairs, place) {
            count = count.saturating_add(1);
        }
    }
    count
}
