//! The pairs of sets as bytes.
ghost use Rattle.std.specs.Prelude.{◌≡◌, ◌^◌, ◌+◌, ◌*◌, ◌<◌, ◌≤◌, length, IfOk};
ghost use Rattle.re_terms.specs.Spellings.{pair_bytes, pairs_bytes};
ghost use Rattle.re_wire.specs.Appended.{appended};
ghost use Rattle.re_wire.specs.Reading.{Gives, Reads, listed, element_descends, device_descends, number_descends, element_at, device_at, covered_at, pair_at, ascending_at, pairs_at};

use crate::WireFault;
use crate::numbers::{get_u8, get_u16, get_u64};
use crate::words::{append_word, read_word, word_len};
use crate::writing::append;
use re_outside::Bytes;
use re_terms::{Dot, Kind, Pair, Seq, Shape, Vector, Word, compare_words, covers};
use std::alloc::Global;
use std::cmp::Ordering;

/// Whether a pair of this element stands before the pair before it, whatever its dot is.
fn element_descends(before: Option<Pair>, element: Word) -> bool
    ensures { result ≡ element_descends before element }
{
    match before {
        None => false,
        Some(pair) => compare_words(element, pair.element) == Ordering::Less,
    }
}

/// Whether it does so by its device, the elements being equal.
fn device_descends(before: Option<Pair>, element: Word, device: u8) -> bool
    ensures { result ≡ device_descends before element device }
{
    match before {
        None => false,
        Some(pair) => {
            compare_words(element, pair.element) == Ordering::Equal && device < pair.dot.device
        }
    }
}

/// Whether it does so by its number, or is the same pair.
fn number_descends(before: Option<Pair>, element: Word, dot: Dot) -> bool
    ensures { result ≡ number_descends before element dot.device dot.number }
{
    match before {
        None => false,
        Some(pair) => {
            compare_words(element, pair.element) == Ordering::Equal
                && dot.device == pair.dot.device
                && dot.number <= pair.dot.number
        }
    }
}

/// The element of a pair behind the one before it.
#[tactic(auto, unfolding(crate::specs::Reading::element_at))]
fn get_element(
    bytes: &[u8],
    at: u32,
    kind: Kind,
    symbols: u16,
    before: Option<Pair>,
) -> Result<(Word, u32), WireFault>
    requires { length bytes.now < 2 ^ 32 }
    ensures { Reads result (element_at kind symbols before bytes.now at) }
{
    let (element, behind) = read_word(bytes, at, kind, false, symbols)?;
    if element_descends(before, element) {
        Err(WireFault::At(at))
    } else {
        Ok((element, behind))
    }
}

/// The device of a pair that begins at `start`, below the count of devices.
#[tactic(auto, unfolding(crate::specs::Reading::device_at))]
fn get_device(
    bytes: &[u8],
    at: u32,
    devices: u8,
    before: Option<Pair>,
    element: Word,
    start: u32,
) -> Result<(u8, u32), WireFault>
    requires { length bytes.now < 2 ^ 32 }
    ensures exact { Reads result (device_at devices before element start bytes.now at) }
    ensures below { IfOk result (λ x. x.0 < devices) }
{
    let (device, behind) = get_u8(bytes, at)?;
    if device_descends(before, element, device) {
        Err(WireFault::At(start))
    } else if device < devices {
        Ok((device, behind))
    } else {
        Err(WireFault::At(at))
    }
}

/// The number of a pair that begins at `start`, covered by the vector.
#[tactic(auto, unfolding(crate::specs::Reading::covered_at))]
fn get_covered(
    bytes: &[u8],
    at: u32,
    vector: &Vector,
    before: Option<Pair>,
    element: Word,
    device: u8,
    start: u32,
) -> Result<(u64, u32), WireFault>
    requires device { device < 16 }
    requires limit { length bytes.now < 2 ^ 32 }
    ensures { Reads result (covered_at vector.now.counts before element device start bytes.now at) }
{
    let (number, behind) = get_u64(bytes, at)?;
    let dot = Dot { device, number };
    if number_descends(before, element, dot) {
        Err(WireFault::At(start))
    } else if covers(vector, dot) {
        Ok((number, behind))
    } else {
        Err(WireFault::At(at))
    }
}

/// A pair behind the one before it. One that is out of order is refused at its element's tag, as soon as that shows.
#[tactic(auto, unfolding(crate::specs::Reading::pair_at))]
fn get_pair(
    bytes: &[u8],
    at: u32,
    shape: &Shape,
    vector: &Vector,
    kind: Kind,
    before: Option<Pair>,
) -> Result<(Pair, u32), WireFault>
    requires devices { shape.now.devices ≤ 16 }
    requires limit { length bytes.now < 2 ^ 32 }
    ensures { Reads result (pair_at shape.now kind vector.now.counts before bytes.now at) }
{
    let (element, at_device) = get_element(bytes, at, kind, shape.symbols, before)?;
    let (device, at_number) = get_device(bytes, at_device, shape.devices, before, element, at)?;
    let (number, behind) = get_covered(bytes, at_number, vector, before, element, device, at)?;
    let dot = Dot { device, number };
    Ok((Pair { element, dot }, behind))
}

/// So many pairs, which ascend.
fn get_ascending(
    alloc: Global,
    bytes: &[u8],
    at: u32,
    shape: &Shape,
    vector: &Vector,
    kind: Kind,
    count: u16,
) -> Result<(Seq<Pair>, u32), WireFault>
    requires devices { shape.now.devices ≤ 16 }
    requires limit { length bytes.now < 2 ^ 32 }
    ensures exact { Gives result (listed (ascending_at shape.now kind vector.now.counts count None bytes.now at)) }
    ensures count { IfOk result (λ x. length x.0.items ≡ count) }
{
    let mut pairs = Seq::new(alloc);
    let mut before = None;
    let mut behind = at;
    for _ in 0..count {
        let (pair, next) = get_pair(bytes, behind, shape, vector, kind, before)?;
        pairs.push(pair)?;
        before = Some(pair);
        behind = next;
    }
    Ok((pairs, behind))
}

/// The pairs of a set where there is room for so many.
#[tactic(auto, unfolding(crate::specs::Reading::pairs_at, crate::specs::Reading::below_at))]
pub fn get_pairs(
    alloc: Global,
    bytes: &[u8],
    at: u32,
    shape: &Shape,
    vector: &Vector,
    kind: Kind,
    room: u16,
) -> Result<(Seq<Pair>, u32), WireFault>
    requires devices { shape.now.devices ≤ 16 }
    requires limit { length bytes.now < 2 ^ 32 }
    ensures exact { Gives result (pairs_at shape.now kind vector.now.counts room bytes.now at) }
    ensures room { IfOk result (λ x. length x.0.items ≤ room) }
{
    let (count, behind) = get_u16(bytes, at)?;
    if count > room {
        return Err(WireFault::At(at));
    }
    get_ascending(alloc, bytes, behind, shape, vector, kind, count)
}

/// How many bytes the pairs of a set take.
pub fn pairs_len(pairs: &[Pair]) -> usize
    requires { length pairs.now ≤ 1024 }
    ensures len { result ≡ length (pairs_bytes pairs.now) }
    ensures bound { result ≤ 2 + 18 * 1024 }
{
    let mut len = 2;
    for pair in pairs {
        len += word_len(pair.element) + 9;
    }
    len
}

/// Writes a pair for which there is room.
fn append_pair(out: &mut Bytes, pair: &Pair)
    requires { length (pair_bytes pair.now) ≤ out.old.spare }
    ensures { out.new ≡ appended out.old (pair_bytes pair.now) }
{
    let b = pair.dot.number.to_be_bytes();
    append_word(out, pair.element);
    append(
        out,
        &[
            pair.dot.device,
            b[0],
            b[1],
            b[2],
            b[3],
            b[4],
            b[5],
            b[6],
            b[7],
        ],
    );
}

/// Writes the pairs of a set for which there is room.
pub fn append_pairs(out: &mut Bytes, pairs: &[Pair])
    requires count { length pairs.now ≤ 1024 }
    requires room { length (pairs_bytes pairs.now) ≤ out.old.spare }
    ensures { out.new ≡ appended out.old (pairs_bytes pairs.now) }
{
    append(out, &(pairs.len() as u16).to_be_bytes());
    for pair in pairs {
        append_pair(out, pair);
    }
}
