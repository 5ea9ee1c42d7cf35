//! Packets and words, beside their bytes as they are worked out by hand.
ghost use Rattle.std.specs.Prelude.{◌^◌, ◌<◌, ◌≤◌, length, IfOk};
ghost use Rattle.re_terms.specs.Shapes.{IsShape};

use crate::{WireFault, decode, encode, get_state, get_word, put_state, put_word};
use re_outside::Bytes;
use re_terms::{Dot, Kind, Pair, RCell, RKind, Seq, Shape, Word, Written};
use std::alloc::{AllocError, Global};
use std::process::Abort;
use std::test::Fail;

/// `device a; device b; set s: int;` with the pair of 4 by dot (0, 1).
const ONE_PAIR: [u8; 37] = [
    1, 0, 0, 0, 0, 0, 0, 0, 1, 0, 0, 0, 0, 0, 0, 0, 0, 0, 1, 0, 0, 0, 0, 0, 0, 0, 0, 4, 0, 0, 0, 0,
    0, 0, 0, 0, 1,
];

fn shape(alloc: Global, devices: u8, symbols: u16, kinds: &[RKind]) -> Result<Shape, AllocError>
    requires devices { devices ≤ 16 }
    requires symbols { symbols ≤ 512 }
    requires kinds { length kinds.now ≤ 32 }
    ensures { IfOk result (λ shape. IsShape shape) }
{
    Ok(Shape {
        devices,
        symbols,
        cells: Seq::from_vec(kinds.to_vec(alloc)?),
    })
}

fn set_of_ints(alloc: Global) -> Result<Shape, AllocError>
    ensures { IfOk result (λ shape. IsShape shape) }
{
    shape(alloc, 2, 0, &[RKind::Set(Kind::Int)])
}

/// Decodes a packet, and compares the bytes of what was read with it.
fn goes_back(rt: &impl Abort, alloc: Global, bytes: &[u8], shape: &Shape) -> Result<(), WireFault>
    requires shape { IsShape shape.now }
    requires limit { length bytes.now < 2 ^ 32 }
{
    let state = decode(alloc, bytes, shape)?;
    let again = encode(alloc, &state, shape)?;
    assert_eq!(rt; again.as_slice(), bytes);
    Ok(())
}

/// Compares the place at which a packet is refused.
fn is_refused(rt: &impl Abort, alloc: Global, bytes: &[u8], shape: &Shape, place: u32)
    requires shape { IsShape shape.now }
    requires limit { length bytes.now < 2 ^ 32 }
{
    let fault = decode(alloc, bytes, shape).err();
    assert_eq!(rt; fault, Some(WireFault::At(place)));
}

#[test]
fn without_cells(rt: HostRuntime) -> Result<(), Fail> {
    let alloc = rt.alloc();
    let shape = shape(alloc, 1, 0, &[])?;
    is_refused(&rt, alloc, &[], &shape, 0);
    is_refused(&rt, alloc, &[2], &shape, 0);
    is_refused(&rt, alloc, &[1], &shape, 1);
    is_refused(&rt, alloc, &[1, 0, 0, 0, 0, 0, 0, 0, 0, 0], &shape, 9);
    // The vector's number is 2^48.
    is_refused(&rt, alloc, &[1, 0, 1, 0, 0, 0, 0, 0, 0], &shape, 1);
    let state = decode(alloc, &[1, 0, 0, 0, 0, 0, 0, 0, 0], &shape)?;
    assert_eq!(rt; state.vector.counts, [0; 16]);
    assert!(rt; state.cells.is_empty());
    goes_back(&rt, alloc, &[1, 0, 0, 0, 0, 0, 0, 0, 0], &shape)?;
    Ok(())
}

#[test]
fn one_pair(rt: HostRuntime) -> Result<(), Fail> {
    let alloc = rt.alloc();
    let shape = set_of_ints(alloc)?;
    goes_back(&rt, alloc, &ONE_PAIR, &shape)?;
    let state = decode(alloc, &ONE_PAIR, &shape)?;
    assert_eq!(rt;
        state.vector.counts,
        [1, 0, 0, 0, 0, 0, 0, 0, 0, 0, 0, 0, 0, 0, 0, 0]
    );
    assert_eq!(rt; state.cells.len(), 1);
    let pair = Pair {
        element: Word::Int(4),
        dot: Dot {
            device: 0,
            number: 1,
        },
    };
    match state.cells.get(0) {
        Some(RCell::Set(pairs)) => assert_eq!(rt; pairs.as_slice(), [pair].as_slice()),
        _ => assert!(rt; false),
    }
    Ok(())
}

#[test]
fn damaged(rt: HostRuntime) -> Result<(), Fail> {
    let alloc = rt.alloc();
    let shape = set_of_ints(alloc)?;
    for (place, value, refused) in [
        (19, 1, 19),
        (28, 2, 28),
        (36, 0, 29),
        (36, 2, 29),
        (2, 1, 1),
        (18, 0, 19),
        (18, 2, 37),
    ] {
        let mut bytes = ONE_PAIR;
        bytes[place] = value;
        is_refused(&rt, alloc, &bytes, &shape, refused);
    }
    let mut bytes = ONE_PAIR;
    bytes[17] = 4;
    is_refused(&rt, alloc, &bytes, &shape, 17);
    is_refused(&rt, alloc, &ONE_PAIR[..36], &shape, 29);
    is_refused(&rt, alloc, &ONE_PAIR[..28], &shape, 28);
    is_refused(&rt, alloc, &ONE_PAIR[..27], &shape, 20);
    Ok(())
}

/// Adds one to the count of a place, where there is one.
fn count(counts: &mut [u32], place: u32) {
    if let Some(count) = counts.get_mut(place as usize) {
        *count = count.saturating_add(1);
    }
}

#[test]
fn each_byte_changed(rt: HostRuntime) -> Result<(), Fail> {
    let alloc = rt.alloc();
    let shape = set_of_ints(alloc)?;
    let mut refused = [0; 38];
    let mut read = [0; 1];
    for place in 0..ONE_PAIR.len() {
        for change in 1..=255 {
            let mut bytes = ONE_PAIR;
            bytes[place] ^= change;
            match decode(alloc, &bytes, &shape) {
                Ok(state) => {
                    let again = encode(alloc, &state, &shape)?;
                    assert_eq!(rt; again.as_slice(), bytes.as_slice());
                    count(&mut read, 0);
                }
                Err(WireFault::At(at)) => count(&mut refused, at),
                Err(WireFault::Memory) => return Err(AllocError.into()),
            }
        }
    }
    // The element may be any int. The numbers of the vector are below 2^48, the first is at least 1.
    assert_eq!(rt; read, [8 * 255 + 5 * 255 + 254 + 6 * 255]);
    let mut expected = [0; 38];
    expected[0] = 255;
    expected[1] = 2 * 255;
    expected[9] = 2 * 255;
    // More than 1,024 pairs. With fewer the second pair's tag is cut off, and with none the first pair is behind the end.
    expected[17] = 252;
    expected[37] = 3 + 254;
    expected[19] = 1 + 255;
    expected[28] = 254;
    // The number is another one, or the vector doesn't cover it, of device 0 or of device 1.
    expected[29] = 8 * 255 + 1 + 1;
    assert_eq!(rt; refused, expected);
    Ok(())
}

/// A packet of `device a; device b; set s: int;` whose vector has 2 for each device, with two pairs of element, device and
/// number.
fn two_pairs(first: (u8, u8, u8), second: (u8, u8, u8)) -> [u8; 55] {
    let mut bytes = [0; 55];
    bytes[0] = 1;
    bytes[8] = 2;
    bytes[16] = 2;
    bytes[18] = 2;
    bytes[27] = first.0;
    bytes[28] = first.1;
    bytes[36] = first.2;
    bytes[45] = second.0;
    bytes[46] = second.1;
    bytes[54] = second.2;
    bytes
}

#[test]
fn order_of_pairs(rt: HostRuntime) -> Result<(), Fail> {
    let alloc = rt.alloc();
    let shape = set_of_ints(alloc)?;
    for (first, second) in [
        ((4, 0, 1), (4, 0, 2)),
        ((4, 0, 2), (4, 1, 1)),
        ((4, 1, 2), (5, 0, 1)),
    ] {
        goes_back(&rt, alloc, &two_pairs(first, second), &shape)?;
        is_refused(&rt, alloc, &two_pairs(second, first), &shape, 37);
        is_refused(&rt, alloc, &two_pairs(first, first), &shape, 37);
    }
    Ok(())
}

/// Compares the places at which two pairs are refused, whole and cut off behind so many bytes.
fn are_refused(
    rt: &impl Abort,
    alloc: Global,
    pairs: ((u8, u8, u8), (u8, u8, u8)),
    whole: u32,
    cuts: &[(usize, u32)],
) -> Result<(), AllocError> {
    let shape = set_of_ints(alloc)?;
    let bytes = two_pairs(pairs.0, pairs.1);
    is_refused(rt, alloc, &bytes, &shape, whole);
    for (len, place) in cuts {
        if let Some(front) = bytes.get(..*len) {
            is_refused(rt, alloc, front, &shape, *place);
        }
    }
    Ok(())
}

#[test]
fn first_wrong_field_of_a_pair(rt: HostRuntime) -> Result<(), Fail> {
    let alloc = rt.alloc();
    // What shows the order comes before what else is wrong, and is cut off, behind it.
    let by_element = ((5, 0, 1), (4, 7, 9));
    are_refused(&rt, alloc, by_element, 37, &[(46, 37), (45, 38), (37, 37)])?;
    let by_device = ((4, 1, 1), (4, 0, 9));
    are_refused(&rt, alloc, by_device, 37, &[(47, 37), (46, 46)])?;
    let by_number = ((4, 0, 2), (4, 0, 0));
    are_refused(&rt, alloc, by_number, 37, &[(54, 47)])?;
    // In order, but of no device, or by a dot that isn't covered.
    are_refused(&rt, alloc, ((4, 0, 1), (4, 2, 1)), 46, &[])?;
    are_refused(&rt, alloc, ((4, 0, 1), (4, 0, 3)), 47, &[])?;
    are_refused(&rt, alloc, ((4, 0, 1), (4, 1, 0)), 47, &[])?;
    Ok(())
}

#[test]
fn counters_and_empty_sets(rt: HostRuntime) -> Result<(), Fail> {
    let alloc = rt.alloc();
    let counter = shape(alloc, 1, 0, &[RKind::Counter])?;
    let bytes = [
        1, 0, 0, 0, 0, 0, 0, 0, 1, 0, 0, 0, 0, 0, 0, 0, 7, 0, 0, 0, 0, 0, 0, 0, 0,
    ];
    goes_back(&rt, alloc, &bytes, &counter)?;
    let state = decode(alloc, &bytes, &counter)?;
    match state.cells.get(0) {
        Some(RCell::Counter(rows)) => {
            assert_eq!(rt; rows.plus[0], 7);
            assert_eq!(rt; rows.minus, [0; 16]);
        }
        _ => assert!(rt; false),
    }
    // The increments and the decrements are below 2^63.
    for place in [9, 17] {
        let mut damaged = bytes;
        damaged[place] = 128;
        is_refused(&rt, alloc, &damaged, &counter, place as u32);
    }
    let set = shape(alloc, 1, 0, &[RKind::Set(Kind::Int)])?;
    goes_back(&rt, alloc, &[1, 0, 0, 0, 0, 0, 0, 0, 2, 0, 0], &set)?;
    Ok(())
}

#[test]
fn registers(rt: HostRuntime) -> Result<(), Fail> {
    let alloc = rt.alloc();
    let start = Word::Int(6);
    let shape = shape(alloc, 1, 0, &[RKind::Register(Kind::Int, start)])?;
    let unwritten = [1, 0, 0, 0, 0, 0, 0, 0, 0, 0, 0, 0, 0, 0, 0, 0, 0, 0];
    is_refused(&rt, alloc, &unwritten, &shape, 17);
    let state = decode(alloc, &unwritten[..17], &shape)?;
    let expected = Written {
        stamp: 0,
        device: 0,
        word: start,
    };
    match state.cells.get(0) {
        Some(RCell::Register(written)) => assert_eq!(rt; *written, expected),
        _ => assert!(rt; false),
    }
    goes_back(&rt, alloc, &unwritten[..17], &shape)?;
    let written = [
        1, 0, 0, 0, 0, 0, 0, 0, 1, 0, 0, 0, 0, 0, 0, 0, 1, 0, 0, 0, 0, 0, 0, 0, 0, 0, 1,
    ];
    goes_back(&rt, alloc, &written, &shape)?;
    // The stamp is 2^52, the device isn't there, the word is no int, and it is cut off.
    for (place, value, refused) in [(10, 16, 9), (17, 1, 17), (18, 1, 18), (18, 3, 18)] {
        let mut damaged = written;
        damaged[place] = value;
        is_refused(&rt, alloc, &damaged, &shape, refused);
    }
    is_refused(&rt, alloc, &written[..26], &shape, 19);
    Ok(())
}

#[test]
fn pairs_of_all_sets(rt: HostRuntime) -> Result<(), Fail> {
    let alloc = rt.alloc();
    let sets = [RKind::Set(Kind::Bool), RKind::Set(Kind::Sym)];
    let shape = shape(alloc, 1, 2, &sets)?;
    // One pair of `true`, and 1,024 pairs of symbols, which are one too many together. The count of the second stands at 22.
    let mut bytes = [0; 24];
    bytes[0] = 1;
    bytes[8] = 1;
    bytes[10] = 1;
    bytes[11] = 1;
    bytes[12] = 1;
    bytes[21] = 1;
    goes_back(&rt, alloc, &bytes, &shape)?;
    bytes[22] = 4;
    is_refused(&rt, alloc, &bytes, &shape, 22);
    bytes[22] = 3;
    bytes[23] = 255;
    is_refused(&rt, alloc, &bytes, &shape, 24);
    bytes[12] = 2;
    is_refused(&rt, alloc, &bytes, &shape, 12);
    Ok(())
}

#[test]
fn words(rt: HostRuntime) -> Result<(), Fail> {
    let alloc = rt.alloc();
    let read: [(&[u8], Kind, bool, Word); 11] = [
        (
            &[0, 255, 255, 255, 255, 255, 255, 255, 255],
            Kind::Int,
            false,
            Word::Int(-1),
        ),
        (
            &[0, 128, 0, 0, 0, 0, 0, 0, 0],
            Kind::Int,
            true,
            Word::Int(i64::MIN),
        ),
        (
            &[0, 1, 2, 3, 4, 5, 6, 7, 8],
            Kind::Int,
            false,
            Word::Int(72623859790382856),
        ),
        (&[1, 0], Kind::Bool, false, Word::Bool(false)),
        (&[1, 1], Kind::Bool, true, Word::Bool(true)),
        (&[2, 1, 2], Kind::Sym, false, Word::Sym(258)),
        (&[3, 0, 0, 0, 1], Kind::Int, true, Word::Fault(1)),
        (&[3, 0, 0, 0, 2], Kind::Bool, true, Word::Fault(2)),
        (&[3, 0, 0, 0, 100], Kind::Sym, true, Word::Fault(100)),
        (&[3, 0, 0, 3, 231], Kind::Int, true, Word::Fault(999)),
        (&[2, 0, 0], Kind::Sym, true, Word::Sym(0)),
    ];
    for (bytes, kind, fold, word) in read {
        let (found, behind) = get_word(bytes, 0, kind, fold, 259)?;
        assert_eq!(rt; found, word);
        assert_eq!(rt; behind as usize, bytes.len());
        let mut out = Bytes::from_slice(alloc, &[9])?;
        put_word(&mut out, word)?;
        assert_eq!(rt; out.len(), bytes.len() + 1);
        assert_eq!(rt; &out.as_slice()[1..], bytes);
    }
    Ok(())
}

#[test]
fn refused_words(rt: HostRuntime) {
    let refused: [(&[u8], Kind, bool, u32); 20] = [
        (&[], Kind::Int, false, 0),
        (&[0], Kind::Int, false, 1),
        (&[0, 0, 0, 0, 0, 0, 0, 0], Kind::Int, false, 1),
        (&[1, 1, 1, 1, 1, 1, 1, 1, 1], Kind::Int, false, 0),
        (&[2, 0, 0], Kind::Int, true, 0),
        (&[4, 0, 0], Kind::Int, true, 0),
        (&[0, 0, 0, 0, 0, 0, 0, 0, 0], Kind::Bool, false, 0),
        (&[1, 2], Kind::Bool, false, 1),
        (&[1], Kind::Bool, true, 1),
        (&[0, 0, 0, 0, 0, 0, 0, 0, 0], Kind::Sym, false, 0),
        (&[1, 1, 1], Kind::Sym, false, 0),
        (&[2, 1, 2], Kind::Sym, false, 1),
        (&[2, 1], Kind::Sym, false, 1),
        (&[3, 0, 0, 0, 1], Kind::Sym, false, 0),
        (&[3, 0, 0, 0, 1], Kind::Int, false, 0),
        (&[3, 0, 0, 0, 0], Kind::Int, true, 1),
        (&[3, 0, 0, 0, 3], Kind::Int, true, 1),
        (&[3, 0, 0, 0, 99], Kind::Int, true, 1),
        (&[3, 0, 0, 3, 232], Kind::Int, true, 1),
        (&[3, 0, 0, 3], Kind::Int, true, 1),
    ];
    for (bytes, kind, fold, place) in refused {
        let fault = get_word(bytes, 0, kind, fold, 258).err();
        assert_eq!(rt; fault, Some(WireFault::At(place)));
    }
}

#[test]
fn state_among_other_bytes(rt: HostRuntime) -> Result<(), Fail> {
    let alloc = rt.alloc();
    let shape = set_of_ints(alloc)?;
    // The packet's state, behind its format byte.
    let (state, behind) = get_state(alloc, &ONE_PAIR, 1, &shape)?;
    assert_eq!(rt; behind, 37);
    let mut out = Bytes::from_slice(alloc, &[1])?;
    put_state(&mut out, &state, &shape)?;
    assert_eq!(rt; out.as_slice(), ONE_PAIR.as_slice());
    let mut longer = [7; 40];
    longer[..37].copy_from_slice(&ONE_PAIR);
    let (_, behind) = get_state(alloc, &longer, 1, &shape)?;
    assert_eq!(rt; behind, 37);
    // Read one place later, the vector has 256 and 0, the count is 256, the element 1024 and the number is cut off.
    let fault = get_state(alloc, &ONE_PAIR, 2, &shape).err();
    assert_eq!(rt; fault, Some(WireFault::At(30)));
    Ok(())
}
