//! Tests.
ghost use Rattle.std.specs.Prelude.{◌<◌, ◌^◌, length};

use crate::{LexFault, is_blank_text, tokens};
use re_terms::{Mark, Seq, Token};
use std::alloc::Global;
use std::test::Fail;

/// What a mark is, in one letter, with its number or its place, or a name's length.
fn shape(mark: &Mark) -> (u8, u64) {
    match mark {
        Mark::Number(number) => (b'n', *number),
        Mark::Name(name) => (b'a', name.len() as u64),
        Mark::Reserved(place) => (b'r', u64::from(*place)),
        Mark::Sign(place) => (b's', u64::from(*place)),
        Mark::End => (b'e', 0),
    }
}

/// Whether a text has these tokens, each given by its place and its shape.
fn has(alloc: Global, text: &[u8], wanted: &[(u32, u8, u64)]) -> Result<bool, LexFault>
    requires { length text.now < 2 ^ 32 }
{
    let found = tokens(alloc, text)?;
    if found.len() != wanted.len() {
        return Ok(false);
    }
    for (token, (at, kind, value)) in found.as_slice().iter().zip(wanted) {
        if token.at != *at || shape(&token.mark) != (*kind, *value) {
            return Ok(false);
        }
    }
    Ok(true)
}

/// Texts, and their tokens: the place, the sort and the number of each.
const READ: [(&[u8], &[(u32, u8, u64)]); 18] = [
    (b"", &[(0, b'e', 0)]),
    (b" \t\r\n# var x", &[(11, b'e', 0)]),
    (b"#", &[(1, b'e', 0)]),
    (b"# a\rb\n0", &[(6, b'n', 0), (7, b'e', 0)]),
    (b"1#x\n#y\n2", &[(0, b'n', 1), (7, b'n', 2), (8, b'e', 0)]),
    (
        b"9223372036854775808",
        &[(0, b'n', 9223372036854775808), (19, b'e', 0)],
    ),
    (b"a_1 Z9", &[(0, b'a', 3), (4, b'a', 2), (6, b'e', 0)]),
    (
        b"abcdefghijabcdefghijabcdefghijab",
        &[(0, b'a', 32), (32, b'e', 0)],
    ),
    (
        b"vars Var var",
        &[(0, b'a', 4), (5, b'a', 3), (9, b'r', 2), (12, b'e', 0)],
    ),
    (b"<=", &[(0, b's', 15), (2, b'e', 0)]),
    (b"< =", &[(0, b's', 11), (2, b's', 2), (3, b'e', 0)]),
    (b"<==", &[(0, b's', 15), (2, b's', 2), (3, b'e', 0)]),
    (b"===", &[(0, b's', 13), (2, b's', 2), (3, b'e', 0)]),
    (
        b"!=-1",
        &[(0, b's', 14), (2, b's', 7), (3, b'n', 1), (4, b'e', 0)],
    ),
    (
        b"1+2",
        &[(0, b'n', 1), (1, b's', 6), (2, b'n', 2), (3, b'e', 0)],
    ),
    (b">", &[(0, b's', 12), (1, b'e', 0)]),
    (
        b"a<=1 # x",
        &[(0, b'a', 1), (1, b's', 15), (3, b'n', 1), (8, b'e', 0)],
    ),
    (
        b"device a;",
        &[(0, b'r', 0), (7, b'a', 1), (8, b's', 0), (9, b'e', 0)],
    ),
];

#[test]
fn reads_tokens(rt: HostRuntime) -> Result<(), Fail> {
    let alloc = rt.alloc();
    for (text, wanted) in READ {
        assert_eq!(rt; has(alloc, text, wanted), Ok(true));
    }
    let named = tokens(alloc, b"x turn")?;
    assert!(rt;
        matches!(named.as_slice(), [Token { mark: Mark::Name(first), .. }, Token { mark: Mark::Name(second), .. }, _] if first.as_slice() == b"x".as_slice() && second.as_slice() == b"turn".as_slice())
    );
    Ok(())
}

#[test]
fn tells_blank_texts(rt: HostRuntime) -> Result<(), Fail> {
    let cases: [(&[u8], bool); 7] = [
        (b"", true),
        (b" \t\r\n# var x", true),
        (b"#", true),
        (b"# x\n \n", true),
        (b"# x\ny", false),
        (b" !", false),
        (b"\0", false),
    ];
    for (text, blank) in cases {
        assert_eq!(rt; is_blank_text(text), blank);
    }
    Ok(())
}

#[test]
fn refuses_what_is_no_token(rt: HostRuntime) -> Result<(), Fail> {
    let alloc = rt.alloc();
    let cases: [(&[u8], u32); 15] = [
        (b"007", 0),
        (b"x 00", 2),
        (b"9223372036854775809", 0),
        (b"18446744073709551616", 0),
        (b"1x", 0),
        (b"x = 1_", 4),
        (b"_x", 0),
        (b"a abcdefghijabcdefghijabcdefghijabc", 2),
        (b"a ! b", 2),
        (b"a!", 1),
        (b"\0", 0),
        (b"x\x80", 1),
        (b"x; y & z", 5),
        (b"#\x0b\n\x0b", 3),
        (b"device a;\nvar x: int = 1 $", 25),
    ];
    for (text, place) in cases {
        assert_eq!(rt; tokens(alloc, text).err(), Some(LexFault::At(place)));
    }
    Ok(())
}

#[test]
fn has_the_lists_in_order(rt: HostRuntime) -> Result<(), Fail> {
    let alloc = rt.alloc();
    let words =
        b"device symbol var event signal fold counter set register changed map filter either on do in arg self if then else and or not recover fault size has true false int bool sym";
    let signs = b"; : = , ( ) + - * / % < > == != <= >=";
    for (text, kind, count) in [
        (words.as_slice(), b'r', 33u64),
        (signs.as_slice(), b's', 17),
    ] {
        let mut place = 0u64;
        for token in tokens(alloc, text)?.as_slice() {
            if place < count {
                assert_eq!(rt; shape(&token.mark), (kind, place));
            }
            place = place.saturating_add(1);
        }
        assert_eq!(rt; place, count + 1);
    }
    Ok(())
}
