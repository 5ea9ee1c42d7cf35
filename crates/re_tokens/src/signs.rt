//! Signs.
ghost use Rattle.std.specs.Prelude.{◌≡◌, ◌<◌, length, map, position, take};
ghost use Rattle.std.specs.Str.{bytes_eq};
ghost use Rattle.re_terms.specs.Tokens.{signs};

use crate::table::place_in;

const SIGNS: [&[u8]; 17] = [
    b";", b":", b"=", b",", b"(", b")", b"+", b"-", b"*", b"/", b"%", b"<", b">", b"==", b"!=",
    b"<=", b">=",
];

/// The place of these bytes among the signs.
pub fn sign_place(bytes: &[u8]) -> Option<u8>
    ensures { result ≡ position (bytes_eq bytes.now) signs }
{
    place_in(&SIGNS, bytes)
}
