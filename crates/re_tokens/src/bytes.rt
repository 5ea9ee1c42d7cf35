//! Kinds of bytes.
ghost use Rattle.std.specs.Prelude.{◌≡◌};
ghost use Rattle.re_terms.specs.Tokens.{is_digit, is_letter, is_word_byte};
ghost use Rattle.re_tokens.specs.TokenGrammar.{is_blank};

/// Whether it is a space, a tab, a CR or an LF.
pub fn is_blank(byte: u8) -> bool
    ensures { result ≡ is_blank byte }
{
    byte == b' ' || byte == b'\t' || byte == b'\r' || byte == b'\n'
}

/// Whether it is one of `0` to `9`.
pub fn is_digit(byte: u8) -> bool
    ensures { result ≡ is_digit byte }
{
    byte >= b'0' && byte <= b'9'
}

/// Whether it is one of `A` to `Z` and `a` to `z`.
pub fn is_letter(byte: u8) -> bool
    ensures { result ≡ is_letter byte }
{
    (byte >= b'A' && byte <= b'Z') || (byte >= b'a' && byte <= b'z')
}

/// Whether it is a letter, a digit or `_`.
pub fn is_word_byte(byte: u8) -> bool
    ensures { result ≡ is_word_byte byte }
{
    is_letter(byte) || is_digit(byte) || byte == b'_'
}
