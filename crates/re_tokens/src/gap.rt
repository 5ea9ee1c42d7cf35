//! What stands between tokens.
ghost use Rattle.std.specs.Prelude.{◌≡◌, ◌↔◌, [], Some, false, IsTrue};
ghost use Rattle.re_tokens.specs.Scanning.{behind_gap};
ghost use Rattle.re_tokens.specs.WholeLists.{tokens_of};

use crate::bytes::is_blank;

/// The text behind the blanks and comments that it begins with. A comment ends at LF, or with the text.
pub fn skip_gap(text: &[u8]) -> &[u8]
    ensures { result.now ≡ behind_gap false text.now }
{
    let mut in_comment = false;
    for (place, byte) in text.iter().enumerate() {
        if in_comment {
            in_comment = *byte != b'\n';
        } else if *byte == b'#' {
            in_comment = true;
        } else if !is_blank(*byte) {
            return &text[place..];
        }
    }
    &text[text.len()..]
}

/// Whether nothing but blanks and comments stands in a text. It takes no memory.
pub fn is_blank_text(text: &[u8]) -> bool
    ensures { IsTrue result ↔ (tokens_of text.now ≡ Some []) }
{
    skip_gap(text).is_empty()
}
