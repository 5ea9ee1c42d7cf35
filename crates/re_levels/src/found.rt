//! What is found of declarations on an entry's way.
ghost use Rattle.std.specs.Prelude.{◌≡◌, ◌==◌, find};

use re_terms::Word;

/// What a declaration has after an entry: its word, and its value where it is an event that occurs.
#[derive(Clone, Copy)]
pub struct Found {
    pub id: u16,
    pub word: Word,
    pub value: Option<Word>,
}

/// What was found of a declaration, where it was gone through.
pub fn found_of(found: &[Found], id: u16) -> Option<Found>
    ensures { result ≡ find (λ f. f.id == id) found.now }
{
    for one in found {
        if one.id == id {
            return Some(*one);
        }
    }
    None
}
