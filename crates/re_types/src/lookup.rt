//! Looks names up among the declarations of a program.
ghost use Rattle.std.specs.Prelude.{◌≡◌, ◌≤◌, ◌<◌, true, length, slice_get, count_by, IfSome};
ghost use Rattle.std.specs.Str.{bytes_eq};
ghost use Rattle.re_terms.specs.Kinds.{sorts_of};
ghost use Rattle.re_terms.specs.Programs.{names_of, is_replicated, is_literal_word};
ghost use Rattle.re_terms.specs.SignalWords.{replicated_place};
ghost use Rattle.re_terms.specs.Admission.{symbol_count};
ghost use Rattle.re_types.specs.Resolving.{place_of, is_known, knows_literal as literal_is_known, symbol_of, scope_of, start_word};

use re_terms::{Decl, RawLit, Text, Word};

fn has_name(decl: &Decl, name: &Text) -> bool
    ensures { result ≡ bytes_eq name.now.items decl.now.name.items }
{
    name.as_slice() == decl.name.as_slice()
}

/// The place of the declaration with this name, counted from 0.
pub fn place(decls: &[Decl], name: &Text) -> Option<usize>
    ensures place { result ≡ place_of (names_of decls.now) name.now.items }
    ensures within { IfSome result (λ i. i < length decls.now) }
{
    decls.iter().position(|decl| has_name(decl, name))
}

/// Whether a declaration has this name.
pub fn knows(decls: &[Decl], name: &Text) -> bool
    ensures { result ≡ is_known (names_of decls.now) name.now }
{
    place(decls, name).is_some()
}

/// Whether a name that stands as this literal is declared.
pub fn knows_literal(decls: &[Decl], literal: &RawLit) -> bool
    ensures { result ≡ literal_is_known (names_of decls.now) literal.now }
{
    match literal {
        RawLit::Name(name) => knows(decls, name),
        RawLit::Int(_) | RawLit::Bool(_) => true,
    }
}

/// The number of the symbol at this place.
fn symbol(decls: &[Decl], place: usize) -> Option<u16>
    requires few { length decls.now ≤ 512 }
    requires within { place < length decls.now }
    ensures number { result ≡ symbol_of (slice_get (sorts_of decls.now) place) }
    ensures below { IfSome result (λ n. n < symbol_count decls.now) }
{
    if !decls[place].body.is_symbol() {
        return None;
    }
    let before = decls[..place]
        .iter()
        .filter(|decl| decl.body.is_symbol())
        .count();
    Some(before as u16)
}

/// The word of a literal. None where it is a name and no symbol's.
pub fn literal_word(decls: &[Decl], literal: &RawLit) -> Option<Word>
    requires { length decls.now ≤ 512 }
    ensures word { result ≡ start_word (scope_of decls.now) literal.now }
    ensures ranged { IfSome result (λ w. is_literal_word (symbol_count decls.now) w ≡ true) }
{
    match literal {
        RawLit::Int(number) => Some(Word::Int(*number)),
        RawLit::Bool(truth) => Some(Word::Bool(*truth)),
        RawLit::Name(name) => {
            let place = place(decls, name)?;
            symbol(decls, place).map(Word::Sym)
        }
    }
}

/// How many replicated cells stand before this place.
pub fn cell(decls: &[Decl], place: usize) -> u8
    requires few { count_by is_replicated decls.now ≤ 32 }
    requires within { place < length decls.now }
    ensures { result ≡ replicated_place decls.now place }
{
    let before = decls[..place]
        .iter()
        .filter(|decl| decl.body.is_replicated())
        .count();
    before as u8
}
