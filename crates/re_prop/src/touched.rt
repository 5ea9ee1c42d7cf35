//! What an entry touches.
ghost use Rattle.std.specs.Prelude.{◌≡◌, ◌≤◌, ◌&&◌, ◌==◌, not, length, Some, slice_get, IfOk};
ghost use Rattle.std.specs.Cmp.Lexicographic.{pointwise};
ghost use Rattle.std.specs.List.{list_any};
ghost use Rattle.re_terms.specs.Listed.{plain};
ghost use Rattle.re_prop.specs.Touched.{is_put as is_put_for, is_same_pair as are_same, is_same_cell as has_same_content, is_same_content, touched as touched_by, touches as is_touched};

use crate::bodies::replicated_place;
use re_terms::{Decl, Entry, Pair, Program, Put, RCell, RState, RepOp, Seq, State, same_word};
use std::alloc::{AllocError, Global};

/// A word is put for an id.
fn is_put(puts: &[Put], id: usize) -> bool
    ensures { result ≡ is_put_for puts.now id }
{
    puts.iter().any(|put| put.id as usize == id)
}

/// Some operation is on the replicated cell at a place.
fn is_operated(ops: &[RepOp], place: usize) -> bool
    ensures { result ≡ list_any (λ op. op.cell == place) ops.now }
{
    ops.iter().any(|op| op.cell as usize == place)
}

/// Two pairs are equal.
fn is_same_pair(a: &Pair, b: &Pair) -> bool
    ensures { result ≡ are_same a.now b.now }
{
    same_word(a.element, b.element) && a.dot.device == b.dot.device && a.dot.number == b.dot.number
}

/// Two lists of pairs are equal.
fn are_same_pairs(a: &[Pair], b: &[Pair]) -> bool
    ensures { result ≡ pointwise are_same a.now b.now }
{
    if a.len() != b.len() {
        return false;
    }
    'comparing: for (i, pair) in a.iter().enumerate() {
        if !is_same_pair(pair, &b[i]) {
            return false;
        }
    }
    true
}

/// Two replicated cells have the same content.
fn is_same_cell(a: &RCell, b: &RCell) -> bool
    ensures { result ≡ has_same_content a.now b.now }
{
    match (a, b) {
        (RCell::Counter(x), RCell::Counter(y)) => x.plus == y.plus && x.minus == y.minus,
        (RCell::Set(x), RCell::Set(y)) => are_same_pairs(x.as_slice(), y.as_slice()),
        (RCell::Register(x), RCell::Register(y)) => {
            x.stamp == y.stamp && x.device == y.device && same_word(x.word, y.word)
        }
        _ => false,
    }
}

/// The replicated cells at a place of two lists have the same content.
fn is_same_at(a: &[RCell], b: &[RCell], place: usize) -> bool
    ensures { result ≡ is_same_content (slice_get a.now place) (slice_get b.now place) }
{
    match a.get(place) {
        Some(x) => match b.get(place) {
            Some(y) => is_same_cell(x, y),
            None => false,
        },
        None => b.get(place).is_none(),
    }
}

/// An entry touches a declaration.
fn touches(p: &Program, s: &State, entry: &Entry, after: &RState, id: usize, decl: &Decl) -> bool
    requires { slice_get p.now.decls.items id ≡ Some decl.now }
    ensures { result ≡ is_touched p.now s.now entry.now after.now id }
{
    let place = replicated_place(p.decls.as_slice(), id);
    match entry {
        Entry::Turn(turn) => {
            is_put(turn.sets.as_slice(), id)
                || is_put(turn.fires.as_slice(), id)
                || (decl.body.is_replicated() && is_operated(turn.ops.as_slice(), place))
        }
        Entry::Merge(_) => {
            let (old, new) = (s.rep.cells.as_slice(), after.cells.as_slice());
            decl.body.is_replicated() && !is_same_at(old, new, place)
        }
    }
}

/// The declarations that an entry touches, ascending. The one refusal is want of memory.
pub fn touched(
    alloc: Global,
    p: &Program,
    s: &State,
    entry: &Entry,
    after: &RState,
) -> Result<Seq<u16>, AllocError>
    requires { length p.now.decls.items ≤ 512 }
    ensures { IfOk result (λ ids. ids ≡ plain (touched_by p.now s.now entry.now after.now)) }
{
    let mut ids = Seq::new(alloc);
    'touching: for (id, decl) in p.decls.as_slice().iter().enumerate() {
        if touches(p, s, entry, after, id, decl) {
            ids.push(id as u16)?;
        }
    }
    Ok(ids)
}
