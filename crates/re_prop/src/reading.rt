//! The words that the outcome of an entry is computed from.
ghost use Rattle.std.specs.Prelude.{◌≡◌, ◌<◌, ◌≤◌, ◌&&◌, ◌||◌, ◌==◌, ℕ, false, map, length, slice_index_or, IfOk};
ghost use Rattle.std.specs.List.{All, list_any, range_with_len};
ghost use Rattle.re_terms.specs.Dependencies.{graph_of};
ghost use Rattle.re_terms.specs.Listed.{plain};
ghost use Rattle.re_prop.specs.Effects.{words_before};
ghost use Rattle.re_prop.specs.Reading.{is_used, is_valued_at, is_valued_body, words_read};

use crate::bodies::is_valued;
use crate::chosen::chosen;
use crate::touched::touched;
use re_graph::Graph;
use re_terms::{Decl, Entry, Program, Put, RState, Seq, State, Word};
use std::alloc::{AllocError, Global};

/// Marks the places of these ids, as far as there are such places.
fn mark_all(marks: &mut [bool], ids: &[u16])
    ensures { (id : ℕ) → id < length marks.old → slice_index_or marks.new id false ≡ (slice_index_or marks.old id false || list_any (λ other. other == id) ids.now) }
{
    for id in ids {
        let place = *id as usize;
        if place < marks.len() {
            marks[place] = true;
        }
    }
}

/// Marks what is reached, and the inputs of it, among so many declarations. The one refusal is want of memory.
fn used(alloc: Global, g: &Graph, reached: &[u16], count: usize) -> Result<Vec<bool>, AllocError>
    requires { All (λ id. id < length g.now) reached.now }
    ensures length { IfOk result (λ marks. length marks.items ≡ count) }
    ensures marks { IfOk result (λ marks. (id : ℕ) → id < count → slice_index_or marks.items id false ≡ is_used g.now reached.now id) }
{
    let mut marks = vec![in alloc; false; count]?;
    mark_all(&mut marks, reached);
    'marking: for id in reached {
        mark_all(&mut marks, g.inputs(*id).as_slice());
    }
    Ok(marks)
}

/// A declaration with a word that is used.
fn is_read(decl: &Decl, used: bool) -> bool
    ensures { result ≡ (is_valued_body decl.now.body && used) }
{
    is_valued(&decl.body) && used
}

/// Those among the used declarations that have a word. The one refusal is want of memory.
fn with_words(alloc: Global, decls: &[Decl], used: &[bool]) -> Result<Vec<bool>, AllocError>
    requires { length used.now ≡ length decls.now }
    ensures { IfOk result (λ marks. marks.items ≡ map (λ id. is_valued_at decls.now id && slice_index_or used.now id false) (range_with_len 0 (length decls.now))) }
{
    let mut marks = Vec::new(alloc);
    'choosing: for (id, decl) in decls.iter().enumerate() {
        marks.push(is_read(decl, used[id]))?;
    }
    Ok(marks)
}

/// The words before an entry of what is reached from what the entry touches, and of the inputs of it, ascending.
///
/// The one refusal is want of memory.
pub fn read(
    alloc: Global,
    p: &Program,
    g: &Graph,
    s: &State,
    entry: &Entry,
    after: &RState,
    before: &[Word],
) -> Result<Seq<Put>, AllocError>
    requires few { length p.now.decls.items ≤ 512 }
    requires graph { g.now ≡ graph_of p.now.decls.items }
    requires before { before.now ≡ words_before p.now s.now }
    ensures { IfOk result (λ puts. puts ≡ plain (words_read p.now s.now entry.now after.now)) }
{
    let touched = touched(alloc, p, s, entry, after)?;
    let reached = g.reach(alloc, &touched)?;
    let decls = p.decls.as_slice();
    let used = used(alloc, g, reached.as_slice(), decls.len())?;
    let marks = with_words(alloc, decls, &used)?;
    chosen(alloc, &marks, before)
}
