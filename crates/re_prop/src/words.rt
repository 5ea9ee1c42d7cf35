//! The words of all declarations in one state.
ghost use Rattle.std.specs.Prelude.{◌≡◌, ◌≤◌, ◌<◌, false, map, length, if◌then◌else◌, Some, true, slice_get, slice_index_or, IfOk, ℕ};
ghost use Rattle.std.specs.List.{range_with_len};
ghost use Rattle.re_terms.specs.declared.word.Word.{Word};
ghost use Rattle.re_terms.specs.Programs.{IsProgram};
ghost use Rattle.re_terms.specs.Shapes.{FitsShape, shape_of};
ghost use Rattle.re_terms.specs.Propagation.{is_signal_at, is_signal_body};
ghost use Rattle.re_terms.specs.SignalWords.{body_word, no_word, signal_word};
ghost use Rattle.re_terms.specs.Views.{cell_size, view_of};
ghost use Rattle.re_prop.specs.Caching.{signal_words};
ghost use Rattle.re_prop.specs.Effects.{words_before};
ghost use Rattle.re_prop.specs.Evaluated.{is_given_body};
ghost use Rattle.re_prop.specs.Sets.{HasSets};

use crate::bodies::{cell_place, is_signal, replicated_place};
use crate::cache::Cache;
use crate::names::Names;
use crate::sizes::sizes;
use crate::view::{NO_WORD, word_at, word_in};
use re_eval::{Steps, eval};
use re_terms::{Body, Decl, Program, State, Word};
use std::alloc::{AllocError, Global};
use std::marker::Brand;
use std::sync::ledger::{Blank, Ledger};

/// The word of a declaration that isn't a signal: what a state keeps of it, or 0.
fn stored(p: &Program, s: &State, id: usize, body: &Body) -> Word
    requires { id ≤ length p.now.decls.items }
    ensures { is_signal_body body.now ≡ false → (words : ℕ → Word) → result ≡ body_word p.now.decls.items s.now.words.items (view_of s.now.rep) id body.now words }
{
    let decls = p.decls.as_slice();
    match body {
        Body::Var { .. } | Body::Fold { .. } => word_in(s.words.as_slice(), cell_place(decls, id)),
        Body::Counter | Body::Register { .. } => {
            word_at(s.rep.cells.as_slice(), replicated_place(decls, id))
        }
        _ => NO_WORD,
    }
}

/// The word of a declaration in a state whose signals are kept.
fn known(p: &Program, c: &Cache, s: &State, id: usize, decl: &Decl) -> Word
    requires few { length p.now.decls.items ≤ 512 }
    requires at { slice_get p.now.decls.items id ≡ Some decl.now }
    requires cache { c.now ≡ signal_words p.now s.now.words.items (view_of s.now.rep) }
    ensures { result ≡ signal_word p.now s.now.words.items (view_of s.now.rep) id }
{
    match &decl.body {
        Body::Signal { .. } => c.word(id as u16),
        body => stored(p, s, id, body),
    }
}

/// The words of all declarations in a state whose signals are kept. The one refusal is want of memory.
pub fn from_cache(alloc: Global, p: &Program, c: &Cache, s: &State) -> Result<Vec<Word>, AllocError>
    requires few { length p.now.decls.items ≤ 512 }
    requires cache { c.now ≡ signal_words p.now s.now.words.items (view_of s.now.rep) }
    ensures { IfOk result (λ words. words.items ≡ words_before p.now s.now) }
{
    let mut words = Vec::new(alloc);
    'reading: for (id, decl) in p.decls.as_slice().iter().enumerate() {
        words.push(known(p, c, s, id, decl))?;
    }
    Ok(words)
}

/// The word of a declaration, over the words of those before it.
fn computed<L: Ledger>(
    p: &Program,
    s: &State,
    sizes: &[u32],
    id: usize,
    decl: &Decl,
    words: &[Word],
    steps: &mut Steps<L>,
) -> Word
    requires within { id ≤ length p.now.decls.items }
    requires given { is_given_body decl.now.body ≡ true }
    requires sets { HasSets s.now.rep.cells.items }
    requires sizes { sizes.now ≡ map (λ c. cell_size (Some c)) s.now.rep.cells.items }
    ensures { result ≡ body_word p.now.decls.items s.now.words.items (view_of s.now.rep) id decl.now.body (λ name. slice_index_or words.now name no_word) }
{
    match &decl.body {
        Body::Signal { expr, .. } => {
            let names = Names {
                decls: p.decls.as_slice(),
                words,
                cells: s.rep.cells.as_slice(),
                sizes,
            };
            eval(expr, &names, None, None, steps)
        }
        body => stored(p, s, id, body),
    }
}

/// The words of all declarations in a state. The one refusal is want of memory.
fn all<L: Ledger>(
    alloc: Global,
    p: &Program,
    s: &State,
    sizes: &[u32],
    blank: Blank,
) -> Result<Vec<Word>, AllocError>
    requires program { IsProgram p.now }
    requires sets { HasSets s.now.rep.cells.items }
    requires sizes { sizes.now ≡ map (λ c. cell_size (Some c)) s.now.rep.cells.items }
    requires name { blank.name ≡ L.name }
    requires parts { blank.parts ≡ L.parts }
    requires one { 0 < L.parts }
    ensures { IfOk result (λ words. words.items ≡ words_before p.now s.now) }
{
    let mut steps = Steps::<L>::new(blank);
    let mut words = Vec::new(alloc);
    'computing: for (id, decl) in p.decls.as_slice().iter().enumerate() {
        let word = computed(p, s, sizes, id, decl, &words, &mut steps);
        words.push(word)?;
    }
    Ok(words)
}

/// The word where the declaration is a signal, and 0 where it isn't.
fn of_signal(decl: &Decl, word: Word) -> Word
    ensures { result ≡ (if is_signal_body decl.now.body then word else no_word) }
{
    if is_signal(&decl.body) { word } else { NO_WORD }
}

/// The words of the signals alone, and 0 for all other declarations. The one refusal is want of memory.
fn signals(alloc: Global, decls: &[Decl], words: &[Word]) -> Result<Vec<Word>, AllocError>
    ensures { IfOk result (λ found. found.items ≡ map (λ id. if is_signal_at decls.now id then slice_index_or words.now id no_word else no_word) (range_with_len 0 (length decls.now))) }
{
    let mut found = Vec::new(alloc);
    'finding: for (id, decl) in decls.iter().enumerate() {
        found.push(of_signal(decl, word_in(words, id)))?;
    }
    Ok(found)
}

/// The words of a program's signals in a state. The one refusal is want of memory.
pub fn evaluated(alloc: Global, p: &Program, s: &State) -> Result<Vec<Word>, AllocError>
    requires program { IsProgram p.now }
    requires rep { FitsShape (shape_of p.now) s.now.rep }
    ensures { IfOk result (λ words. words.items ≡ signal_words p.now s.now.words.items (view_of s.now.rep)) }
{
    let sizes = sizes(alloc, s.rep.cells.as_slice())?;
    let words = all::<Brand>(alloc, p, s, &sizes, Blank::new(1))?;
    signals(alloc, p.decls.as_slice(), &words)
}
