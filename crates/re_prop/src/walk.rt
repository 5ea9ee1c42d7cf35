//! What each form of declaration has after an entry.
ghost use Rattle.std.proofs.Props.{props};
ghost use Rattle.std.specs.Prelude.{◌≡◌, ◌+◌, ◌≤◌, ◌<◌, true, false, map, Some, None, is_some, option_map, option_and_then, slice_get, slice_index_or};
ghost use Rattle.std.specs.Option.{option_map_or};
ghost use Rattle.re_terms.specs.Meaning.{meaning};
ghost use Rattle.re_terms.specs.Propagation.{put_word as word_that_is_put, change_of, filtered as filtered_by, body_effect, sets_of, fires_of, step_in};
ghost use Rattle.re_terms.specs.Cells.{is_cell_body, cell_place};
ghost use Rattle.re_terms.specs.SignalWords.{names_environment, no_word, signal_word};
ghost use Rattle.re_terms.specs.Views.{cell_size, view_of};
ghost use Rattle.re_eval.specs.Given.{is_given};
ghost use Rattle.re_prop.specs.Effects.{effects_at, words_before};
ghost use Rattle.re_prop.specs.Evaluated.{is_given_body};
ghost use Rattle.re_prop.specs.Sets.{HasSets};

use crate::bodies::replicated_place;
use crate::effects::Effects;
use crate::names::Names;
use crate::view::{NO_WORD, word_at, word_in};
use re_eval::{Steps, eval};
use re_terms::{Body, Decl, Entry, Expr, Program, Put, RState, State, Word, same_word};
use std::sync::ledger::Ledger;

/// The word that is put for an id, if any.
fn put_word(puts: &[Put], id: usize) -> Option<Word>
    ensures { result ≡ word_that_is_put puts.now id }
{
    for put in puts {
        if put.id as usize == id {
            return Some(put.word);
        }
    }
    None
}

/// The new word where it differs from the old one.
fn change(old: Word, new: Word) -> Option<Word>
    ensures { result ≡ change_of old new }
{
    if same_word(old, new) {
        return None;
    }
    Some(new)
}

/// The value where the condition is true, and the condition's fault where it is one.
fn filtered(condition: Word, value: Word) -> Option<Word>
    ensures { result ≡ filtered_by condition value }
{
    match condition {
        Word::Bool(true) => Some(value),
        Word::Fault(_) => Some(condition),
        _ => None,
    }
}

/// The vars that an entry sets: none where it is a merge.
pub fn sets(entry: &Entry) -> &[Put]
    ensures { result.now ≡ sets_of entry.now }
{
    match entry {
        Entry::Turn(turn) => turn.sets.as_slice(),
        Entry::Merge(_) => &[],
    }
}

/// The source events that it fires.
pub fn fires(entry: &Entry) -> &[Put]
    ensures { result.now ≡ fires_of entry.now }
{
    match entry {
        Entry::Turn(turn) => turn.fires.as_slice(),
        Entry::Merge(_) => &[],
    }
}

/// What stands before an entry, and what it brings.
#[derive(Clone, Copy)]
pub struct Walk<'a> {
    pub program: &'a Program,
    pub state: &'a State,
    pub entry: &'a Entry,
    /// The replicated state after the entry, and the sizes of its sets; 0 for its other cells.
    pub after: &'a RState,
    pub sizes: &'a [u32],
    /// The words of all declarations before the entry.
    pub before: &'a [Word],
    ghost known: { before.now ≡ words_before program.now state.now },
    ghost sets: { HasSets after.now.cells.items } by { Prim.hlevel props },
    ghost sized: { sizes.now ≡ map (λ c. cell_size (Some c)) after.now.cells.items },
}

impl<'a> Walk<'a> {
    /// The word of a declaration before the entry.
    #[tactic(auto, using(crate::proofs::Before::word_before_at))]
    fn old(&self, id: usize) -> Word
        ensures { result ≡ signal_word self.now.program.now self.now.state.now.words.items (view_of self.now.state.now.rep) id }
    {
        word_in(self.before, id)
    }

    /// The word of a var or fold before the entry.
    fn kept(&self, id: usize, decl: &Decl) -> Word
        requires at { slice_get self.now.program.now.decls.items id ≡ Some decl.now }
        requires cell { is_cell_body decl.now.body ≡ true }
        ensures { result ≡ slice_index_or self.now.state.now.words.items (cell_place self.now.program.now.decls.items id) no_word }
    {
        self.old(id)
    }

    /// The word of an expression over the words so far.
    fn evaluate<L: Ledger>(
        &self,
        expr: &Expr,
        effects: &Effects,
        arg: Option<Word>,
        own: Option<Word>,
        steps: &mut Steps<L>,
        evaluated: &mut u32,
    ) -> Word
        requires given { is_given (is_some arg) (is_some own) expr.now ≡ true }
        requires few { evaluated.old ≤ 1024 }
        ensures word { result ≡ meaning expr.now (names_environment self.now.program.now.decls.items (view_of self.now.after.now) (λ id. slice_index_or effects.now.words.items id no_word) arg own) }
        ensures steps { steps.new + evaluated.old ≡ steps.old + evaluated.new }
        ensures most { evaluated.new ≤ evaluated.old + 1 }
    {
        let names = Names {
            decls: self.program.decls.as_slice(),
            words: &effects.words,
            cells: self.after.cells.as_slice(),
            sizes: self.sizes,
        };
        *evaluated += 1;
        eval(expr, &names, arg, own, steps)
    }

    /// The word of a fold's step where its event occurs, else the word that it had.
    fn stepped<L: Ledger>(
        &self,
        expr: &Expr,
        effects: &Effects,
        value: Option<Word>,
        kept: Word,
        steps: &mut Steps<L>,
        evaluated: &mut u32,
    ) -> Word
        requires given { is_given true true expr.now ≡ true }
        requires few { evaluated.old ≤ 1024 }
        ensures word { result ≡ option_map_or (λ value. meaning expr.now (names_environment self.now.program.now.decls.items (view_of self.now.after.now) (λ id. slice_index_or effects.now.words.items id no_word) (Some value) (Some kept))) value kept }
        ensures steps { steps.new + evaluated.old ≡ steps.old + evaluated.new }
        ensures most { evaluated.new ≤ evaluated.old + 1 }
    {
        match value {
            Some(_) => self.evaluate(expr, effects, value, Some(kept), steps, evaluated),
            None => kept,
        }
    }

    /// What an expression makes of the value of an event that occurs.
    fn mapped<L: Ledger>(
        &self,
        expr: &Expr,
        effects: &Effects,
        value: Option<Word>,
        steps: &mut Steps<L>,
        evaluated: &mut u32,
    ) -> Option<Word>
        requires given { is_given true false expr.now ≡ true }
        requires few { evaluated.old ≤ 1024 }
        ensures word { result ≡ option_map (λ value. meaning expr.now (names_environment self.now.program.now.decls.items (view_of self.now.after.now) (λ id. slice_index_or effects.now.words.items id no_word) (Some value) None)) value }
        ensures steps { steps.new + evaluated.old ≡ steps.old + evaluated.new }
        ensures most { evaluated.new ≤ evaluated.old + 1 }
    {
        match value {
            Some(_) => Some(self.evaluate(expr, effects, value, None, steps, evaluated)),
            None => None,
        }
    }

    /// The value of a declaration that is an event, where it occurs.
    pub fn occurrence<L: Ledger>(
        &self,
        id: usize,
        body: &Body,
        effects: &Effects,
        steps: &mut Steps<L>,
        evaluated: &mut u32,
    ) -> Option<Word>
        requires given { is_given_body body.now ≡ true }
        requires few { evaluated.old ≤ 1024 }
        ensures word { result ≡ (body_effect self.now.program.now (step_in self.now.state.now self.now.entry.now self.now.after.now) id body.now (effects_at effects.now.words.items effects.now.values.items)).occurrence }
        ensures steps { steps.new + evaluated.old ≡ steps.old + evaluated.new }
        ensures most { evaluated.new ≤ evaluated.old + 1 }
    {
        match body {
            Body::Event { .. } => put_word(fires(self.entry), id),
            Body::Changed { of } => change(self.old(*of as usize), effects.word(*of)),
            Body::Map { source, expr, .. } => {
                self.mapped(expr, effects, effects.value(*source), steps, evaluated)
            }
            Body::Filter { source, expr } => {
                let value = effects.value(*source)?;
                let condition = self.evaluate(expr, effects, Some(value), None, steps, evaluated);
                filtered(condition, value)
            }
            Body::Either { left, right } => effects.value(*left).or(effects.value(*right)),
            _ => None,
        }
    }

    /// The word of a declaration; 0 where it has none.
    pub fn word<L: Ledger>(
        &self,
        id: usize,
        decl: &Decl,
        effects: &Effects,
        steps: &mut Steps<L>,
        evaluated: &mut u32,
    ) -> Word
        requires at { slice_get self.now.program.now.decls.items id ≡ Some decl.now }
        requires given { is_given_body decl.now.body ≡ true }
        requires few { evaluated.old ≤ 1024 }
        ensures word { result ≡ (body_effect self.now.program.now (step_in self.now.state.now self.now.entry.now self.now.after.now) id decl.now.body (effects_at effects.now.words.items effects.now.values.items)).word }
        ensures steps { steps.new + evaluated.old ≡ steps.old + evaluated.new }
        ensures most { evaluated.new ≤ evaluated.old + 1 }
    {
        match &decl.body {
            Body::Var { .. } => put_word(sets(self.entry), id).unwrap_or(self.kept(id, decl)),
            Body::Signal { expr, .. } => {
                self.evaluate(expr, effects, None, None, steps, evaluated)
            }
            Body::Fold { source, expr, .. } => {
                let value = effects.value(*source);
                self.stepped(expr, effects, value, self.kept(id, decl), steps, evaluated)
            }
            Body::Counter | Body::Register { .. } => {
                let place = replicated_place(self.program.decls.as_slice(), id);
                word_at(self.after.cells.as_slice(), place)
            }
            _ => NO_WORD,
        }
    }
}
