//! What each form of declaration has after an entry, over what was found of those before it.
ghost use Rattle.std.specs.Prelude.{◌≡◌, ◌+◌, ◌≤◌, true, false, is_some, option_map, if◌then◌else◌, Some, None};
ghost use Rattle.std.specs.Option.{option_map_or};
ghost use Rattle.re_terms.specs.Meaning.{meaning};
ghost use Rattle.re_terms.specs.Propagation.{put_word as word_that_is_put, change_of, filtered as filtered_by, sets_of, fires_of};
ghost use Rattle.re_eval.specs.Given.{is_given};
ghost use Rattle.re_eval.specs.Told.{environment};
ghost use Rattle.re_prop.specs.Evaluated.{is_given_body};
ghost use Rattle.re_levels.specs.Found.{effect_among, effect_of, has_expression, told_among};
ghost use Rattle.re_levels.specs.Seen.{body_seen, sight_of};

use crate::found::{Found, found_of};
use crate::names::Names;
use re_eval::{Env, Steps, eval};
use re_terms::{Body, Entry, Expr, Program, Put, Seq, Word, same_word};
use std::sync::ledger::Ledger;

/// The word of what has none.
const NO_WORD: Word = Word::Int(0);

/// The word that is put for an id, if any.
fn put_word(puts: &[Put], id: u16) -> Option<Word>
    ensures { result ≡ word_that_is_put puts.now id }
{
    for put in puts {
        if put.id == id {
            return Some(put.word);
        }
    }
    None
}

/// The new word where it differs from the old one.
fn change(old: Word, new: Word) -> Option<Word>
    ensures { result ≡ change_of old new }
{
    if same_word(old, new) {
        return None;
    }
    Some(new)
}

/// The value where the condition is true, and the condition's fault where it is one.
fn filtered(condition: Word, value: Word) -> Option<Word>
    ensures { result ≡ filtered_by condition value }
{
    match condition {
        Word::Bool(true) => Some(value),
        Word::Fault(_) => Some(condition),
        _ => None,
    }
}

/// The vars that an entry sets: none where it is a merge.
fn sets(entry: &Entry) -> &[Put]
    ensures { result.now ≡ sets_of entry.now }
{
    match entry {
        Entry::Turn(turn) => turn.sets.as_slice(),
        Entry::Merge(_) => &[],
    }
}

/// The source events that it fires.
fn fires(entry: &Entry) -> &[Put]
    ensures { result.now ≡ fires_of entry.now }
{
    match entry {
        Entry::Turn(turn) => turn.fires.as_slice(),
        Entry::Merge(_) => &[],
    }
}

/// A declaration with this word.
fn with_word(id: u16, word: Word) -> Found
    ensures { result ≡ record { id = id; word = word; value = None } }
{
    Found {
        id,
        word,
        value: None,
    }
}

/// An event that occurs with this value, if any.
fn with_value(id: u16, value: Option<Word>) -> Found
    ensures { result ≡ record { id = id; word = NO_WORD; value = value } }
{
    Found {
        id,
        word: NO_WORD,
        value,
    }
}

/// What stands before an entry, what it brings and touches, and the replicated cells after it.
#[derive(Drop)]
pub struct Walk<'a, O: Env, N: Env> {
    pub program: &'a Program,
    pub old: &'a O,
    pub new: &'a N,
    pub entry: &'a Entry,
    pub touched: &'a Seq<u16>,
}

impl<'a, O: Env, N: Env> Walk<'a, O, N> {
    /// The word of an expression over what was found.
    fn evaluate<L: Ledger>(
        &self,
        expr: &Expr,
        found: &[Found],
        arg: Option<Word>,
        own: Option<Word>,
        steps: &mut Steps<L>,
        evaluated: &mut u32,
    ) -> Word
        requires given { is_given (is_some arg) (is_some own) expr.now ≡ true }
        requires few { evaluated.old ≤ 1024 }
        ensures word { result ≡ meaning expr.now (environment (told_among (O.told self.now.old.now) (N.told self.now.new.now) found.now) arg own) }
        ensures steps { steps.new + evaluated.old ≡ steps.old + evaluated.new }
        ensures most { evaluated.new ≤ evaluated.old + 1 }
    {
        let names = Names {
            old: self.old,
            new: self.new,
            found,
        };
        *evaluated += 1;
        eval(expr, &names, arg, own, steps)
    }

    /// The value of an event, where it was found to occur.
    fn value(&self, found: &[Found], id: u16) -> Option<Word>
        ensures { result ≡ (effect_among (O.told self.now.old.now) found.now id).occurrence }
    {
        match found_of(found, id) {
            Some(one) => one.value,
            None => None,
        }
    }

    /// The word of a name that was found, or its word before the entry.
    fn word(&self, found: &[Found], id: u16) -> Word
        ensures { result ≡ (effect_among (O.told self.now.old.now) found.now id).word }
    {
        match found_of(found, id) {
            Some(one) => one.word,
            None => self.old.word(id),
        }
    }

    /// The word of a fold's step where its event occurs, else the word that it had.
    fn stepped<L: Ledger>(
        &self,
        expr: &Expr,
        found: &[Found],
        value: Option<Word>,
        kept: Word,
        steps: &mut Steps<L>,
        evaluated: &mut u32,
    ) -> Word
        requires given { is_given true true expr.now ≡ true }
        requires few { evaluated.old ≤ 1024 }
        ensures word { result ≡ option_map_or (λ value. meaning expr.now (environment (told_among (O.told self.now.old.now) (N.told self.now.new.now) found.now) (Some value) (Some kept))) value kept }
        ensures steps { steps.new + evaluated.old ≡ steps.old + evaluated.new }
        ensures most { evaluated.new ≤ evaluated.old + 1 }
    {
        match value {
            Some(_) => self.evaluate(expr, found, value, Some(kept), steps, evaluated),
            None => kept,
        }
    }

    /// What an expression makes of the value of an event that occurs.
    fn mapped<L: Ledger>(
        &self,
        expr: &Expr,
        found: &[Found],
        value: Option<Word>,
        steps: &mut Steps<L>,
        evaluated: &mut u32,
    ) -> Option<Word>
        requires given { is_given true false expr.now ≡ true }
        requires few { evaluated.old ≤ 1024 }
        ensures word { result ≡ option_map (λ value. meaning expr.now (environment (told_among (O.told self.now.old.now) (N.told self.now.new.now) found.now) (Some value) None)) value }
        ensures steps { steps.new + evaluated.old ≡ steps.old + evaluated.new }
        ensures most { evaluated.new ≤ evaluated.old + 1 }
    {
        match value {
            Some(_) => Some(self.evaluate(expr, found, value, None, steps, evaluated)),
            None => None,
        }
    }

    /// The value of a declaration that is an event, where it occurs.
    fn occurrence<L: Ledger>(
        &self,
        id: u16,
        body: &Body,
        found: &[Found],
        steps: &mut Steps<L>,
        evaluated: &mut u32,
    ) -> Option<Word>
        requires given { is_given_body body.now ≡ true }
        requires few { evaluated.old ≤ 1024 }
        ensures value { result ≡ (body_seen (sight_of self.now.entry.now self.now.touched.now.items (O.told self.now.old.now) (N.told self.now.new.now)) id body.now (effect_among (O.told self.now.old.now) found.now)).occurrence }
        ensures steps { steps.new + evaluated.old ≡ steps.old + evaluated.new }
        ensures most { evaluated.new ≤ evaluated.old + (if has_expression body.now then 1 else 0) }
    {
        match body {
            Body::Event { .. } => put_word(fires(self.entry), id),
            Body::Changed { of } => change(self.old.word(*of), self.word(found, *of)),
            Body::Map { source, expr, .. } => {
                self.mapped(expr, found, self.value(found, *source), steps, evaluated)
            }
            Body::Filter { source, expr } => {
                let value = self.value(found, *source)?;
                let condition = self.evaluate(expr, found, Some(value), None, steps, evaluated);
                filtered(condition, value)
            }
            Body::Either { left, right } => {
                self.value(found, *left).or(self.value(found, *right))
            }
            _ => None,
        }
    }

    /// What a reached declaration has after the entry.
    pub fn effect<L: Ledger>(
        &self,
        id: u16,
        body: &Body,
        found: &[Found],
        steps: &mut Steps<L>,
        evaluated: &mut u32,
    ) -> Found
        requires given { is_given_body body.now ≡ true }
        requires few { evaluated.old ≤ 1024 }
        ensures id { result.id ≡ id }
        ensures effect { effect_of result ≡ body_seen (sight_of self.now.entry.now self.now.touched.now.items (O.told self.now.old.now) (N.told self.now.new.now)) id body.now (effect_among (O.told self.now.old.now) found.now) }
        ensures steps { steps.new + evaluated.old ≡ steps.old + evaluated.new }
        ensures most { evaluated.new ≤ evaluated.old + (if has_expression body.now then 1 else 0) }
    {
        match body {
            Body::Var { .. } => {
                with_word(
                    id,
                    put_word(sets(self.entry), id).unwrap_or(self.old.word(id)),
                )
            }
            Body::Signal { expr, .. } => {
                with_word(id, self.evaluate(expr, found, None, None, steps, evaluated))
            }
            Body::Fold { source, expr, .. } => {
                let value = self.value(found, *source);
                let kept = self.old.word(id);
                with_word(id, self.stepped(expr, found, value, kept, steps, evaluated))
            }
            Body::Counter | Body::Register { .. } => with_word(id, self.new.word(id)),
            _ => with_value(id, self.occurrence(id, body, found, steps, evaluated)),
        }
    }
}
