//! Parts of a turn: whether their names are declared, and what they are over ids.
ghost use Rattle.std.specs.Prelude.{◌≡◌, ◌≤◌, ℕ, true, length, count_by, IfSome};
ghost use Rattle.std.specs.List.{list_all};
ghost use Rattle.re_terms.specs.Programs.{names_of, is_replicated, is_literal_word};
ghost use Rattle.re_terms.specs.Shapes.{is_word_of};
ghost use Rattle.re_terms.specs.Admission.{symbol_count, var_kind as kind_of_var, source_kind as kind_of_source, is_act_of};
ghost use Rattle.re_types.specs.Admitting.{knows_part as part_is_known, put_of, operation_of, set_of, fire_of, act_of};
ghost use Rattle.re_types.specs.Parts.{is_literal_act, word_of as word_of_act, word_kind as kind_of_words, set_in, fire_in, operation_in};

use crate::lookup::{cell, knows, knows_literal, literal_word, place};
use re_terms::{
    Act, Body, Decl, Kind, Layout, Put, RKind, RawLit, RawPart, RepOp, Text, Word, allows, layout,
    replicated_kind,
};

/// A part of a turn, over ids.
#[derive(Clone, Copy)]
pub enum Part {
    Set(Put),
    Fire(Put),
    Operation(RepOp),
}

/// Whether the part's name is declared, and a name that stands as its literal.
fn knows_part(decls: &[Decl], part: &RawPart) -> bool
    ensures { result ≡ part_is_known (names_of decls.now) part.now }
{
    match part {
        RawPart::Put { name, lit }
        | RawPart::Fire { name, lit }
        | RawPart::Insert { name, lit }
        | RawPart::Remove { name, lit }
        | RawPart::Write { name, lit } => knows(decls, name) && knows_literal(decls, lit),
        RawPart::Add { name, .. } => knows(decls, name),
    }
}

/// Whether all names in the parts are declared.
pub fn know_parts(decls: &[Decl], parts: &[RawPart]) -> bool
    ensures { result ≡ list_all (part_is_known (names_of decls.now)) parts.now }
{
    parts.iter().all(|part| knows_part(decls, part))
}

/// Whether a literal's word is of this kind.
fn is_of_kind(kind: Kind, word: Word) -> bool
    ensures { (symbols : ℕ) → is_literal_word symbols word ≡ true → result ≡ is_word_of symbols kind word }
{
    match (kind, word) {
        (Kind::Int, Word::Int(_)) | (Kind::Bool, Word::Bool(_)) | (Kind::Sym, Word::Sym(_)) => true,
        _ => false,
    }
}

fn var_kind(body: &Body) -> Option<Kind>
    ensures { result ≡ kind_of_var body.now }
{
    match body {
        Body::Var { kind, .. } => Some(*kind),
        _ => None,
    }
}

fn source_kind(body: &Body) -> Option<Kind>
    ensures { result ≡ kind_of_source body.now }
{
    match body {
        Body::Event { kind } => Some(*kind),
        _ => None,
    }
}

/// The word for the var with this name. None where there is no such var, or its kind is another.
fn set(decls: &[Decl], name: &Text, literal: &RawLit) -> Option<Put>
    requires { length decls.now ≤ 512 }
    ensures { result ≡ put_of kind_of_var decls.now name.now literal.now }
{
    let place = place(decls, name)?;
    let word = literal_word(decls, literal)?;
    let kind = var_kind(&decls[place].body)?;
    if !is_of_kind(kind, word) {
        return None;
    }
    Some(Put {
        id: place as u16,
        word,
    })
}

/// The same for the source event with this name.
fn fire(decls: &[Decl], name: &Text, literal: &RawLit) -> Option<Put>
    requires { length decls.now ≤ 512 }
    ensures { result ≡ put_of kind_of_source decls.now name.now literal.now }
{
    let place = place(decls, name)?;
    let word = literal_word(decls, literal)?;
    let kind = source_kind(&decls[place].body)?;
    if !is_of_kind(kind, word) {
        return None;
    }
    Some(Put {
        id: place as u16,
        word,
    })
}

/// The word that an act has, if any.
fn word_of(act: &Act) -> Option<Word>
    ensures { result ≡ word_of_act act.now }
{
    match act {
        Act::Add(_) => None,
        Act::Insert(word) | Act::Remove(word) | Act::Write(word) => Some(*word),
    }
}

/// The kind of the words that a cell's acts have, if any.
fn word_kind(layout: Layout) -> Option<Kind>
    ensures { result ≡ kind_of_words layout }
{
    match layout {
        Layout::Rows => None,
        Layout::Pairs(kind) | Layout::Written(kind, _) => Some(kind),
    }
}

/// Whether a cell of this kind takes the act: it allows it, and the act's word is of its kind.
fn takes(kind: RKind, act: &Act) -> bool
    ensures { (symbols : ℕ) → is_literal_act symbols act.now ≡ true → result ≡ is_act_of symbols kind act.now }
{
    if !allows(kind, act) {
        return false;
    }
    match (word_kind(layout(kind)), word_of(act)) {
        (Some(kind), Some(word)) => is_of_kind(kind, word),
        _ => true,
    }
}

/// An act on the replicated cell with this name. None where there is no act, or no such cell that takes it.
fn operation(decls: &[Decl], name: &Text, act: Option<Act>) -> Option<RepOp>
    requires few { length decls.now ≤ 512 }
    requires replicated { count_by is_replicated decls.now ≤ 32 }
    requires act { IfSome act (λ a. is_literal_act (symbol_count decls.now) a ≡ true) }
    ensures { result ≡ operation_of decls.now name.now act }
{
    let place = place(decls, name)?;
    let kind = replicated_kind(&decls[place].body)?;
    let act = act?;
    if !takes(kind, &act) {
        return None;
    }
    Some(RepOp {
        cell: cell(decls, place),
        act,
    })
}

/// The part over ids. None where its name or literal is of wrong kind.
pub fn part_of(decls: &[Decl], part: &RawPart) -> Option<Part>
    requires few { length decls.now ≤ 512 }
    requires replicated { count_by is_replicated decls.now ≤ 32 }
    ensures set { set_of decls.now part.now ≡ set_in result }
    ensures fire { fire_of decls.now part.now ≡ fire_in result }
    ensures act { act_of decls.now part.now ≡ operation_in result }
{
    match part {
        RawPart::Put { name, lit } => set(decls, name, lit).map(Part::Set),
        RawPart::Fire { name, lit } => fire(decls, name, lit).map(Part::Fire),
        RawPart::Add { name, amount } => {
            operation(decls, name, Some(Act::Add(*amount))).map(Part::Operation)
        }
        RawPart::Insert { name, lit } => {
            operation(decls, name, literal_word(decls, lit).map(Act::Insert)).map(Part::Operation)
        }
        RawPart::Remove { name, lit } => {
            operation(decls, name, literal_word(decls, lit).map(Act::Remove)).map(Part::Operation)
        }
        RawPart::Write { name, lit } => {
            operation(decls, name, literal_word(decls, lit).map(Act::Write)).map(Part::Operation)
        }
    }
}
