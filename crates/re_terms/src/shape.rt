//! Shapes of programs, and start states.
ghost use Rattle.std.specs.Prelude.{◌≡◌, IfOk};
ghost use Rattle.re_terms.specs.Listed.{plain};
ghost use Rattle.re_terms.specs.Programs.{IsProgram};
ghost use Rattle.re_terms.specs.Shapes.{IsShape, replicated_kind, replicated_kinds, shape_of, start_cell, start_replicated, start_word, start_words, start_state};

use crate::sorts::{count_devices, count_symbols};
use crate::{
    Body, Decl, Program, RCell, RKind, RState, Rows, Seq, Shape, State, Vector, Word, Written,
};
use std::alloc::{AllocError, Global};

/// What a declaration is as a replicated cell, where it is one. It takes no memory.
pub fn replicated_kind(body: &Body) -> Option<RKind>
    ensures { result ≡ replicated_kind body.now }
{
    match body {
        Body::Counter => Some(RKind::Counter),
        Body::Set { kind } => Some(RKind::Set(*kind)),
        Body::Register { kind, start } => Some(RKind::Register(*kind, *start)),
        _ => None,
    }
}

/// A var's or a fold's start word.
fn start_word(body: &Body) -> Option<Word>
    ensures { result ≡ start_word body.now }
{
    match body {
        Body::Var { start, .. } | Body::Fold { start, .. } => Some(*start),
        _ => None,
    }
}

/// The kinds of the replicated cells, in order of declaration. The one refusal is want of memory.
fn replicated_kinds(alloc: Global, decls: &[Decl]) -> Result<Seq<RKind>, AllocError>
    ensures { IfOk result (λ kinds. kinds ≡ plain (replicated_kinds decls.now)) }
{
    let mut kinds = Seq::new(alloc);
    for decl in decls {
        if let Some(kind) = replicated_kind(&decl.body) {
            kinds.push(kind)?;
        }
    }
    Ok(kinds)
}

/// The start words of vars and folds, in order of declaration. The one refusal is want of memory.
fn start_words(alloc: Global, decls: &[Decl]) -> Result<Seq<Word>, AllocError>
    ensures { IfOk result (λ words. words ≡ plain (start_words decls.now)) }
{
    let mut words = Seq::new(alloc);
    for decl in decls {
        if let Some(word) = start_word(&decl.body) {
            words.push(word)?;
        }
    }
    Ok(words)
}

/// A replicated cell before any update.
fn start_cell(alloc: Global, kind: RKind) -> RCell
    ensures { result ≡ start_cell kind }
{
    match kind {
        RKind::Counter => RCell::Counter(Rows {
            plus: [0; 16],
            minus: [0; 16],
        }),
        RKind::Set(_) => RCell::Set(Seq::new(alloc)),
        RKind::Register(_, word) => RCell::Register(Written {
            stamp: 0,
            device: 0,
            word,
        }),
    }
}

/// The replicated state before any update. The one refusal is want of memory.
fn start_replicated(alloc: Global, shape: &Shape) -> Result<RState, AllocError>
    ensures { IfOk result (λ state. state ≡ start_replicated shape.now) }
{
    let mut cells = Seq::new(alloc);
    for kind in shape.cells.as_slice() {
        cells.push(start_cell(alloc, *kind))?;
    }
    Ok(RState {
        vector: Vector { counts: [0; 16] },
        cells,
    })
}

impl Shape {
    /// The shape of a program's replicated states: how many devices and symbols it has, and the kinds of its replicated
    /// cells in order of declaration. The one refusal is want of memory.
    pub fn of(alloc: Global, p: &Program) -> Result<Shape, AllocError>
        requires { IsProgram p.now }
        ensures of { IfOk result (λ shape. shape ≡ shape_of p.now) }
        ensures limits { IsShape (shape_of p.now) }
    {
        let decls = p.decls.as_slice();
        Ok(Shape {
            devices: count_devices(decls) as u8,
            symbols: count_symbols(decls) as u16,
            cells: replicated_kinds(alloc, decls)?,
        })
    }
}

impl State {
    /// The state before any entry: vars and folds have their start words, and no update was made. The one refusal is want
    /// of memory.
    pub fn start(alloc: Global, p: &Program) -> Result<State, AllocError>
        requires { IsProgram p.now }
        ensures { IfOk result (λ state. state ≡ start_state p.now) }
    {
        let shape = Shape::of(alloc, p)?;
        Ok(State {
            words: start_words(alloc, p.decls.as_slice())?,
            rep: start_replicated(alloc, &shape)?,
        })
    }
}
