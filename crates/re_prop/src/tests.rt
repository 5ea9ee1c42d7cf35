//! Small programs: a diamond whose sum is counted, and folds and filters with faults; and what one turn does to them.
ghost use Rattle.std.specs.Prelude.{◌≡◌, ◌<◌, ◌+◌, ◌++◌, ◌∷◌, ◌-◌, [], length, IfOk, IfSome, OnOk, IsTrue};
ghost use Rattle.std.specs.List.{All};
ghost use Rattle.re_terms.specs.Admission.{IsEntryOf};
ghost use Rattle.re_terms.specs.Programs.{IsProgram};
ghost use Rattle.re_terms.specs.WordKinds.{IsStateOf};
ghost use Rattle.re_prop.specs.Sample.{named, number, binary, recover, var, signal, quotient, quotient_sum, recovering, fold_on, program_of, diamond, faulty, dividing, counting, clearing};

use crate::{Cache, Prepared, propagate};
use re_eval::Steps;
use re_graph::Graph;
use re_terms::{Body, Decl, Entry, Expr, Kind, Op, Program, Put, Seq, State, Text, Turn, Word};
use sqlite_items::Boxed;
use std::alloc::{AllocError, Global};
use std::marker::Brand;
use std::sync::ledger::{Blank, Ledger};
use std::test::Fail;

/// Declares a body after the others, by the next letter.
fn declare(alloc: Global, decls: &mut Seq<Decl>, body: Body) -> Result<(), AllocError>
    requires { length decls.old.items < 26 }
    ensures { OnOk result (decls.new ≡ record { items = decls.old.items ++ named (97 + length decls.old.items) body ∷ []; spare = decls.old.spare - 1 }) }
{
    let name = Text::from_bytes(alloc, &[b'a' + decls.len() as u8])?;
    decls.push(Decl { name, body })
}

fn number(n: u8) -> Expr
    ensures { result ≡ number n }
{
    Expr::Lit(Word::Int(i64::from(n)))
}

fn binary(alloc: Global, op: Op, left: Expr, right: Expr) -> Result<Expr, AllocError>
    ensures { IfOk result (λ e. e ≡ binary op left right) }
{
    Ok(Expr::Bin {
        op,
        left: Boxed::new(alloc, left)?,
        right: Boxed::new(alloc, right)?,
    })
}

fn fold(source: u16, expr: Expr) -> Body
    ensures { result ≡ fold_on source expr }
{
    Body::Fold {
        kind: Kind::Int,
        start: Word::Int(0),
        source,
        expr,
        region: 1,
    }
}

/// A var that is 1 at the start.
fn var() -> Body
    ensures { result ≡ var }
{
    Body::Var {
        kind: Kind::Int,
        start: Word::Int(1),
        region: 1,
    }
}

fn signal(expr: Expr) -> Body
    ensures { result ≡ signal expr }
{
    Body::Signal {
        kind: Kind::Int,
        expr,
    }
}

/// 10 by the event's value.
fn quotient(alloc: Global) -> Result<Expr, AllocError>
    ensures { IfOk result (λ e. e ≡ quotient) }
{
    binary(alloc, Op::Div, number(10), Expr::Arg)
}

/// The sum of two signals over one var is counted, and the count with the sum is kept.
fn diamond(alloc: Global) -> Result<Program, AllocError>
    ensures { IfOk result (λ p. p ≡ program_of diamond) }
{
    let mut decls = Seq::new(alloc);
    declare(alloc, &mut decls, Body::Device)?;
    declare(alloc, &mut decls, var())?;
    let more = binary(alloc, Op::Add, Expr::Name(1), number(1))?;
    declare(alloc, &mut decls, signal(more))?;
    let double = binary(alloc, Op::Mul, Expr::Name(1), number(2))?;
    declare(alloc, &mut decls, signal(double))?;
    let sum = binary(alloc, Op::Add, Expr::Name(2), Expr::Name(3))?;
    declare(alloc, &mut decls, signal(sum))?;
    declare(alloc, &mut decls, Body::Changed { of: 4 })?;
    let count = binary(alloc, Op::Add, Expr::Own, number(1))?;
    declare(alloc, &mut decls, fold(5, count))?;
    declare(alloc, &mut decls, Body::Changed { of: 6 })?;
    let both = binary(alloc, Op::Add, Expr::Name(4), Expr::Name(6))?;
    declare(alloc, &mut decls, fold(7, both))?;
    Ok(Program { decls })
}

/// A fold and a filter divide by an event's value; other folds go on with what they give.
fn faulty(alloc: Global) -> Result<Program, AllocError>
    ensures { IfOk result (λ p. p ≡ program_of faulty) }
{
    let mut decls = Seq::new(alloc);
    declare(alloc, &mut decls, Body::Device)?;
    declare(alloc, &mut decls, Body::Event { kind: Kind::Int })?;
    declare(alloc, &mut decls, fold(1, quotient_sum(alloc)?))?;
    let expr = binary(alloc, Op::Gt, quotient(alloc)?, number(2))?;
    declare(alloc, &mut decls, Body::Filter { source: 1, expr })?;
    let recovered = recover(alloc, Expr::Arg, 100)?;
    declare(alloc, &mut decls, fold(3, recovered))?;
    declare(alloc, &mut decls, Body::Changed { of: 2 })?;
    declare(alloc, &mut decls, Body::Either { left: 5, right: 1 })?;
    let total = binary(alloc, Op::Add, Expr::Own, Expr::Arg)?;
    declare(alloc, &mut decls, fold(6, total))?;
    Ok(Program { decls })
}

/// The fold's word and the quotient.
fn quotient_sum(alloc: Global) -> Result<Expr, AllocError>
    ensures { IfOk result (λ e. e ≡ quotient_sum) }
{
    binary(alloc, Op::Add, Expr::Own, quotient(alloc)?)
}

fn recover(alloc: Global, tried: Expr, other: u8) -> Result<Expr, AllocError>
    ensures { IfOk result (λ e. e ≡ recover tried other) }
{
    Ok(Expr::Recover {
        tried: Boxed::new(alloc, tried)?,
        other: Boxed::new(alloc, number(other))?,
    })
}

/// Two folds divide by an event's value, and one of them recovers.
fn dividing(alloc: Global) -> Result<Program, AllocError>
    ensures { IfOk result (λ p. p ≡ program_of dividing) }
{
    let mut decls = Seq::new(alloc);
    declare(alloc, &mut decls, Body::Device)?;
    declare(alloc, &mut decls, Body::Event { kind: Kind::Int })?;
    declare(alloc, &mut decls, fold(1, quotient_sum(alloc)?))?;
    let recovered = recover(alloc, quotient_sum(alloc)?, 100)?;
    declare(alloc, &mut decls, fold(1, recovered))?;
    Ok(Program { decls })
}

/// The changes of a var are counted.
fn counting(alloc: Global) -> Result<Program, AllocError>
    ensures { IfOk result (λ p. p ≡ program_of counting) }
{
    let mut decls = Seq::new(alloc);
    declare(alloc, &mut decls, Body::Device)?;
    declare(alloc, &mut decls, var())?;
    declare(alloc, &mut decls, Body::Changed { of: 1 })?;
    let count = binary(alloc, Op::Add, Expr::Own, number(1))?;
    declare(alloc, &mut decls, fold(2, count))?;
    Ok(Program { decls })
}

/// Where the event's value is 7 the fold's word or 50, else the sum of the fold's word and the quotient.
fn recovering(alloc: Global) -> Result<Expr, AllocError>
    ensures { IfOk result (λ e. e ≡ recovering) }
{
    let cond = binary(alloc, Op::Eq, Expr::Arg, number(7))?;
    let yes = recover(alloc, Expr::Own, 50)?;
    let no = quotient_sum(alloc)?;
    Ok(Expr::If {
        cond: Boxed::new(alloc, cond)?,
        yes: Boxed::new(alloc, yes)?,
        no: Boxed::new(alloc, no)?,
    })
}

/// A fold takes what a filter lets through, its fault too, another one keeps a fault until its event's value is 7, and a
/// signal adds the two.
fn clearing(alloc: Global) -> Result<Program, AllocError>
    ensures { IfOk result (λ p. p ≡ program_of clearing) }
{
    let mut decls = Seq::new(alloc);
    declare(alloc, &mut decls, Body::Device)?;
    declare(alloc, &mut decls, Body::Event { kind: Kind::Int })?;
    let expr = binary(alloc, Op::Gt, quotient(alloc)?, number(2))?;
    declare(alloc, &mut decls, Body::Filter { source: 1, expr })?;
    declare(alloc, &mut decls, fold(2, Expr::Arg))?;
    declare(alloc, &mut decls, fold(1, recovering(alloc)?))?;
    let sum = binary(alloc, Op::Add, Expr::Name(3), Expr::Name(4))?;
    declare(alloc, &mut decls, signal(sum))?;
    Ok(Program { decls })
}

/// The programs by their places here.
pub fn sample(alloc: Global, which: u8) -> Result<Program, AllocError>
    ensures { IfOk result (λ p. IsProgram p) }
{
    match which {
        0 => diamond(alloc),
        1 => faulty(alloc),
        2 => dividing(alloc),
        3 => counting(alloc),
        _ => clearing(alloc),
    }
}

/// A turn that sets a var or fires a source event of ints, where the id names one.
pub fn turn_of(
    alloc: Global,
    p: &Program,
    id: u16,
    number: i64,
) -> Result<Option<Entry>, AllocError>
    ensures { IfOk result (λ found. IfSome found (λ entry. IsEntryOf p.now entry)) }
{
    let Some(decl) = p.decls.get(id as usize) else {
        return Ok(None);
    };
    let word = Word::Int(number);
    let puts = Seq::from_vec(vec![in alloc; Put { id, word }]?);
    let ops = Seq::new(alloc);
    let turn = match decl.body {
        Body::Var {
            kind: Kind::Int,
            ..
        } => Turn {
            sets: puts,
            fires: Seq::new(alloc),
            ops,
        },
        Body::Event { kind: Kind::Int } => Turn {
            sets: Seq::new(alloc),
            fires: puts,
            ops,
        },
        _ => return Ok(None),
    };
    Ok(Some(Entry::Turn(turn)))
}

/// The state before any entry.
pub fn started(alloc: Global, p: &Program) -> Result<State, AllocError>
    requires { IsProgram p.now }
    ensures { IfOk result (λ s. IsStateOf p.now s) }
{
    let s = State::start(alloc, p)?;
    Ok(s)
}

/// A program, the id that a turn sets or fires, its word, and what is then to change, in vars and folds and in signals, and
/// to be read.
type Case<'a> = (
    u8,
    u16,
    i64,
    &'a [(u16, Word)],
    &'a [(u16, Word)],
    &'a [(u16, Word)],
);

pub fn are(puts: &Seq<Put>, words: &[(u16, Word)]) -> bool {
    puts.len() == words.len()
        && puts
            .as_slice()
            .iter()
            .zip(words.iter())
            .all(|(put, (id, word))| put.id == *id && put.word == *word)
}

fn are_below(puts: &[Put], count: usize) -> bool
    ensures { IsTrue result → All (λ put. put.id < count) puts.now }
{
    puts.iter().all(|put| (put.id as usize) < count)
}

/// The word that a cache of so many words has for an id, once words were put into it.
fn cached(c: &mut Cache, count: usize, puts: &Seq<Put>, id: u16) -> Option<Word>
    requires { length c.old ≡ count }
{
    if !are_below(puts.as_slice(), count) || id as usize >= count {
        return None;
    }
    c.put(puts);
    Some(c.word(id))
}

/// What a turn does at the start, and the word of the declaration 4 that is then in the cache.
fn outcome<L: Ledger>(
    blank: Blank,
    alloc: Global,
    which: u8,
    id: u16,
    number: i64,
) -> Result<Option<(Prepared, Word)>, AllocError>
    requires name { blank.name ≡ L.name }
    requires parts { blank.parts ≡ L.parts }
    requires one { 0 < L.parts }
{
    let p = sample(alloc, which)?;
    let s = started(alloc, &p)?;
    let g = Graph::build(alloc, &p)?;
    let mut c = Cache::fill(alloc, &p, &s)?;
    let Some(entry) = turn_of(alloc, &p, id, number)? else {
        return Ok(None);
    };
    let mut steps = Steps::<L>::new(blank);
    let prepared = propagate(alloc, &p, &g, &c, &s, &entry, &s.rep, &mut steps)?;
    let word = cached(&mut c, p.decls.len(), &prepared.signals, 4);
    Ok(word.map(|word| (prepared, word)))
}

/// What the diamond's turns read: all that has a word, as it is at the start.
const DIAMOND_READ: [(u16, Word); 6] = [
    (1, Word::Int(1)),
    (2, Word::Int(2)),
    (3, Word::Int(2)),
    (4, Word::Int(4)),
    (6, Word::Int(0)),
    (8, Word::Int(0)),
];

/// What the turns of the second program read: its folds, as they are at the start.
const FOLDS_READ: [(u16, Word); 3] = [(2, Word::Int(0)), (4, Word::Int(0)), (7, Word::Int(0))];

const CASES: [Case<'static>; 5] = [
    (
        0,
        1,
        5,
        &[(1, Word::Int(5)), (6, Word::Int(1)), (8, Word::Int(17))],
        &[(2, Word::Int(6)), (3, Word::Int(10)), (4, Word::Int(16))],
        &DIAMOND_READ,
    ),
    (0, 1, 1, &[], &[], &DIAMOND_READ),
    (
        1,
        1,
        2,
        &[(2, Word::Int(5)), (4, Word::Int(2)), (7, Word::Int(5))],
        &[],
        &FOLDS_READ,
    ),
    (
        1,
        1,
        0,
        &[
            (2, Word::Fault(2)),
            (4, Word::Int(100)),
            (7, Word::Fault(2)),
        ],
        &[],
        &FOLDS_READ,
    ),
    (
        1,
        1,
        10,
        &[(2, Word::Int(1)), (7, Word::Int(1))],
        &[],
        &FOLDS_READ,
    ),
];

/// The word of the declaration 4 that is in the cache after each of these turns.
const CACHED: [Word; 5] = [
    Word::Int(16),
    Word::Int(4),
    Word::Int(0),
    Word::Int(0),
    Word::Int(0),
];

#[test]
fn turns_at_the_start(rt: HostRuntime) -> Result<(), Fail> {
    let alloc = rt.alloc();
    for ((which, id, number, changes, signals, read), kept) in CASES.into_iter().zip(CACHED) {
        let found = outcome::<Brand>(Blank::new(1), alloc, which, id, number)?;
        let (prepared, word) = found.ok_or("no turn")?;
        assert!(rt; are(&prepared.changes, changes), "changes of {number}");
        assert!(rt; are(&prepared.signals, signals), "signals of {number}");
        assert!(rt; are(&prepared.read, read), "read of {number}");
        assert_eq!(rt; word, kept, "cached after {number}");
        assert!(rt; matches!(prepared.entry, Entry::Turn(_)));
    }
    Ok(())
}
