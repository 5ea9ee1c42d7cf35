//! Which trees are programs, and which fault comes first.
//!
//! A tree is written as words that single blanks part: a declaration's first word, its name, kind and
//! start literal, then the names and expressions in it. Operators stand before their operands, names
//! are capitals, numbers have one digit, and regions are 1.
ghost use Rattle.std.specs.Prelude.{◌≡◌, ◌≤◌, ◌+◌, ◌&&◌, true, nat_le, IfOk};
ghost use Rattle.std.specs.List.{list_all};
ghost use Rattle.re_terms.specs.Trees.{is_name_text, is_literal, is_expr, raw_depth, is_body, is_declaration, IsTree};
ghost use Rattle.re_types.specs.Capitals.{is_capitals};

use crate::{TypeFault, resolve};
use re_terms::{
    Body, Expr, Kind, Op, Program, RawBody, RawDecl, RawExpr, RawLit, Seq, Text, Tree, Word,
};
use sqlite_items::Boxed;
use std::alloc::Global;
use std::test::Fail;

/// What is left of a text of words.
#[derive(Drop)]
pub struct Words<'a> {
    pub text: &'a [u8],
}

impl<'a> Words<'a> {
    pub fn next(&mut self) -> &'a [u8] {
        let text = self.text;
        match text.iter().position(|byte| *byte == b' ') {
            Some(at) => {
                self.text = &text[at + 1..];
                &text[..at]
            }
            None => {
                self.text = &text[text.len()..];
                text
            }
        }
    }
}

fn are_capitals(word: &[u8]) -> bool
    ensures { result ≡ list_all (λ b. nat_le 65 b && nat_le b 90) word.now }
{
    word.iter().all(|byte| 65 <= *byte && *byte <= 90)
}

fn is_capitals(word: &[u8]) -> bool
    ensures { result ≡ is_capitals word.now }
{
    if word.is_empty() {
        return false;
    }
    if word.len() > 32 {
        return false;
    }
    are_capitals(word)
}

#[tactic(auto, using(crate::proofs::CapitalNames::capitals_name))]
fn name_of(alloc: Global, word: &[u8]) -> Result<Text, Fail>
    ensures { IfOk result (λ t. is_name_text t ≡ true) }
{
    if !is_capitals(word) {
        let none: Option<Text> = None;
        return Ok(none.ok_or("a name was wanted")?);
    }
    Ok(Text::from_bytes(alloc, word)?)
}

pub fn name(alloc: Global, words: &mut Words<'_>) -> Result<Text, Fail>
    ensures { IfOk result (λ t. is_name_text t ≡ true) }
{
    name_of(alloc, words.next())
}

fn kind_of(word: &[u8]) -> Option<Kind> {
    if word == b"int".as_slice() {
        return Some(Kind::Int);
    }
    if word == b"bool".as_slice() {
        return Some(Kind::Bool);
    }
    if word == b"sym".as_slice() {
        return Some(Kind::Sym);
    }
    None
}

fn kind(words: &mut Words<'_>) -> Result<Kind, Fail> {
    Ok(kind_of(words.next()).ok_or("a kind was wanted")?)
}

pub fn literal_of(alloc: Global, word: &[u8]) -> Result<RawLit, Fail>
    ensures { IfOk result (λ l. is_literal l ≡ true) }
{
    if word == b"true".as_slice() {
        return Ok(RawLit::Bool(true));
    }
    match word {
        [digit] if *digit < b'A' => Ok(RawLit::Int(*digit as i64 - 48)),
        _ => Ok(RawLit::Name(name_of(alloc, word)?)),
    }
}

fn operator(word: &[u8]) -> Option<Op> {
    match word {
        [b'+'] => Some(Op::Add),
        [b'/'] => Some(Op::Div),
        [b'<'] => Some(Op::Lt),
        [b'='] => Some(Op::Eq),
        [b'&'] => Some(Op::And),
        _ => None,
    }
}

/// An expression whose operands lie at most so deep.
#[cycle(expr)]
fn expr(alloc: Global, words: &mut Words<'_>, depth: u32) -> Result<RawExpr, Fail>
    ensures ranged { IfOk result (λ e. is_expr e ≡ true) }
    ensures depth { IfOk result (λ e. raw_depth e ≤ depth + 1) }
{
    let word = words.next();
    if let Some(op) = operator(word) {
        return Ok(RawExpr::Bin {
            op,
            left: operand(alloc, words, depth)?,
            right: operand(alloc, words, depth)?,
        });
    }
    if word == b"if".as_slice() {
        return Ok(RawExpr::If {
            cond: operand(alloc, words, depth)?,
            yes: operand(alloc, words, depth)?,
            no: operand(alloc, words, depth)?,
        });
    }
    if word == b"recover".as_slice() {
        return Ok(RawExpr::Recover {
            tried: operand(alloc, words, depth)?,
            other: operand(alloc, words, depth)?,
        });
    }
    if word == b"not".as_slice() {
        return Ok(RawExpr::Not(operand(alloc, words, depth)?));
    }
    if word == b"has".as_slice() {
        return Ok(RawExpr::Has {
            set: name(alloc, words)?,
            element: operand(alloc, words, depth)?,
        });
    }
    leaf(alloc, word, words)
}

#[cycle(expr)]
fn operand(alloc: Global, words: &mut Words<'_>, depth: u32) -> Result<Boxed<RawExpr>, Fail>
    ensures ranged { IfOk result (λ e. is_expr e ≡ true) }
    ensures depth { IfOk result (λ e. raw_depth e ≤ depth) }
{
    if depth == 0 {
        let none: Option<Boxed<RawExpr>> = None;
        return Ok(none.ok_or("the expression is too deep")?);
    }
    let expr = expr(alloc, words, depth - 1)?;
    Ok(Boxed::new(alloc, expr)?)
}

fn leaf(alloc: Global, word: &[u8], words: &mut Words<'_>) -> Result<RawExpr, Fail>
    ensures ranged { IfOk result (λ e. is_expr e ≡ true) }
    ensures depth { IfOk result (λ e. raw_depth e ≡ 1) }
{
    if word == b"arg".as_slice() {
        return Ok(RawExpr::Arg);
    }
    if word == b"self".as_slice() {
        return Ok(RawExpr::Own);
    }
    if word == b"fault".as_slice() {
        return Ok(RawExpr::Fault(100));
    }
    if word == b"size".as_slice() {
        return Ok(RawExpr::Size(name(alloc, words)?));
    }
    Ok(RawExpr::Lit(literal_of(alloc, word)?))
}

fn folded(alloc: Global, words: &mut Words<'_>) -> Result<RawBody, Fail>
    ensures { IfOk result (λ b. is_body b ≡ true) }
{
    Ok(RawBody::Fold {
        kind: kind(words)?,
        start: literal_of(alloc, words.next())?,
        source: name(alloc, words)?,
        expr: expr(alloc, words, 63)?,
        region: 1,
    })
}

/// The body of an event: a kind for a source, else how it comes from others.
fn event(alloc: Global, words: &mut Words<'_>) -> Result<RawBody, Fail>
    ensures { IfOk result (λ b. is_body b ≡ true) }
{
    let word = words.next();
    if word == b"changed".as_slice() {
        return Ok(RawBody::Changed {
            of: name(alloc, words)?,
        });
    }
    if word == b"map".as_slice() {
        return Ok(RawBody::Map {
            source: name(alloc, words)?,
            expr: expr(alloc, words, 63)?,
        });
    }
    if word == b"filter".as_slice() {
        return Ok(RawBody::Filter {
            source: name(alloc, words)?,
            expr: expr(alloc, words, 63)?,
        });
    }
    if word == b"either".as_slice() {
        return Ok(RawBody::Either {
            left: name(alloc, words)?,
            right: name(alloc, words)?,
        });
    }
    Ok(RawBody::Event {
        kind: kind_of(word).ok_or("a kind was wanted")?,
    })
}

/// The body behind a declaration's first word and name.
fn body(alloc: Global, word: &[u8], words: &mut Words<'_>) -> Result<RawBody, Fail>
    ensures { IfOk result (λ b. is_body b ≡ true) }
{
    if word == b"device".as_slice() {
        return Ok(RawBody::Device);
    }
    if word == b"symbol".as_slice() {
        return Ok(RawBody::Symbol);
    }
    if word == b"counter".as_slice() {
        return Ok(RawBody::Counter);
    }
    if word == b"set".as_slice() {
        return Ok(RawBody::Set { kind: kind(words)? });
    }
    if word == b"event".as_slice() {
        return event(alloc, words);
    }
    if word == b"fold".as_slice() {
        return folded(alloc, words);
    }
    if word == b"signal".as_slice() {
        return Ok(RawBody::Signal {
            expr: expr(alloc, words, 63)?,
        });
    }
    let kind = kind(words)?;
    let start = literal_of(alloc, words.next())?;
    if word == b"register".as_slice() {
        return Ok(RawBody::Register { kind, start });
    }
    Ok(RawBody::Var {
        kind,
        start,
        region: 1,
    })
}

fn decl(alloc: Global, words: &mut Words<'_>) -> Result<RawDecl, Fail>
    ensures { IfOk result (λ d. is_declaration d ≡ true) }
{
    let word = words.next();
    let name = name(alloc, words)?;
    let body = body(alloc, word, words)?;
    Ok(RawDecl { name, body })
}

pub fn tree(alloc: Global, text: &[u8]) -> Result<Tree, Fail>
    ensures { IfOk result IsTree }
{
    let mut words = Words { text };
    let mut decls = Seq::new(alloc);
    'decls: for _ in 0..1024 {
        if words.text.is_empty() {
            break;
        }
        decls.push(decl(alloc, &mut words)?)?;
    }
    Ok(Tree { decls })
}

/// Why a text is no program, or None.
fn fault(alloc: Global, text: &[u8]) -> Result<Option<TypeFault>, Fail> {
    match resolve(alloc, tree(alloc, text)?) {
        Ok(_) => Ok(None),
        Err(fault) => Ok(Some(fault)),
    }
}

/// A device, and so many declarations that begin and end with these words, each with a name of its own.
fn many(alloc: Global, first: &[u8], count: u16, last: &[u8]) -> Result<Vec<u8>, Fail> {
    let mut text = b"device A".to_vec(alloc)?;
    for i in 0..count {
        let name = [
            b'B' + (i / 26 / 26) as u8 % 25,
            b'A' + (i / 26 % 26) as u8,
            b'A' + (i % 26) as u8,
        ];
        text.push(b' ')?;
        text.extend_from_slice(first)?;
        text.extend_from_slice(&name)?;
        text.extend_from_slice(last)?;
    }
    Ok(text)
}

#[test]
fn the_first_fault_is_named(rt: HostRuntime) -> Result<(), Fail> {
    let alloc = rt.alloc();
    let cases: [(&[u8], Option<TypeFault>); 12] = [
        (b"", Some(TypeFault::NoDevice)),
        (b"symbol A", Some(TypeFault::NoDevice)),
        (b"device A", None),
        (b"device A signal S T", Some(TypeFault::Unknown(1))),
        (b"device A device A", Some(TypeFault::Twice(1))),
        (b"device A signal S + 1 true", Some(TypeFault::Kind(1))),
        (b"device A signal S S", Some(TypeFault::Unknown(1))),
        (
            b"device A signal S T var T int 0",
            Some(TypeFault::Unknown(1)),
        ),
        // of one declaration, the first in the order of the faults
        (b"device A signal A + true T", Some(TypeFault::Twice(1))),
        (
            b"device A signal S + + 1 true T",
            Some(TypeFault::Unknown(1)),
        ),
        (b"device A fold F int A A T", Some(TypeFault::Unknown(1))),
        // of several, the first in their order
        (
            b"symbol B signal S + 1 true signal B T",
            Some(TypeFault::Kind(1)),
        ),
    ];
    for (text, wanted) in cases {
        assert_eq!(rt; fault(alloc, text)?, wanted);
    }
    Ok(())
}

/// What stands before each declaration that is tried.
const DECLARED: &[u8] =
    b"device A symbol R var X int 1 var B bool true event E int counter C set M int register Q sym R ";

/// Declarations that keep the kind rules.
const RIGHT_KINDS: [&[u8]; 29] = [
    b"signal S + X C",
    b"signal S / 1 fault",
    b"signal S < X 2",
    b"signal S = Q R",
    b"signal S = fault B",
    b"signal S = fault fault",
    b"signal S & B not B",
    b"signal S if B fault X",
    b"signal S if fault R Q",
    b"signal S recover fault R",
    b"signal S size M",
    b"signal S has M fault",
    b"signal S R",
    b"event F changed Q",
    b"event F map E = arg 1",
    b"event F filter E < arg X",
    b"event F filter E fault",
    b"event F either E E",
    b"fold F bool true E & self = arg 1",
    b"fold F sym R E fault",
    b"event F int fold G int 0 F + self arg",
    b"event F changed B event G map F arg signal H B",
    b"event F changed B event G filter F arg",
    b"fold F int 0 E + self 1 event G changed F",
    b"var Y sym R",
    b"register Y bool true",
    b"set Y sym signal S has Y R",
    b"signal S X signal T + S S",
    b"event F map E arg event G either E F",
];

/// Declarations that break a kind rule.
const WRONG_KINDS: [&[u8]; 40] = [
    b"signal S + X B",
    b"signal S + B B",
    b"signal S / R 1",
    b"signal S < X B",
    b"signal S < B B",
    b"signal S = X B",
    b"signal S & X B",
    b"signal S & B X",
    b"signal S not X",
    b"signal S if X 1 2",
    b"signal S if B 1 true",
    b"signal S recover X B",
    b"signal S fault",
    b"signal S recover fault fault",
    b"signal S if B fault fault",
    b"signal S arg",
    b"signal S self",
    b"signal S A",
    b"signal S E",
    b"signal S M",
    b"signal S size X",
    b"signal S has X 1",
    b"signal S has M true",
    b"event F changed E",
    b"event F changed M",
    b"event F changed R",
    b"event F map X 1",
    b"event F map E fault",
    b"event F map E self",
    b"event F map E + arg B",
    b"event F filter X B",
    b"event F filter E arg",
    b"event F filter E self",
    b"event F either E X",
    b"event F changed B event G either E F",
    b"fold F int true E 1",
    b"fold F int 0 X 1",
    b"fold F int 0 E B",
    b"var Y int R",
    b"register Y sym X",
];

/// The fault of a declaration behind those that are declared.
fn fault_behind_declared(alloc: Global, text: &[u8]) -> Result<Option<TypeFault>, Fail> {
    let mut whole = DECLARED.to_vec(alloc)?;
    whole.extend_from_slice(text)?;
    fault(alloc, &whole)
}

#[test]
fn right_kinds_pass(rt: HostRuntime) -> Result<(), Fail> {
    for text in RIGHT_KINDS {
        assert_eq!(rt; fault_behind_declared(rt.alloc(), text)?, None);
    }
    Ok(())
}

#[test]
fn wrong_kinds_are_refused(rt: HostRuntime) -> Result<(), Fail> {
    for text in WRONG_KINDS {
        let found = fault_behind_declared(rt.alloc(), text)?;
        assert!(rt;
            matches!(found, Some(TypeFault::Kind(8 | 9))),
            "in {text:?}: {found:?}"
        );
    }
    Ok(())
}

#[test]
fn limits_hold(rt: HostRuntime) -> Result<(), Fail> {
    let alloc = rt.alloc();
    let cases: [(&[u8], &[u8], u16, Option<TypeFault>); 11] = [
        (b"device ", b"", 15, None),
        (b"device ", b"", 16, Some(TypeFault::TooMany(16))),
        (b"counter ", b"", 32, None),
        (b"counter ", b"", 33, Some(TypeFault::TooMany(33))),
        (b"set ", b" int", 33, Some(TypeFault::TooMany(33))),
        (b"register ", b" int 0", 33, Some(TypeFault::TooMany(33))),
        (b"var ", b" int 0", 256, None),
        (b"var ", b" int 0", 257, Some(TypeFault::TooMany(257))),
        (b"event ", b" int", 511, None),
        (b"event ", b" int", 512, Some(TypeFault::TooMany(512))),
        (b"device ", b" signal A T", 1, Some(TypeFault::Twice(2))),
    ];
    for (first, last, count, wanted) in cases {
        assert_eq!(rt; fault(alloc, &many(alloc, first, count, last)?)?, wanted);
    }
    Ok(())
}

/// Whether the declarations of a program have these names, ids, kinds and words.
fn has_ids(program: &Program) -> bool {
    match program.decls.as_slice() {
        [_, _, red, signal, _, mapped, _] => {
            matches!(red.body, Body::Symbol)
                && signal.name.as_slice() == b"S".as_slice()
                && matches!(
                    &signal.body,
                    Body::Signal {
                        kind: Kind::Bool,
                        expr: Expr::Bin { op: Op::Eq, .. }
                    }
                )
                && matches!(
                    &mapped.body,
                    Body::Map {
                        source: 4,
                        kind: Kind::Sym,
                        expr: Expr::Lit(Word::Sym(1))
                    }
                )
        }
        _ => false,
    }
}

#[test]
fn names_become_ids(rt: HostRuntime) -> Result<(), Fail> {
    let alloc = rt.alloc();
    let text =
        b"device A symbol G symbol R signal S = R R event E int event F map E R fold N int 0 F 1";
    let program = resolve(alloc, tree(alloc, text)?)?;
    assert!(rt; has_ids(&program));
    Ok(())
}
