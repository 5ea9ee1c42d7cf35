//! Printed programs, words and answers, beside their texts as they are written by hand.
ghost use Rattle.std.specs.Prelude.{◌≡◌, IfOk};
ghost use Rattle.std.specs.List.Sorted.{IsStrictlySortedBy};
ghost use Rattle.std.specs.declared.cmp.Ordering.TheVariants.{Less};
ghost use Rattle.re_terms.specs.WordOrder.{pair_cmp};
ghost use Rattle.re_print.specs.Sample.{numbered};

use crate::{print_answer, print_program, print_set, print_word};
use re_terms::{Answer, Body, Decl, Dot, Expr, Kind, Op, Pair, Program, Seq, Text, Word};
use sqlite_items::Boxed;
use std::alloc::{AllocError, Global};
use std::test::Fail;

/// A program that is built up one declaration at a time.
#[derive(Drop)]
struct Built {
    alloc: Global,
    decls: Seq<Decl>,
}

impl Built {
    fn new(alloc: Global) -> Built {
        Built {
            alloc,
            decls: Seq::new(alloc),
        }
    }

    fn declare(&mut self, name: &[u8], body: Body) -> Result<(), AllocError> {
        let name = Text::from_bytes(self.alloc, name)?;
        self.decls.push(Decl { name, body })
    }

    fn signal(&mut self, name: &[u8], expr: Expr) -> Result<(), AllocError> {
        let kind = Kind::Int;
        self.declare(name, Body::Signal { kind, expr })
    }
}

fn int(number: i64) -> Expr {
    Expr::Lit(Word::Int(number))
}

fn binary(alloc: Global, left: Expr, op: Op, right: Expr) -> Result<Expr, AllocError> {
    Ok(Expr::Bin {
        op,
        left: Boxed::new(alloc, left)?,
        right: Boxed::new(alloc, right)?,
    })
}

/// `(if (x < 0) then (0 - x) else x)`, where `x` is the declaration with this id.
fn distance(alloc: Global, x: u16) -> Result<Expr, AllocError> {
    let cond = binary(alloc, Expr::Name(x), Op::Lt, int(0))?;
    let yes = binary(alloc, int(0), Op::Sub, Expr::Name(x))?;
    Ok(Expr::If {
        cond: Boxed::new(alloc, cond)?,
        yes: Boxed::new(alloc, yes)?,
        no: Boxed::new(alloc, Expr::Name(x))?,
    })
}

/// A program with each form of declaration.
const DECLARATIONS: &[u8] = b"device a;\n\
    var x: int = -3 in 1;\n\
    signal s = (if (x < 0) then (0 - x) else x);\n\
    event e: int;\n\
    event c = changed(s);\n\
    event m = map(e, (arg + 1));\n\
    event f = filter(e, (arg > 0));\n\
    event g = either(e, m);\n\
    fold n: int = 0 on c do (self + 1) in 2;\n\
    counter k;\n\
    set todo: int;\n\
    symbol red;\n\
    register mode: sym = red;\n";

#[test]
fn prints_each_declaration(rt: HostRuntime) -> Result<(), Fail> {
    let alloc = rt.alloc();
    let mut built = Built::new(alloc);
    built.declare(b"a", Body::Device)?;
    let kind = Kind::Int;
    let start = Word::Int(-3);
    let region = 1;
    let var = Body::Var {
        kind,
        start,
        region,
    };
    built.declare(b"x", var)?;
    built.signal(b"s", distance(alloc, 1)?)?;
    built.declare(b"e", Body::Event { kind })?;
    built.declare(b"c", Body::Changed { of: 2 })?;
    let source = 3;
    let expr = binary(alloc, Expr::Arg, Op::Add, int(1))?;
    built.declare(b"m", Body::Map { source, kind, expr })?;
    let expr = binary(alloc, Expr::Arg, Op::Gt, int(0))?;
    built.declare(b"f", Body::Filter { source, expr })?;
    let either = Body::Either { left: 3, right: 5 };
    built.declare(b"g", either)?;
    let fold = Body::Fold {
        kind,
        start: Word::Int(0),
        source: 4,
        expr: binary(alloc, Expr::Own, Op::Add, int(1))?,
        region: 2,
    };
    built.declare(b"n", fold)?;
    built.declare(b"k", Body::Counter)?;
    built.declare(b"todo", Body::Set { kind })?;
    built.declare(b"red", Body::Symbol)?;
    let kind = Kind::Sym;
    let start = Word::Sym(0);
    built.declare(b"mode", Body::Register { kind, start })?;
    let decls = built.decls;
    let printed = print_program(alloc, &Program { decls })?;
    assert_eq!(rt; printed.as_slice(), DECLARATIONS);
    Ok(())
}

/// A program with each form of expression.
const EXPRESSIONS: &[u8] = b"set s: bool;\n\
    signal a = not(true);\n\
    signal b = recover(fault(100), -9223372036854775808);\n\
    signal c = size(s);\n\
    signal d = has(s, false);\n\
    signal o = (1 + -2);\n\
    signal o = (1 - -2);\n\
    signal o = (1 * -2);\n\
    signal o = (1 / -2);\n\
    signal o = (1 % -2);\n\
    signal o = (1 < -2);\n\
    signal o = (1 <= -2);\n\
    signal o = (1 > -2);\n\
    signal o = (1 >= -2);\n\
    signal o = (1 == -2);\n\
    signal o = (1 != -2);\n\
    signal o = (1 and -2);\n\
    signal o = (1 or -2);\n";

/// The operators, in the order in which they are printed here.
const OPERATORS: [Op; 13] = [
    Op::Add,
    Op::Sub,
    Op::Mul,
    Op::Div,
    Op::Rem,
    Op::Lt,
    Op::Le,
    Op::Gt,
    Op::Ge,
    Op::Eq,
    Op::Ne,
    Op::And,
    Op::Or,
];

#[test]
fn prints_each_expression(rt: HostRuntime) -> Result<(), Fail> {
    let alloc = rt.alloc();
    let mut built = Built::new(alloc);
    built.declare(b"s", Body::Set { kind: Kind::Bool })?;
    let truth = Expr::Lit(Word::Bool(true));
    built.signal(b"a", Expr::Not(Boxed::new(alloc, truth)?))?;
    let tried = Expr::Lit(Word::Fault(100));
    let tried = Boxed::new(alloc, tried)?;
    let other = Boxed::new(alloc, int(i64::MIN))?;
    built.signal(b"b", Expr::Recover { tried, other })?;
    built.signal(b"c", Expr::Size(0))?;
    let lie = Expr::Lit(Word::Bool(false));
    let element = Boxed::new(alloc, lie)?;
    built.signal(b"d", Expr::Has { set: 0, element })?;
    for op in OPERATORS {
        built.signal(b"o", binary(alloc, int(1), op, int(-2))?)?;
    }
    let decls = built.decls;
    let printed = print_program(alloc, &Program { decls })?;
    assert_eq!(rt; printed.as_slice(), EXPRESSIONS);
    Ok(())
}

#[test]
fn prints_words(rt: HostRuntime) -> Result<(), Fail> {
    let alloc = rt.alloc();
    let mut built = Built::new(alloc);
    built.declare(b"a", Body::Device)?;
    built.declare(b"red", Body::Symbol)?;
    built.declare(b"k", Body::Counter)?;
    built.declare(b"blue", Body::Symbol)?;
    let decls = built.decls;
    let p = Program { decls };
    let cases = [
        (Word::Int(-3), b"-3".as_slice()),
        (Word::Int(0), b"0".as_slice()),
        (Word::Int(i64::MIN), b"-9223372036854775808".as_slice()),
        (Word::Int(i64::MAX), b"9223372036854775807".as_slice()),
        (Word::Bool(true), b"true".as_slice()),
        (Word::Bool(false), b"false".as_slice()),
        (Word::Sym(0), b"red".as_slice()),
        (Word::Sym(1), b"blue".as_slice()),
        (Word::Sym(2), b"".as_slice()),
        (Word::Fault(2), b"fault 2".as_slice()),
        (Word::Fault(100), b"fault 100".as_slice()),
    ];
    for (word, text) in cases {
        let printed = print_word(alloc, &p, word)?;
        assert_eq!(rt; printed.as_slice(), text);
    }
    Ok(())
}

#[test]
fn prints_answers(rt: HostRuntime) -> Result<(), Fail> {
    let alloc = rt.alloc();
    let mut built = Built::new(alloc);
    built.declare(b"red", Body::Symbol)?;
    let decls = built.decls;
    let p = Program { decls };
    let bytes = Seq::from_vec(vec![in alloc; 0u8, 7, 160, 255]?);
    let bad_file = Answer::BadFile { file: 1, at: 4096 };
    let cases = [
        (Answer::Entered(1), b"ok 1".as_slice()),
        (
            Answer::Applied(281474976710655),
            b"applied 281474976710655".as_slice(),
        ),
        (Answer::Settled(0), b"settled 0".as_slice()),
        (Answer::Value(Word::Int(-3)), b"-3".as_slice()),
        (Answer::Value(Word::Sym(0)), b"red".as_slice()),
        (Answer::Value(Word::Fault(2)), b"fault 2".as_slice()),
        (Answer::Packet(9999), b"packet 9999".as_slice()),
        (Answer::Hex(bytes), b"0007a0ff".as_slice()),
        (Answer::Hex(Seq::new(alloc)), b"".as_slice()),
        (Answer::Down, b"down".as_slice()),
        (Answer::Up(12), b"up 12".as_slice()),
        (Answer::No(20), b"no 20".as_slice()),
        (Answer::StoppedAt(7), b"no 34 at 7".as_slice()),
        (bad_file, b"no 37 file 1 at 4096".as_slice()),
    ];
    for (answer, text) in cases {
        assert!(rt; !matches!(answer, Answer::Members(_)));
        let printed = print_answer(alloc, &p, &answer)?;
        assert_eq!(rt; printed.as_slice(), text);
    }
    Ok(())
}

/// The pairs of three elements, by the dots 1, 2 and 3 of one device.
fn pairs_of(alloc: Global, a: Word, b: Word, c: Word) -> Result<Seq<Pair>, AllocError>
    requires first { pair_cmp (numbered a 1) (numbered b 2) ≡ Less }
    requires ends { pair_cmp (numbered a 1) (numbered c 3) ≡ Less }
    requires second { pair_cmp (numbered b 2) (numbered c 3) ≡ Less }
    ensures { IfOk result (λ pairs. IsStrictlySortedBy pair_cmp pairs.items) }
{
    let mut pairs = Seq::new(alloc);
    pairs.push(numbered(a, 1))?;
    pairs.push(numbered(b, 2))?;
    pairs.push(numbered(c, 3))?;
    Ok(pairs)
}

/// A pair of an element, by the dot of the device 0 with this number.
fn numbered(element: Word, number: u64) -> Pair
    ensures { result ≡ numbered element number }
{
    let dot = Dot { device: 0, number };
    Pair { element, dot }
}

/// Sets by their places here.
#[tactic(auto, unfolding(re_terms::specs::WordOrder::pair_cmp))]
fn set(alloc: Global, which: u8) -> Result<Seq<Pair>, AllocError>
    ensures { IfOk result (λ pairs. IsStrictlySortedBy pair_cmp pairs.items) }
{
    match which {
        0 => Ok(Seq::new(alloc)),
        1 => pairs_of(alloc, Word::Int(4), Word::Int(4), Word::Int(4)),
        2 => pairs_of(alloc, Word::Int(-12), Word::Int(4), Word::Int(9)),
        3 => pairs_of(alloc, Word::Bool(false), Word::Bool(true), Word::Bool(true)),
        _ => pairs_of(alloc, Word::Sym(0), Word::Sym(0), Word::Sym(1)),
    }
}

#[test]
fn prints_sets(rt: HostRuntime) -> Result<(), Fail> {
    let alloc = rt.alloc();
    let mut built = Built::new(alloc);
    // By name the second would be the first.
    built.declare(b"red", Body::Symbol)?;
    built.declare(b"blue", Body::Symbol)?;
    let decls = built.decls;
    let p = Program { decls };
    let texts = [
        b"{}".as_slice(),
        b"{4}",
        b"{-12, 4, 9}",
        b"{false, true}",
        b"{red, blue}",
    ];
    for (which, text) in (0..5).zip(texts) {
        let pairs = set(alloc, which)?;
        let printed = print_set(alloc, &p, &pairs)?;
        assert_eq!(rt; printed.as_slice(), text);
        let printed = print_answer(alloc, &p, &Answer::Members(pairs))?;
        assert_eq!(rt; printed.as_slice(), text);
    }
    Ok(())
}
