//! Expressions over one cell.
ghost use Rattle.std.specs.Prelude.{◌≡◌, ◌<◌};

use crate::{Env, Steps, eval};
use re_terms::{Expr, Op, Word};
use sqlite_items::Boxed;
use std::alloc::{AllocError, Global};
use std::cell::Cell;
use std::marker::Brand;
use std::sync::ledger::{Blank, Ledger};
use std::test::Fail;

/// Every id has this word, and as a set one element, which any word is or none. It counts the questions that it answers.
#[derive(Drop)]
struct OneWord {
    word: Word,
    is_element: bool,
    asked: Cell<u32>,
}

impl OneWord {
    fn new(word: Word) -> OneWord {
        OneWord {
            word,
            is_element: true,
            asked: Cell::new(0),
        }
    }

    fn count(&self) {
        self.asked.set(self.asked.get().wrapping_add(1));
    }
}

impl Env for OneWord {
    ghost told = { λ e. record { word = λ id. e.word; size = λ id. 1; has = λ id word. e.is_element } };

    fn word(&self, _id: u16) -> Word {
        self.count();
        self.word
    }

    fn size(&self, _id: u16) -> u32 {
        self.count();
        1
    }

    fn has(&self, _id: u16, _word: Word) -> bool {
        self.count();
        self.is_element
    }
}

fn counted<L: Ledger>(blank: Blank, e: &Expr, env: &OneWord) -> Word
    requires name { blank.name ≡ L.name }
    requires parts { blank.parts ≡ L.parts }
    requires one { 0 < L.parts }
{
    let mut steps = Steps::<L>::new(blank);
    eval(e, env, Some(Word::Int(3)), Some(Word::Int(4)), &mut steps)
}

/// The word of an expression, where `arg` is 3 and `self` is 4.
fn word_over(e: &Expr, env: &OneWord) -> Word {
    counted::<Brand>(Blank::new(1), e, env)
}

fn binary(alloc: Global, op: Op, left: Expr, right: Expr) -> Result<Expr, AllocError> {
    Ok(Expr::Bin {
        op,
        left: Boxed::new(alloc, left)?,
        right: Boxed::new(alloc, right)?,
    })
}

fn choice(alloc: Global, cond: Expr, yes: Expr, no: Expr) -> Result<Expr, AllocError> {
    Ok(Expr::If {
        cond: Boxed::new(alloc, cond)?,
        yes: Boxed::new(alloc, yes)?,
        no: Boxed::new(alloc, no)?,
    })
}

fn recover(alloc: Global, tried: Expr, other: Expr) -> Result<Expr, AllocError> {
    Ok(Expr::Recover {
        tried: Boxed::new(alloc, tried)?,
        other: Boxed::new(alloc, other)?,
    })
}

fn has(alloc: Global, element: Expr) -> Result<Expr, AllocError> {
    Ok(Expr::Has {
        set: 0,
        element: Boxed::new(alloc, element)?,
    })
}

const X: Expr = Expr::Name(0);

const LEAST: i64 = i64::MIN;

const GREATEST: i64 = i64::MAX;

/// Operators with two numbers, and what comes out.
const OF_NUMBERS: [(Op, i64, i64, Word); 29] = [
    (Op::Add, GREATEST, 1, Word::Fault(1)),
    (Op::Add, LEAST, -1, Word::Fault(1)),
    (Op::Add, GREATEST, LEAST, Word::Int(-1)),
    (Op::Sub, LEAST, 1, Word::Fault(1)),
    (Op::Sub, 0, LEAST, Word::Fault(1)),
    (Op::Sub, -1, LEAST, Word::Int(GREATEST)),
    (Op::Mul, LEAST, -1, Word::Fault(1)),
    (Op::Mul, LEAST, 1, Word::Int(LEAST)),
    (Op::Mul, 3_037_000_500, 3_037_000_500, Word::Fault(1)),
    (Op::Mul, -4_294_967_296, 2_147_483_648, Word::Int(LEAST)),
    (Op::Div, -7, 2, Word::Int(-3)),
    (Op::Div, 7, -2, Word::Int(-3)),
    (Op::Div, LEAST, -1, Word::Fault(1)),
    (Op::Div, LEAST, 0, Word::Fault(2)),
    (Op::Rem, -7, 2, Word::Int(-1)),
    (Op::Rem, 7, -2, Word::Int(1)),
    (Op::Rem, LEAST, -1, Word::Int(0)),
    (Op::Rem, LEAST, GREATEST, Word::Int(-1)),
    (Op::Rem, 0, 0, Word::Fault(2)),
    (Op::Lt, LEAST, GREATEST, Word::Bool(true)),
    (Op::Lt, 5, 5, Word::Bool(false)),
    (Op::Le, 5, 5, Word::Bool(true)),
    (Op::Le, GREATEST, LEAST, Word::Bool(false)),
    (Op::Gt, LEAST, GREATEST, Word::Bool(false)),
    (Op::Gt, 0, -1, Word::Bool(true)),
    (Op::Ge, 5, 5, Word::Bool(true)),
    (Op::Ge, LEAST, GREATEST, Word::Bool(false)),
    (Op::Eq, LEAST, LEAST, Word::Bool(true)),
    (Op::Ne, LEAST, LEAST, Word::Bool(false)),
];

#[test]
fn numbers_at_their_edges(rt: HostRuntime) -> Result<(), Fail> {
    let env = OneWord::new(Word::Int(0));
    for (op, a, b, word) in OF_NUMBERS {
        let left = Expr::Lit(Word::Int(a));
        let right = Expr::Lit(Word::Int(b));
        let e = binary(rt.alloc(), op, left, right)?;
        assert_eq!(rt; word_over(&e, &env), word, "{op:?} of {a} and {b}");
    }
    Ok(())
}

#[test]
fn faults_and_truth_values(rt: HostRuntime) -> Result<(), Fail> {
    let (yes, no) = (Word::Bool(true), Word::Bool(false));
    let (first, second) = (Word::Fault(100), Word::Fault(2));
    // The operator, its operands, its word, and whether the second operand, a cell, was asked for.
    let cases = [
        (Op::Add, first, second, first, 1),
        (Op::Lt, Word::Int(1), second, second, 1),
        (Op::Eq, first, first, first, 1),
        (Op::Eq, Word::Sym(1), Word::Sym(1), yes, 1),
        (Op::Ne, Word::Sym(1), Word::Sym(2), yes, 1),
        (Op::Eq, yes, no, no, 1),
        (Op::Ne, no, no, no, 1),
        (Op::And, no, second, no, 0),
        (Op::And, first, no, first, 0),
        (Op::And, yes, second, second, 1),
        (Op::And, yes, no, no, 1),
        (Op::Or, yes, second, yes, 0),
        (Op::Or, first, yes, first, 0),
        (Op::Or, no, second, second, 1),
        (Op::Or, no, yes, yes, 1),
    ];
    for (op, a, b, word, asked) in cases {
        let env = OneWord::new(b);
        let e = binary(rt.alloc(), op, Expr::Lit(a), X)?;
        assert_eq!(rt; word_over(&e, &env), word, "{op:?} of {a:?} and {b:?}");
        assert_eq!(rt; env.asked.get(), asked, "{op:?} of {a:?} and {b:?}");
    }
    Ok(())
}

#[test]
fn other_forms(rt: HostRuntime) -> Result<(), Fail> {
    let alloc = rt.alloc();
    let (yes, no) = (Word::Bool(true), Word::Bool(false));
    let ten = Expr::Lit(Word::Int(10));
    let seven = Expr::Lit(Word::Int(7));
    let over_x = recover(alloc, binary(alloc, Op::Div, ten, X)?, seven)?;
    let quotient = binary(alloc, Op::Div, X, Expr::Lit(Word::Int(-1)))?;
    let remainder = binary(alloc, Op::Rem, X, Expr::Lit(Word::Int(-1)))?;
    let sum = binary(alloc, Op::Add, Expr::Own, Expr::Arg)?;
    // The expression, the cell's word, the word, and how often the cell was asked for.
    let cases = [
        (&over_x, Word::Int(2), Word::Int(5), 1),
        (&over_x, Word::Int(0), Word::Int(7), 1),
        (&quotient, Word::Int(LEAST), Word::Fault(1), 1),
        (&remainder, Word::Int(LEAST), Word::Int(0), 1),
        (&sum, no, Word::Int(7), 0),
        (&choice(alloc, X, Expr::Arg, X)?, yes, Word::Int(3), 1),
        (&choice(alloc, X, X, Expr::Own)?, no, Word::Int(4), 1),
        (&choice(alloc, X, X, X)?, Word::Fault(2), Word::Fault(2), 1),
        (&recover(alloc, Expr::Arg, X)?, yes, Word::Int(3), 0),
        (&Expr::Not(Boxed::new(alloc, X)?), yes, no, 1),
        (
            &Expr::Not(Boxed::new(alloc, X)?),
            Word::Fault(1),
            Word::Fault(1),
            1,
        ),
        (&Expr::Size(0), yes, Word::Int(1), 1),
        (&has(alloc, Expr::Arg)?, yes, yes, 1),
        (&has(alloc, X)?, Word::Fault(100), Word::Fault(100), 1),
    ];
    for (e, cell, word, asked) in cases {
        let env = OneWord::new(cell);
        assert_eq!(rt; word_over(e, &env), word, "over {cell:?}");
        assert_eq!(rt; env.asked.get(), asked, "over {cell:?}");
    }
    Ok(())
}
