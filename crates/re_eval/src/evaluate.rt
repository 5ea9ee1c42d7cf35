//! Evaluates expressions.
ghost use Rattle.std.specs.Prelude.{◌≡◌, ◌+◌, is_some, true};
ghost use Rattle.re_terms.specs.Arithmetic.{operator_word, if_word};
ghost use Rattle.re_terms.specs.Meaning.{meaning};
ghost use Rattle.re_eval.specs.Told.{environment};
ghost use Rattle.re_eval.specs.Given.{is_given};

use crate::env::Env;
use crate::operators::{negated, strict};
use crate::steps::Steps;
use re_terms::{Expr, Op, Word};
use std::sync::ledger::Ledger;

/// The word of an operator and its operands. `and` and `or` leave the second out where the first settles them or is a
/// fault.
#[cycle(word)]
fn operator_word_of<E: Env>(
    op: Op,
    left: &Expr,
    right: &Expr,
    env: &E,
    arg: Option<Word>,
    own: Option<Word>,
) -> Word
    requires left { is_given (is_some arg) (is_some own) left.now ≡ true }
    requires right { is_given (is_some arg) (is_some own) right.now ≡ true }
    ensures { let env = environment (E.told env.now) arg own in
        result ≡ operator_word op (meaning left.now env) (meaning right.now env) }
{
    let first = word_of(left, env, arg, own);
    match (op, first) {
        (Op::And | Op::Or, Word::Fault(_)) => first,
        (Op::And, Word::Bool(false)) | (Op::Or, Word::Bool(true)) => first,
        (Op::And | Op::Or, _) => word_of(right, env, arg, own),
        _ => strict(op, first, word_of(right, env, arg, own)),
    }
}

/// The word of the branch that the condition picks, or the condition's fault. The other branch is left out.
#[cycle(word)]
fn branch_word_of<E: Env>(
    cond: &Expr,
    yes: &Expr,
    no: &Expr,
    env: &E,
    arg: Option<Word>,
    own: Option<Word>,
) -> Word
    requires cond { is_given (is_some arg) (is_some own) cond.now ≡ true }
    requires yes { is_given (is_some arg) (is_some own) yes.now ≡ true }
    requires no { is_given (is_some arg) (is_some own) no.now ≡ true }
    ensures { let env = environment (E.told env.now) arg own in
        result ≡ if_word (meaning cond.now env) (meaning yes.now env) (meaning no.now env) }
{
    let condition = word_of(cond, env, arg, own);
    match condition {
        Word::Fault(_) => condition,
        Word::Bool(false) => word_of(no, env, arg, own),
        _ => word_of(yes, env, arg, own),
    }
}

/// The word of an expression, by recursion on its operands. It counts nothing.
#[cycle(word)]
fn word_of<E: Env>(e: &Expr, env: &E, arg: Option<Word>, own: Option<Word>) -> Word
    requires { is_given (is_some arg) (is_some own) e.now ≡ true }
    ensures { result ≡ meaning e.now (environment (E.told env.now) arg own) }
{
    match e {
        Expr::Lit(word) => *word,
        Expr::Name(id) => env.word(*id),
        Expr::Arg => arg.unwrap(),
        Expr::Own => own.unwrap(),
        Expr::Not(operand) => negated(word_of(operand.get(), env, arg, own)),
        Expr::Bin { op, left, right } => {
            operator_word_of(*op, left.get(), right.get(), env, arg, own)
        }
        Expr::If { cond, yes, no } => branch_word_of(
            cond.get(),
            yes.get(),
            no.get(),
            env,
            arg,
            own,
        ),
        Expr::Recover { tried, other } => match word_of(tried.get(), env, arg, own) {
            Word::Fault(_) => word_of(other.get(), env, arg, own),
            word => word,
        },
        Expr::Size(set) => Word::Int(i64::from(env.size(*set))),
        Expr::Has { set, element } => match word_of(element.get(), env, arg, own) {
            Word::Fault(code) => Word::Fault(code),
            word => Word::Bool(env.has(*set, word)),
        },
    }
}

/// The word of an expression over an environment, with the value of the occurrence and the fold's word before the entry.
///
/// It takes no memory and never refuses. `and` and `or` don't evaluate their second operand where the first settles them
/// or is a fault, `if` evaluates one branch at most, and `recover` evaluates its second operand only behind a fault. The
/// steps count one for the whole expression.
pub fn eval<E: Env, L: Ledger>(
    e: &Expr,
    env: &E,
    arg: Option<Word>,
    own: Option<Word>,
    steps: &mut Steps<L>,
) -> Word
    requires { is_given (is_some arg) (is_some own) e.now ≡ true }
    ensures word { result ≡ meaning e.now (environment (E.told env.now) arg own) }
    ensures steps { steps.new ≡ steps.old + 1 }
{
    steps.tick();
    word_of(e, env, arg, own)
}
