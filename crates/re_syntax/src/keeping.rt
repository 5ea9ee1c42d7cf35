//! Larger expressions out of those that were read.
ghost use Rattle.std.specs.Prelude.{◌≡◌, IfOk};
ghost use Rattle.re_terms.specs.Trees.{raw_depth};
ghost use Rattle.re_terms.specs.declared.raw_expr.RawExpr.{RawExpr};
ghost use Rattle.re_terms.specs.declared.raw_expr.RawExpr.TheVariants as expr;
ghost use Rattle.re_syntax.specs.Steps.{Stands, AreBranches};

use crate::kept::{Branches, Kept};
use re_terms::{Op, RawExpr, Text};
use sqlite_items::Boxed;
use std::alloc::{AllocError, Global};

/// The greatest depth of a declaration's expression.
const DEEPEST: u8 = 64;

/// An expression without operands.
pub fn leaf(expr: RawExpr) -> Kept
    requires { raw_depth expr ≡ 1 }
    ensures { Stands result expr }
{
    Kept::Whole(expr, 1)
}

/// `not` of an operand.
pub fn negation(alloc: Global, operand: Kept) -> Result<Kept, AllocError>
    ensures { IfOk result (λ k. (e : RawExpr) → Stands operand e → Stands k (expr.Not e)) }
{
    match operand {
        Kept::Whole(tree, depth) if depth < DEEPEST => Ok(Kept::Whole(
            RawExpr::Not(Boxed::new(alloc, tree)?),
            depth + 1,
        )),
        _ => Ok(Kept::TooDeep),
    }
}

/// Whether a set has an element.
pub fn membership(alloc: Global, set: Text, element: Kept) -> Result<Kept, AllocError>
    ensures { IfOk result (λ k. (e : RawExpr) → Stands element e → Stands k (expr.Has set e)) }
{
    match element {
        Kept::Whole(tree, depth) if depth < DEEPEST => Ok(Kept::Whole(
            RawExpr::Has {
                set,
                element: Boxed::new(alloc, tree)?,
            },
            depth + 1,
        )),
        _ => Ok(Kept::TooDeep),
    }
}

/// Two operands joined by an operator.
pub fn binary(alloc: Global, op: Op, left: Kept, right: Kept) -> Result<Kept, AllocError>
    ensures { IfOk result (λ k. (a b : RawExpr) → Stands left a → Stands right b → Stands k (expr.Bin op a b)) }
{
    let Kept::Whole(a, m) = left else {
        return Ok(Kept::TooDeep);
    };
    let Kept::Whole(b, n) = right else {
        return Ok(Kept::TooDeep);
    };
    let depth = m.max(n);
    if depth >= DEEPEST {
        return Ok(Kept::TooDeep);
    }
    let left = Boxed::new(alloc, a)?;
    let right = Boxed::new(alloc, b)?;
    Ok(Kept::Whole(RawExpr::Bin { op, left, right }, depth + 1))
}

/// An expression, and another for its fault.
pub fn recovery(alloc: Global, tried: Kept, other: Kept) -> Result<Kept, AllocError>
    ensures { IfOk result (λ k. (a b : RawExpr) → Stands tried a → Stands other b → Stands k (expr.Recover a b)) }
{
    let Kept::Whole(a, m) = tried else {
        return Ok(Kept::TooDeep);
    };
    let Kept::Whole(b, n) = other else {
        return Ok(Kept::TooDeep);
    };
    let depth = m.max(n);
    if depth >= DEEPEST {
        return Ok(Kept::TooDeep);
    }
    let tried = Boxed::new(alloc, a)?;
    let other = Boxed::new(alloc, b)?;
    Ok(Kept::Whole(RawExpr::Recover { tried, other }, depth + 1))
}

/// The two branches of a choice.
pub fn branches(alloc: Global, yes: Kept, no: Kept) -> Result<Branches, AllocError>
    ensures { IfOk result (λ w. (a b : RawExpr) → Stands yes a → Stands no b → AreBranches w a b) }
{
    let Kept::Whole(a, m) = yes else {
        return Ok(Branches::TooDeep);
    };
    let Kept::Whole(b, n) = no else {
        return Ok(Branches::TooDeep);
    };
    let yes = Boxed::new(alloc, a)?;
    let no = Boxed::new(alloc, b)?;
    Ok(Branches::Whole(yes, no, m.max(n)))
}

/// A choice of two expressions.
pub fn choice(alloc: Global, cond: Kept, branches: Branches) -> Result<Kept, AllocError>
    ensures { IfOk result (λ k. (c a b : RawExpr) → Stands cond c → AreBranches branches a b → Stands k (expr.If c a b)) }
{
    let Kept::Whole(c, m) = cond else {
        return Ok(Kept::TooDeep);
    };
    let Branches::Whole(yes, no, n) = branches else {
        return Ok(Kept::TooDeep);
    };
    let depth = m.max(n);
    if depth >= DEEPEST {
        return Ok(Kept::TooDeep);
    }
    let cond = Boxed::new(alloc, c)?;
    Ok(Kept::Whole(RawExpr::If { cond, yes, no }, depth + 1))
}
