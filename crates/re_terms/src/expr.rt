//! Expressions.
ghost use Rattle.std.specs.Prelude.{◌≡◌, IfOk};

use crate::{TryCopy, Word};
use sqlite_items::Boxed;
use std::alloc::{AllocError, Global};

/// An operator of two operands.
#[derive(Clone, Copy, Debug, PartialEq, Eq)]
pub enum Op {
    Add,
    Sub,
    Mul,
    Div,
    Rem,
    Lt,
    Le,
    Gt,
    Ge,
    Eq,
    Ne,
    And,
    Or,
}

/// An expression over the declarations of a program. An id is a declaration's place in the program, from 0.
#[derive(Drop)]
pub enum Expr {
    /// A word as it stands. `fault(n)` and a symbol's name are such words.
    Lit(Word),
    /// The word of a var, signal, fold, counter or register.
    Name(u16),
    /// The value of the occurrence.
    Arg,
    /// The fold's word before the entry.
    Own,
    Not(Boxed<Expr>),
    Bin {
        op: Op,
        left: Boxed<Expr>,
        right: Boxed<Expr>,
    },
    If {
        cond: Boxed<Expr>,
        yes: Boxed<Expr>,
        no: Boxed<Expr>,
    },
    Recover {
        tried: Boxed<Expr>,
        other: Boxed<Expr>,
    },
    /// How many elements a set has.
    Size(u16),
    /// Whether a set has the element.
    Has {
        set: u16,
        element: Boxed<Expr>,
    },
}

impl TryCopy for Expr {
    #[cycle(copy)]
    fn copy(&self, alloc: Global) -> Result<Expr, AllocError> {
        match self {
            Expr::Lit(word) => Ok(Expr::Lit(*word)),
            Expr::Name(id) => Ok(Expr::Name(*id)),
            Expr::Arg => Ok(Expr::Arg),
            Expr::Own => Ok(Expr::Own),
            Expr::Not(operand) => Ok(Expr::Not(boxed_copy(alloc, operand)?)),
            Expr::Bin { op, left, right } => Ok(Expr::Bin {
                op: *op,
                left: boxed_copy(alloc, left)?,
                right: boxed_copy(alloc, right)?,
            }),
            Expr::If { cond, yes, no } => Ok(Expr::If {
                cond: boxed_copy(alloc, cond)?,
                yes: boxed_copy(alloc, yes)?,
                no: boxed_copy(alloc, no)?,
            }),
            Expr::Recover { tried, other } => Ok(Expr::Recover {
                tried: boxed_copy(alloc, tried)?,
                other: boxed_copy(alloc, other)?,
            }),
            Expr::Size(id) => Ok(Expr::Size(*id)),
            Expr::Has { set, element } => Ok(Expr::Has {
                set: *set,
                element: boxed_copy(alloc, element)?,
            }),
        }
    }
}

#[cycle(copy)]
fn boxed_copy(alloc: Global, expr: &Boxed<Expr>) -> Result<Boxed<Expr>, AllocError>
    ensures { IfOk result (λ copied. copied ≡ expr.now) }
{
    let copied = expr.get().copy(alloc)?;
    Boxed::new(alloc, copied)
}
