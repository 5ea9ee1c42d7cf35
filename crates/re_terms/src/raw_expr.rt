//! Expressions as they are read, before their names are looked up.
ghost use Rattle.std.specs.Prelude.{◌≡◌, IfOk};

use crate::{Op, Text, TryCopy};
use sqlite_items::Boxed;
use std::alloc::{AllocError, Global};

/// A literal. A name is that of a symbol, or of a cell where an expression may name one.
#[derive(Drop)]
pub enum RawLit {
    Int(i64),
    Bool(bool),
    Name(Text),
}

/// An expression with names as texts.
#[derive(Drop)]
pub enum RawExpr {
    Lit(RawLit),
    Arg,
    Own,
    /// `fault(n)`, with n from 100 to 999.
    Fault(u32),
    Not(Boxed<RawExpr>),
    Bin {
        op: Op,
        left: Boxed<RawExpr>,
        right: Boxed<RawExpr>,
    },
    If {
        cond: Boxed<RawExpr>,
        yes: Boxed<RawExpr>,
        no: Boxed<RawExpr>,
    },
    Recover {
        tried: Boxed<RawExpr>,
        other: Boxed<RawExpr>,
    },
    Size(Text),
    Has {
        set: Text,
        element: Boxed<RawExpr>,
    },
}

impl TryCopy for RawLit {
    fn copy(&self, alloc: Global) -> Result<RawLit, AllocError> {
        match self {
            RawLit::Int(number) => Ok(RawLit::Int(*number)),
            RawLit::Bool(truth) => Ok(RawLit::Bool(*truth)),
            RawLit::Name(name) => Ok(RawLit::Name(name.copy(alloc)?)),
        }
    }
}

impl TryCopy for RawExpr {
    #[cycle(copy_raw)]
    fn copy(&self, alloc: Global) -> Result<RawExpr, AllocError> {
        match self {
            RawExpr::Lit(literal) => Ok(RawExpr::Lit(literal.copy(alloc)?)),
            RawExpr::Arg => Ok(RawExpr::Arg),
            RawExpr::Own => Ok(RawExpr::Own),
            RawExpr::Fault(code) => Ok(RawExpr::Fault(*code)),
            RawExpr::Not(operand) => Ok(RawExpr::Not(boxed_copy(alloc, operand)?)),
            RawExpr::Bin { op, left, right } => Ok(RawExpr::Bin {
                op: *op,
                left: boxed_copy(alloc, left)?,
                right: boxed_copy(alloc, right)?,
            }),
            RawExpr::If { cond, yes, no } => Ok(RawExpr::If {
                cond: boxed_copy(alloc, cond)?,
                yes: boxed_copy(alloc, yes)?,
                no: boxed_copy(alloc, no)?,
            }),
            RawExpr::Recover { tried, other } => Ok(RawExpr::Recover {
                tried: boxed_copy(alloc, tried)?,
                other: boxed_copy(alloc, other)?,
            }),
            RawExpr::Size(set) => Ok(RawExpr::Size(set.copy(alloc)?)),
            RawExpr::Has { set, element } => Ok(RawExpr::Has {
                set: set.copy(alloc)?,
                element: boxed_copy(alloc, element)?,
            }),
        }
    }
}

#[cycle(copy_raw)]
fn boxed_copy(alloc: Global, expr: &Boxed<RawExpr>) -> Result<Boxed<RawExpr>, AllocError>
    ensures { IfOk result (λ copied. copied ≡ expr.now) }
{
    let copied = expr.get().copy(alloc)?;
    Boxed::new(alloc, copied)
}
