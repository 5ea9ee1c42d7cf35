//! Expressions, written behind a text.
ghost use Rattle.std.specs.Prelude.{◌≡◌, ◌++◌, OnOk, codes};
ghost use Rattle.re_print.specs.Canonical.{name_text, op_text, expr_text};

use crate::names::Names;
use crate::texts::op_text;
use crate::words::write_literal;
use re_terms::{Expr, Op};
use std::alloc::AllocError;

/// Writes what stands before the name of a declaration, and the name.
pub fn write_name(
    text: &mut Vec<u8>,
    names: &Names<'_>,
    front: &[u8],
    id: u16,
) -> Result<(), AllocError>
    ensures { OnOk result (text.new.items ≡ text.old.items ++ front.now ++ name_text names.now id) }
{
    text.extend_from_slice(front)?;
    text.extend_from_slice(names.declared(id))
}

/// Writes an operator, and a blank before it.
fn write_operator(text: &mut Vec<u8>, op: Op) -> Result<(), AllocError>
    ensures { OnOk result (text.new.items ≡ text.old.items ++ codes " " ++ op_text op) }
{
    text.extend_from_slice(b" ")?;
    text.extend_from_slice(op_text(op))
}

/// Writes what stands before an expression, and the expression.
#[cycle(expr)]
pub fn write_behind(
    text: &mut Vec<u8>,
    names: &Names<'_>,
    front: &[u8],
    expr: &Expr,
) -> Result<(), AllocError>
    ensures { OnOk result (text.new.items ≡ text.old.items ++ front.now ++ expr_text names.now expr.now) }
{
    text.extend_from_slice(front)?;
    write_expr(text, names, expr)
}

/// Writes an expression.
#[cycle(expr)]
fn write_expr(text: &mut Vec<u8>, names: &Names<'_>, expr: &Expr) -> Result<(), AllocError>
    ensures { OnOk result (text.new.items ≡ text.old.items ++ expr_text names.now expr.now) }
{
    match expr {
        Expr::Lit(word) => write_literal(text, names, *word),
        Expr::Name(id) => text.extend_from_slice(names.declared(*id)),
        Expr::Arg => text.extend_from_slice(b"arg"),
        Expr::Own => text.extend_from_slice(b"self"),
        Expr::Not(operand) => {
            write_behind(text, names, b"not(", operand.get())?;
            text.extend_from_slice(b")")
        }
        Expr::Bin { op, left, right } => {
            write_behind(text, names, b"(", left.get())?;
            write_operator(text, *op)?;
            write_behind(text, names, b" ", right.get())?;
            text.extend_from_slice(b")")
        }
        Expr::If { cond, yes, no } => {
            write_behind(text, names, b"(if ", cond.get())?;
            write_behind(text, names, b" then ", yes.get())?;
            write_behind(text, names, b" else ", no.get())?;
            text.extend_from_slice(b")")
        }
        Expr::Recover { tried, other } => {
            write_behind(text, names, b"recover(", tried.get())?;
            write_behind(text, names, b", ", other.get())?;
            text.extend_from_slice(b")")
        }
        Expr::Size(set) => {
            write_name(text, names, b"size(", *set)?;
            text.extend_from_slice(b")")
        }
        Expr::Has { set, element } => {
            write_name(text, names, b"has(", *set)?;
            write_behind(text, names, b", ", element.get())?;
            text.extend_from_slice(b")")
        }
    }
}
