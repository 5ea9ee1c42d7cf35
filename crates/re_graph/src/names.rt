//! The names in bodies and expressions.
ghost use Rattle.std.specs.Prelude.{◌≡◌, ◌++◌, IfOk, OnOk};
ghost use Rattle.re_terms.specs.Dependencies.{expr_names, inputs as named_inputs};

use re_terms::{Body, Expr, Seq};
use std::alloc::{AllocError, Global};

/// Puts the cells and sets that stand in an expression behind those that were found before.
fn push_names(names: &mut Seq<u16>, e: &Expr) -> Result<(), AllocError>
    ensures { OnOk result (names.new.items ≡ names.old.items ++ expr_names e.now) }
{
    match e {
        Expr::Lit(_) | Expr::Arg | Expr::Own => Ok(()),
        Expr::Name(id) => names.push(*id),
        Expr::Not(operand) => push_names(names, operand.get()),
        Expr::Bin { left, right, .. } => {
            push_names(names, left.get())?;
            push_names(names, right.get())
        }
        Expr::If { cond, yes, no } => {
            push_names(names, cond.get())?;
            push_names(names, yes.get())?;
            push_names(names, no.get())
        }
        Expr::Recover { tried, other } => {
            push_names(names, tried.get())?;
            push_names(names, other.get())
        }
        Expr::Size(set) => names.push(*set),
        Expr::Has { set, element } => {
            names.push(*set)?;
            push_names(names, element.get())
        }
    }
}

/// The declarations that a body names. The one refusal is want of memory.
pub fn inputs(alloc: Global, body: &Body) -> Result<Seq<u16>, AllocError>
    ensures { IfOk result (λ found. found.items ≡ named_inputs body.now) }
{
    let mut found = Seq::new(alloc);
    match body {
        Body::Signal { expr, .. } => push_names(&mut found, expr)?,
        Body::Changed { of } => found.push(*of)?,
        Body::Map { source, expr, .. } | Body::Filter { source, expr } => {
            found.push(*source)?;
            push_names(&mut found, expr)?;
        }
        Body::Either { left, right } => {
            found.push(*left)?;
            found.push(*right)?;
        }
        Body::Fold { source, expr, .. } => {
            found.push(*source)?;
            push_names(&mut found, expr)?;
        }
        _ => {}
    }
    Ok(found)
}
