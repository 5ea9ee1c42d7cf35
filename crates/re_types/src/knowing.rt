//! Whether the names that stand in a declaration are declared before it.
ghost use Rattle.std.specs.Prelude.{◌≡◌};
ghost use Rattle.re_types.specs.Resolving.{knows_literal, knows_expr, knows_body};

use crate::scope::Scope;
use re_terms::{RawBody, RawExpr, RawLit};

impl Scope<'_> {
    fn knows_literal(&self, literal: &RawLit) -> bool
        ensures { result ≡ knows_literal self.now.names literal.now }
    {
        match literal {
            RawLit::Name(name) => self.knows(name),
            RawLit::Int(_) | RawLit::Bool(_) => true,
        }
    }

    /// Whether each name in the expression is declared.
    pub fn knows_expr(&self, expr: &RawExpr) -> bool
        ensures { result ≡ knows_expr self.now.names expr.now }
    {
        match expr {
            RawExpr::Lit(literal) => self.knows_literal(literal),
            RawExpr::Arg | RawExpr::Own | RawExpr::Fault(_) => true,
            RawExpr::Not(operand) => self.knows_expr(operand.get()),
            RawExpr::Bin { left, right, .. } => {
                self.knows_expr(left.get()) && self.knows_expr(right.get())
            }
            RawExpr::If { cond, yes, no } => {
                self.knows_expr(cond.get())
                    && self.knows_expr(yes.get())
                    && self.knows_expr(no.get())
            }
            RawExpr::Recover { tried, other } => {
                self.knows_expr(tried.get()) && self.knows_expr(other.get())
            }
            RawExpr::Size(set) => self.knows(set),
            RawExpr::Has { set, element } => self.knows(set) && self.knows_expr(element.get()),
        }
    }

    /// Whether each name in the body is declared.
    pub fn knows_body(&self, body: &RawBody) -> bool
        ensures { result ≡ knows_body self.now.names body.now }
    {
        match body {
            RawBody::Var { start, .. } | RawBody::Register { start, .. } => {
                self.knows_literal(start)
            }
            RawBody::Signal { expr } => self.knows_expr(expr),
            RawBody::Changed { of } => self.knows(of),
            RawBody::Map { source, expr } | RawBody::Filter { source, expr } => {
                self.knows(source) && self.knows_expr(expr)
            }
            RawBody::Either { left, right } => self.knows(left) && self.knows(right),
            RawBody::Fold {
                start,
                source,
                expr,
                ..
            } => self.knows_literal(start) && self.knows(source) && self.knows_expr(expr),
            RawBody::Device
            | RawBody::Symbol
            | RawBody::Event { .. }
            | RawBody::Counter
            | RawBody::Set { .. } => true,
        }
    }
}
