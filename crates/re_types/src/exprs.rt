//! Expressions over names become expressions over ids.
ghost use Rattle.std.specs.Prelude.{◌≡◌, true, slice_get, count_by, IfOk, IfSome, Some};
ghost use Rattle.re_terms.specs.Kinds.{is_symbol_sort};
ghost use Rattle.re_terms.specs.Trees.{is_literal, is_expr, is_whole_expr, raw_depth};
ghost use Rattle.re_terms.specs.Programs.{is_literal_word, has_literals, expr_depth, is_ranged_expr};
ghost use Rattle.re_types.specs.Resolving.{knows_literal, knows_expr, start_word, name_expr, literal_expr, resolved_expr};
ghost use Rattle.re_types.specs.Scopes.{IsScope};

use crate::scope::Scope;
use re_terms::{Expr, RawExpr, RawLit, Word};
use sqlite_items::Boxed;
use std::alloc::{AllocError, Global};

impl Scope<'_> {
    /// The word of a start literal. None where it is a name and no symbol's.
    pub fn start_word(&self, literal: &RawLit) -> Option<Word>
        requires scope { IsScope self.now }
        requires known { knows_literal self.now.names literal.now ≡ true }
        requires literal { is_literal literal.now ≡ true }
        ensures word { result ≡ start_word self.now literal.now }
        ensures ranged { IfSome result (λ w. is_literal_word (count_by is_symbol_sort self.now.sorts) w ≡ true) }
    {
        match literal {
            RawLit::Int(number) => Some(Word::Int(*number)),
            RawLit::Bool(truth) => Some(Word::Bool(*truth)),
            RawLit::Name(name) => self.symbol(self.id(name)).map(Word::Sym),
        }
    }

    /// The name of a declaration as an expression: a symbol is a literal.
    fn name_expr(&self, id: u16) -> Expr
        requires { IsScope self.now }
        ensures expr { result ≡ name_expr (slice_get self.now.sorts id) id }
        ensures ranged { has_literals (count_by is_symbol_sort self.now.sorts) result ≡ true }
        ensures depth { expr_depth result ≡ 1 }
    {
        match self.symbol(id) {
            Some(number) => Expr::Lit(Word::Sym(number)),
            None => Expr::Name(id),
        }
    }

    fn literal_expr(&self, literal: &RawLit) -> Expr
        requires scope { IsScope self.now }
        requires known { knows_literal self.now.names literal.now ≡ true }
        requires literal { is_literal literal.now ≡ true }
        ensures expr { literal_expr self.now literal.now ≡ Some result }
        ensures ranged { has_literals (count_by is_symbol_sort self.now.sorts) result ≡ true }
        ensures depth { expr_depth result ≡ 1 }
    {
        match literal {
            RawLit::Int(number) => Expr::Lit(Word::Int(*number)),
            RawLit::Bool(truth) => Expr::Lit(Word::Bool(*truth)),
            RawLit::Name(name) => self.name_expr(self.id(name)),
        }
    }

    /// The expression over ids that this one means. The one refusal is want of memory.
    #[cycle(expr)]
    fn expr(&self, alloc: Global, raw: &RawExpr) -> Result<Expr, AllocError>
        requires scope { IsScope self.now }
        requires known { knows_expr self.now.names raw.now ≡ true }
        requires raw { is_expr raw.now ≡ true }
        ensures expr { IfOk result (λ e. resolved_expr self.now raw.now ≡ Some e) }
        ensures ranged { IfOk result (λ e. has_literals (count_by is_symbol_sort self.now.sorts) e ≡ true) }
        ensures depth { IfOk result (λ e. expr_depth e ≡ raw_depth raw.now) }
    {
        match raw {
            RawExpr::Lit(literal) => Ok(self.literal_expr(literal)),
            RawExpr::Arg => Ok(Expr::Arg),
            RawExpr::Own => Ok(Expr::Own),
            RawExpr::Fault(code) => Ok(Expr::Lit(Word::Fault(*code))),
            RawExpr::Not(operand) => Ok(Expr::Not(self.boxed(alloc, operand)?)),
            RawExpr::Bin { op, left, right } => Ok(Expr::Bin {
                op: *op,
                left: self.boxed(alloc, left)?,
                right: self.boxed(alloc, right)?,
            }),
            RawExpr::If { cond, yes, no } => Ok(Expr::If {
                cond: self.boxed(alloc, cond)?,
                yes: self.boxed(alloc, yes)?,
                no: self.boxed(alloc, no)?,
            }),
            RawExpr::Recover { tried, other } => Ok(Expr::Recover {
                tried: self.boxed(alloc, tried)?,
                other: self.boxed(alloc, other)?,
            }),
            RawExpr::Size(set) => Ok(Expr::Size(self.id(set))),
            RawExpr::Has { set, element } => Ok(Expr::Has {
                set: self.id(set),
                element: self.boxed(alloc, element)?,
            }),
        }
    }

    /// The same for the whole expression of a declaration.
    pub fn whole_expr(&self, alloc: Global, raw: &RawExpr) -> Result<Expr, AllocError>
        requires scope { IsScope self.now }
        requires known { knows_expr self.now.names raw.now ≡ true }
        requires raw { is_whole_expr raw.now ≡ true }
        ensures expr { IfOk result (λ e. resolved_expr self.now raw.now ≡ Some e) }
        ensures ranged { IfOk result (λ e. is_ranged_expr (count_by is_symbol_sort self.now.sorts) e ≡ true) }
    {
        self.expr(alloc, raw)
    }

    #[cycle(expr)]
    fn boxed(&self, alloc: Global, raw: &Boxed<RawExpr>) -> Result<Boxed<Expr>, AllocError>
        requires scope { IsScope self.now }
        requires known { knows_expr self.now.names raw.now ≡ true }
        requires raw { is_expr raw.now ≡ true }
        ensures expr { IfOk result (λ e. resolved_expr self.now raw.now ≡ Some e) }
        ensures ranged { IfOk result (λ e. has_literals (count_by is_symbol_sort self.now.sorts) e ≡ true) }
        ensures depth { IfOk result (λ e. expr_depth e ≡ raw_depth raw.now) }
    {
        let expr = self.expr(alloc, raw.get())?;
        Boxed::new(alloc, expr)
    }
}
