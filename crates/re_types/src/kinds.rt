//! The kind rules.
ghost use Rattle.std.specs.Prelude.{◌≡◌, ℕ, count_by, option_map, IfSome};
ghost use Rattle.re_terms.specs.Kinds.{Symbol, common_kind, word_kind, operand_kind, result_kind, taking, operator_kind, expr_kind, is_of_kind, agrees_with, is_start, only_if, is_symbol_sort, sort_of};
ghost use Rattle.re_terms.specs.Programs.{is_symbol_body};
ghost use Rattle.re_types.specs.Resolving.{one_kind};
ghost use Rattle.re_types.specs.Scopes.{plain_sort};

use crate::scope::Scope;
use crate::sort::Sort;
use re_terms::{Body, Expr, Kind, Op, Word};

/// One kind, or None for any kind, as `fault(n)` has.
type SomeKind = Option<Kind>;

/// The common kind of two operands that agree, which is the one that isn't any.
fn common_kind(a: SomeKind, b: SomeKind) -> Option<SomeKind>
    ensures { result ≡ common_kind a b }
{
    match (a, b) {
        (None, b) => Some(b),
        (a, None) => Some(a),
        (Some(a), Some(b)) if a == b => Some(Some(a)),
        _ => None,
    }
}

fn word_kind(word: Word) -> SomeKind
    ensures { result ≡ word_kind word }
{
    match word {
        Word::Int(_) => Some(Kind::Int),
        Word::Bool(_) => Some(Kind::Bool),
        Word::Sym(_) => Some(Kind::Sym),
        Word::Fault(_) => None,
    }
}

/// What an operator takes beside operands that agree.
fn operand_kind(op: Op) -> SomeKind
    ensures { result ≡ operand_kind op }
{
    match op {
        Op::Eq | Op::Ne => None,
        Op::And | Op::Or => Some(Kind::Bool),
        _ => Some(Kind::Int),
    }
}

fn result_kind(op: Op) -> Kind
    ensures { result ≡ result_kind op }
{
    match op {
        Op::Add | Op::Sub | Op::Mul | Op::Div | Op::Rem => Kind::Int,
        _ => Kind::Bool,
    }
}

/// The given kind, where the operand agrees with the wanted one.
fn taking(wanted: SomeKind, given: SomeKind, operand: SomeKind) -> Option<SomeKind>
    ensures { result ≡ taking wanted given operand }
{
    common_kind(operand, wanted)?;
    Some(given)
}

fn operator_kind(op: Op, left: SomeKind, right: SomeKind) -> Option<SomeKind>
    ensures { result ≡ operator_kind op left right }
{
    let common = common_kind(left, right)?;
    taking(operand_kind(op), Some(result_kind(op)), common)
}

/// Whether an expression is of this one kind.
fn is_of_kind(kind: Kind, expr: Option<SomeKind>) -> bool
    ensures { result ≡ is_of_kind kind expr }
{
    match expr {
        Some(Some(own)) => own == kind,
        _ => false,
    }
}

/// Whether an expression agrees with this kind.
fn agrees_with(kind: Kind, expr: Option<SomeKind>) -> bool
    ensures { result ≡ agrees_with kind expr }
{
    match expr {
        Some(Some(own)) => own == kind,
        Some(None) => true,
        None => false,
    }
}

/// Whether a start literal is of the declared kind.
fn is_start(kind: Kind, word: Word) -> bool
    ensures { result ≡ is_start kind word }
{
    is_of_kind(kind, Some(word_kind(word)))
}

/// The sort, where a test holds.
fn only_if(holds: bool, sort: Sort) -> Option<Sort>
    ensures { result ≡ only_if holds sort }
{
    if holds { Some(sort) } else { None }
}

impl Scope<'_> {
    /// The kind of an expression where `arg` and `self` have these kinds, or may not stand.
    ///
    /// None where it breaks a kind rule.
    fn expr_kind(&self, arg: SomeKind, own: SomeKind, expr: &Expr) -> Option<SomeKind>
        ensures { result ≡ expr_kind self.now.sorts (record { arg = arg; own = own }) expr.now }
    {
        match expr {
            Expr::Lit(word) => Some(word_kind(*word)),
            Expr::Name(id) => self.value_kind(*id).map(Some),
            Expr::Arg => arg.map(Some),
            Expr::Own => own.map(Some),
            Expr::Not(operand) => {
                let a = self.expr_kind(arg, own, operand.get())?;
                taking(Some(Kind::Bool), Some(Kind::Bool), a)
            }
            Expr::Bin { op, left, right } => {
                let a = self.expr_kind(arg, own, left.get())?;
                let b = self.expr_kind(arg, own, right.get())?;
                operator_kind(*op, a, b)
            }
            Expr::If { cond, yes, no } => {
                let c = self.expr_kind(arg, own, cond.get())?;
                let a = self.expr_kind(arg, own, yes.get())?;
                let b = self.expr_kind(arg, own, no.get())?;
                let common = common_kind(a, b)?;
                taking(Some(Kind::Bool), common, c)
            }
            Expr::Recover { tried, other } => {
                let a = self.expr_kind(arg, own, tried.get())?;
                let b = self.expr_kind(arg, own, other.get())?;
                common_kind(a, b)
            }
            Expr::Size(set) => {
                self.set_kind(*set)?;
                Some(Some(Kind::Int))
            }
            Expr::Has { set, element } => {
                let elements = self.set_kind(*set)?;
                let a = self.expr_kind(arg, own, element.get())?;
                taking(Some(elements), Some(Kind::Bool), a)
            }
        }
    }
    /// The kind of an expression that keeps the kind rules and isn't of any kind.
    pub fn one_kind(&self, arg: SomeKind, own: SomeKind, expr: &Expr) -> Option<Kind>
        ensures { result ≡ one_kind (expr_kind self.now.sorts (record { arg = arg; own = own }) expr.now) }
    {
        self.expr_kind(arg, own, expr)?
    }

    fn map_sort(&self, source: u16, kind: Kind, expr: &Expr) -> Option<Sort>
        ensures { option_map plain_sort result ≡ sort_of self.now.sorts (Body.Map source kind expr.now) }
    {
        let arg = self.event_kind(source)?;
        let given = self.expr_kind(Some(arg), None, expr);
        only_if(is_of_kind(kind, given), Sort::Event(kind))
    }

    fn filter_sort(&self, source: u16, expr: &Expr) -> Option<Sort>
        ensures { option_map plain_sort result ≡ sort_of self.now.sorts (Body.Filter source expr.now) }
    {
        let arg = self.event_kind(source)?;
        let given = self.expr_kind(Some(arg), None, expr);
        only_if(agrees_with(Kind::Bool, given), Sort::Event(arg))
    }

    fn either_sort(&self, left: u16, right: u16) -> Option<Sort>
        ensures { option_map plain_sort result ≡ sort_of self.now.sorts (Body.Either left right) }
    {
        let a = self.event_kind(left)?;
        let b = self.event_kind(right)?;
        only_if(a == b, Sort::Event(a))
    }

    fn fold_sort(
        &self,
        kind: Kind,
        start: Word,
        source: u16,
        expr: &Expr,
        _region: u8,
    ) -> Option<Sort>
        ensures { option_map plain_sort result ≡ sort_of self.now.sorts (Body.Fold kind start source expr.now _region) }
    {
        let arg = self.event_kind(source)?;
        if !is_start(kind, start) {
            return None;
        }
        let given = self.expr_kind(Some(arg), Some(kind), expr);
        only_if(agrees_with(kind, given), Sort::Value(kind))
    }

    /// What a body's declaration stands for. None where it breaks a kind rule.
    pub fn sort_of(&self, body: &Body) -> Option<Sort>
        ensures sort { option_map plain_sort result ≡ sort_of self.now.sorts body.now }
        ensures symbol { IfSome result (λ s. is_symbol_sort (plain_sort s) ≡ is_symbol_body body.now) }
        ensures number { IfSome result (λ s. (n : ℕ) → plain_sort s ≡ Symbol n → n ≡ count_by is_symbol_sort self.now.sorts) }
    {
        match body {
            Body::Device => Some(Sort::Device),
            Body::Symbol => Some(Sort::Symbol(self.symbols())),
            Body::Var { kind, start, .. } | Body::Register { kind, start } => {
                only_if(is_start(*kind, *start), Sort::Value(*kind))
            }
            Body::Event { kind } => Some(Sort::Event(*kind)),
            Body::Signal { kind, expr } => {
                let given = self.expr_kind(None, None, expr);
                only_if(is_of_kind(*kind, given), Sort::Value(*kind))
            }
            Body::Changed { of } => self.value_kind(*of).map(Sort::Event),
            Body::Map { source, kind, expr } => self.map_sort(*source, *kind, expr),
            Body::Filter { source, expr } => self.filter_sort(*source, expr),
            Body::Either { left, right } => self.either_sort(*left, *right),
            Body::Fold {
                kind,
                start,
                source,
                expr,
                region,
            } => self.fold_sort(*kind, *start, *source, expr, *region),
            Body::Counter => Some(Sort::Value(Kind::Int)),
            Body::Set { kind } => Some(Sort::Set(*kind)),
        }
    }
}
