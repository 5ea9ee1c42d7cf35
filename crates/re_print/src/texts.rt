//! The texts of what has only a few.
ghost use Rattle.std.specs.Prelude.{◌≡◌};
ghost use Rattle.re_print.specs.Canonical.{truth_text, kind_text, op_text, keyword_text};

use re_terms::{Body, Kind, Op};

/// A truth value's text: `true` or `false`.
pub fn truth_text(truth: bool) -> &'static [u8]
    ensures { result.now ≡ truth_text truth }
{
    if truth { b"true" } else { b"false" }
}

/// A kind's text: `int`, `bool` or `sym`.
pub fn kind_text(kind: Kind) -> &'static [u8]
    ensures { result.now ≡ kind_text kind }
{
    match kind {
        Kind::Int => b"int",
        Kind::Bool => b"bool",
        Kind::Sym => b"sym",
    }
}

/// An operator's text: its sign, or `and` or `or`.
pub fn op_text(op: Op) -> &'static [u8]
    ensures { result.now ≡ op_text op }
{
    match op {
        Op::Add => b"+",
        Op::Sub => b"-",
        Op::Mul => b"*",
        Op::Div => b"/",
        Op::Rem => b"%",
        Op::Lt => b"<",
        Op::Le => b"<=",
        Op::Gt => b">",
        Op::Ge => b">=",
        Op::Eq => b"==",
        Op::Ne => b"!=",
        Op::And => b"and",
        Op::Or => b"or",
    }
}

/// The word that a declaration begins with.
pub fn keyword_text(body: &Body) -> &'static [u8]
    ensures { result.now ≡ keyword_text body.now }
{
    match body {
        Body::Device => b"device",
        Body::Symbol => b"symbol",
        Body::Var { .. } => b"var",
        Body::Event { .. }
        | Body::Changed { .. }
        | Body::Map { .. }
        | Body::Filter { .. }
        | Body::Either { .. } => b"event",
        Body::Signal { .. } => b"signal",
        Body::Fold { .. } => b"fold",
        Body::Counter => b"counter",
        Body::Set { .. } => b"set",
        Body::Register { .. } => b"register",
    }
}
