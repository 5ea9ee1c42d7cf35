//! What the kinds of replicated cells are made of, and what they allow.
ghost use Rattle.std.specs.Prelude.{◌≡◌};
ghost use Rattle.re_terms.specs.Layouts.{layout_of, is_allowed};

use crate::{Act, Layout, RKind};

/// What the state of a cell of this kind consists of. It takes no memory.
pub fn layout(kind: RKind) -> Layout
    ensures { result ≡ layout_of kind }
{
    match kind {
        RKind::Counter => Layout::Rows,
        RKind::Set(elements) => Layout::Pairs(elements),
        RKind::Register(words, start) => Layout::Written(words, start),
    }
}

/// Whether a cell of this kind allows the act, whatever its word. It takes no memory.
pub fn allows(kind: RKind, act: &Act) -> bool
    ensures { result ≡ is_allowed kind act.now }
{
    match (kind, act) {
        (RKind::Counter, Act::Add(_)) => true,
        (RKind::Set(_), Act::Insert(_) | Act::Remove(_)) => true,
        (RKind::Register(_, _), Act::Write(_)) => true,
        _ => false,
    }
}
