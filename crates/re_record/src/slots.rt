//! Which words the declarations of a program take.
ghost use Rattle.std.specs.Prelude.{◌≡◌};
ghost use Rattle.re_record.specs.Slots.{slot_of, slot_from};

use re_terms::{Body, Decl, Kind};

/// What an id stands for where a word is written behind it.
#[derive(Clone, Copy, Debug, PartialEq, Eq)]
pub enum Role {
    /// A var that a turn sets.
    Set,
    /// A source event that a turn fires.
    Fire,
    /// A var or a fold that an entry changed.
    Change,
}

/// The words that a declaration takes: those of a kind, and faults besides where `fold` says so.
#[derive(Clone, Copy, Debug, PartialEq, Eq)]
pub struct Slot {
    pub kind: Kind,
    pub fold: bool,
}

/// The words that a declaration takes in a role, where it has that role.
pub fn slot_of(role: Role, body: &Body) -> Option<Slot>
    ensures { result ≡ slot_of role body.now }
{
    match (role, body) {
        (Role::Set | Role::Change, Body::Var { kind, .. }) | (Role::Fire, Body::Event { kind }) =>
            Some(Slot {
                kind: *kind,
                fold: false,
            }),
        (Role::Change, Body::Fold { kind, .. }) => Some(Slot {
            kind: *kind,
            fold: true,
        }),
        _ => None,
    }
}

/// The same of the declaration with this id, which is at least `least`.
pub fn slot_from(decls: &[Decl], role: Role, least: u32, id: u16) -> Option<Slot>
    ensures { result ≡ slot_from decls.now role least id }
{
    if u32::from(id) < least {
        return None;
    }
    let decl = decls.get(usize::from(id))?;
    slot_of(role, &decl.body)
}
