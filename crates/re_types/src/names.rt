//! The names of declarations.
ghost use Rattle.std.specs.Prelude.{◌≡◌, ◌++◌, ◌∷◌, [], None, OnOk};
ghost use Rattle.re_types.specs.Resolving.{place_of};

use indexmap::IndexSet;
use std::alloc::{AllocError, Global};
use std::marker::Model;

/// The names of declarations, in order, each of which lends its bytes. No two are equal.
#[derive(Drop)]
pub struct Names<'a> {
    table: IndexSet<&'a [u8]>,
}

impl<'a> Model for Names<'a> {
    ghost use Rattle.std.specs.Prelude.{ℕ, List, map};

    ghost Value = { List (List ℕ) };

    ghost view = { λ names. map (λ name. name.now) names.table.keys };
}

impl<'a> Names<'a> {
    /// No names. It takes no memory.
    pub fn new(alloc: Global) -> Names<'a>
        ensures { result ≡ [] }
    {
        Names {
            table: IndexSet::new(alloc),
        }
    }

    /// The place of a name, counted from 0.
    pub fn place(&self, name: &[u8]) -> Option<usize>
        ensures { result ≡ place_of self.now name.now }
    {
        self.table.get_index_of(name)
    }

    /// Puts a new name behind the others. The one refusal is want of memory.
    pub fn insert(&mut self, name: &'a [u8]) -> Result<(), AllocError>
        requires { place_of self.old name.now ≡ None }
        ensures { OnOk result (self.new ≡ self.old ++ name.now ∷ []) }
    {
        self.table.insert_full(name)?;
        Ok(())
    }
}
