//! What is declared so far.
ghost use Rattle.std.specs.Prelude.{◌≡◌, ◌≤◌, ◌<◌, ◌++◌, ◌∷◌, [], true, length, slice_get, option_map, is_some, count_by, None, Some, OnOk};
ghost use Rattle.re_terms.specs.Kinds.{value_kind, set_kind, event_kind, is_symbol_sort};
ghost use Rattle.re_types.specs.Resolving.{place_of, is_known, symbol_of};
ghost use Rattle.re_types.specs.Scopes.{plain_sort};

use crate::names::Names;
use crate::sort::Sort;
use re_terms::{Kind, Text};
use std::alloc::{AllocError, Global};
use std::marker::Model;

/// The names that are declared so far, and what each stands for.
#[derive(Drop)]
pub struct Scope<'a> {
    names: Names<'a>,
    sorts: Vec<Sort>,
    symbols: u16,
}

impl<'a> Model for Scope<'a> {
    ghost use Rattle.std.specs.Prelude.{◌≡◌, map, count_by};
    ghost use Rattle.re_terms.specs.Kinds.{is_symbol_sort};
    ghost use Rattle.re_types.specs.Resolving.{Scope};
    ghost use Rattle.re_types.specs.Scopes.{plain_sort};

    ghost Value = { Scope };

    ghost view = { λ s. record { names = s.names; sorts = map plain_sort s.sorts.items } };

    ghost invariant = { λ s. s.symbols ≡ count_by is_symbol_sort (map plain_sort s.sorts.items) };
}

impl<'a> Scope<'a> {
    /// Nothing is declared. It takes no memory.
    pub fn new(alloc: Global) -> Scope<'a>
        ensures { result ≡ record { names = []; sorts = [] } }
    {
        Scope {
            names: Names::new(alloc),
            sorts: Vec::new(alloc),
            symbols: 0,
        }
    }

    /// Whether a declaration has this name.
    pub fn knows(&self, name: &Text) -> bool
        ensures { result ≡ is_known self.now.names name.now }
    {
        self.names.place(name.as_slice()).is_some()
    }

    /// The id of the declaration with this name.
    pub fn id(&self, name: &Text) -> u16
        requires few { length self.now.names ≤ 512 }
        requires known { is_known self.now.names name.now ≡ true }
        ensures { place_of self.now.names name.now.items ≡ Some result }
    {
        self.names.place(name.as_slice()).unwrap() as u16
    }

    /// What the declaration with this id stands for.
    fn sort(&self, id: u16) -> Option<Sort>
        ensures { option_map plain_sort result ≡ slice_get self.now.sorts id }
    {
        self.sorts.get(id as usize).copied()
    }

    /// The kind of a var's, signal's, fold's, counter's or register's word.
    pub fn value_kind(&self, id: u16) -> Option<Kind>
        ensures { result ≡ value_kind self.now.sorts id }
    {
        match self.sort(id) {
            Some(Sort::Value(kind)) => Some(kind),
            _ => None,
        }
    }

    /// The kind of a set's elements.
    pub fn set_kind(&self, id: u16) -> Option<Kind>
        ensures { result ≡ set_kind self.now.sorts id }
    {
        match self.sort(id) {
            Some(Sort::Set(kind)) => Some(kind),
            _ => None,
        }
    }

    /// The kind of an event's value.
    pub fn event_kind(&self, id: u16) -> Option<Kind>
        ensures { result ≡ event_kind self.now.sorts id }
    {
        match self.sort(id) {
            Some(Sort::Event(kind)) => Some(kind),
            _ => None,
        }
    }

    /// The number of a symbol.
    pub fn symbol(&self, id: u16) -> Option<u16>
        ensures { result ≡ symbol_of (slice_get self.now.sorts id) }
    {
        match self.sort(id) {
            Some(Sort::Symbol(number)) => Some(number),
            _ => None,
        }
    }

    /// How many symbols are declared.
    pub fn symbols(&self) -> u16
        ensures { result ≡ count_by is_symbol_sort self.now.sorts }
    {
        self.symbols
    }

    /// Puts a declaration with a new name behind the others. The one refusal is want of memory.
    pub fn declare(&mut self, name: &'a [u8], sort: Sort) -> Result<(), AllocError>
        requires few { length self.old.sorts < 512 }
        requires new { place_of self.old.names name.now ≡ None }
        ensures { OnOk result (self.new ≡ record { names = self.old.names ++ name.now ∷ []; sorts = self.old.sorts ++ plain_sort sort ∷ [] }) }
    {
        self.names.insert(name)?;
        self.sorts.push(sort)?;
        if matches!(sort, Sort::Symbol(_)) {
            self.symbols += 1;
        }
        Ok(())
    }
}
