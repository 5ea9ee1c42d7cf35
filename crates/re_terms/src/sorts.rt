//! What declarations are, and how many of a sort there are.
ghost use Rattle.std.specs.Prelude.{◌≡◌, count_by};
ghost use Rattle.re_terms.specs.Cells.{is_cell_body};
ghost use Rattle.re_terms.specs.Programs.{is_device, is_device_body, is_replicated_body, is_symbol, is_symbol_body};
ghost use Rattle.re_terms.specs.Propagation.{is_signal_body};
ghost use Rattle.re_terms.specs.Worlds.{is_set_body};

use crate::{Body, Decl};

impl Body {
    /// Whether it is a device.
    pub fn is_device(&self) -> bool
        ensures { result ≡ is_device_body self.now }
    {
        matches!(self, Body::Device)
    }

    /// Whether it is a symbol.
    pub fn is_symbol(&self) -> bool
        ensures { result ≡ is_symbol_body self.now }
    {
        matches!(self, Body::Symbol)
    }

    /// Whether it is a var or a fold, whose word a state keeps.
    pub fn is_cell(&self) -> bool
        ensures { result ≡ is_cell_body self.now }
    {
        matches!(self, Body::Var { .. } | Body::Fold { .. })
    }

    /// Whether it is a signal.
    pub fn is_signal(&self) -> bool
        ensures { result ≡ is_signal_body self.now }
    {
        matches!(self, Body::Signal { .. })
    }

    /// Whether it is a set.
    pub fn is_set(&self) -> bool
        ensures { result ≡ is_set_body self.now }
    {
        matches!(self, Body::Set { .. })
    }

    /// Whether it is a replicated cell: a counter, a set or a register.
    pub fn is_replicated(&self) -> bool
        ensures { result ≡ is_replicated_body self.now }
    {
        matches!(
            self,
            Body::Counter | Body::Set { .. } | Body::Register { .. }
        )
    }
}

/// How many of these declarations are devices.
pub fn count_devices(decls: &[Decl]) -> usize
    ensures { result ≡ count_by is_device decls.now }
{
    decls.iter().filter(|decl| decl.body.is_device()).count()
}

/// How many of these declarations are symbols.
pub fn count_symbols(decls: &[Decl]) -> usize
    ensures { result ≡ count_by is_symbol decls.now }
{
    decls.iter().filter(|decl| decl.body.is_symbol()).count()
}
