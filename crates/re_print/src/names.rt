//! The names of a program's declarations and symbols.
ghost use Rattle.std.specs.Prelude.{◌≡◌, IfOk};
ghost use Rattle.re_print.specs.Canonical.{name_text, symbol_text};

use re_terms::{Decl, Program};
use std::alloc::{AllocError, Global};
use std::marker::Model;

/// The name of the symbol with this number, found by a walk; the empty name where there is none.
pub fn symbol_name(p: &Program, number: u16) -> &[u8]
    ensures { result.now ≡ symbol_text p.now number }
{
    let mut before = number;
    for decl in p.decls.as_slice() {
        if decl.body.is_symbol() {
            if before == 0 {
                return decl.name.as_slice();
            }
            before -= 1;
        }
    }
    b""
}

/// A program, and its symbols in order, so that no look-up grows with the program.
#[derive(Drop)]
pub struct Names<'a> {
    program: &'a Program,
    symbols: Vec<&'a Decl>,
}

impl<'a> Model for Names<'a> {
    ghost use Rattle.std.specs.Prelude.{◌≡◌, map, filter};
    ghost use Rattle.std.specs.Coded.{codes};
    ghost use Rattle.re_terms.specs.contracts.expr.Expr as expr;
    ghost use Rattle.re_terms.specs.declared.program.Program.{Program};
    ghost use Rattle.re_terms.specs.Programs.{is_symbol};

    ghost Value = { Program };

    ghost coded = { Prim.hlevel (codes, expr.the_row.coded) };

    ghost view = { λ names. names.program.now };

    ghost invariant = { λ names. map (λ d. d.now) names.symbols.items ≡ filter is_symbol names.program.now.decls.items };
}

impl<'a> Names<'a> {
    /// The names of a program. The one refusal is want of memory.
    pub fn of(alloc: Global, program: &'a Program) -> Result<Names<'a>, AllocError>
        ensures { IfOk result (λ names. names ≡ program.now) }
    {
        let mut symbols = Vec::new(alloc);
        for decl in program.decls.as_slice() {
            if decl.body.is_symbol() {
                symbols.push(decl)?;
            }
        }
        Ok(Names { program, symbols })
    }

    /// The name of the declaration with this id; the empty name where there is none.
    pub fn declared(&self, id: u16) -> &[u8]
        ensures { result.now ≡ name_text self.now id }
    {
        match self.program.decls.get(id as usize) {
            Some(decl) => decl.name.as_slice(),
            None => b"",
        }
    }

    /// The name of the symbol with this number; the empty name where there is none.
    pub fn symbol(&self, number: u16) -> &[u8]
        ensures { result.now ≡ symbol_text self.now number }
    {
        match self.symbols.get(number as usize) {
            Some(decl) => decl.name.as_slice(),
            None => b"",
        }
    }
}
