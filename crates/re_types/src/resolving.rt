//! Resolves trees.
ghost use Rattle.std.specs.Prelude.{◌≡◌, ◌≢◌, ℕ, ◌<◌, ◌+◌, ◌-◌, ◌++◌, ◌∷◌, [], true, false, not, if◌then◌else◌, length, count_by, IfOk, IfErr, IfSome, OnOk, Ok, Err, None, Some};
ghost use Rattle.std.specs.List.{list_all};
ghost use Rattle.re_terms.specs.Trees.{IsTree, is_body, is_declaration};
ghost use Rattle.re_terms.specs.Kinds.{sort_of};
ghost use Rattle.re_terms.specs.Cells.{is_cell_body};
ghost use Rattle.re_terms.specs.Programs.{IsProgram, is_device_body, is_replicated_body};
ghost use Rattle.re_types.specs.Resolving.{place_of, has_room, knows_body, kinded_body, declared, declarations, then_others, program_with, resolved};
ghost use Rattle.re_types.specs.Scopes.{plain_sort};
ghost use Rattle.re_types.specs.Tables.{IsTable};

use crate::TypeFault;
use crate::room::Counts;
use crate::scope::Scope;
use crate::sort::Sort;
use re_terms::{Body, Decl, Program, RawDecl, Seq, Tree, TryCopy};
use std::alloc::{AllocError, Global};

/// The declarations that are resolved so far, what their names stand for, and how many have a limit.
#[derive(Drop)]
pub struct Table<'a> {
    pub decls: Seq<Decl>,
    pub scope: Scope<'a>,
    pub counts: Counts,
}

impl<'a> Table<'a> {
    /// Puts a declaration behind the others, with what its name stands for. The one refusal is want of memory.
    fn push(
        &mut self,
        alloc: Global,
        raw: &'a RawDecl,
        body: Body,
        sort: Sort,
    ) -> Result<(), AllocError>
        requires few { length self.old.scope.sorts < 512 }
        requires new { place_of self.old.scope.names raw.now.name.items ≡ None }
        requires devices { self.old.counts.devices < 512 }
        requires cells { self.old.counts.cells < 512 }
        requires replicated { self.old.counts.replicated < 512 }
        ensures decls { OnOk result (self.new.decls ≡ record { items = self.old.decls.items ++ (record { name = raw.now.name; body = body }) ∷ []; spare = self.old.decls.spare - 1 }) }
        ensures scope { OnOk result (self.new.scope ≡ record { names = self.old.scope.names ++ raw.now.name.items ∷ []; sorts = self.old.scope.sorts ++ plain_sort sort ∷ [] }) }
        ensures devices { OnOk result (self.new.counts.devices ≡ self.old.counts.devices + (if is_device_body body then 1 else 0)) }
        ensures cells { OnOk result (self.new.counts.cells ≡ self.old.counts.cells + (if is_cell_body body then 1 else 0)) }
        ensures replicated { OnOk result (self.new.counts.replicated ≡ self.old.counts.replicated + (if is_replicated_body body then 1 else 0)) }
    {
        self.scope.declare(raw.name.as_slice(), sort)?;
        self.counts.add(&body);
        let name = raw.name.copy(alloc)?;
        self.decls.push(Decl { name, body })?;
        Ok(())
    }

    /// Resolves a declaration behind the others, and puts it there.
    ///
    /// What is left behind a refusal is no table.
    fn declare(&mut self, alloc: Global, raw: &'a RawDecl) -> Result<(), TypeFault>
        requires table { IsTable self.old }
        requires raw { is_declaration raw.now ≡ true }
        ensures table { OnOk result (IsTable self.new) }
        ensures declared { OnOk result (then_others self.old.decls.items (declared self.old.decls.items raw.now) Ok ≡ Ok self.new.decls.items) }
        ensures fault { IfErr result (λ f. f ≢ TypeFault.Memory → declared self.old.decls.items raw.now ≡ Err f) }
    {
        let place = self.decls.len() as u32;
        if !self.counts.has_room(self.decls.len(), &raw.body) {
            return Err(TypeFault::TooMany(place));
        }
        if self.scope.knows(&raw.name) {
            return Err(TypeFault::Twice(place));
        }
        if !self.scope.knows_body(&raw.body) {
            return Err(TypeFault::Unknown(place));
        }
        let Some(body) = self.scope.body(alloc, &raw.body)? else {
            return Err(TypeFault::Kind(place));
        };
        let Some(sort) = self.scope.sort_of(&body) else {
            return Err(TypeFault::Kind(place));
        };
        self.push(alloc, raw, body, sort)?;
        Ok(())
    }

    /// Resolves declarations behind the others.
    fn declare_all(&mut self, alloc: Global, decls: &'a [RawDecl]) -> Result<(), TypeFault>
        requires table { IsTable self.old }
        requires raw { list_all is_declaration decls.now ≡ true }
        ensures table { OnOk result (IsTable self.new) }
        ensures declared { OnOk result (declarations self.old.decls.items decls.now ≡ Ok self.new.decls.items) }
        ensures fault { IfErr result (λ f. f ≢ TypeFault.Memory → declarations self.old.decls.items decls.now ≡ Err f) }
    {
        'decls: for raw in decls {
            self.declare(alloc, raw)?;
        }
        Ok(())
    }
}

/// The program that these declarations mean.
fn resolve_all(alloc: Global, decls: &[RawDecl]) -> Result<Program, TypeFault>
    requires { list_all is_declaration decls.now ≡ true }
    ensures program { IfOk result IsProgram }
    ensures declared { IfOk result (λ p. program_with (declarations [] decls.now) ≡ Ok p) }
    ensures fault { IfErr result (λ f. f ≢ TypeFault.Memory → program_with (declarations [] decls.now) ≡ Err f) }
{
    let mut table = Table {
        decls: Seq::new(alloc),
        scope: Scope::new(alloc),
        counts: Counts {
            devices: 0,
            cells: 0,
            replicated: 0,
        },
    };
    table.declare_all(alloc, decls)?;
    if table.counts.devices == 0 {
        return Err(TypeFault::NoDevice);
    }
    Ok(Program { decls: table.decls })
}

/// The program that a tree means: names become ids, and each declaration keeps the kind rules.
///
/// A refusal names the first faulty declaration by its place from 0, and the first of its faults:
/// `TooMany` where it passes a limit (512 declarations, 16 devices, 256 vars and folds, 32 replicated
/// cells), `Twice` where its name is declared before it, `Unknown` where a name in it isn't, and `Kind`
/// where it breaks a kind rule. `NoDevice` comes where no declaration is faulty and none is a device.
/// Any of them may give way to want of memory.
pub fn resolve(alloc: Global, tree: Tree) -> Result<Program, TypeFault>
    requires { IsTree tree }
    ensures answer { result ≢ Err TypeFault.Memory → result ≡ resolved tree }
    ensures program { IfOk result IsProgram }
    ensures too_many { (k : ℕ) → result ≡ Err (TypeFault.TooMany k) → resolved tree ≡ Err (TypeFault.TooMany k) }
    ensures twice { (k : ℕ) → result ≡ Err (TypeFault.Twice k) → resolved tree ≡ Err (TypeFault.Twice k) }
    ensures unknown { (k : ℕ) → result ≡ Err (TypeFault.Unknown k) → resolved tree ≡ Err (TypeFault.Unknown k) }
    ensures kind { (k : ℕ) → result ≡ Err (TypeFault.Kind k) → resolved tree ≡ Err (TypeFault.Kind k) }
    ensures no_device { result ≡ Err TypeFault.NoDevice → resolved tree ≡ Err TypeFault.NoDevice }
{
    resolve_all(alloc, tree.decls.as_slice())
}
