//! Admits turns.
ghost use Rattle.std.specs.Prelude.{Bool, ◌≡◌, ◌≢◌, ◌≤◌, true, false, length, count_by, IfOk, IfErr, OnOk, Err};
ghost use Rattle.std.specs.List.{list_all, list_any};
ghost use Rattle.re_terms.specs.Programs.{IsProgram, is_replicated};
ghost use Rattle.re_terms.specs.Admission.{IsAdmitted};
ghost use Rattle.re_types.specs.Admitting.{admitted, keeps_kind, some_set, some_fire, turn_or_fault};
ghost use Rattle.re_types.specs.Parts.{with_part, turn_in_order};

use crate::AdmitFault;
use crate::parts::{Part, know_parts, part_of};
use crate::puts::ascending;
use re_terms::{Admitted, Decl, Program, Put, RawPart, RawTurn, Seq, Turn};
use std::alloc::{AllocError, Global};

const MAX_PARTS: usize = 64;

/// Puts a part behind the others of its sort. The one refusal is want of memory.
fn push(turn: &mut Turn, part: Part) -> Result<(), AllocError>
    ensures { OnOk result (turn.new ≡ with_part turn.old part) }
{
    match part {
        Part::Set(put) => turn.sets.push(put),
        Part::Fire(put) => turn.fires.push(put),
        Part::Operation(op) => turn.ops.push(op),
    }
}

/// What the parts mean, in their order. `Kind` where one is of wrong kind.
fn resolved_parts(alloc: Global, decls: &[Decl], parts: &[RawPart]) -> Result<Turn, AdmitFault>
    requires few { length decls.now ≤ 512 }
    requires replicated { count_by is_replicated decls.now ≤ 32 }
    ensures turn { IfOk result (λ t. t ≡ turn_in_order decls.now parts.now) }
    ensures kinds { IfOk result (λ _. list_all (keeps_kind decls.now) parts.now ≡ true) }
    ensures fault { IfErr result (λ f. f ≢ AdmitFault.Memory → (f ≡ AdmitFault.Kind) × (list_all (keeps_kind decls.now) parts.now ≡ false)) }
{
    let mut turn = Turn {
        sets: Seq::new(alloc),
        fires: Seq::new(alloc),
        ops: Seq::new(alloc),
    };
    'parts: for raw in parts {
        let Some(part) = part_of(decls, raw) else {
            return Err(AdmitFault::Kind);
        };
        push(&mut turn, part)?;
    }
    Ok(turn)
}

/// The turn that these parts mean.
fn admit_parts(alloc: Global, p: &Program, parts: &[RawPart]) -> Result<Admitted, AdmitFault>
    requires { IsProgram p.now }
    ensures answer { result ≢ Err AdmitFault.Memory → result ≡ turn_or_fault p.now.decls.items parts.now }
    ensures admitted { IfOk result (λ a. IsAdmitted p.now a.turn) }
    ensures sets { IfOk result (λ a. (test : Put → Bool) → list_any test a.turn.sets.items ≡ some_set p.now.decls.items test parts.now) }
    ensures fires { IfOk result (λ a. (test : Put → Bool) → list_any test a.turn.fires.items ≡ some_fire p.now.decls.items test parts.now) }
{
    let decls = p.decls.as_slice();
    if !know_parts(decls, parts) {
        return Err(AdmitFault::Unknown);
    }
    let Turn { sets, fires, ops } = resolved_parts(alloc, decls, parts)?;
    let sets = ascending(alloc, sets.as_slice())?;
    let fires = ascending(alloc, fires.as_slice())?;
    if parts.is_empty() {
        return Err(AdmitFault::Empty);
    }
    if parts.len() > MAX_PARTS {
        return Err(AdmitFault::TooMany);
    }
    Ok(Admitted {
        turn: Turn { sets, fires, ops },
    })
}

/// The turn of a program that these parts mean: names become ids, the vars that it sets and the events that it fires
/// ascend by id, and operations stay in the order of the parts.
///
/// A refusal names the first of these faults that holds of the parts anywhere: `Unknown` where a part's name or a name
/// that stands as its literal isn't declared; `Kind` where a part's name is no var (to set), source event (to fire),
/// counter (to add to), set (to insert into or remove from) or register (to write), or its literal is no word of the
/// kind; `Twice` where one var is set twice or one event fired twice; `Empty` where there are no parts; `TooMany` where
/// there are over 64. Any of them may give way to want of memory.
pub fn admit(alloc: Global, p: &Program, raw: RawTurn) -> Result<Admitted, AdmitFault>
    requires { IsProgram p.now }
    ensures answer { result ≢ Err AdmitFault.Memory → result ≡ admitted p.now raw }
    ensures admitted { IfOk result (λ a. IsAdmitted p.now a.turn) }
    ensures sets { IfOk result (λ a. (test : Put → Bool) → list_any test a.turn.sets.items ≡ some_set p.now.decls.items test raw.parts.items) }
    ensures fires { IfOk result (λ a. (test : Put → Bool) → list_any test a.turn.fires.items ≡ some_fire p.now.decls.items test raw.parts.items) }
    ensures unknown { result ≡ Err AdmitFault.Unknown → admitted p.now raw ≡ Err AdmitFault.Unknown }
    ensures kind { result ≡ Err AdmitFault.Kind → admitted p.now raw ≡ Err AdmitFault.Kind }
    ensures twice { result ≡ Err AdmitFault.Twice → admitted p.now raw ≡ Err AdmitFault.Twice }
    ensures empty { result ≡ Err AdmitFault.Empty → admitted p.now raw ≡ Err AdmitFault.Empty }
    ensures too_many { result ≡ Err AdmitFault.TooMany → admitted p.now raw ≡ Err AdmitFault.TooMany }
{
    admit_parts(alloc, p, raw.parts.as_slice())
}
