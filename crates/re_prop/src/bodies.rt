//! What declarations are, and their places among the vars and folds and among the replicated cells.
ghost use Rattle.std.specs.Prelude.{◌≡◌, ◌≤◌, length, count_by};
ghost use Rattle.re_terms.specs.Programs.{is_replicated as is_replicated_decl};
ghost use Rattle.re_terms.specs.Propagation.{is_signal_body};
ghost use Rattle.re_terms.specs.Cells.{is_cell as is_cell_decl, cell_place as place_of_cell};
ghost use Rattle.re_terms.specs.SignalWords.{replicated_place as place_of_replicated};
ghost use Rattle.re_prop.specs.Reading.{is_valued_body};

use re_terms::{Body, Decl};

/// A signal.
pub fn is_signal(body: &Body) -> bool
    ensures { result ≡ is_signal_body body.now }
{
    matches!(body, Body::Signal { .. })
}

/// A declaration that has a word.
pub fn is_valued(body: &Body) -> bool
    ensures { result ≡ is_valued_body body.now }
{
    matches!(
        body,
        Body::Var { .. }
            | Body::Signal { .. }
            | Body::Fold { .. }
            | Body::Counter
            | Body::Register { .. }
    )
}

/// How many vars and folds there are.
fn cell_count(decls: &[Decl]) -> usize
    ensures { result ≡ count_by is_cell_decl decls.now }
{
    decls.iter().filter(|decl| decl.body.is_cell()).count()
}

/// How many replicated cells there are.
fn replicated_count(decls: &[Decl]) -> usize
    ensures { result ≡ count_by is_replicated_decl decls.now }
{
    decls
        .iter()
        .filter(|decl| decl.body.is_replicated())
        .count()
}

/// The place of a var's or fold's word in a state.
pub fn cell_place(decls: &[Decl], id: usize) -> usize
    requires { id ≤ length decls.now }
    ensures { result ≡ place_of_cell decls.now id }
{
    cell_count(&decls[..id])
}

/// The place of a replicated cell in a replicated state.
pub fn replicated_place(decls: &[Decl], id: usize) -> usize
    ensures { result ≡ place_of_replicated decls.now id }
{
    if id < decls.len() {
        replicated_count(&decls[..id])
    } else {
        replicated_count(decls)
    }
}
