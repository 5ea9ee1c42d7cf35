//! What devices that merge each other's states can rely on.
ghost use Rattle.std.specs.Prelude.{◌≡◌, ◌∷◌, ℕ, List, []};
ghost use Rattle.std.specs.List.{filter};
ghost use Rattle.re_terms.specs.Shapes.{start_replicated};
ghost use Rattle.re_terms.specs.Updates.{Update, IsCausalLog, IsCausallyClosed, covered};
ghost use Rattle.re_terms.specs.UpdateStates.{state_of_updates};
ghost use Rattle.re_terms.specs.Values.{view_of_updates};
ghost use Rattle.re_terms.specs.Views.{view_of};
ghost use Rattle.re_terms.specs.declared.replicated.Shape.{Shape};
ghost use Rattle.re_replica.specs.Merges.{AllClosed, CoverAlike, is_covered, merged_in};

/// Two devices that merged, in whatever order and however often, the states of the same updates of one log have equal
/// states, which show the values that these updates give.
pub fn agreement_law()
    ensures agree { (shape : Shape) (log : List Update) (vs ws : List (List ℕ)) → IsCausalLog log → AllClosed log vs → AllClosed log ws → CoverAlike log vs ws → merged_in shape log (start_replicated shape) vs ≡ merged_in shape log (start_replicated shape) ws }
    ensures values { (shape : Shape) (log : List Update) (vs : List (List ℕ)) → IsCausalLog log → AllClosed log vs → view_of (merged_in shape log (start_replicated shape) vs) ≡ view_of_updates shape (filter (is_covered vs) log) }
    ensures same { (shape : Shape) (log : List Update) (v w : List ℕ) → IsCausalLog log → IsCausallyClosed log v → IsCausallyClosed log w → CoverAlike log (v ∷ []) (w ∷ []) → state_of_updates shape (covered log v) ≡ state_of_updates shape (covered log w) }
{}
