//! The laws of replicated states: what devices that exchange their states can rely on.
ghost use Rattle.std.specs.Prelude.{true, ◌≡◌, ◌<◌, ◌≤◌, ◌↔◌, ◌++◌, ◌∷◌, ℕ, List, [], None, Some, length, slice_get, slice_index};
ghost use Rattle.std.specs.List.{list_all, sum_by};
ghost use Rattle.re_terms.specs.JointLogs.{Further, all_of, IsOneOf, AllFollow};
ghost use Rattle.re_terms.specs.Limits.{IsFirstFault, OperationFault, after_operations, operation_fault, operations_fault, updates_fault, updates_made};
ghost use Rattle.re_terms.specs.Replication.{JoinLaw};
ghost use Rattle.re_terms.specs.ShapedUpdates.{IsWithinLimits, is_operation_in, is_update_of};
ghost use Rattle.re_terms.specs.Shapes.{FitsShape, pair_count, start_replicated};
ghost use Rattle.re_terms.specs.TakenIn.{IsTakenIn};
ghost use Rattle.re_terms.specs.Updates.{Update, IsCausalLog, IsCausallyClosed, IsIn, IsNext, count_of, covered, next_update, operation_of, vector_of};
ghost use Rattle.re_terms.specs.UpdateSets.{EachOnce, SameUpdates, union};
ghost use Rattle.re_terms.specs.UpdateStates.{after_operation, content_of, join_cell, join_states, state_of_updates};
ghost use Rattle.re_terms.specs.Values.{value_at, value_elements, view_of_updates};
ghost use Rattle.re_terms.specs.Vectors.{join_vectors, with_dot};
ghost use Rattle.re_terms.specs.Views.{cell_elements, view_of};
ghost use Rattle.re_terms.specs.declared.limits.TheConstants.{PAIRS};
ghost use Rattle.re_terms.specs.declared.replicated.RCell.{RCell};
ghost use Rattle.re_terms.specs.declared.replicated.RKind.{RKind};
ghost use Rattle.re_terms.specs.declared.replicated.RepOp.{RepOp};
ghost use Rattle.re_terms.specs.declared.replicated.RState.{RState};
ghost use Rattle.re_terms.specs.declared.replicated.Shape.{Shape};
ghost use Rattle.re_terms.specs.declared.word.Kind.{Kind};
ghost use Rattle.re_terms.specs.declared.word.Word.{Word};

/// A kind of replicated cell, as a state of the cells has it: what updates make of such a cell, and its merge. The merge,
/// of two values with the vectors of their devices, gives of what two causally closed parts of a log make what their
/// union makes. It has no call when a program runs.
pub trait Replicated {
    /// What a cell of this kind consists of.
    type Content;

    /// The kind of the cell, by a kind of words and a start word, where it has these.
    ghost kind: { Kind → Word → RKind };

    /// The state of the cell that consists of this.
    ghost cell: { Self.Content → RCell };

    /// What updates make of the cell at a place, where the kind's start word is this one.
    ghost made: { Word → ℕ → List Update → Self.Content };

    /// The merge of two values, with their vectors.
    ghost merged: { List ℕ → List ℕ → Self.Content → Self.Content → Self.Content };

    /// What updates make is the content that they give the cell in a state of updates.
    ghost made_is: { (words : Kind) (start : Word) (place : ℕ) (us : List Update) → cell (made start place us) ≡ content_of (kind words start) place us };

    /// The merge is that of the cell in the join of two states.
    ghost merged_is: { (v w : List ℕ) (a b : Self.Content) → cell (merged v w a b) ≡ join_cell v w (cell a) (cell b) };

    ghost join_law: { (start : Word) (place : ℕ) → JoinLaw merged (made start place) };
}

/// No dot names two updates of a causal log, each update stands in it once, and a causally closed vector is the vector of
/// what it covers.
pub fn dots_law()
    ensures one { (log : List Update) (u w : Update) → IsCausalLog log → IsIn u log → IsIn w log → u.dot ≡ w.dot → u ≡ w }
    ensures each { (log : List Update) → IsCausalLog log → EachOnce log }
    ensures vector { (log : List Update) (v : List ℕ) → IsCausalLog log → IsCausallyClosed log v → length v ≡ 16 → vector_of (covered log v) ≡ v }
{}

/// The join of the states of two causally closed parts of a log is the state of what either covers, which is causally
/// closed again.
pub fn join_law()
    ensures closed { (log : List Update) (v w : List ℕ) → IsCausallyClosed log v → IsCausallyClosed log w → IsCausallyClosed log (join_vectors v w) }
    ensures joined { (shape : Shape) (log : List Update) (v w : List ℕ) → IsCausalLog log → IsCausallyClosed log v → IsCausallyClosed log w → join_states (state_of_updates shape (covered log v)) (state_of_updates shape (covered log w)) ≡ state_of_updates shape (covered log (join_vectors v w)) }
{}

/// A device's operation gives the state of one update more. Where the device has seen all its own updates, the log with
/// that update behind it is causal.
pub fn operation_law()
    ensures state { (shape : Shape) (log : List Update) (v : List ℕ) (device : ℕ) (op : RepOp) → IsCausalLog log → IsCausallyClosed log v → device < 16 → after_operation shape device op (state_of_updates shape (covered log v)) ≡ state_of_updates shape (covered log v ++ next_update log v device op ∷ []) }
    ensures next { (log : List Update) (v : List ℕ) (device : ℕ) (op : RepOp) → IsCausallyClosed log v → device < 16 → length v ≡ 16 → slice_index v device ≡ count_of device log → IsNext log (next_update log v device op) }
    ensures causal { (log : List Update) (v : List ℕ) (device : ℕ) (op : RepOp) → IsCausalLog log → IsCausallyClosed log v → device < 16 → length v ≡ 16 → slice_index v device ≡ count_of device log → IsCausalLog (log ++ next_update log v device op ∷ []) }
{}

/// What a state of updates shows of each cell is the value that the updates give it.
pub fn view_law()
    ensures elements { (shape : Shape) (us : List Update) (place : ℕ) → cell_elements (slice_get (state_of_updates shape us).cells.items place) ≡ value_elements (value_at shape us place) }
    ensures view { (shape : Shape) (us : List Update) → ((u : Update) → IsIn u us → u.dot.device < 16) → view_of (state_of_updates shape us) ≡ view_of_updates shape us }
{}

/// A state and its values depend on which updates there are, and not on their order; and the join of two states is that
/// of the updates of both. No updates make the start state.
pub fn members_law()
    ensures none { (shape : Shape) → state_of_updates shape [] ≡ start_replicated shape }
    ensures same { (shape : Shape) (log us vs : List Update) → IsCausalLog log → SameUpdates us vs → ((u : Update) → IsIn u vs → IsIn u log) → state_of_updates shape us ≡ state_of_updates shape vs }
    ensures values { (shape : Shape) (log us vs : List Update) → IsCausalLog log → SameUpdates us vs → ((u : Update) → IsIn u vs → IsIn u log) → view_of_updates shape us ≡ view_of_updates shape vs }
    ensures union { (log us vs : List Update) (v w : List ℕ) → IsCausalLog log → IsCausallyClosed log v → SameUpdates us (covered log v) → SameUpdates vs (covered log w) → SameUpdates (union us vs) (covered log (join_vectors v w)) }
    ensures joined { (shape : Shape) (log us vs : List Update) (v w : List ℕ) → IsCausalLog log → IsCausallyClosed log v → IsCausallyClosed log w → SameUpdates us (covered log v) → SameUpdates vs (covered log w) → join_states (state_of_updates shape us) (state_of_updates shape vs) ≡ state_of_updates shape (union us vs) }
{}

/// A causal log with an update behind it that may come next is causal, and the vector that has also the update's dot is
/// causally closed over it. As a log grows, a causally closed vector stays so, and covers the same updates.
pub fn growth_law()
    ensures causal { (log : List Update) (u : Update) → IsCausalLog log → IsNext log u → IsCausalLog (log ++ u ∷ []) }
    ensures new_closed { (log : List Update) (u : Update) → IsCausalLog log → IsNext log u → IsCausallyClosed (log ++ u ∷ []) (with_dot u.seen u.dot) }
    ensures new_covered { (log : List Update) (u : Update) → IsCausalLog log → IsNext log u → covered (log ++ u ∷ []) (with_dot u.seen u.dot) ≡ covered log u.seen ++ u ∷ [] }
    ensures new_state { (shape : Shape) (log : List Update) (u : Update) → IsCausalLog log → IsNext log u → state_of_updates shape (covered (log ++ u ∷ []) (with_dot u.seen u.dot)) ≡ after_operation shape u.dot.device (operation_of u) (state_of_updates shape (covered log u.seen)) }
    ensures closed { (log more : List Update) (v : List ℕ) → IsCausallyClosed log v → IsCausallyClosed (log ++ more) v }
    ensures covered { (log more : List Update) (v : List ℕ) → IsCausalLog (log ++ more) → IsCausallyClosed log v → covered (log ++ more) v ≡ covered log v }
{}

/// Lists of further updates, each of one device, that may each follow a log may follow it together, in any order. A
/// vector that is causally closed over the log and one of them is so over the whole, and covers the same updates.
pub fn joint_law()
    ensures causal { (log : List Update) (xs : List Further) → IsCausalLog log → AllFollow log xs → IsCausalLog (log ++ all_of xs) }
    ensures closed { (log : List Update) (xs : List Further) (x : Further) (v : List ℕ) → IsOneOf x xs → IsCausallyClosed (log ++ x.updates) v → IsCausallyClosed (log ++ all_of xs) v }
    ensures covered { (log : List Update) (xs : List Further) (x : Further) (v : List ℕ) → IsCausalLog log → AllFollow log xs → IsOneOf x xs → IsCausallyClosed (log ++ x.updates) v → covered (log ++ all_of xs) v ≡ covered (log ++ x.updates) v }
{}

/// The state of updates of a shape, which are all in one causal log, fits the shape where it is within the limits.
pub fn fits_law()
    ensures { (shape : Shape) (log us : List Update) → IsCausalLog log → ((u : Update) → IsIn u us → IsIn u log) → ((u : Update) → IsIn u us → is_update_of shape u ≡ true) → IsWithinLimits (state_of_updates shape us) → FitsShape shape (state_of_updates shape us) }
{}

/// A state that fits a shape fits it after a merge with another such state, where the sets together have at most 1,024
/// pairs, and after an operation that its cell takes and no limit stands against.
pub fn fitting_law()
    ensures joined { (shape : Shape) (a b : RState) → FitsShape shape a → FitsShape shape b → sum_by pair_count (join_states a b).cells.items ≤ PAIRS → FitsShape shape (join_states a b) }
    ensures operated { (shape : Shape) (device : ℕ) (op : RepOp) (r : RState) → shape.devices ≤ 16 → device < shape.devices → is_operation_in shape op ≡ true → operation_fault shape device op r ≡ None → FitsShape shape r → FitsShape shape (after_operation shape device op r) }
{}

/// The first operation that a limit stands against decides: its fault is that of the operations, whatever comes after it.
pub fn first_fault_law()
    ensures { (shape : Shape) (device : ℕ) (ops : List RepOp) (us : List Update) (f : OperationFault) → (updates_fault shape device ops us ≡ Some f) ↔ IsFirstFault shape device ops us f }
{}

/// A device's operations, each by an update that has seen all that the device has taken in so far: the updates can follow
/// the log, and what they make is the state after the operations, with the same limits against them. The operations are of
/// cells that take them.
pub fn taken_law()
    ensures start { (device : ℕ) → device < 16 → IsTakenIn [] device [] }
    ensures made { (log us : List Update) (device : ℕ) (ops : List RepOp) → IsTakenIn log device us → IsTakenIn (log ++ updates_made device ops us) device (us ++ updates_made device ops us) }
    ensures state { (shape : Shape) (log us : List Update) (device : ℕ) (ops : List RepOp) → IsTakenIn log device us → state_of_updates shape (us ++ updates_made device ops us) ≡ after_operations shape device ops (state_of_updates shape us) }
    ensures fault { (shape : Shape) (log us : List Update) (device : ℕ) (ops : List RepOp) → IsTakenIn log device us → list_all (is_operation_in shape) ops ≡ true → updates_fault shape device ops us ≡ operations_fault shape device ops (state_of_updates shape us) }
    ensures devices { (log us : List Update) (device : ℕ) → IsTakenIn log device us → (u : Update) → IsIn u us → u.dot.device < 16 }
{}
