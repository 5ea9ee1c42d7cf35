//! What follows from the definition of propagation, for every program and every entry.
ghost use Rattle.std.specs.Prelude.{◌≡◌, ◌<◌, ℕ, Some, None, true, length, count_by, slice_get, slice_index_or};
ghost use Rattle.std.specs.List.{All, AllPairs};
ghost use Rattle.re_terms.specs.declared.expr.Expr.{Expr};
ghost use Rattle.re_terms.specs.declared.program.Decl.{Decl};
ghost use Rattle.re_terms.specs.declared.program.Program.{Program};
ghost use Rattle.re_terms.specs.declared.word.Kind.{Kind};
ghost use Rattle.re_terms.specs.declared.word.Word.{Word};
ghost use Rattle.re_terms.specs.Cells.{is_cell, cell_place};
ghost use Rattle.re_terms.specs.Changes.{with_changes};
ghost use Rattle.re_terms.specs.Programs.{IsProgram};
ghost use Rattle.re_terms.specs.Propagation.{Step, effect, put_word, words_after, changes, signal_changes, is_cell_at, is_signal_at};
ghost use Rattle.re_terms.specs.SignalWords.{no_word, signal_word};
ghost use Rattle.re_prop.specs.Caching.{put_all, signal_words};
ghost use Rattle.re_prop.specs.Folds.{IsFoldAt};

use re_terms::Body;

/// A fold whose event does not occur keeps its word. Where no event occurs, no fold is among the changes.
pub fn keep_law()
    ensures kept { (p : Program) (step : Step) (id : ℕ) (d : Decl) (kind : Kind) (start : Word) (source : ℕ) (expr : Expr) (region : ℕ) →
        slice_get p.decls.items id ≡ Some d → d.body ≡ Body.Fold kind start source expr region →
        (effect p step source).occurrence ≡ None →
        slice_index_or (words_after p step) (cell_place p.decls.items id) no_word ≡ slice_index_or step.words (cell_place p.decls.items id) no_word }
    ensures still { (p : Program) (step : Step) →
        ((id : ℕ) → (effect p step id).occurrence ≡ None) →
        All (λ put. IsFoldAt p.decls.items put.id → ⊥) (changes p step) }
{}

/// Where a turn sets a var to its own word, no `changed` of it occurs.
pub fn unchanged_law()
    ensures { (p : Program) (step : Step) (var id : ℕ) (v d : Decl) (kind : Kind) (start : Word) (region : ℕ) →
        IsProgram p →
        slice_get p.decls.items var ≡ Some v → v.body ≡ Body.Var kind start region →
        put_word step.sets var ≡ Some (slice_index_or step.words (cell_place p.decls.items var) no_word) →
        slice_get p.decls.items id ≡ Some d → d.body ≡ Body.Changed var →
        (effect p step id).occurrence ≡ None }
{}

/// What an entry changes leads from the state before it to the state after it: each declaration has its word there, and
/// the changes, put into the words of vars and folds and into the words of signals, give those after it.
pub fn put_law()
    ensures words { (p : Program) (step : Step) (id : ℕ) → (effect p step id).word ≡ signal_word p (words_after p step) step.new_view id }
    ensures count { (p : Program) (step : Step) → length (words_after p step) ≡ count_by is_cell p.decls.items }
    ensures changes { (p : Program) (step : Step) → length step.words ≡ count_by is_cell p.decls.items →
        with_changes p.decls.items step.words (changes p step) ≡ words_after p step }
    ensures signals { (p : Program) (step : Step) →
        put_all (signal_words p step.words step.old_view) (signal_changes p step) ≡ signal_words p (words_after p step) step.new_view }
{}

/// The changes of an entry ascend by id, each once, and are of vars and folds; those of signals are of signals.
pub fn order_law()
    ensures changes { (p : Program) (step : Step) → AllPairs (λ a b. a.id < b.id) (changes p step) }
    ensures cells { (p : Program) (step : Step) → All (λ put. is_cell_at p.decls.items put.id ≡ true) (changes p step) }
    ensures signal_changes { (p : Program) (step : Step) → AllPairs (λ a b. a.id < b.id) (signal_changes p step) }
    ensures signals { (p : Program) (step : Step) → All (λ put. is_signal_at p.decls.items put.id ≡ true) (signal_changes p step) }
{}
