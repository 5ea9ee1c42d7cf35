//! The laws of kinds: what has a kind stands for words of that kind.
ghost use Rattle.std.specs.Prelude.{true, ◌≡◌, ℕ, List, Some, count_by, length};
ghost use Rattle.re_terms.specs.Admission.{IsEntryOf, symbol_count};
ghost use Rattle.re_terms.specs.Cells.{is_cell};
ghost use Rattle.re_terms.specs.Changes.{with_changes};
ghost use Rattle.re_terms.specs.Kinds.{Place, Sort, agrees_with, event_kind, expr_kind, sorts_of, value_kind};
ghost use Rattle.re_terms.specs.Listed.{plain};
ghost use Rattle.re_terms.specs.Meaning.{Environment, meaning};
ghost use Rattle.re_terms.specs.Programs.{IsProgram, has_literals};
ghost use Rattle.re_terms.specs.Propagation.{Step, changes, effect, step_in, words_after};
ghost use Rattle.re_terms.specs.ShapedUpdates.{IsWithinLimits, is_update_of};
ghost use Rattle.re_terms.specs.Shapes.{FitsShape, shape_of, start_state, start_words};
ghost use Rattle.re_terms.specs.SignalWords.{signal_word};
ghost use Rattle.re_terms.specs.Updates.{IsCausalLog, IsIn, Update};
ghost use Rattle.re_terms.specs.UpdateStates.{state_of_updates};
ghost use Rattle.re_terms.specs.Values.{view_of_updates};
ghost use Rattle.re_terms.specs.Views.{View, view_of};
ghost use Rattle.re_terms.specs.WordKinds.{AreChangesOf, AreWordsOf, IsEnvironmentOf, IsStateOf, IsStepOf, IsViewOf, is_word_or_fault};
ghost use Rattle.re_terms.specs.declared.entry.Entry.{Entry};
ghost use Rattle.re_terms.specs.declared.entry.Put.{Put};
ghost use Rattle.re_terms.specs.declared.entry.State.{State};
ghost use Rattle.re_terms.specs.declared.expr.Expr.{Expr};
ghost use Rattle.re_terms.specs.declared.program.Program.{Program};
ghost use Rattle.re_terms.specs.declared.replicated.RState.{RState};
ghost use Rattle.re_terms.specs.declared.word.Kind.{Kind};
ghost use Rattle.re_terms.specs.declared.word.Word.{Word};

/// An expression that agrees with a kind, over words that are each of their kinds or faults, means a word of that kind or a
/// fault.
pub fn meaning_kind_law()
    ensures { (symbols : ℕ) (sorts : List Sort) (place : Place) (env : Environment) (e : Expr) (k : Kind) → agrees_with k (expr_kind sorts place e) ≡ true → has_literals symbols e ≡ true → IsEnvironmentOf symbols sorts place env → is_word_or_fault symbols k (meaning e env) ≡ true }
{}

/// A program's start words are of their kinds. So is what a replicated state of its shape shows, and what updates show that
/// are in one causal log, of the shape, and make a state within the limits. Over words and a view of their kinds the word of
/// each var, signal, fold, counter and register is of its kind or a fault.
pub fn name_kind_law()
    ensures start { (p : Program) → IsProgram p → AreWordsOf p (start_words p.decls.items) }
    ensures view { (p : Program) (r : RState) → IsProgram p → FitsShape (shape_of p) r → IsViewOf p (view_of r) }
    ensures updates { (p : Program) (log us : List Update) → IsProgram p → IsCausalLog log → ((u : Update) → IsIn u us → IsIn u log) → ((u : Update) → IsIn u us → is_update_of (shape_of p) u ≡ true) → IsWithinLimits (state_of_updates (shape_of p) us) → IsViewOf p (view_of_updates (shape_of p) us) }
    ensures names { (p : Program) (words : List Word) (view : View) (id : ℕ) (k : Kind) → IsProgram p → AreWordsOf p words → IsViewOf p view → value_kind (sorts_of p.decls.items) id ≡ Some k → is_word_or_fault (symbol_count p.decls.items) k (signal_word p words view id) ≡ true }
{}

/// An entry that sets vars and fires source events to words of their kinds, over words and views of their kinds: after it
/// each name has a word of its kind or a fault, each event that occurs a value of its kind or a fault, and the words of
/// vars and folds are of their kinds again. What it changes are vars and folds, by ascending ids, to words that these may
/// keep.
pub fn entry_kind_law()
    ensures names { (p : Program) (s : Step) (id : ℕ) (k : Kind) → IsProgram p → IsStepOf p s → value_kind (sorts_of p.decls.items) id ≡ Some k → is_word_or_fault (symbol_count p.decls.items) k (effect p s id).word ≡ true }
    ensures values { (p : Program) (s : Step) (id : ℕ) (k : Kind) (w : Word) → IsProgram p → IsStepOf p s → event_kind (sorts_of p.decls.items) id ≡ Some k → (effect p s id).occurrence ≡ Some w → is_word_or_fault (symbol_count p.decls.items) k w ≡ true }
    ensures words { (p : Program) (s : Step) → IsProgram p → IsStepOf p s → AreWordsOf p (words_after p s) }
    ensures changes { (p : Program) (s : Step) → IsProgram p → IsStepOf p s → AreChangesOf p (changes p s) }
{}

/// A program begins with a state of it. An entry of the program, over a state of it and with a replicated state of its
/// shape behind it, has what the laws of entries ask for, and the words after it stand in a state of the program again.
pub fn state_kind_law()
    ensures start { (p : Program) → IsProgram p → IsStateOf p (start_state p) }
    ensures step { (p : Program) (s : State) (e : Entry) (after : RState) → IsProgram p → IsStateOf p s → IsEntryOf p e → FitsShape (shape_of p) after → IsStepOf p (step_in s e after) }
    ensures after { (p : Program) (s : State) (e : Entry) (after : RState) → IsProgram p → IsStateOf p s → IsEntryOf p e → FitsShape (shape_of p) after → IsStateOf p (record { words = plain (words_after p (step_in s e after)); rep = after }) }
{}

/// Changes of vars and folds, put into words of their kinds, give words of their kinds. The changes of an entry, put into
/// the words before it, give the words after it.
pub fn change_law()
    ensures after { (p : Program) (s : Step) → length s.words ≡ count_by is_cell p.decls.items → with_changes p.decls.items s.words (changes p s) ≡ words_after p s }
    ensures kinds { (p : Program) (words : List Word) (puts : List Put) → AreWordsOf p words → AreChangesOf p puts → AreWordsOf p (with_changes p.decls.items words puts) }
{}
