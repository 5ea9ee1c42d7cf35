//! What follows for an entry that reaches part of a program.
ghost use Rattle.std.specs.Prelude.{◌≡◌, ℕ, List, None, true, false};
ghost use Rattle.re_terms.specs.declared.entry.Entry.{Entry};
ghost use Rattle.re_terms.specs.declared.program.Program.{Program};
ghost use Rattle.re_terms.specs.Dependencies.{graph_of, is_reached};
ghost use Rattle.re_terms.specs.Programs.{IsProgram};
ghost use Rattle.re_terms.specs.Propagation.{Step, effect};
ghost use Rattle.re_terms.specs.SignalWords.{signal_word};
ghost use Rattle.re_eval.specs.Told.{Told};
ghost use Rattle.re_levels.specs.Seen.{seen, sight_of};
ghost use Rattle.re_levels.specs.Telling.{HoldsTouched, TellsOf};

/// What isn't reached from what an entry touches keeps its word, and doesn't occur.
pub fn unreached_law()
    ensures word { (p : Program) (s : Step) (touched : List ℕ) (id : ℕ) →
        IsProgram p → HoldsTouched p s touched →
        is_reached (graph_of p.decls.items) touched id ≡ false →
        (effect p s id).word ≡ signal_word p s.words s.old_view id }
    ensures still { (p : Program) (s : Step) (touched : List ℕ) (id : ℕ) →
        IsProgram p → HoldsTouched p s touched →
        is_reached (graph_of p.decls.items) touched id ≡ false →
        (effect p s id).occurrence ≡ None }
{}

/// What is reached has after an entry what two environments make of it, if one tells the words before the entry of what is
/// reached and of its inputs, and the other the replicated cells among these after it. No other names are asked for.
pub fn reached_law()
    ensures { (p : Program) (e : Entry) (touched : List ℕ) (old new : Told) (s : Step) (id : ℕ) →
        IsProgram p → TellsOf p e touched old new s →
        is_reached (graph_of p.decls.items) touched id ≡ true →
        seen p (sight_of e touched old new) id ≡ effect p s id }
{}
