//! What follows from the grammar of tokens, for every text.
ghost use Rattle.std.specs.Prelude.{ℕ, ◌≡◌, List, Some, None};
ghost use Rattle.re_terms.specs.declared.token.Mark.{Mark};
ghost use Rattle.re_terms.specs.declared.token.Token.{Token};
ghost use Rattle.re_tokens.specs.TokenGrammar.{IsTokens, NoTokenAt};
ghost use Rattle.re_tokens.specs.WholeLists.{tokens_of, marks_before_end};

/// A text has at most one list of tokens, and at most one first place where no token begins, and never both.
pub fn tokens_law()
    ensures one_list { (text : List ℕ) (tokens others : List Token) → IsTokens text tokens → IsTokens text others → tokens ≡ others }
    ensures one_place { (text : List ℕ) (place other : ℕ) → NoTokenAt text place → NoTokenAt text other → place ≡ other }
    ensures never_both { (text : List ℕ) (tokens : List Token) (place : ℕ) → IsTokens text tokens → NoTokenAt text place → ⊥ }
{}

/// The marks of a text as one whole list are those of its tokens, and there are none exactly where at some place no token begins.
pub fn marks_law()
    ensures list { (text : List ℕ) (tokens : List Token) → IsTokens text tokens → tokens_of text ≡ Some (marks_before_end tokens) }
    ensures no_list { (text : List ℕ) (place : ℕ) → NoTokenAt text place → tokens_of text ≡ None }
    ensures tokens { (text : List ℕ) (marks : List Mark) → tokens_of text ≡ Some marks → (tokens : List Token) × IsTokens text tokens × (marks_before_end tokens ≡ marks) }
    ensures place { (text : List ℕ) → tokens_of text ≡ None → (place : ℕ) × NoTokenAt text place }
{}
