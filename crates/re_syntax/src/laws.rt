//! What follows from the grammar of programs, for every list of tokens.
ghost use Rattle.std.specs.Prelude.{List};
ghost use Rattle.re_terms.specs.Tokens.{IsTokenList};
ghost use Rattle.re_terms.specs.declared.token.Token.{Token};
ghost use Rattle.re_syntax.specs.OneAnswer.{HasNoOtherTree, HasNoOtherRefusal, HasNotBoth};

/// A list of tokens has at most one tree, and at most one refusal, which has one place, and never both.
pub fn syntax_law()
    ensures once { (tokens : List Token) → IsTokenList tokens → HasNoOtherTree tokens }
    ensures one_place { (tokens : List Token) → IsTokenList tokens → HasNoOtherRefusal tokens }
    ensures no_tree { (tokens : List Token) → IsTokenList tokens → HasNotBoth tokens }
{}
