//! The law of sets.
ghost use Rattle.std.proofs.Common.{ap, refl};
ghost use Rattle.re_terms.proofs.Sets.{set_join};
ghost use Rattle.re_terms.specs.CellStates.{Pairing.AddWins, join_pairs, pairs_of};
ghost use Rattle.re_terms.specs.Listed.{plain};
ghost use Rattle.re_terms.specs.declared.replicated.RCell.TheVariants as content;
ghost use Rattle.re_terms.specs.declared.replicated.RKind.TheVariants as kind;

use re_terms::{Pair, Replicated, Seq};

/// Sets: the merge keeps the pairs that are in both, and those of one that the other's vector doesn't cover.
pub struct SetLaw;

impl Replicated for SetLaw {
    type Content = Seq<Pair>;

    ghost kind = { λ words start. kind.Set words };

    ghost cell = { content.Set };

    ghost made = { λ start cell us. plain (pairs_of AddWins cell us) };

    ghost merged = { λ av bv a b. plain (join_pairs av bv a.items b.items) };

    ghost made_is = { λ words start place us. refl };

    ghost merged_is = { λ v w a b. refl };

    ghost join_law = { λ start cell log v w causal closed_v closed_w. ap plain (set_join log v w AddWins cell causal closed_v closed_w) };
}
