//! The laws of counters and registers.
ghost use Rattle.std.specs.Prelude.{refl};
ghost use Rattle.re_terms.proofs.Joins.{counter_law};
ghost use Rattle.re_terms.proofs.Registers.{written_join};
ghost use Rattle.re_terms.specs.CellStates.{join_rows, join_written, rows_of, written_of};
ghost use Rattle.re_terms.specs.declared.replicated.RCell.TheVariants as content;
ghost use Rattle.re_terms.specs.declared.replicated.RKind.TheVariants as kind;

use re_terms::{Replicated, Rows, Written};

/// Counters: the merge takes the greater number in each place of the rows.
pub struct CounterLaw;

impl Replicated for CounterLaw {
    type Content = Rows;

    ghost kind = { λ words start. kind.Counter };

    ghost cell = { content.Counter };

    ghost made = { λ start cell us. rows_of cell us };

    ghost merged = { λ av bv a b. join_rows a b };

    ghost made_is = { λ words start place us. refl };

    ghost merged_is = { λ v w a b. refl };

    ghost join_law = { λ start cell. counter_law cell };
}

/// Registers: the merge keeps the greater stamp and device.
pub struct RegisterLaw;

impl Replicated for RegisterLaw {
    type Content = Written;

    ghost kind = { kind.Register };

    ghost cell = { content.Register };

    ghost made = { written_of };

    ghost merged = { λ av bv a b. join_written a b };

    ghost made_is = { λ words start place us. refl };

    ghost merged_is = { λ v w a b. refl };

    ghost join_law = { λ start cell log v w causal closed_v closed_w. written_join log v w start cell causal };
}
