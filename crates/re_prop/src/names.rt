//! What an expression is evaluated over.
ghost use Rattle.std.proofs.Props.{props};
ghost use Rattle.std.specs.Prelude.{◌≡◌, map, Some, slice_get, slice_index_or};
ghost use Rattle.re_terms.specs.SignalWords.{no_word, replicated_place as place_of};
ghost use Rattle.re_terms.specs.Views.{cell_size, cell_has};
ghost use Rattle.re_prop.specs.Sets.{HasSets};

use crate::bodies::replicated_place;
use crate::view::{has_at, word_in};
use re_eval::Env;
use re_terms::{Decl, RCell, Word};

/// The words of the declarations that were gone through, and the replicated cells with the sizes of the sets among them.
#[derive(Clone, Copy)]
pub struct Names<'a> {
    pub decls: &'a [Decl],
    pub words: &'a [Word],
    pub cells: &'a [RCell],
    pub sizes: &'a [u32],
    ghost sets: { HasSets cells.now } by { Prim.hlevel props },
    ghost sized: { sizes.now ≡ map (λ c. cell_size (Some c)) cells.now },
}

impl<'a> Env for Names<'a> {
    ghost told = { λ e. record {
      word = λ id. slice_index_or e.words.now id no_word;
      size = λ id. cell_size (slice_get e.cells.now (place_of e.decls.now id));
      has = λ id. cell_has (slice_get e.cells.now (place_of e.decls.now id));
    } };

    fn word(&self, id: u16) -> Word {
        word_in(self.words, id as usize)
    }

    fn size(&self, id: u16) -> u32 {
        let place = replicated_place(self.decls, id as usize);
        self.sizes.get(place).copied().unwrap_or(0)
    }

    fn has(&self, id: u16, word: Word) -> bool {
        has_at(self.cells, replicated_place(self.decls, id as usize), word)
    }
}
