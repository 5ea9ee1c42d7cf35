//! What an expression is evaluated over.
use crate::found::{Found, found_of};
use re_eval::Env;
use re_terms::Word;

/// What was found so far, the words before the entry of all other names, and the sets after it.
#[derive(Drop)]
pub struct Names<'a, O: Env, N: Env> {
    pub old: &'a O,
    pub new: &'a N,
    pub found: &'a [Found],
}

impl<'a, O: Env, N: Env> Env for Names<'a, O, N> {
    ghost use Rattle.re_levels.specs.Found.{told_among};

    ghost told = { λ e. told_among (O.told e.old.now) (N.told e.new.now) e.found.now };

    fn word(&self, id: u16) -> Word {
        match found_of(self.found, id) {
            Some(found) => found.word,
            None => self.old.word(id),
        }
    }

    fn size(&self, id: u16) -> u32 {
        self.new.size(id)
    }

    fn has(&self, id: u16, word: Word) -> bool {
        self.new.has(id, word)
    }
}
