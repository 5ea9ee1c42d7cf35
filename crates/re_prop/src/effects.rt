//! The effects of declarations, as they are found one by one.
ghost use Rattle.std.specs.Prelude.{◌≡◌, [], ◌∷◌, ◌++◌, slice_index_or, OnOk, None};
ghost use Rattle.re_terms.specs.SignalWords.{no_word};

use crate::view::{NO_WORD, word_in};
use re_terms::Word;
use std::alloc::{AllocError, Global};

/// The words and the values of the declarations that were gone through, in order.
#[derive(Drop)]
pub struct Effects {
    pub words: Vec<Word>,
    pub values: Vec<Option<Word>>,
}

impl Effects {
    /// Those of no declaration.
    pub fn new(alloc: Global) -> Effects
        ensures words { result.words.items ≡ [] }
        ensures values { result.values.items ≡ [] }
    {
        Effects {
            words: Vec::new(alloc),
            values: Vec::new(alloc),
        }
    }

    /// The word of a declaration, and 0 where it was not gone through.
    pub fn word(&self, id: u16) -> Word
        ensures { result ≡ slice_index_or self.now.words.items id no_word }
    {
        word_in(&self.words, id as usize)
    }

    /// The value of an event that occurs.
    pub fn value(&self, id: u16) -> Option<Word>
        ensures { result ≡ slice_index_or self.now.values.items id None }
    {
        match self.values.get(id as usize) {
            Some(value) => *value,
            None => None,
        }
    }

    /// One declaration more. The one refusal is want of memory, and leaves neither list of use.
    pub fn push(&mut self, word: Word, value: Option<Word>) -> Result<(), AllocError>
        ensures words { OnOk result (self.new.words.items ≡ self.old.words.items ++ word ∷ []) }
        ensures values { OnOk result (self.new.values.items ≡ self.old.values.items ++ value ∷ []) }
    {
        self.words.push(word)?;
        self.values.push(value)?;
        Ok(())
    }
}
