//! The words of signals.
ghost use Rattle.std.specs.Prelude.{◌≡◌, ◌<◌, length, slice_index_or, IfOk};
ghost use Rattle.std.specs.List.{All};
ghost use Rattle.re_terms.specs.Programs.{IsProgram};
ghost use Rattle.re_terms.specs.Shapes.{FitsShape, shape_of};
ghost use Rattle.re_terms.specs.SignalWords.{no_word};
ghost use Rattle.re_terms.specs.Views.{view_of};
ghost use Rattle.re_prop.specs.Caching.{put_all, signal_words};

use crate::words::evaluated;
use re_terms::{Program, Put, Seq, State, Word};
use std::alloc::{AllocError, Global};
use std::marker::Model;

/// The words of a program's signals, so that none is evaluated twice in one state.
///
/// Contracts see one word for each declaration, that of a signal its own, and 0 for all others.
#[derive(Drop)]
pub struct Cache {
    words: Vec<Word>,
}

impl Model for Cache {
    ghost use Rattle.std.specs.Prelude.{List};
    ghost use Rattle.re_terms.specs.declared.word.Word.{Word};

    ghost Value = { List Word };

    ghost view = { λ c. c.words.items };
}

impl Cache {
    /// The words of all signals in a state of the program. The one refusal is want of memory.
    pub fn fill(alloc: Global, p: &Program, s: &State) -> Result<Cache, AllocError>
        requires program { IsProgram p.now }
        requires rep { FitsShape (shape_of p.now) s.now.rep }
        ensures { IfOk result (λ cache. cache ≡ signal_words p.now s.now.words.items (view_of s.now.rep)) }
    {
        Ok(Cache {
            words: evaluated(alloc, p, s)?,
        })
    }

    /// The word of a signal, and 0 for any other declaration.
    pub fn word(&self, id: u16) -> Word
        requires { id < length self.now }
        ensures { result ≡ slice_index_or self.now id no_word }
    {
        self.words[id as usize]
    }

    /// Puts these words in the places of their ids, in this order.
    pub fn put(&mut self, signals: &Seq<Put>)
        requires { All (λ put. put.id < length self.old) signals.now.items }
        ensures { self.new ≡ put_all self.old signals.now.items }
    {
        for put in signals.as_slice() {
            self.words[put.id as usize] = put.word;
        }
    }
}
