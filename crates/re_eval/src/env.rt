//! Environments.
ghost use Rattle.std.specs.Prelude.{◌≡◌};

use re_terms::Word;

/// What an expression is evaluated over.
///
/// An environment answers for every id, so that no call has a condition; of an id that isn't a cell's it may tell anything.
pub trait Env {
    ghost use Rattle.re_eval.specs.Told.{Told};

    ghost told: { Self → Told };

    /// The word of a var, signal, fold, counter or register.
    fn word(&self, id: u16) -> Word
        ensures { result ≡ (told self.now).word id };

    /// How many elements a set has.
    fn size(&self, id: u16) -> u32
        ensures { result ≡ (told self.now).size id };

    /// Whether a set has the element. A fault is no element, and isn't asked for.
    fn has(&self, id: u16, word: Word) -> bool
        ensures { result ≡ (told self.now).has id word };
}
