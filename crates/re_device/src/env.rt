//! A device as what an expression is evaluated over.
use crate::device::Device;
use re_eval::Env;
use re_terms::Word;

/// The current words, signals included, and the sizes and members of sets.
impl Env for Device {
    ghost use Rattle.re_device.specs.Device.{told_of};

    ghost told = { λ d. told_of d.memory };

    fn word(&self, id: u16) -> Word {
        self.word(id)
    }

    fn size(&self, id: u16) -> u32 {
        self.size_of(id)
    }

    fn has(&self, id: u16, word: Word) -> bool {
        self.contains(id, word)
    }
}
