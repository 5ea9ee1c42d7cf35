//! The state that a device settled last, and its packet.
ghost use Rattle.std.specs.Prelude.{◌≡◌, IfOk};
ghost use Rattle.re_outside.specs.Listed.{plain};
ghost use Rattle.re_terms.specs.Shapes.{FitsShape, IsShape};
ghost use Rattle.re_terms.specs.Spellings.{packet_bytes};

use re_outside::Bytes;
use re_terms::{RState, Shape};
use re_wire::encode;
use std::alloc::{AllocError, Global};
use std::marker::Model;

/// The replicated state that a device settled last. Contracts see this state. Whoever holds it gives it
/// settled states alone, so that no update is sent which a stop could still take back.
#[derive(Drop)]
pub struct Outbox {
    alloc: Global,
    state: RState,
}

impl Model for Outbox {
    ghost use Rattle.re_terms.specs.declared.replicated.RState.{RState};

    ghost Value = { RState };

    ghost view = { λ outbox. outbox.state };
}

impl Outbox {
    /// The outbox of a device that was opened with this state. It takes no memory.
    pub fn new(alloc: Global, state: RState) -> Outbox
        ensures { result ≡ state }
    {
        Outbox { alloc, state }
    }

    /// Takes the state that the device has settled now, in place of the one before. It takes no memory.
    pub fn settled(&mut self, state: RState)
        ensures { self.new ≡ state }
    {
        self.state = state;
    }

    /// The state that was settled last. It takes no memory.
    pub fn state(&self) -> &RState
        ensures { result.now ≡ self.now }
    {
        &self.state
    }

    /// The packet of the state that was settled last: its bytes stand in docs/FORMATS.md. The one refusal is want of memory.
    ///
    /// The condition is that the state fits the shape, which is one that a program can have.
    pub fn packet(&self, shape: &Shape) -> Result<Bytes, AllocError>
        requires shape { IsShape shape.now }
        requires fits { FitsShape shape.now self.now }
        ensures { IfOk result (λ bytes. bytes ≡ plain (packet_bytes shape.now.devices self.now)) }
    {
        encode(self.alloc, &self.state, shape)
    }
}
