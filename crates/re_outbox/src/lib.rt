//! What a device may send: the state that it settled last.
#![tactic(auto)]

mod outbox;
#[cfg(test)]
mod tests;

pub use outbox::Outbox;
