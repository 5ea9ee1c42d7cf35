//! One device of a program: its state, its entries, and the store that keeps them.
#![tactic(auto)]

mod advance;
mod device;
mod env;
mod fault;
pub mod laws;
mod readers;
mod store;
mod taking;

pub use device::Device;
pub use fault::{DeviceFault, Done};
