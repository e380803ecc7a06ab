//! Pins and got references, each by the actor that holds it.
#![tactic(auto)]

mod handle;
mod handles;

pub use handle::HandleState;
pub use handles::{Handles, NotHeld};
