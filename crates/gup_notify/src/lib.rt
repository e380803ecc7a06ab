//! The mirror slots of devices, and the notifier that empties them before a page changes.
#![tactic(auto)]

mod mirrors;

pub use mirrors::{Mirror, Mirrors};
