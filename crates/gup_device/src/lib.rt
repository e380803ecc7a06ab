//! The words that a device has of its own, and the transfer of a word between them and a frame.
#![tactic(auto)]

mod store;

pub use store::Store;
