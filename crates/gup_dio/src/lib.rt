//! What a transfer of direct I/O moves: which word of a pin goes with which slot of a device's store, and when all of it is there.
#![tactic(auto)]

mod job;

pub use job::{Job, Place};
