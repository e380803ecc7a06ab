//! The turns of a device's transfer, over a pin's frames and the device's store.
#![tactic(auto)]

mod transfers;

pub use transfers::transfer;
