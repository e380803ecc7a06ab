//! What every part of the model of page pinning counts and names with: bounded numbers, rights, page table
//! entries and how they are packed, counts with pins, short lists without an allocator, and the error of a failed allocation.
#![tactic(auto)]

mod counts;
mod entry;
mod lists;
mod memory;
mod numbers;

pub use counts::{PIN_BIAS, maybe_pinned, with_pin, without_pin};
pub use entry::{Allowed, Entry, Rights, Want, Zone, pack, unpack};
pub use lists::{Parts, Words};
pub use memory::NoMemory;
pub use numbers::{ActorNo, FrameNo, HandleNo, MirrorNo, PageNo, ProcNo, WordNo};

#[cfg(test)]
mod tests;
