//! What a machine is made of beside its script: frames, processes with their births, pins and stores, and where its actors stand; and
//! what an actor waits for before a turn of its operation: that its process is born, that a pin is given to it, or a lock.
#![tactic(auto)]

mod births;
mod locks;
pub mod parts;
pub mod seats;

pub use births::{Birth, birth_of, has_failed, set_birth};
pub use locks::{child_of, waits_for};
pub use parts::Parts;
