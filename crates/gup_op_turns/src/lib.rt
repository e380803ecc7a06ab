//! The turn of any operation among all processes: what it does to page tables before, to mirror slots, to processes, frames and pins,
//! and to page tables after.
#![tactic(auto)]

mod copies;
mod slots;
mod takes;

pub use copies::{WordCopy, copy_at, seat_after, take_copy};
pub use slots::take_turn;
pub use takes::waits_at;
