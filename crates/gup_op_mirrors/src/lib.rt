//! Of which pages a turn of an operation is to empty the mirror slots, before it is taken: of those whose entry it shares, breaks,
//! clears, lowers, drops or discards, or whose rights it sets.
#![tactic(auto)]

mod changes;
mod empties;
mod ranges;

pub use empties::empty_slots;
pub use ranges::{Pages, invalidated};
