//! The turns of operations on pages: load, store, map, unmap, protect, discard and exit, over one process and the frames.
#![tactic(auto)]

mod loads;
mod mappings;
mod ops;
mod unmaps;

pub use loads::{allows_store, make_present};
pub use ops::{needs_table, take};
