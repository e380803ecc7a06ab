//! The mappings of a process: which of its pages are mapped, and with which rights.
#![tactic(auto)]

mod maps;
mod rows;
mod table;

pub use maps::{Hole, MapRefusal, Maps};
pub use table::Table;
