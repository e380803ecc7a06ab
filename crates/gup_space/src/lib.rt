//! One process of the machine: its mappings, its page tables with their entries, and what forks, pins and locks keep of it. The law of
//! its page tables says that what becomes of them is what the core events do.
#![tactic(auto)]

mod law;
mod space;

pub use law::{growth_is_events, shrinking_is_events};
pub use space::Space;
