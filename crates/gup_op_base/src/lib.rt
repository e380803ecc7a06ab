//! What the turn of an operation says, and what is true of a process between two turns.
#![tactic(auto)]

mod jobs;
mod page;
mod said;

pub use jobs::{JobPlace, WalkPlace};
pub use page::page_behind;
pub use said::Head;
