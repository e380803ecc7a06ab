//! What turns do to page tables: before a page is made ready it gets the tables that it lacks, and after a page has lost its mapping
//! its empty tables go.
#![tactic(auto)]

mod changes;
mod pages;
mod parts;

pub use changes::{grow, release, retire};
pub use pages::{Spot, page_to_grow, page_to_retire};
pub use parts::{child_before, grow_for, page_down, shrink_for};
