//! Faults: what a load, a store or a pin does to the page table and to frames before it reads, writes or takes a page
//! (of Linux's `handle_mm_fault`, for private anonymous memory).
#![tactic(auto)]

mod denied;
mod ready;
mod steps;

pub use denied::{Denied, NoFrame, answer_of};
pub use ready::{ready_read, ready_write, unshare};
pub use steps::{break_copy, fill, mark, upgrade};
