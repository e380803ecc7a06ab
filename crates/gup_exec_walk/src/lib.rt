//! The executable core machine runs lockless walks, and changes the page tables that they read: a function for each of their
//! core events, just as the definitions say.
#![tactic(auto)]

mod ends;
mod pages;
mod parts;
mod tables;
mod tree;

pub use ends::{
    drop_first, drop_grab, drop_last, enter_walk, leave_walk, read_again, read_sequence,
};
pub use pages::{
    grab_frame, miss_frame, read_entry, read_link, read_mark, recheck_above, recheck_other,
    recheck_same,
};
pub use tables::{add_table, reclaim, take_out};
