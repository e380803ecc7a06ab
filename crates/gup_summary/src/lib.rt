//! The summary of a run: how many answers it has, how many say `ok`, its turns, and the sum of the words that were read and moved.
#![tactic(auto)]

mod counting;

pub use counting::summary_lines;
