//! The turns of a fork, over its parent, its child and the frames.
#![tactic(auto)]

mod forks;

pub use forks::{Forked, fork, next_page, word_turn};
