//! The turns of a move, over one process and the frames.
#![tactic(auto)]

mod moves;

pub use moves::take_move;
