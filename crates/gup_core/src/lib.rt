//! The machine: it takes the turns of a script's core run, with no more memory than it had at the start.
#![tactic(auto)]

mod inner;
mod machine;
mod outcome;
mod turn;
mod turns;

pub use machine::{Machine, images_are_exact, images_are_of_states};
pub use outcome::{Advanced, Woken};
pub use turn::Turn;
