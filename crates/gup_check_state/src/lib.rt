//! What a checker keeps of the notes that it has taken.
#![tactic(auto)]

mod behind;
mod follow;
mod kept;

pub use kept::{Fit, Kept, Progress};
