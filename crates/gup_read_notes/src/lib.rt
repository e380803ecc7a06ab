//! The lines of a trace behind its script: the note that each is.
#![tactic(auto)]

mod answers;
mod events;
mod fields;
mod names;
mod note;
mod table;

pub use names::Names;
pub use note::{one_note, read_note};
