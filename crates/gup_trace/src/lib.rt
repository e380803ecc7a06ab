//! Traces: the text of a journal, a line for each of its notes.
#![tactic(auto)]

mod events;
mod notes;
mod words;

pub use notes::{push_journal, push_note};
