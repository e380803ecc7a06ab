//! The text of a run: the line of each answer, and the lines of the actors that are stuck.
#![tactic(auto)]

mod kept;
mod lines;
mod names;
mod outcome;
mod pieces;

pub use lines::{outcomes, push_answer, push_line, push_lines, push_stuck};
pub use names::{handle_name, name_of, process_name, slot_name};
pub use outcome::{Outcome, Outcomes};
pub use pieces::{push_number, push_text, write_number};
