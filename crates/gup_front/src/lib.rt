//! What the programs have in common: a script is read from a source, one that is refused is told by its line, and an actor that is
//! stuck by what it waits for.
#![tactic(auto)]

mod reading;
mod text;

pub use reading::{ReadScript, Unread, read};
pub use text::{push_stuck_line, refusal_line};
