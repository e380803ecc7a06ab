//! The reader of a script's text, and what the grammar promises of any text.
#![tactic(auto)]

mod declarations;
mod law;
mod operations;
mod read;
mod refusal;
mod stage;
mod turns;

pub use law::{one_fault, one_script, script_or_fault, scripts_have_no_fault};
pub use read::read_script;
