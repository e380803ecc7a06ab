//! What a checker of traces reads and writes: a trace is read from a source, and its verdict is a line; the command `check` does
//! both. A law says that accepted notes are never called wrong.
#![tactic(auto)]

mod law;
mod reading;
mod run;
mod text;

pub use law::accepted_notes_are_never_wrong;
pub use reading::read_from;
pub use run::{Checked, check_source};
pub use text::verdict_line;
