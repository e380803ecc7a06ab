//! What a script says: its frames, processes, actors with their operations, written turns and seed.
#![tactic(auto)]

mod op;
mod script;

pub use op::{Kind, Op};
pub use script::{Actor, Contents, Process, Script};
