//! The grammar of scripts as definitions: how words are spelled, which lines may stand after others, which bytes are which
//! script, and which is the first fault of those that are none. Nothing is proved here.
#![tactic(auto)]

mod fault;
mod named;

pub use fault::{ReadRefusal, Reason, ScriptFault};
pub use named::Named;
