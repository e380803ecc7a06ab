//! The reader of a trace, and what its grammar promises of any text.
#![tactic(auto)]

mod law;
mod lines;
mod notes;
mod read;
#[cfg(test)]
mod tests;

pub use law::{one_trace, traces_have_no_fault};
pub use read::{Trace, read_trace};
