//! The plain model as a program, and what is promised over every list of its events.
#![tactic(auto)]

mod devices;
mod events;
mod forks;
mod law;
mod parts;
mod pinning;
mod plain;
mod refusal;

pub use law::{last_write, pages_are_counted, runs_are_possible};
pub use plain::Plain;
pub use refusal::PlainRefusal;
