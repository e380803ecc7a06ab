//! An executable core machine: a state that one method for each core event changes, just as the definitions say.
#![tactic(auto)]

mod data;
mod faults;
mod forks;
mod mappings;
mod moves;
mod pins;
mod tables;
mod trial;

pub use gup_exec_jobs::refused::Refused;
pub use trial::Trial;
