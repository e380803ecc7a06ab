//! What actors are in the middle of, and what the events of the executable core machine ask and change, in small parts.
#![tactic(auto)]

pub mod job;
pub mod lists;
pub mod needs;
pub mod refused;
pub mod taken;
pub mod trail;
pub mod walk;
