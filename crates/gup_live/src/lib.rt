//! The actors of a script on threads of their own, which take their turns of one machine under one lock.
#![tactic(auto)]

mod bus;
mod outcome;
mod threads;

pub use bus::{Bus, Naming, Stepped};
pub use outcome::Live;
pub use threads::live;
