//! Whether one more note fits those before it.
#![tactic(auto)]

mod fitting;
mod present;
mod turn;
mod waits;

pub use fitting::judge;
