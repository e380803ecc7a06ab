//! The orders in which the actors of a script can take their turns, and what each order comes to and prints, as definitions. Nothing is
//! proved here.
#![tactic(auto)]

mod told;

pub use told::{Named, Outcome, Tell, Told};
