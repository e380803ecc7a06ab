//! Scripts for the tests of the top call, with the statuses and the texts of their runs.
#![tactic(auto)]

mod examples;
mod runs;

pub use examples::EXAMPLES;
pub use runs::RUNS;
