//! What the lines of a script so far have made: the script up to here, its names, and what counts and comes once.
#![tactic(auto)]

mod drawing;
mod reader;

pub use reader::Reader;
