//! Page tables as definitions: where a table stands in a process's tree, what its words are, which tables a page lacks, and which can be
//! taken out.
#![tactic(auto)]

mod place;

pub use place::Place;
