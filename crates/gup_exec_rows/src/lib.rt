//! What the executable core machine keeps its state in: rows and grids, each read as a function of numbers.
#![tactic(auto)]

pub mod clearing;
pub mod grid;
pub mod handles;
pub mod mirrors;
pub mod objects;
pub mod procs;
pub mod row;
pub mod sheets;
pub mod stores;
pub mod tables;
