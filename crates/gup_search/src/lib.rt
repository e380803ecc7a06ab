//! Every order of a script's turns: the outcomes that they come to, each with one of the shortest orders that lead there.
#![tactic(auto)]

mod ends;
mod expand;
mod graph;
mod pools;
mod replay;
mod search;
mod states;
mod tells;

pub use search::{Explored, explore};
