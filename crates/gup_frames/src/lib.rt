//! The frames of the machine: the references, the mark and the words of each, and which of them are free.
#![tactic(auto)]

mod frames;
mod words;

pub use frames::Frames;
