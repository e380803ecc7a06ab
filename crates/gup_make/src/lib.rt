//! The script that is made from a number.
#![tactic(auto)]

mod maker;
mod word;

pub use maker::make_text;
