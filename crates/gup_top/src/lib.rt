//! The top call of `gup`: what the program does, from its words and its bytes to its text, its status and its report.
#![tactic(auto)]

mod command;
mod live;
mod serial;
mod text;
mod top;

pub use serial::Report;
pub use top::gup;
