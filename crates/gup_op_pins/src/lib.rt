//! The turns of operations on pins and references: a pin is made page by page, given from one actor to another, and given back
//! page by page; a reference is got and put back.
#![tactic(auto)]

mod holds;
mod pins;
mod references;
mod walks;

pub use holds::{give, take_over, unpin};
pub use pins::{PinCall, pin};
pub use references::{get, put};
