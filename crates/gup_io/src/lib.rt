//! What the program reads from and writes to, and the pace of its threads.
#![tactic(auto)]

mod memory;
mod pace;
mod real;
mod sink;
mod source;
#[cfg(test)]
mod tests;

pub use memory::{MemSink, MemSource, SureSource};
pub use pace::{NoPace, Pace};
pub use real::{FromStd, ToStd};
pub use sink::{Sink, write_all};
pub use source::{ReadToEnd, Source, read_up_to};
use std::error::Error;
use std::fmt;

/// A read or a write that the outside refused.
#[derive(Clone, Copy, Debug, PartialEq, Eq)]
pub struct Failed;

impl fmt::Display for Failed {
    fn fmt<W: fmt::Write>(&self, f: &mut fmt::Formatter<W>) -> fmt::Result {
        f.write_str("the outside failed")
    }
}

impl Error for Failed {}
