//! The checker of traces: whether notes can be the beginning of a journal of their script, and if not, which is the first that
//! can't. It stands on the plain model and on when a journal is right, and on nothing of the machine.
#![tactic(auto)]

mod law;
mod take;
mod verdict;

pub use law::one_verdict;
pub use verdict::check;
