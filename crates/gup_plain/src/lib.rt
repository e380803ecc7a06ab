//! The plain model of page pinning: each process owns its bytes, and no frame, count or mark occurs. Here stand
//! its events, the answers of operations, and the journal of a run.
#![tactic(auto)]

mod answer;
mod event;
mod journal;
mod note;

pub use answer::{Answer, Cause};
pub use event::PlainEvent;
pub use journal::Journal;
pub use note::{Note, Waiting, What};
