//! The machine beside a trace: turn by turn it takes the turns that the trace tells, and shows the state behind each, as long as it tells the
//! same.
#![tactic(auto)]

mod cut;
mod events;
mod replay;

pub use cut::cut_turn;
pub use replay::Replay;
