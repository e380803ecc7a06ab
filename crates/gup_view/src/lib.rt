//! A machine's facts, put together for a picture: each frame with all that names it, and in words what differs from one state to another.
#![tactic(auto)]

mod changes;
mod view;
mod words;

pub use changes::push_changes;
pub use view::{FrameView, Holder, ProcessView, SlotView, View, WordView};
