//! Whether an event or an answer of an operation is right, and what an actor waits for: by values alone.
#![tactic(auto)]

mod answers;
mod law;
mod waits;

pub use answers::{has_come_or_failed, is_right_answer, judged_before, may_stand, pages_got};
pub use law::{pages_are_got, waits_are_by_values, waits_are_seen};
pub use waits::{is_same_wait, keeps_lock, taken_handle, waits_for};
