//! Conditions on what the runs of a script print, in any order of its actors' turns: how they stand in a script's comments, and what the
//! outcomes of a search say of them.
#![tactic(auto)]

mod answers;
mod condition;
mod line;
mod operations;
mod read;
mod shown;
mod verdict;

pub use condition::{Condition, Often};
pub use line::{Line, has_line};
pub use operations::named;
pub use read::{ConditionFault, ConditionReason, ConditionRefusal, read_conditions};
pub use shown::Shown;
pub use verdict::{Verdict, judge};
