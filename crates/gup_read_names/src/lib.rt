//! The space of names that processes, actors, handles and mirror slots of a script share.
#![tactic(auto)]

mod names;

pub use names::Names;
