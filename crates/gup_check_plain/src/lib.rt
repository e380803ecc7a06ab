//! What a checker of notes needs of the plain model: the state in which a script begins, who does an operation, who has got
//! references, and the answer by which the plain state denies an operation.
#![tactic(auto)]

mod beginning;
mod denials;
mod doer;
mod handles;
mod law;
mod pages;
mod references;

pub use beginning::start;
pub use denials::denial;
pub use doer::Doer;
pub use law::operations_fit;
pub use references::References;
