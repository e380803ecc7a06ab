//! What the plain model keeps its state in: words and flags of a page, contents of objects, pages, processes, handles,
//! actors and mirror slots, each with what it is to the plain model.
#![tactic(auto)]

pub mod actor;
pub mod contents;
pub mod flags;
pub mod mirror;
pub mod pages;
pub mod pin;
pub mod space;
pub mod taken;
pub mod words;
