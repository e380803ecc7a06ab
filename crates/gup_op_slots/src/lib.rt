//! The turns of operations on mirror slots: mirror and look.
#![tactic(auto)]

mod mirrors;

pub use mirrors::{look, mirror};
