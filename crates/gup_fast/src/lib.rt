//! The lockless walk: pages are pinned without a lock, and what others do meanwhile is found out by looking again (Linux's
//! `gup_fast`, `mm/gup.c`).
#![tactic(auto)]

mod walk;

pub use walk::{GiveUp, Stage, Step, Walk};
