//! Where page tables that were taken out of a tree wait until no lockless walk can still be inside of one.
#![tactic(auto)]

mod limbo;

pub use limbo::{Limbo, Reclaim};

#[cfg(test)]
mod tests;
