//! The page tables of one process: its tree, and the tables that were taken out of it and aren't free yet.
#![tactic(auto)]

mod page_tables;

pub use page_tables::{NoTable, PageTables};

#[cfg(test)]
mod tests;
