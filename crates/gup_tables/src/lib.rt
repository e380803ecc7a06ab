//! Page tables: four levels of 512 words each, as x86-64 has them, and the pool that they are taken from.
#![tactic(auto)]

mod number;
mod path;
mod pool;
mod rows;
mod table;
mod tree;
mod word;

pub use gup_spec_tables::Place;
pub use number::TableNo;
pub use path::Path;
pub use pool::Pool;
pub use table::Table;
pub use tree::Tree;
pub use word::{index, link};

#[cfg(test)]
mod tests;
