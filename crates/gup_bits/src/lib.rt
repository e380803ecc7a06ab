//! A set of numbers below 8,192, a bit for each.
#![tactic(auto)]

mod bitmap;

pub use bitmap::Bitmap;

#[cfg(test)]
mod tests;
