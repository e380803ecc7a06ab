//! What a picture of a trace shows, out of the trace and of the machine beside it: what each turn tells, and what is so behind it.
#![tactic(auto)]

mod heads;
mod operations;
mod pen;
mod rows;
mod said;
mod spans;
mod steps;
mod whole;

pub use whole::sketch;
