//! The image of a machine between two turns: a list of facts, of which no two machines have the same that differ in anything that a
//! turn reads. The laws of images say so.
#![tactic(auto, using(crate::proofs::Gathered::gathering))]

mod actors;
mod all;
mod fact;
mod frames;
mod handles;
mod law;
mod processes;
mod tables;

pub use all::{image, is_whole};
pub use fact::{Fact, KeptFact};
pub use law::{images_are_exact, images_are_of_states};
