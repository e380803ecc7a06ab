//! Tests of what a machine keeps its state in: mappings, frames, handles, processes, stores and mirror slots, and of moves
//! and walks over them.
#![tactic(auto)]

#[cfg(test)]
mod frames;
#[cfg(test)]
mod handles;
#[cfg(test)]
mod maps;
#[cfg(test)]
mod mirrors;
#[cfg(test)]
mod moves;
#[cfg(test)]
mod spaces;
#[cfg(test)]
mod stores;
#[cfg(test)]
mod tables;
#[cfg(test)]
mod walks;
