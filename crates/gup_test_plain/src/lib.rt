//! Tests of the plain model, of notes and of the text of answers. Tests stand apart from what they test, so that no crate is
//! proved twice.
#![tactic(auto)]

#[cfg(test)]
mod lines;
#[cfg(test)]
mod notes;
#[cfg(test)]
mod plain_events;
