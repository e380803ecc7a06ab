//! Tests of the definitions that run: random events, tried on the machines that do them, happen just where the definitions have
//! it, and what is published of every state stands in each.
#![tactic(auto)]

#[cfg(test)]
mod core_events;
#[cfg(test)]
mod walks;
