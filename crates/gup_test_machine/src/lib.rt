//! Tests of the machine that takes turns.
#![tactic(auto)]

#[cfg(test)]
mod machine;
