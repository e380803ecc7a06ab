//! Tests of the search over every order of a script's turns.
#![tactic(auto)]

#[cfg(test)]
mod orders;
