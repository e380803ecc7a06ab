//! Tests of the top call `gup`, over sources and sinks in memory.
#![tactic(auto)]

#[cfg(test)]
mod calls;
#[cfg(test)]
mod checks;
#[cfg(test)]
mod lives;
#[cfg(test)]
mod tests;
