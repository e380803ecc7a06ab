//! Tests of faults, forks, unmaps, slow pins and the page tables of a process.
#![tactic(auto)]

#[cfg(test)]
mod faults;
#[cfg(test)]
mod forks;
#[cfg(test)]
mod slow_pins;
#[cfg(test)]
mod tables;
#[cfg(test)]
mod unmaps;
