//! Tests of the reader: words, names, lines of every kind, each fault, and the limits.
#![tactic(auto)]

#[cfg(test)]
mod made;
#[cfg(test)]
mod names;
#[cfg(test)]
mod scripts;
#[cfg(test)]
mod words;
