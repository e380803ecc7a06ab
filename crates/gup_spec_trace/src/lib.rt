//! Traces: a script and the journal of a run of it, as one text. What is said here is how the text stands for both, as definitions.
//! Nothing is proved here.
#![tactic(auto)]
