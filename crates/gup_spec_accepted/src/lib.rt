//! When a list of notes is accepted for a script: it can be the beginning of a journal in which the script's actors take their turns in any
//! order. What is said here is a definition. Nothing is proved here.
#![tactic(auto)]
