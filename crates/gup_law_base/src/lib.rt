//! What the proofs of the law of simulation stand on: the clauses of a sound state by name, the count identity, and what
//! counts, forks and lists say of who holds a frame.
#![tactic(auto)]
