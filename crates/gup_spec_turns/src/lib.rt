//! The turn table and the core run as definitions: which core events the next turn of each operation is, who waits, how
//! turns follow one another, and why one finds no frame. Nothing is proved here.
#![tactic(auto)]
