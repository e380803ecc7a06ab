//! What a checker of notes keeps of those that it has read, when one more fits them, and what it answers at the end. What is said here is
//! a definition. Nothing is proved here.
#![tactic(auto)]

/// What is answered of the notes of a trace.
#[derive(Clone, Copy, Debug, PartialEq, Eq)]
pub enum Verdict {
    /// They are accepted, and each operation of the script has ended.
    Yes,
    /// They are accepted, and an operation hasn't ended.
    Open,
    /// Those before this one, counted from 1, are accepted, and with this one they aren't.
    No(u64),
}
