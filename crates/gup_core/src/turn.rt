//! The notes of one turn.
ghost use Rattle.std.specs.Prelude.{◌≡◌, ◌≤◌, length};

use gup_plain::Note;
use std::marker::Model;

/// The notes of a turn: one to three. Contracts see the list of them.
#[derive(Debug, Drop)]
pub struct Turn {
    notes: [Note; 3],
    len: usize,
}

impl Model for Turn {
    ghost use Rattle.std.specs.Prelude.{◌≤◌, List, take};
    ghost use Rattle.gup_plain.specs.Note.{NoteValue};

    ghost Value = { List NoteValue };

    ghost view = { λ t. take t.len t.notes };

    ghost invariant = { λ t. (1 ≤ t.len) × (t.len ≤ 3) };
}

impl Turn {
    /// The turn that has these notes.
    pub(crate) fn of(notes: &[Note]) -> Self
        requires some { 1 ≤ length notes.now }
        requires few { length notes.now ≤ 3 }
        ensures { result ≡ notes.now }
    {
        let last = notes.len() - 1;
        Turn {
            notes: [notes[0], notes[last.min(1)], notes[last]],
            len: notes.len(),
        }
    }

    /// The notes in order: at least one, and three at most.
    pub fn notes(&self) -> &[Note]
        ensures notes { result.now ≡ self.now }
        ensures some { 1 ≤ length self.now }
        ensures few { length self.now ≤ 3 }
    {
        &self.notes[..self.len]
    }
}
