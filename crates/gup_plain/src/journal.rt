ghost use Rattle.std.specs.Prelude.{◌≡◌, ◌+◌, ◌<◌, ◌≤◌, [], ◌∷◌, ◌++◌, length, OnOk, OnErr};

use crate::note::Note;
use gup_base::NoMemory;
use std::alloc::Global;
use std::marker::Model;

/// The notes of a run, in order. Contracts see the list of them, and how many more can be put on before memory
/// is wanted: the room.
#[derive(Debug, Drop)]
pub struct Journal {
    notes: Vec<Note>,
}

impl Model for Journal {
    ghost use Rattle.std.specs.Prelude.{◌-◌, vec_len, vec_capacity};
    ghost use Rattle.gup_plain.specs.Note.{JournalValue};

    ghost Value = { JournalValue };

    ghost view = { λ j. record { notes = j.notes.items; room = vec_capacity j.notes - vec_len j.notes } };
}

impl Journal {
    /// A journal without notes. It takes no memory.
    pub fn new(alloc: Global) -> Self
        ensures { result.notes ≡ [] }
    {
        Journal {
            notes: Vec::new(alloc),
        }
    }

    /// The notes, the first of them first.
    pub fn notes(&self) -> &[Note]
        ensures { result.now ≡ self.now.notes }
    {
        self.notes.as_slice()
    }

    /// Puts a note on at the end, and leaves at most one less room. Memory is wanted only where no room is left;
    /// where there is none to be had, the notes stay as they were.
    #[inline(always)]
    pub fn push(&mut self, note: Note) -> Result<(), NoMemory>
        ensures ok { OnOk result (self.new.notes ≡ self.old.notes ++ note ∷ []) }
        ensures room { self.old.room ≤ self.new.room + 1 }
        ensures err { OnErr result ((self.new.notes ≡ self.old.notes) × (self.old.room ≡ 0)) }
    {
        self.notes.push(note)?;
        Ok(())
    }

    /// Makes room for `n` more notes, at least. The notes stay, also if allocation fails and there is none.
    #[inline(always)]
    pub fn reserve(&mut self, n: u32) -> Result<(), NoMemory>
        ensures notes { self.new.notes ≡ self.old.notes }
        ensures ok { OnOk result (n ≤ self.new.room) }
        ensures room { self.old.room ≤ self.new.room }
        ensures err { OnErr result (self.old.room < n) }
    {
        self.notes.reserve(n as usize)?;
        Ok(())
    }

    /// Lets all notes go. The room that they had is left.
    pub fn clear(&mut self)
        ensures notes { self.new.notes ≡ [] }
        ensures room { length self.old.notes + self.old.room ≤ self.new.room }
    {
        self.notes.clear();
    }
}
