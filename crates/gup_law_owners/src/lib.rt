//! That in a plain journal each process owns its bytes: the law of the last write, said of the journal's own events.
//!
//! `gup_exec_plain` has that law over lists of events and knows neither notes nor scripts; `gup_spec_journal` says what a plain
//! journal is and has no laws. What joins them stands here, where the top call can cite it of its journal. It follows
//! from what the journal is already, so no program breaks it alone; it is there so that a reader of the top call finds
//! who writes whose bytes in a clause of its own.
#![tactic(auto)]

ghost use Rattle.std.specs.Prelude.{List};
ghost use Rattle.gup_plain.specs.Note.{NoteValue};
ghost use Rattle.gup_plain.specs.State.{plain_start};
ghost use Rattle.gup_script.specs.Script.{ScriptValue};
ghost use Rattle.gup_exec_plain.specs.LastWrite.{ArePossible};
ghost use Rattle.gup_spec_journal.specs.Place.{starts_born};
ghost use Rattle.gup_spec_journal.specs.Plain.{IsPlain};
ghost use Rattle.gup_law_owners.specs.Owners.{OwnsBytes, journal_events};

/// The events of a plain journal can happen one after another, from the start of its script on.
pub fn plain_journals_are_possible()
    ensures { (script : ScriptValue) (notes : List NoteValue) → IsPlain script notes → ArePossible (plain_start (starts_born script)) (journal_events notes) }
{}

/// In a plain journal each process owns its bytes: what a load, a device, a look or a fork reads was last written to that
/// word of that object by the events before, or is 0; and an object that a page names, then or later, is written by stores
/// of the page's process to it, by devices through a pin of the object, and by the fork by which the process was born.
pub fn plain_journals_are_owned()
    ensures { (script : ScriptValue) (notes : List NoteValue) → IsPlain script notes → OwnsBytes (starts_born script) (journal_events notes) }
{
    plain_journals_are_possible();
    gup_exec_plain::last_write();
}
