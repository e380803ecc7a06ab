//! The law that journals can be written: whatever their notes name is declared in the script.
#![tactic(auto)]

ghost use Rattle.std.specs.Prelude.{List, All};
ghost use Rattle.gup_plain.specs.Note.{NoteValue};
ghost use Rattle.gup_script.specs.Script.{ScriptValue};
ghost use Rattle.gup_script.specs.Valid.{IsScript};
ghost use Rattle.gup_spec_journal.specs.Follows.{Follows};
ghost use Rattle.gup_spec_journal.specs.Order.{InOrder};
ghost use Rattle.gup_spec_trace.specs.Kept.{IsKept};
ghost use Rattle.gup_spec_trace.specs.Written.{CanBeWritten};

/// A journal that follows its script in order, and whose numbers fit their types, can be written, and so read again.
pub fn journals_can_be_written()
    ensures { (script : ScriptValue) (notes : List NoteValue) → IsScript script → Follows script notes → InOrder script notes → All IsKept notes → All (CanBeWritten script) notes }
{}
