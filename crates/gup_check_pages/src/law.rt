//! What is known of pages by when they were mapped.
ghost use Rattle.std.specs.Prelude.{◌≡◌, ℕ, List};
ghost use Rattle.gup_plain.specs.Note.{NoteValue};
ghost use Rattle.gup_script.specs.Script.{ScriptValue};
ghost use Rattle.gup_spec_journal.specs.Place.{process_of};
ghost use Rattle.gup_spec_journal.specs.Plain.{IsPlain};
ghost use Rattle.gup_spec_check.specs.Seen.{seen_of};
ghost use Rattle.gup_spec_check.specs.Times.{times_of, unnamed_since};

/// The pages that were unnamed at some moment since an actor's last event or answer are those that are unnamed now, and those that were
/// mapped later.
pub fn pages_are_timed()
    ensures { (script : ScriptValue) (notes : List NoteValue) (a page : ℕ) → IsPlain script notes
        → ((seen_of script notes).goings a).unnamed page
        ≡ unnamed_since (seen_of script notes).judged.plain (times_of notes).mapped ((times_of notes).since a) (process_of script a) page }
{}
