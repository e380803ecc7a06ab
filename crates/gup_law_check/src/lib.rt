//! The laws of checking: notes are accepted one by one, each where it fits what those before it have led to.
#![tactic(auto)]

ghost use Rattle.std.specs.Prelude.{◌≡◌, ℕ, ◌↔◌, List, [], ◌∷◌, ◌++◌, length};
ghost use Rattle.gup_plain.specs.Note.{NoteValue};
ghost use Rattle.gup_script.specs.Script.{ScriptValue};
ghost use Rattle.gup_script.specs.Valid.{IsScript};
ghost use Rattle.gup_spec_accepted.specs.Accepted.{Accepted};
ghost use Rattle.gup_spec_check.specs.Seen.{seen_after, seen_of, Fits};
ghost use Rattle.gup_spec_check.specs.Verdicts.{answers_by};

/// No notes are accepted, and one more note is accepted with those before it exactly where it fits them.
pub fn notes_fit_one_by_one()
    ensures none { (script : ScriptValue) → IsScript script → Accepted script [] }
    ensures more { (script : ScriptValue) (notes : List NoteValue) (note : NoteValue) → IsScript script → Accepted script (notes ++ note ∷ []) ↔ (Accepted script notes × Fits script (seen_of script notes) note) }
{
    gup_check_course::courses_are_beginnings();
}

/// What is seen behind one more note.
pub fn seen_grows()
    ensures { (script : ScriptValue) (notes : List NoteValue) (note : NoteValue) → seen_of script (notes ++ note ∷ []) ≡ seen_after script (seen_of script notes) note }
{}

/// An actor has answered as many operations as it has answers.
pub fn answers_are_counted()
    ensures { (script : ScriptValue) (notes : List NoteValue) (a : ℕ) → ((seen_of script notes).judged.places a).answered ≡ length (answers_by a notes) }
{}
