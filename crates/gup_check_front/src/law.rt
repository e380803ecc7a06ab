//! What verdicts promise of accepted notes.
ghost use Rattle.std.specs.Prelude.{ℕ, List};
ghost use Rattle.gup_plain.specs.Note.{NoteValue};
ghost use Rattle.gup_script.specs.Script.{ScriptValue};
ghost use Rattle.gup_spec_accepted.specs.Accepted.{Accepted};
ghost use Rattle.gup_spec_check.specs.Verdicts.{IsFirstWrong};

use gup_law_accepted::beginnings_are_accepted;

/// The journal of accepted notes is never wrong.
pub fn accepted_notes_are_never_wrong()
    ensures { (script : ScriptValue) (notes : List NoteValue) (n : ℕ) → Accepted script notes → IsFirstWrong script notes n → ⊥ }
{
    beginnings_are_accepted();
}
