//! A trace has one verdict.
ghost use Rattle.std.specs.Prelude.{◌≡◌, List};
ghost use Rattle.gup_plain.specs.Note.{NoteValue};
ghost use Rattle.gup_script.specs.Script.{ScriptValue};
ghost use Rattle.gup_spec_check.specs.declared.Verdict.{Verdict};
ghost use Rattle.gup_spec_check.specs.Verdicts.{IsVerdict};

use gup_law_accepted::beginnings_are_accepted;

/// Notes have at most one verdict.
pub fn one_verdict()
    ensures { (script : ScriptValue) (notes : List NoteValue) (v w : Verdict) → IsVerdict script notes v → IsVerdict script notes w → v ≡ w }
{
    beginnings_are_accepted();
}
