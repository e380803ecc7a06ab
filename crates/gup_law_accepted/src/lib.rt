//! The laws of accepted notes: the journal of a run is accepted, and so is each beginning of accepted notes.
#![tactic(auto)]

ghost use Rattle.std.specs.Prelude.{List, ◌++◌};
ghost use Rattle.gup_plain.specs.Note.{NoteValue};
ghost use Rattle.gup_script.specs.Script.{ScriptValue};
ghost use Rattle.gup_script.specs.Valid.{IsScript};
ghost use Rattle.gup_spec_turns.specs.Run.{RunState, IsCoreRun};
ghost use Rattle.gup_spec_accepted.specs.Accepted.{Accepted};

/// The journal of a run is accepted.
pub fn core_runs_are_accepted()
    ensures { (script : ScriptValue) (notes : List NoteValue) (end : RunState) → IsScript script → IsCoreRun script notes end → Accepted script notes }
{
    gup_law_events::simulates();
    gup_law_events::starts_sound();
    gup_law_journal::core_run_follows();
    gup_law_journal::core_run_is_in_order();
    gup_law_journal::core_run_is_plain();
}

/// The beginning of accepted notes is accepted.
pub fn beginnings_are_accepted()
    ensures { (script : ScriptValue) (notes more : List NoteValue) → Accepted script (notes ++ more) → Accepted script notes }
{}
