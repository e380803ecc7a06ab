//! The laws of what turns do to mirror slots: which pages they invalidate, and that a look is stale only with cause.
#![tactic(auto)]

ghost use Rattle.std.specs.Prelude.{◌≡◌, ℕ, List, Some, IsSome};
ghost use Rattle.gup_base.specs.declared.entry.Entry.{Entry};
ghost use Rattle.gup_plain.specs.Note.{NoteValue};
ghost use Rattle.gup_script.specs.Script.{ScriptValue};
ghost use Rattle.gup_script.specs.Valid.{IsOp, IsScript};
ghost use Rattle.gup_script.specs.declared.op.Op.{Op};
ghost use Rattle.gup_spec_events.specs.State.{CoreState};
ghost use Rattle.gup_spec_journal.specs.Order.{Turn, journal_of};
ghost use Rattle.gup_spec_journal.specs.Place.{first_place};
ghost use Rattle.gup_spec_journal.specs.Stale.{AreStaleSeen};
ghost use Rattle.gup_spec_turns.specs.Emptying.{has_page, invalidate};
ghost use Rattle.gup_spec_turns.specs.Run.{RunState, AreTurns, run_start, IsCoreRun};
ghost use Rattle.gup_spec_turns.specs.Turn.{op_turn};
ghost use Rattle.gup_law_mirrors.specs.Invalidated.{invalidated_in};

/// Which pages with an entry a turn invalidates, in whatever state: those that are known before it is taken.
pub fn turns_invalidate_pages()
    ensures { (s : CoreState) (a p slots far : ℕ) (op : Op) → IsOp op
        → ((page : ℕ) (e : Entry) → s.entry p page ≡ Some e → IsSome (s.right p page)) → (q g : ℕ) → IsSome (s.entry q g)
        → invalidate (op_turn s a p slots far op).events q g ≡ has_page (invalidated_in s a p far op) q g }
{}

/// In the journal of turns in any order, and so in that of the core run of a script, no look is stale whose slot was filled, unless
/// the process of the page that it was filled with has had a note since then of an operation that may empty it: a fork, an exit, or
/// an unmap, discard, protect, store, pin or move of the page.
pub fn looks_are_stale_with_cause()
    ensures turns { (script : ScriptValue) (turns : List Turn) (end : RunState) → IsScript script → AreTurns script (run_start script) turns end → AreStaleSeen script (journal_of 1 (λ _. first_place) turns) }
    ensures run { (script : ScriptValue) (notes : List NoteValue) (end : RunState) → IsScript script → IsCoreRun script notes end → AreStaleSeen script notes }
{
    gup_law_events::simulates();
    gup_law_events::starts_sound();
}
