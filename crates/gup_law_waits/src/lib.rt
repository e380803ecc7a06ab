//! The law of who wakes: whoever can't go, can't go after the turn of another actor either, unless this wakes it.
#![tactic(auto)]

ghost use Rattle.std.specs.Prelude.{◌≡◌, ℕ, false, List};
ghost use Rattle.gup_script.specs.Script.{ScriptValue};
ghost use Rattle.gup_script.specs.Valid.{IsScript};
ghost use Rattle.gup_spec_turns.specs.JobPlace.{place_in};
ghost use Rattle.gup_spec_turns.specs.Run.{RunState, run_start, run_after, op_in, can_go, turned};
ghost use Rattle.gup_law_waits.specs.Woken.{wakes, MayWake};

/// Whichever actors have taken turns: an actor that waits or has finished still does after the turn of another, unless that
/// may wake it. So only a give wakes whom it gives to, and the end of a fork, or its failure, whoever waits.
pub fn turns_wake_no_others()
    ensures { (script : ScriptValue) (actors : List ℕ) (a b : ℕ) → IsScript script →
        let r : RunState = turned script (run_start script) actors in
        (a ≡ b → ⊥)
        → (MayWake (wakes (op_in script r a) (place_in (run_after script r a).core a)) b → ⊥)
        → can_go script r b ≡ false
        → can_go script (run_after script r a) b ≡ false }
{
    gup_law_events::simulates();
    gup_law_events::starts_sound();
}
