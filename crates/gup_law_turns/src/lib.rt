//! The laws of turns: each can happen from every state that turns lead to, and what stands between two of them.
#![tactic(auto)]

ghost use Rattle.std.specs.Prelude.{◌≡◌, ℕ, List};
ghost use Rattle.gup_plain.specs.Note.{NoteValue};
ghost use Rattle.gup_script.specs.Script.{ScriptValue};
ghost use Rattle.gup_script.specs.Valid.{IsScript};
ghost use Rattle.gup_spec_events.specs.State.{plain_of};
ghost use Rattle.gup_spec_events.specs.Invariant.{AllCan};
ghost use Rattle.gup_spec_journal.specs.Order.{Turn, plain_behind};
ghost use Rattle.gup_spec_turns.specs.Run.{RunState, Runs, AreTurns, run_start, run_after, core_turn_in, IsCoreRun};
ghost use Rattle.gup_spec_turns.specs.Run.{turned, actors_of, op_in};
ghost use Rattle.gup_law_turns.specs.Slots.{EmptiesSlots};
ghost use Rattle.gup_law_turns.specs.Standing.{IsStanding};

/// A script has one core run, and that has one end.
pub fn one_core_run()
    ensures notes { (script : ScriptValue) (m n : List NoteValue) (c d : RunState) → IsCoreRun script m c → IsCoreRun script n d → m ≡ n }
    ensures end { (script : ScriptValue) (m n : List NoteValue) (c d : RunState) → IsCoreRun script m c → IsCoreRun script n d → c ≡ d }
{}

/// The turns of a run are turns as the laws for any order take them. Such turns lead to the state that turns of their actors
/// lead to, and there are such turns for any actors, one after another.
pub fn runs_are_turns()
    ensures run { (script : ScriptValue) (turns : List Turn) (r end : RunState) → Runs script r turns end → AreTurns script r turns end }
    ensures reached { (script : ScriptValue) (turns : List Turn) (r end : RunState) → AreTurns script r turns end → turned script r (actors_of turns) ≡ end }
    ensures taken { (script : ScriptValue) (actors : List ℕ) (r : RunState) → (turns : List Turn) × (actors_of turns ≡ actors) × AreTurns script r turns (turned script r actors) }
{}

/// A turn rests on the core state and on where the actors stand, and so do both after it: neither the pointer nor the number
/// of turns is read, which only say whose turn is next.
pub fn turns_read_no_order()
    ensures turn { (script : ScriptValue) (r s : RunState) (a : ℕ) → r.core ≡ s.core → r.places ≡ s.places → core_turn_in script r a ≡ core_turn_in script s a }
    ensures core { (script : ScriptValue) (r s : RunState) (a : ℕ) → r.core ≡ s.core → r.places ≡ s.places → (run_after script r a).core ≡ (run_after script s a).core }
    ensures places { (script : ScriptValue) (r s : RunState) (a : ℕ) → r.core ≡ s.core → r.places ≡ s.places → (run_after script r a).places ≡ (run_after script s a).places }
{}

/// Whichever actors have taken turns, and whoever is next: each core event of its turn can happen when it does, and the plain
/// state that its notes lead to is the one that the core state after the turn stands for.
pub fn turns_can_happen()
    ensures can { (script : ScriptValue) (actors : List ℕ) (a : ℕ) → IsScript script →
        let r : RunState = turned script (run_start script) actors in
        AllCan r.core (core_turn_in script r a).events }
    ensures same { (script : ScriptValue) (actors : List ℕ) (a : ℕ) → IsScript script →
        let r : RunState = turned script (run_start script) actors in
        plain_of (run_after script r a).core ≡ plain_behind (plain_of r.core) (core_turn_in script r a).whats }
{
    gup_law_events::simulates();
    gup_law_events::starts_sound();
}

/// Whichever actors have taken turns: a turn empties each filled mirror slot of a page that one of its events invalidates, and
/// leaves the others filled as they are, but for the slot that its operation, a mirror, fills. What the others were filled with
/// stays noted.
pub fn turns_empty_slots()
    ensures { (script : ScriptValue) (actors : List ℕ) (a : ℕ) → IsScript script →
        let r : RunState = turned script (run_start script) actors in
        EmptiesSlots r.core (op_in script r a) (core_turn_in script r a) }
{
    gup_law_events::simulates();
    gup_law_events::starts_sound();
}

/// What stands between two turns: it holds of each state that turns lead to from the start of a script, whichever
/// actors take them.
pub fn reached_states_stand()
    ensures { (script : ScriptValue) (actors : List ℕ) → IsScript script → IsStanding script (turned script (run_start script) actors) }
{
    gup_law_events::simulates();
    gup_law_events::starts_sound();
    gup_law_events::sound_states_hold();
    gup_law_tables::walks_stand_in_tables();
}
