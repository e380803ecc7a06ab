//! The laws of the journal that turns write: it follows its script, is in its order, is plain and thorough, and refuses with
//! cause.
#![tactic(auto)]

ghost use Rattle.std.specs.Prelude.{◌≡◌, ℕ, ◌<◌, false, List, length, Some};
ghost use Rattle.gup_plain.specs.Note.{NoteValue};
ghost use Rattle.gup_plain.specs.declared.note.Waiting.{Waiting};
ghost use Rattle.gup_script.specs.Script.{ScriptValue};
ghost use Rattle.gup_script.specs.Valid.{IsScript};
ghost use Rattle.gup_spec_journal.specs.Place.{first_place};
ghost use Rattle.gup_spec_journal.specs.Plain.{IsPlain};
ghost use Rattle.gup_spec_journal.specs.Thorough.{IsThorough};
ghost use Rattle.gup_spec_journal.specs.Follows.{Follows};
ghost use Rattle.gup_spec_journal.specs.Order.{Turn, InOrder, journal_of};
ghost use Rattle.gup_spec_turns.specs.Run.{RunState, Runs, AreTurns, AreBetween, turned, run_start, turn_in, waiting_in, can_go, IsCoreRun};
ghost use Rattle.gup_spec_turns.specs.Cause.{LacksExactly, UntouchedExactly, BusyExactly, UnmovableExactly, StaleExactly, answered_in, HaveFinished, WaitsForBirthOrPin};
ghost use Rattle.gup_spec_turns.specs.Cost.{operations};

/// Turns in any order follow the script, where each actor stands between two operations after them, as it does where nobody
/// can go any more; so the core run of a script follows it.
pub fn core_run_follows()
    ensures turns { (script : ScriptValue) (turns : List Turn) (end : RunState) → IsScript script → AreTurns script (run_start script) turns end → AreBetween script end → Follows script (journal_of 1 (λ _. first_place) turns) }
    ensures between { (script : ScriptValue) (turns : List Turn) (end : RunState) → IsScript script → AreTurns script (run_start script) turns end → ((a : ℕ) → a < length script.actors → can_go script end a ≡ false) → AreBetween script end }
    ensures run { (script : ScriptValue) (notes : List NoteValue) (end : RunState) → IsScript script → IsCoreRun script notes end → Follows script notes }
{
    gup_law_events::simulates();
    gup_law_events::starts_sound();
}

/// The core run of a script is in the script's order.
pub fn core_run_is_in_order()
    ensures { (script : ScriptValue) (notes : List NoteValue) (end : RunState) → IsScript script → IsCoreRun script notes end → InOrder script notes }
{
    gup_law_events::simulates();
    gup_law_events::starts_sound();
}

/// Turns in any order are plain, and so is the core run of a script.
pub fn core_run_is_plain()
    ensures turns { (script : ScriptValue) (turns : List Turn) (end : RunState) → IsScript script → AreTurns script (run_start script) turns end → IsPlain script (journal_of 1 (λ _. first_place) turns) }
    ensures run { (script : ScriptValue) (notes : List NoteValue) (end : RunState) → IsScript script → IsCoreRun script notes end → IsPlain script notes }
{
    gup_law_events::simulates();
    gup_law_events::starts_sound();
}

/// Turns in any order are thorough, and so is the core run of a script: no operation that goes page by page misses one.
pub fn core_run_is_thorough()
    ensures turns { (script : ScriptValue) (turns : List Turn) (end : RunState) → IsScript script → AreTurns script (run_start script) turns end → IsThorough script (journal_of 1 (λ _. first_place) turns) }
    ensures run { (script : ScriptValue) (notes : List NoteValue) (end : RunState) → IsScript script → IsCoreRun script notes end → IsThorough script notes }
{
    gup_law_events::simulates();
    gup_law_events::starts_sound();
}

/// Where each actor has finished after turns in any order, and so at the end of the core run, they have one answer for each
/// operation of the script.
pub fn finished_runs_answer_all()
    ensures turns { (script : ScriptValue) (turns : List Turn) (end : RunState) → IsScript script → AreTurns script (run_start script) turns end → HaveFinished script end → answered_in (journal_of 1 (λ _. first_place) turns) ≡ operations script }
    ensures run { (script : ScriptValue) (notes : List NoteValue) (end : RunState) → IsScript script → IsCoreRun script notes end → HaveFinished script end → answered_in notes ≡ operations script }
{
    gup_law_turns::reached_states_stand();
}

/// A turn answers for want of a frame, or ends a short pin so, exactly where its operation needs one and each frame of the
/// zones that it may take one from has a reference: whichever actor takes it, from whatever state.
pub fn no_frame_has_its_cause()
    ensures { (script : ScriptValue) (r : RunState) (a : ℕ) → LacksExactly script r (turn_in script r a) }
{}

/// Whichever actors have taken turns: a turn answers that a page is untouched exactly where it is the first of a move, which
/// waits for nothing, of a page that is mapped and has no entry. It answers that the frame of a page is busy exactly where a
/// move has cleared the page's entry, and has read that count, which isn't 1.
pub fn moves_have_their_causes()
    ensures untouched { (script : ScriptValue) (actors : List ℕ) (a : ℕ) → IsScript script →
        let r : RunState = turned script (run_start script) actors in
        UntouchedExactly script r (turn_in script r a) }
    ensures busy { (script : ScriptValue) (actors : List ℕ) (a : ℕ) → IsScript script →
        let r : RunState = turned script (run_start script) actors in
        BusyExactly script r (turn_in script r a) }
{
    gup_law_events::simulates();
    gup_law_events::starts_sound();
}

/// Whichever actors have taken turns: a turn answers that a page can't be moved, or ends a short pin so, exactly where a long pin
/// has cleared the page's entry, and has read that count, which isn't 1.
pub fn pins_have_their_causes()
    ensures { (script : ScriptValue) (actors : List ℕ) (a : ℕ) → IsScript script →
        let r : RunState = turned script (run_start script) actors in
        UnmovableExactly script r (turn_in script r a) }
{
    gup_law_events::simulates();
    gup_law_events::starts_sound();
}

/// Whichever actors have taken turns: a turn answers that a mirror slot is stale exactly where it is one of a look, which waits for
/// nothing, through a slot that is empty.
pub fn looks_have_their_cause()
    ensures { (script : ScriptValue) (actors : List ℕ) (a : ℕ) → IsScript script →
        let r : RunState = turned script (run_start script) actors in
        StaleExactly script r (turn_in script r a) }
{
    gup_law_events::simulates();
    gup_law_events::starts_sound();
}

/// At the end of a run each actor has finished or waits, and whoever waits, waits for a process of the script to be born
/// or for a pin of the script to be given to it.
pub fn runs_end_at_waits()
    ensures ends { (script : ScriptValue) (turns : List Turn) (end : RunState) → Runs script (run_start script) turns end → (a : ℕ) → a < length script.actors → can_go script end a ≡ false }
    ensures waits { (script : ScriptValue) (turns : List Turn) (end : RunState) → IsScript script → Runs script (run_start script) turns end → (a : ℕ) (waiting : Waiting) → waiting_in script end a ≡ Some waiting → WaitsForBirthOrPin script waiting }
{
    gup_law_turns::reached_states_stand();
}
