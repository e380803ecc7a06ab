//! The law of simulation: what the core machine does to the plain state is its plain events, whatever the order of
//! its events, and what is published of its states holds of each.
#![tactic(auto)]

ghost use Rattle.std.specs.Prelude.{◌≡◌, ℕ, ◌≤◌, Bool, true, false, List};
ghost use Rattle.gup_plain.specs.State.{plain_start as plain_start};
ghost use Rattle.gup_spec_tables.specs.Tables.{table_numbers, is_among};
ghost use Rattle.gup_spec_events.specs.State.{CoreState, WalkStep, walking, core_start, plain_of};
ghost use Rattle.gup_spec_events.specs.Event.{CoreEvent, Can};
ghost use Rattle.gup_spec_events.specs.Invariant.{AllCan, Holds};
ghost use Rattle.gup_spec_events.specs.Event.{run};
ghost use Rattle.gup_law_base.specs.Sound.{IsSound, Simulates};
ghost use Rattle.gup_law_tables.specs.Inside.{step_path};
ghost use Rattle.gup_law_events.specs.Law.{all_told};
ghost use Rattle.gup_law_events.specs.Possible.{first_born, one_run};
ghost use Rattle.gup_exec_plain.specs.LastWrite.{ArePossible, after};

/// The start of the core machine is sound.
pub fn starts_sound()
    ensures { (movable normal tables : ℕ) (needs_tables : Bool) (is_born : ℕ → Bool) → IsSound (core_start movable normal tables needs_tables is_born) }
{}

/// A core event that can happen in a sound state leaves a sound state, and does its plain event to the plain state.
pub fn simulates()
    ensures { (s : CoreState) (e : CoreEvent) → IsSound s → Can s e → Simulates s e }
{
    gup_law_pages::faults_simulate();
    gup_law_pages::mappings_simulate();
    gup_law_pages::tables_simulate();
    gup_law_pages::data_simulates();
    gup_law_pages::mirrors_simulate();
    gup_law_pins::pins_simulate();
    gup_law_pins::moves_simulate();
    gup_law_fork::forks_simulate();
    gup_law_walk::walks_simulate();
}

/// In a sound state each frame's count is that of its references, the exclusive rule holds, what a fork shares and a
/// mover moves is under no pin, frames have the bytes that the plain state says, what a walk has taken is as good as
/// pinned while no fork has begun, a process has as many walks as actors walk it, and what is pinned for long is of the
/// normal zone.
pub fn sound_states_hold()
    ensures { (s : CoreState) → IsSound s → Holds s }
{}

/// Whatever core events happen from the start on, each when it can: all that is published holds of the state that they
/// lead to, and the plain events that stand at them are a plain list, which leads to the plain state that it stands
/// for. And no table that a walk may be inside of is free.
pub fn core_runs_hold()
    ensures holds { (movable normal tables : ℕ) (needs_tables : Bool) (is_born : ℕ → Bool) (es : List CoreEvent) → AllCan (core_start movable normal tables needs_tables is_born) es → Holds (run (core_start movable normal tables needs_tables is_born) es) }
    ensures plain { (movable normal tables : ℕ) (needs_tables : Bool) (is_born : ℕ → Bool) (es : List CoreEvent) → AllCan (core_start movable normal tables needs_tables is_born) es → ArePossible (plain_start is_born) (all_told es) }
    ensures stands { (movable normal tables : ℕ) (needs_tables : Bool) (is_born : ℕ → Bool) (es : List CoreEvent) → AllCan (core_start movable normal tables needs_tables is_born) es → plain_of (run (core_start movable normal tables needs_tables is_born) es) ≡ after (plain_start is_born) (all_told es) }
    ensures inside { (movable normal tables : ℕ) (needs_tables : Bool) (is_born : ℕ → Bool) (es : List CoreEvent) (a p sequence table : ℕ) (write long : Bool) (step : WalkStep) → tables ≤ table_numbers → AllCan (core_start movable normal tables needs_tables is_born) es → (run (core_start movable normal tables needs_tables is_born) es).job a ≡ walking p write long sequence step → is_among (step_path step) table ≡ true → (run (core_start movable normal tables needs_tables is_born) es).free_table table ≡ false }
{
    simulates();
    gup_law_tables::tables_stand();
    gup_law_tables::walks_stand_in_tables();
}

/// The laws are not empty: a run with nearly every kind of event can happen, each event when it does, where a page has to have
/// its tables before it gets an entry.
pub fn runs_are_possible()
    ensures { AllCan (core_start 2 8 12 true first_born) one_run }
{}
