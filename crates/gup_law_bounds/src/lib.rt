//! The bounds of the core machine: whatever its events and their order, its numbers stay small.
#![tactic(auto)]

ghost use Rattle.std.specs.Prelude.{◌≡◌, ℕ, ◌+◌, ◌<◌, ◌≤◌, ◌^◌, Bool, List, All};
ghost use Rattle.gup_spec_events.specs.State.{core_start};
ghost use Rattle.gup_spec_events.specs.Event.{CoreEvent, run};
ghost use Rattle.gup_spec_events.specs.Invariant.{AllCan};
ghost use Rattle.gup_law_events.specs.Possible.{one_run};
ghost use Rattle.gup_law_bounds.specs.Limits.{IsWithin};

/// So that sums of 64 bits never wrap: whatever core events happen from the start on, each when it can, and within the
/// limits, the count of each frame is below 2^60, and the sequence of each process at most 32. Whatever the limits, a frame
/// with a count is one that the machine has.
pub fn core_runs_stay_small()
    ensures counts { (movable normal tables : ℕ) (needs_tables : Bool) (is_born : ℕ → Bool) (es : List CoreEvent) → AllCan (core_start movable normal tables needs_tables is_born) es → All IsWithin es → (f : ℕ) → (run (core_start movable normal tables needs_tables is_born) es).count f < 2 ^ 60 }
    ensures sequences { (movable normal tables : ℕ) (needs_tables : Bool) (is_born : ℕ → Bool) (es : List CoreEvent) → AllCan (core_start movable normal tables needs_tables is_born) es → All IsWithin es → (p : ℕ) → (run (core_start movable normal tables needs_tables is_born) es).sequence p ≤ 32 }
    ensures frames { (movable normal tables : ℕ) (needs_tables : Bool) (is_born : ℕ → Bool) (es : List CoreEvent) → AllCan (core_start movable normal tables needs_tables is_born) es → (f : ℕ) → ((run (core_start movable normal tables needs_tables is_born) es).count f ≡ 0 → ⊥) → f < movable + normal }
{
    gup_law_events::simulates();
    gup_law_events::starts_sound();
    gup_law_events::sound_states_hold();
}

/// The bounds are not empty: the run that can happen, with nearly every kind of event, is within the limits.
pub fn possible_runs_are_within()
    ensures { All IsWithin one_run }
{}
