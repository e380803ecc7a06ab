//! The law of simulation for the lockless walk: each of its events leaves a sound state sound, and is its plain event.
#![tactic(auto)]

ghost use Rattle.std.specs.Prelude.{ℕ, Bool, List, Option};
ghost use Rattle.gup_base.specs.declared.entry.Entry.{Entry};
ghost use Rattle.gup_spec_events.specs.State.{Taken, WalkStep};
ghost use Rattle.gup_spec_events.specs.Event.{enter_walk, read_sequence, read_link, read_entry, grab_frame, miss_frame, recheck_above, recheck_same, recheck_other, read_mark, read_again, drop_grab, drop_last, drop_first, leave_walk};
ghost use Rattle.gup_law_base.specs.Simulated.{IsSimulated};

/// The events of a walk leave a sound state sound, and are their plain events.
pub fn walks_simulate()
    ensures enter_walk { (a p : ℕ) (write long : Bool) → IsSimulated (enter_walk a p write long) }
    ensures read_sequence { (a p : ℕ) (write long : Bool) (sequence : ℕ) → IsSimulated (read_sequence a p write long sequence) }
    ensures read_link { (a p : ℕ) (write long : Bool) (sequence page : ℕ) (path : List ℕ) (next : Option ℕ) → IsSimulated (read_link a p write long sequence page path next) }
    ensures read_entry { (a p : ℕ) (write long : Bool) (sequence page : ℕ) (path : List ℕ) (was : Option Entry) → IsSimulated (read_entry a p write long sequence page path was) }
    ensures grab_frame { (a p : ℕ) (write long : Bool) (sequence page : ℕ) (path : List ℕ) (entry : Entry) → IsSimulated (grab_frame a p write long sequence page path entry) }
    ensures miss_frame { (a p : ℕ) (write long : Bool) (sequence page : ℕ) (path : List ℕ) (entry : Entry) → IsSimulated (miss_frame a p write long sequence page path entry) }
    ensures recheck_above { (a p : ℕ) (write long : Bool) (sequence page : ℕ) (path : List ℕ) (entry : Entry) (same : Bool) → IsSimulated (recheck_above a p write long sequence page path entry same) }
    ensures recheck_same { (a p : ℕ) (write long : Bool) (sequence page : ℕ) (path : List ℕ) (entry : Entry) → IsSimulated (recheck_same a p write long sequence page path entry) }
    ensures recheck_other { (a p : ℕ) (write long : Bool) (sequence page : ℕ) (path : List ℕ) (entry : Entry) → IsSimulated (recheck_other a p write long sequence page path entry) }
    ensures read_mark { (a p : ℕ) (write long : Bool) (sequence page : ℕ) (entry : Entry) (mark : Bool) → IsSimulated (read_mark a p write long sequence page entry mark) }
    ensures read_again { (a p : ℕ) (write long : Bool) (sequence : ℕ) (step : WalkStep) (now : ℕ) → IsSimulated (read_again a p write long sequence step now) }
    ensures drop_grab { (a p : ℕ) (write long : Bool) (sequence f : ℕ) → IsSimulated (drop_grab a p write long sequence f) }
    ensures drop_last { (a p : ℕ) (write long : Bool) (sequence : ℕ) (left : List Taken) (last : Taken) → IsSimulated (drop_last a p write long sequence left last) }
    ensures drop_first { (a p : ℕ) (write long : Bool) (sequence : ℕ) (first : Taken) (left : List Taken) → IsSimulated (drop_first a p write long sequence first left) }
    ensures leave_walk { (a p : ℕ) (write long : Bool) (sequence : ℕ) → IsSimulated (leave_walk a p write long sequence) }
{}
