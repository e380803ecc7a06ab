//! The law of simulation for slow pins, handles, references and moves: each of these events leaves a sound state sound,
//! and is its plain event.
#![tactic(auto)]

ghost use Rattle.std.specs.Prelude.{ℕ, Bool, List};
ghost use Rattle.gup_base.specs.declared.entry.Allowed.{Allowed};
ghost use Rattle.gup_base.specs.declared.entry.Entry.{Entry};
ghost use Rattle.gup_spec_events.specs.State.{Counted};
ghost use Rattle.gup_spec_events.specs.Event.{raise_flag, pin_page, make_handle, unpin_page, give_handle, take_handle, get_reference, put_reference, clear_entry, count_moved, place_frame, restore_entry};
ghost use Rattle.gup_law_base.specs.Simulated.{IsSimulated};

/// The events of slow pins, handles and references leave a sound state sound, and are their plain events.
pub fn pins_simulate()
    ensures raise_flag { (a p : ℕ) → IsSimulated (raise_flag a p) }
    ensures pin_page { (a p page : ℕ) (entry : Entry) (write long : Bool) → IsSimulated (pin_page a p page entry write long) }
    ensures make_handle { (a h : ℕ) → IsSimulated (make_handle a h) }
    ensures unpin_page { (a h f : ℕ) (left : List ℕ) → IsSimulated (unpin_page a h f left) }
    ensures give_handle { (a h to : ℕ) → IsSimulated (give_handle a h to) }
    ensures take_handle { (a h : ℕ) → IsSimulated (take_handle a h) }
    ensures get_reference { (a p page f k : ℕ) (writable : Bool) → IsSimulated (get_reference a p page f k writable) }
    ensures put_reference { (a f k : ℕ) → IsSimulated (put_reference a f k) }
{}

/// The events of a mover leave a sound state sound, and are their plain events.
pub fn moves_simulate()
    ensures clear_entry { (a p page : ℕ) (entry : Entry) (allowed : Allowed) → IsSimulated (clear_entry a p page entry allowed) }
    ensures count_moved { (a p page : ℕ) (entry : Entry) (allowed : Allowed) (count : ℕ) → IsSimulated (count_moved a p page entry allowed count) }
    ensures place_frame { (a p page f : ℕ) (entry : Entry) (allowed : Allowed) → IsSimulated (place_frame a p page f entry allowed) }
    ensures restore_entry { (a p page : ℕ) (entry : Entry) (allowed : Allowed) (count : Counted) → IsSimulated (restore_entry a p page entry allowed count) }
{}
