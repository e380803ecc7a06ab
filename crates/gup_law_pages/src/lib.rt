//! The law of simulation for page faults, mappings, page tables, data and mirrors: each of these events leaves a sound state sound,
//! and is its plain event.
#![tactic(auto)]

ghost use Rattle.std.specs.Prelude.{ℕ, Bool, Option};
ghost use Rattle.gup_base.specs.declared.entry.Entry.{Entry};
ghost use Rattle.gup_base.specs.declared.entry.Rights.{Rights};
ghost use Rattle.gup_spec_events.specs.Event.{take_frame, fill, count_one, set_mark, upgrade, break_entry, put_entry, map_pages, lower_entry, protect_pages, drop_entry, discard_entry, add_table, take_out, reclaim, load, store, move_out, move_in, empty_mirror, fill_mirror, look};
ghost use Rattle.gup_law_base.specs.Simulated.{IsSimulated};

/// The events of a page fault leave a sound state sound, and are their plain events.
pub fn faults_simulate()
    ensures take_frame { (a f : ℕ) → IsSimulated (take_frame a f) }
    ensures fill { (a p page f : ℕ) → IsSimulated (fill a p page f) }
    ensures count_one { (a p page f : ℕ) (writable : Bool) → IsSimulated (count_one a p page f writable) }
    ensures set_mark { (a p page f : ℕ) → IsSimulated (set_mark a p page f) }
    ensures upgrade { (a p page f : ℕ) → IsSimulated (upgrade a p page f) }
    ensures break_entry { (a p page old new : ℕ) (was writable : Bool) → IsSimulated (break_entry a p page old new was writable) }
    ensures put_entry { (a f : ℕ) → IsSimulated (put_entry a f) }
{}

/// The events by which mappings come, change and go leave a sound state sound, and are their plain events.
pub fn mappings_simulate()
    ensures map_pages { (a p page n : ℕ) (rights : Rights) → IsSimulated (map_pages a p page n rights) }
    ensures lower_entry { (a p page f : ℕ) → IsSimulated (lower_entry a p page f) }
    ensures protect_pages { (a p page n : ℕ) (rights : Rights) → IsSimulated (protect_pages a p page n rights) }
    ensures drop_entry { (a p page : ℕ) (was : Option Entry) → IsSimulated (drop_entry a p page was) }
    ensures discard_entry { (a p page : ℕ) (was : Option Entry) → IsSimulated (discard_entry a p page was) }
{}

/// The events by which page tables come and go leave a sound state sound, and are no plain events.
pub fn tables_simulate()
    ensures add_table { (a p page table : ℕ) → IsSimulated (add_table a p page table) }
    ensures take_out { (a p page table : ℕ) → IsSimulated (take_out a p page table) }
    ensures reclaim { (a p : ℕ) → IsSimulated (reclaim a p) }
{}

/// Loads, stores, and the words that a device moves leave a sound state sound, and are their plain events.
pub fn data_simulates()
    ensures load { (a p page word f value : ℕ) → IsSimulated (load a p page word f value) }
    ensures store { (a p page word f value : ℕ) → IsSimulated (store a p page word f value) }
    ensures move_out { (a h index slot f value : ℕ) → IsSimulated (move_out a h index slot f value) }
    ensures move_in { (a h index slot f value : ℕ) → IsSimulated (move_in a h index slot f value) }
{}

/// The events of mirrors leave a sound state sound, and are their plain events.
pub fn mirrors_simulate()
    ensures empty_mirror { (a m : ℕ) → IsSimulated (empty_mirror a m) }
    ensures fill_mirror { (a m p page f : ℕ) (writable : Bool) → IsSimulated (fill_mirror a m p page f writable) }
    ensures look { (a m word f value : ℕ) → IsSimulated (look a m word f value) }
{}
