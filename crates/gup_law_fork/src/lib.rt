//! The law of simulation for forks: each of their events leaves a sound state sound, and is its plain event.
#![tactic(auto)]

ghost use Rattle.std.specs.Prelude.{ℕ, Bool, List};
ghost use Rattle.gup_base.specs.declared.entry.Entry.{Entry};
ghost use Rattle.gup_base.specs.declared.entry.Rights.{Rights};
ghost use Rattle.gup_spec_events.specs.State.{ForkStep};
ghost use Rattle.gup_spec_events.specs.Event.{begin_fork, count_page, share_entry, share_mark, share_child, pass_page, copy_word, place_child, end_fork, fail_fork, put_child, fail_unborn};
ghost use Rattle.gup_law_base.specs.Simulated.{IsSimulated};

/// The events of a fork leave a sound state sound, and are their plain events.
pub fn forks_simulate()
    ensures begin_fork { (a p c : ℕ) → IsSimulated (begin_fork a p c) }
    ensures count_page { (a p c : ℕ) (done : List ℕ) (page : ℕ) (entry : Entry) (copies : Bool) → IsSimulated (count_page a p c done page entry copies) }
    ensures share_entry { (a p c : ℕ) (done : List ℕ) (page f : ℕ) (writable : Bool) → IsSimulated (share_entry a p c done page f writable) }
    ensures share_mark { (a p c : ℕ) (done : List ℕ) (page f : ℕ) (writable : Bool) → IsSimulated (share_mark a p c done page f writable) }
    ensures share_child { (a p c : ℕ) (done : List ℕ) (page f : ℕ) (writable : Bool) → IsSimulated (share_child a p c done page f writable) }
    ensures pass_page { (a p c : ℕ) (done : List ℕ) (page : ℕ) → IsSimulated (pass_page a p c done page) }
    ensures copy_word { (a p c : ℕ) (done : List ℕ) (page word to : ℕ) (entry : Entry) → IsSimulated (copy_word a p c done page word to entry) }
    ensures place_child { (a p c : ℕ) (done : List ℕ) (page to : ℕ) (rights : Rights) → IsSimulated (place_child a p c done page to rights) }
    ensures end_fork { (a p c : ℕ) (done : List ℕ) → IsSimulated (end_fork a p c done) }
    ensures fail_fork { (a p c : ℕ) (done : List ℕ) (step : ForkStep) (ends : Bool) → IsSimulated (fail_fork a p c done step ends) }
    ensures put_child { (a p c : ℕ) (done : List ℕ) (page : ℕ) (entry : Entry) (ends : Bool) → IsSimulated (put_child a p c done page entry ends) }
    ensures fail_unborn { (a p c : ℕ) → IsSimulated (fail_unborn a p c) }
{}
