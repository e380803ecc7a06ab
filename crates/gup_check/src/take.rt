//! One more note.
ghost use Rattle.std.specs.Prelude.{◌≡◌, ◌+◌, ◌<◌, ◌^◌, List, IfOk, MatchBool};
ghost use Rattle.gup_plain.specs.Note.{NoteValue};
ghost use Rattle.gup_spec_journal.specs.Plain.{plain_after};
ghost use Rattle.gup_exec_plain.specs.Parts.{state_of, actors_of};
ghost use Rattle.gup_check_judge.specs.Knows.{MayHappen};
ghost use Rattle.gup_check.specs.Takes.{Takes, HasTaken, IsTakenOrWrong, OfActor};

use gup_base::NoMemory;
use gup_check_judge::judge;
use gup_check_pages::pages_are_timed;
use gup_check_state::Kept;
use gup_exec_plain::{Plain, PlainRefusal};
use gup_law_check::{notes_fit_one_by_one, seen_grows};
use gup_law_course::{events_go_on, standings_are_places};
use gup_plain::{Note, What};
use gup_script::Script;

/// Takes one more note, where with it the notes so far are still accepted, and says whether they are. Where they aren't, and after an error, what
/// is kept is of no use.
pub(crate) fn take(kept: &mut Kept, script: &Script, note: &Note) -> Result<bool, NoMemory>
    requires taken { HasTaken script.now kept.old }
    requires few { kept.old.count + 1 < 2 ^ 64 }
    ensures { (notes : List NoteValue) → Takes script.now kept.old notes
        → IfOk result (IsTakenOrWrong script.now kept.new notes note.now) }
{
    notes_fit_one_by_one();
    seen_grows();
    standings_are_places();
    pages_are_timed();
    events_go_on();
    let _actors = script.actors();
    let Some(fit) = judge(kept, script, note) else {
        return Ok(false);
    };
    if !happen(&mut kept.plain, &note.what())? {
        return Ok(false);
    }
    kept.follow(script, note, &fit)?;
    Ok(true)
}

// Lets what the note says happen in the plain state, and says whether it can.
fn happen(plain: &mut Plain, what: &What) -> Result<bool, NoMemory>
    requires { OfActor (actors_of plain.old) what.now }
    ensures happened { IfOk result (λ can. MatchBool can
        (MayHappen (state_of plain.old) what.now × (state_of plain.new ≡ plain_after (state_of plain.old) what.now))
        (MayHappen (state_of plain.old) what.now → ⊥)) }
    ensures actors { actors_of plain.new ≡ actors_of plain.old }
{
    let What::Event(event) = what else {
        return Ok(true);
    };
    match plain.apply(event) {
        Ok(()) => Ok(true),
        Err(PlainRefusal::Broken) => Ok(false),
        Err(PlainRefusal::NoMemory) => Err(NoMemory),
    }
}
