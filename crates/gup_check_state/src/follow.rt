//! What a note that fits changes of what is kept.
ghost use Rattle.std.specs.Prelude.{◌≡◌, ◌≢◌, ℕ, ◌+◌, ◌<◌, ◌^◌, OnOk, IfSome, length, slice_get, vec_len};
ghost use Rattle.std.specs.Option.{option_copied};
ghost use Rattle.gup_spec_journal.specs.Plain.{references_after};
ghost use Rattle.gup_spec_check.specs.Seen.{Seen, seen_after};
ghost use Rattle.gup_spec_check.specs.Times.{Times, times_after, mapped_after};
ghost use Rattle.gup_check_pages.specs.Mapped.{mapped_of};
ghost use Rattle.gup_check_plain.specs.Referring.{references_of};
ghost use Rattle.gup_check_state.specs.Presence.{op_at, AnswersOne};
ghost use Rattle.gup_check_state.specs.Ranges.{MapsInRange};
ghost use Rattle.gup_check_state.specs.Shows.{ShowsBefore, Shows, IsProgress, IsFit, IsFollowed, PlacesAgree};

use crate::behind::progress_behind;
use crate::kept::{Fit, Kept, Progress};
use gup_base::{ActorNo, NoMemory};
use gup_check_pages::Mapped;
use gup_check_plain::{References, operations_fit};
use gup_plain::{Answer, Note, PlainEvent, What};
use gup_script::{Op, Script};

// Who has got which reference behind a note of the actor, which was at this operation.
fn follow_references(
    references: &mut References,
    actor: ActorNo,
    op: Option<&Op>,
    what: &What,
) -> Result<(), NoMemory>
    ensures { OnOk result (references_of references.new
        ≡ references_after (references_of references.old) actor (option_copied op.entry) what.now) }
{
    let What::Done(Answer::Plain) = what else {
        return Ok(());
    };
    match op {
        Some(Op::Get { handle, .. }) => references.set(*handle, actor),
        Some(Op::Put { handle }) => {
            references.clear(*handle);
            Ok(())
        }
        _ => Ok(()),
    }
}

// Which note mapped each page, the one of this number among them.
fn follow_mapping(mapped: &mut Mapped, what: &What, count: u64) -> Result<(), NoMemory>
    requires { MapsInRange what.now }
    ensures { OnOk result (mapped_of mapped.new ≡ mapped_after count what.now (mapped_of mapped.old)) }
{
    match what {
        What::Event(PlainEvent::Map { proc, page, n, .. }) => mapped.set(*proc, *page, *n, count),
        _ => Ok(()),
    }
}

// How far each actor has come behind the note, which fits and has this number.
fn follow_actor(actors: &mut Vec<Progress>, script: &Script, note: &Note, fit: &Fit, count: u64)
    requires many { vec_len actors.old ≡ length script.now.actors }
    requires answers { AnswersOne note.now.what
        (op_at script.now note.now.actor (slice_get actors.old.items note.now.actor)) }
    ensures many { vec_len actors.new ≡ vec_len actors.old }
    ensures own { (seen : Seen) (times : Times)
        → IfSome (slice_get actors.old.items note.now.actor) (IsProgress seen times note.now.actor)
        → IsFit script.now seen note.now fit.now → PlacesAgree seen → count ≡ times.count + 1
        → IfSome (slice_get actors.new.items note.now.actor)
        (IsProgress (seen_after script.now seen note.now) (times_after times note.now) note.now.actor) }
    ensures others { (a : ℕ) → a ≢ note.now.actor → slice_get actors.new.items a ≡ slice_get actors.old.items a }
{
    if let Some(progress) = actors.get_mut(note.actor().get() as usize) {
        *progress = progress_behind(progress, script, note, fit, count);
    }
}

impl Kept {
    /// Takes a note that fits, with what it makes of its operation. If it is an event, the plain state is already what it
    /// has led to. After an error what is kept is of no use.
    pub fn follow(&mut self, script: &Script, note: &Note, fit: &Fit) -> Result<(), NoMemory>
        requires few { self.old.count + 1 < 2 ^ 64 }
        requires fits { IsFollowed script.now note.now self.old fit.now }
        ensures { (seen : Seen) (times : Times) → ShowsBefore script.now note.now self.old seen times
            → IsFit script.now seen note.now fit.now → PlacesAgree seen
            → OnOk result (Shows script.now self.new (seen_after script.now seen note.now) (times_after times note.now)) }
    {
        operations_fit();
        let actor = note.actor();
        let what = note.what();
        let op = self.present_op(script, actor);
        self.count += 1;
        self.last = Some((note.turn(), actor));
        follow_references(&mut self.references, actor, op, &what)?;
        follow_mapping(&mut self.mapped, &what, self.count)?;
        follow_actor(&mut self.actors, script, note, fit, self.count);
        Ok(())
    }
}
