//! Whether a note fits, but for whether its event can happen.
ghost use Rattle.std.specs.Prelude.{◌≡◌, ◌+◌, ◌==◌, ◌<◌, ◌↔◌, true, IsTrue, MatchOption, Some, length};
ghost use Rattle.gup_plain.specs.declared.note.What.TheVariants.{Idle, Event, Done};
ghost use Rattle.gup_script.specs.Valid.{IsOp};
ghost use Rattle.gup_spec_accepted.specs.Passing.{PassesRight};
ghost use Rattle.gup_spec_journal.specs.Denial.{denial};
ghost use Rattle.gup_spec_journal.specs.Place.{birth_for, doer_of, process_of};
ghost use Rattle.gup_spec_journal.specs.Plain.{IsBornOrFailed};
ghost use Rattle.gup_exec_plain.specs.Parts.{state_of};
ghost use Rattle.gup_spec_check.specs.Seen.{Seen, Fits};
ghost use Rattle.gup_spec_check.specs.Times.{Times};
ghost use Rattle.gup_law_course.specs.UnderWay.{is_under_way};
ghost use Rattle.gup_check_pages.specs.Mapped.{mapped_of};
ghost use Rattle.gup_check_pages.specs.Passing.{timed_going};
ghost use Rattle.gup_check_plain.specs.Needs.{NeedsProcess};
ghost use Rattle.gup_check_plain.specs.Referring.{references_of};
ghost use Rattle.gup_check_state.specs.declared.kept.Fit.TheVariants.{Stays};
ghost use Rattle.gup_check_state.specs.Shows.{Shows};
ghost use Rattle.gup_check_judge.specs.Knows.{Knows, IsKnown, IsJudged, JudgesInTurn};
ghost use Rattle.gup_check_judge.specs.Present.{IsPresent, standing_of, step_of};

use crate::present::{birth_for, op_behind, process_number, process_of};
use crate::turn::fits_turn;
use crate::waits::waits_right;
use gup_base::ActorNo;
use gup_check_answers::{
    has_come_or_failed, is_right_answer, judged_before, may_stand, pages_are_got, pages_got,
};
use gup_check_course::{Course, Step, next};
use gup_check_pages::passes_right;
use gup_check_plain::{Doer, denial, operations_fit};
use gup_check_state::{Fit, Kept, Progress};
use gup_plain::{Answer, Note, PlainEvent, What};
use gup_script::{Op, Script};

/// Whether the note fits those that have led here, if its event, where it is one, can happen in the plain state; and what it
/// makes of its operation then. `None` where it doesn't fit whatever its event.
pub fn judge(kept: &Kept, script: &Script, note: &Note) -> Option<Fit>
    requires { IsKnown script.now kept.now }
    ensures { (seen : Seen) (times : Times) → Shows script.now kept.now seen times → Knows script.now seen times
        → MatchOption result (Fits script.now seen note.now → ⊥) (IsJudged script.now seen note.now) }
{
    let _actors = script.actors();
    if !fits_turn(kept, script, note) {
        return None;
    }
    let actor = note.actor();
    let Some(progress) = kept.progress(actor) else {
        return judge_behind(&note.what());
    };
    match op_behind(script, actor, progress.answered) {
        None => judge_behind(&note.what()),
        Some(op) => judge_within(kept, script, note, progress, op),
    }
}

// Behind its last operation an actor is idle, and nothing else.
fn judge_behind(what: &What) -> Option<Fit>
    ensures { MatchOption result (what.now ≡ Idle → ⊥) (λ fit. (what.now ≡ Idle) × (fit ≡ Stays)) }
{
    matches!(what, What::Idle).then_some(Fit::Stays)
}

// A note of an operation that isn't answered.
fn judge_within(
    kept: &Kept,
    script: &Script,
    note: &Note,
    progress: &Progress,
    op: &Op,
) -> Option<Fit>
    requires known { IsKnown script.now kept.now }
    requires present { IsPresent script.now kept.now note.now.actor progress.now op.now }
    ensures { JudgesInTurn script.now kept.now note.now result }
{
    match note.what() {
        What::Silent => Some(Fit::Stays),
        What::Idle => None,
        What::Wait(waiting) => {
            waits_right(kept, script, note.actor(), op, waiting).then_some(Fit::Stays)
        }
        What::Event(event) => judge_event(kept, script, note, progress, op, &event),
        What::Done(answer) => judge_answer(kept, script, note, progress, op, &answer),
    }
}

// An event: it may come next, passes no page that was named all the time, and nothing denies its operation.
fn judge_event(
    kept: &Kept,
    script: &Script,
    note: &Note,
    progress: &Progress,
    op: &Op,
    event: &PlainEvent,
) -> Option<Fit>
    requires present { IsPresent script.now kept.now note.now.actor progress.now op.now }
    requires event { note.now.what ≡ Event event.now }
    ensures { JudgesInTurn script.now kept.now note.now result }
{
    operations_fit();
    let step = step_of(script, note, progress, op)?;
    if !passes(kept, script, note, progress, op) {
        return None;
    }
    let actor = note.actor();
    let got = kept.plain.pages_pending(actor);
    let denied = denied_at(kept, script, actor, op, got);
    may_stand(has_had(progress), denied, op, event).then_some(Fit::Steps(step))
}

// An answer: it may come next, passes no page that was named all the time, its process has come into being or failed to, and
// the plain state denies its operation so, or doesn't.
fn judge_answer(
    kept: &Kept,
    script: &Script,
    note: &Note,
    progress: &Progress,
    op: &Op,
    answer: &Answer,
) -> Option<Fit>
    requires present { IsPresent script.now kept.now note.now.actor progress.now op.now }
    requires answer { note.now.what ≡ Done answer.now }
    ensures { JudgesInTurn script.now kept.now note.now result }
{
    operations_fit();
    pages_are_got();
    let step = step_of(script, note, progress, op)?;
    if !passes(kept, script, note, progress, op) {
        return None;
    }
    let actor = note.actor();
    if !has_come(kept, script, actor, op) {
        return None;
    }
    let got = pages_got(kept.plain.pages_pending(actor), answer);
    let denied = denied_at(kept, script, actor, op, got);
    let judged = judged_before(op, has_had(progress), answer);
    is_right_answer(judged, denied, answer).then_some(Fit::Steps(step))
}

// What denies the actor its operation in the plain state, where it has got so many pages.
fn denied_at(kept: &Kept, script: &Script, actor: ActorNo, op: &Op, got: usize) -> Option<Answer>
    requires declared { actor < length script.now.actors }
    requires fits { NeedsProcess op.now → (doer_of script.now actor (Some op.now)).of_process ≡ true }
    requires in_range { IsOp op.now }
    ensures { result ≡ denial (state_of kept.now.plain) (references_of kept.now.references) (doer_of script.now actor (Some op.now)) got op.now }
{
    let who = Doer::of(script, actor, Some(op));
    denial(&kept.plain, &kept.references, &who, got, op)
}

// Whether the process that the operation is of has come into being, or failed to.
fn has_come(kept: &Kept, script: &Script, actor: ActorNo, op: &Op) -> bool
    requires { actor < length script.now.actors }
    ensures { IsTrue result ↔ IsBornOrFailed (birth_for (state_of kept.now.plain).birth (doer_of script.now actor (Some op.now))) }
{
    has_come_or_failed(birth_for(&kept.plain, &Doer::of(script, actor, Some(op))))
}

// The step that the note's event or answer is, if it may come next.
fn step_of(script: &Script, note: &Note, progress: &Progress, op: &Op) -> Option<Step>
    requires { note.now.actor < length script.now.actors }
    ensures { result ≡ step_of script.now note.now (standing_of progress.now) op.now }
{
    if !is_next(note.op(), progress.answered) {
        return None;
    }
    let actor = note.actor();
    let proc = process_number(process_of(script, actor));
    next(actor, proc, op, progress.course, note.what())
}

// Whether this is the number of the operation behind so many.
fn is_next(number: u32, answered: usize) -> bool
    ensures { result ≡ (number == answered + 1) }
{
    match number.checked_sub(1) {
        None => false,
        Some(before) => before as usize == answered,
    }
}

// Whether the operation has had an event.
fn has_had(progress: &Progress) -> bool
    ensures { result ≡ is_under_way progress.now.course }
{
    match progress.course {
        Course::Start => false,
        _ => true,
    }
}

// Whether the note passes no page that was named since its actor last said something.
fn passes(kept: &Kept, script: &Script, note: &Note, progress: &Progress, op: &Op) -> bool
    requires { IsPresent script.now kept.now note.now.actor progress.now op.now }
    ensures { let p = process_of script.now note.now.actor in
        let s = state_of kept.now.plain in
        IsTrue result ↔ PassesRight s (timed_going s (mapped_of kept.now.mapped) progress.now.said progress.now.next p) p (Some op.now) note.now.what }
{
    passes_right(
        &kept.plain,
        &kept.mapped,
        progress.said,
        progress.next,
        process_of(script, note.actor()),
        Some(op),
        &note.what(),
    )
}
