//! Whether an actor that waits has a cause.
ghost use Rattle.std.specs.Prelude.{◌≡◌, ◌<◌, ◌↔◌, IsTrue, Some, length};
ghost use Rattle.std.specs.Option.{option_copied};
ghost use Rattle.gup_spec_accepted.specs.Waits.{WaitsRight, HoldsFor, waits_for};
ghost use Rattle.gup_spec_journal.specs.Order.{KeepsLock};
ghost use Rattle.gup_spec_journal.specs.Plain.{Judged};
ghost use Rattle.gup_spec_journal.specs.Place.{doer_of, present_op};
ghost use Rattle.gup_exec_plain.specs.Parts.{state_of};
ghost use Rattle.gup_check_answers.specs.Waits.{is_given};
ghost use Rattle.gup_spec_check.specs.Seen.{Seen};
ghost use Rattle.gup_spec_check.specs.Times.{Times};
ghost use Rattle.gup_check_state.specs.Shows.{Shows};
ghost use Rattle.gup_check_judge.specs.Knows.{Knows, IsKnown};

use crate::present::{birth_for, op_behind, process_number};
use gup_base::ActorNo;
use gup_check_answers::{is_same_wait, keeps_lock, taken_handle, waits_are_by_values, waits_for};
use gup_check_plain::Doer;
use gup_check_state::Kept;
use gup_exec_plain::Plain;
use gup_plain::Waiting;
use gup_script::{Op, Script};

/// Whether the actor, whose present operation this is, waits for this: another actor holds the lock of its process, or its process isn't
/// born yet, or the handle isn't given to it.
pub(crate) fn waits_right(
    kept: &Kept,
    script: &Script,
    actor: ActorNo,
    op: &Op,
    waiting: Waiting,
) -> bool
    requires known { IsKnown script.now kept.now }
    requires declared { actor < length script.now.actors }
    ensures { (seen : Seen) (times : Times) → Shows script.now kept.now seen times → Knows script.now seen times
        → present_op script.now actor (seen.judged.places actor) ≡ Some op.now
        → IsTrue result ↔ WaitsRight script.now seen.judged actor waiting }
{
    match waiting {
        Waiting::Holder(other) => holds_for(kept, script, actor, op, other),
        Waiting::Handle(_) | Waiting::Process(_) => waits_so(
            &kept.plain,
            script,
            actor,
            op,
            waiting,
        ),
    }
}

// Whether the plain state has the actor wait for this.
fn waits_so(plain: &Plain, script: &Script, actor: ActorNo, op: &Op, waiting: Waiting) -> bool
    requires { actor < length script.now.actors }
    ensures { (j : Judged) → j.plain ≡ state_of plain.now → present_op script.now actor (j.places actor) ≡ Some op.now
        → IsTrue result ↔ (waits_for script.now j actor ≡ Some waiting) }
{
    waits_are_by_values();
    let who = Doer::of(script, actor, Some(op));
    let birth = birth_for(plain, &who);
    let given = is_given(plain, actor, op);
    is_same_wait(waits_for(who.process(), birth, given, Some(op)), waiting)
}

// Whether the other actor is in the middle of an operation that keeps a lock of the process that this one's operation is of.
fn holds_for(kept: &Kept, script: &Script, actor: ActorNo, op: &Op, other: ActorNo) -> bool
    requires known { IsKnown script.now kept.now }
    requires declared { actor < length script.now.actors }
    ensures { (seen : Seen) (times : Times) → Shows script.now kept.now seen times → Knows script.now seen times
        → present_op script.now actor (seen.judged.places actor) ≡ Some op.now
        → IsTrue result ↔ HoldsFor script.now seen.judged actor other }
{
    let Some(progress) = kept.progress(other) else {
        return false;
    };
    if actor == other {
        return false;
    }
    let held = op_behind(script, other, progress.answered);
    progress.has_begun && locks(script, other, held, actor, op)
}

// Whether the first actor's operation keeps a lock of the process that the second one's is of.
fn locks(script: &Script, other: ActorNo, held: Option<&Op>, actor: ActorNo, op: &Op) -> bool
    requires first { other < length script.now.actors }
    requires second { actor < length script.now.actors }
    ensures { let held = option_copied held.entry in
        IsTrue result ↔ (((doer_of script.now other held).proc ≡ (doer_of script.now actor (Some op.now)).proc) × KeepsLock held) }
{
    keeps_lock(held) && concerned(script, other, held) == concerned(script, actor, Some(op))
}

// The number of the process that the operation is of.
fn concerned(script: &Script, actor: ActorNo, op: Option<&Op>) -> u8
    requires { actor < length script.now.actors }
    ensures { result ≡ (doer_of script.now actor (option_copied op.entry)).proc }
{
    process_number(Doer::of(script, actor, op).process())
}

// Whether the handle of a take is given to the actor.
fn is_given(plain: &Plain, actor: ActorNo, op: &Op) -> bool
    ensures { result ≡ is_given (state_of plain.now).handle actor (Some op.now) }
{
    match taken_handle(Some(op)) {
        None => false,
        Some(handle) => plain.handle(handle).is_given_to(actor),
    }
}
