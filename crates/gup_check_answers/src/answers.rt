//! Whether an event or an answer is right where the plain state gives a denial, or gives none.
ghost use Rattle.std.specs.Prelude.{◌≡◌, ◌↔◌, IsTrue};
ghost use Rattle.gup_plain.specs.declared.event.PlainEvent.TheVariants.{ForkFail};
ghost use Rattle.gup_plain.specs.Denial.{is_denial};
ghost use Rattle.gup_spec_journal.specs.Plain.{IsBornOrFailed, IsAnswerAfter, MayStand, FailsChild, refusal_by_cause, refusal_in, judged_before};
ghost use Rattle.gup_exec_parts.specs.Space.{birth_of};
ghost use Rattle.gup_check_answers.specs.Answers.{got_by};

use gup_base::ProcNo;
use gup_exec_parts::space::Birth;
use gup_plain::{Answer, Cause, PlainEvent};
use gup_script::Op;

/// Whether the event may stand in its operation, which the plain state denies with this answer, or (`None`) doesn't deny. `had`
/// says whether the operation had an event before: then any may follow. Else a denied operation has none, but that the fork of a
/// failed process makes its child failed.
pub fn may_stand(had: bool, denied: Option<Answer>, op: &Op, event: &PlainEvent) -> bool
    ensures { IsTrue result ↔ MayStand had denied op.now event.now }
{
    match denied {
        None => true,
        Some(denial) => had || (denial == Answer::Unborn && fails_child(op, event)),
    }
}

// Whether the event makes the child of the fork failed.
fn fails_child(op: &Op, event: &PlainEvent) -> bool
    ensures { IsTrue result ↔ FailsChild op.now event.now }
{
    match op {
        Op::Fork { child } => is_failure(event, *child),
        _ => false,
    }
}

fn is_failure(event: &PlainEvent, child: ProcNo) -> bool
    ensures { IsTrue result ↔ (event.now ≡ ForkFail child) }
{
    match event {
        PlainEvent::ForkFail { child: failed } => *failed == child,
        _ => false,
    }
}

/// Whether the answer is right for its operation, which the plain state denies with this answer, or (`None`) doesn't deny. `judged`
/// says whether the operation was judged before. If it wasn't, and there is a denial, only that is right. Else any answer is
/// that the plain state doesn't decide. Of a short pin the answer is what its next page was refused with.
pub fn is_right_answer(judged: bool, denied: Option<Answer>, answer: &Answer) -> bool
    ensures { IsTrue result ↔ IsAnswerAfter judged denied (refusal_in answer.now) }
{
    let refusal = refusal(answer);
    match denied {
        Some(denial) if !judged => refusal == denial,
        _ => !is_denial(&refusal),
    }
}

// The refusal of the page that ended a short pin; of any other answer itself.
fn refusal(answer: &Answer) -> Answer
    ensures { result ≡ refusal_in answer.now }
{
    match answer {
        Answer::Short { cause, .. } => refusal_by(*cause),
        _ => *answer,
    }
}

fn refusal_by(cause: Cause) -> Answer
    ensures { result ≡ refusal_by_cause cause }
{
    match cause {
        Cause::Missing => Answer::Missing,
        Cause::Forbidden => Answer::Forbidden,
        Cause::NoFrame => Answer::NoFrame,
        Cause::Unmovable(count) => Answer::Unmovable(count),
    }
}

// Whether it is one of the answers that the plain state decides.
fn is_denial(answer: &Answer) -> bool
    ensures { result ≡ is_denial answer.now }
{
    match answer {
        Answer::Missing
        | Answer::Forbidden
        | Answer::NotHeld
        | Answer::Range
        | Answer::Overlap
        | Answer::Full
        | Answer::Unborn => true,
        _ => false,
    }
}

/// Whether the operation was judged before this answer. `had` says whether it had an event before, at which it was. But a fork is
/// judged at its answer, and so is a pin that is refused a page. A pin that has all its pages was judged at each of them.
pub fn judged_before(op: &Op, had: bool, answer: &Answer) -> bool
    ensures { result ≡ judged_before op.now had answer.now }
{
    match op {
        Op::Fork { .. } => false,
        Op::Pin { .. } => matches!(answer, Answer::Pinned(_)),
        _ => had,
    }
}

/// How many pages a pin has got at this answer: so many as a short pin says, and else those that are pending.
pub fn pages_got(pending: usize, answer: &Answer) -> usize
    ensures { result ≡ got_by pending answer.now }
{
    match answer {
        Answer::Short { got, .. } => usize::from(*got),
        _ => pending,
    }
}

/// Whether the process is born, or never will be. No operation of a process ends before.
pub fn has_come_or_failed(birth: Birth) -> bool
    ensures { IsTrue result ↔ IsBornOrFailed (birth_of birth) }
{
    match birth {
        Birth::Born | Birth::Failed => true,
        Birth::Unborn | Birth::Growing(_) => false,
    }
}
