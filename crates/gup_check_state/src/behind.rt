//! How far an actor has come behind a note of its own.
ghost use Rattle.std.specs.Prelude.{◌≡◌, ◌+◌, ◌<◌, length, slice_get, true, false};
ghost use Rattle.gup_plain.specs.Note.{NoteValue};
ghost use Rattle.gup_script.specs.Script.{ops_of};
ghost use Rattle.gup_spec_accepted.specs.Passing.{page_at, next_behind, first_page as first_page_of};
ghost use Rattle.gup_check_course.specs.declared.course.Course.{Course as CourseValue};
ghost use Rattle.gup_check_course.specs.declared.course.Course.TheVariants.{Start};
ghost use Rattle.gup_check_course.specs.declared.course.Step.TheVariants.{On};
ghost use Rattle.gup_spec_check.specs.Seen.{Seen, seen_after};
ghost use Rattle.gup_spec_check.specs.Times.{Times, times_after};
ghost use Rattle.gup_check_state.specs.declared.kept.Fit.TheVariants.{Steps};
ghost use Rattle.gup_check_state.specs.Presence.{AnswersOne};
ghost use Rattle.gup_check_state.specs.Shows.{IsProgress, IsFit, PlacesAgree};

use crate::kept::{Fit, Progress};
use gup_check_course::{Course, Step};
use gup_check_pages::{first_page, next_page};
use gup_law_course::{answers_end, events_go_on};
use gup_plain::{Note, PlainEvent, What};
use gup_script::{Op, Script};

impl Progress {
    // Behind a turn without an event or an answer.
    fn begun(self) -> Progress
        ensures { result ≡ record self { has_begun = true } }
    {
        Progress {
            has_begun: true,
            ..self
        }
    }

    // Behind an event, which is the note of this number.
    fn gone_on(self, course: Course, event: &PlainEvent, count: u64) -> Progress
        ensures { result ≡ record self {
          course = course;
          has_begun = true;
          said = count;
          next = next_behind (page_at event.now) self.next;
        } }
    {
        Progress {
            answered: self.answered,
            course,
            has_begun: true,
            said: count,
            next: next_page(self.next, event),
        }
    }

    // Behind an answer, which is the note of this number. The actor has these operations.
    fn ended(self, ops: &[Op], count: u64) -> Progress
        requires { self.answered < length ops.now }
        ensures { result ≡ record {
          answered = self.answered + 1;
          course = Start;
          has_begun = false;
          said = count;
          next = first_page_of (slice_get ops.now (self.answered + 1));
        } }
    {
        let answered = self.answered + 1;
        Progress {
            answered,
            course: Course::Start,
            has_begun: false,
            said: count,
            next: first_page(ops.get(answered)),
        }
    }
}

impl Fit {
    // How far the operation has come behind an event that fits.
    fn course(&self) -> Course
        ensures { (course : CourseValue) → self.now ≡ Steps (On course) → result ≡ course }
    {
        match self {
            Fit::Steps(Step::On(course)) => *course,
            Fit::Steps(Step::Ended) | Fit::Stays => Course::Start,
        }
    }
}

// How far the note's actor has come behind it, from this far on. The note fits, and has this number.
pub(crate) fn progress_behind(
    progress: &Progress,
    script: &Script,
    note: &Note,
    fit: &Fit,
    count: u64,
) -> Progress
    requires actor { note.now.actor < length script.now.actors }
    requires answers { AnswersOne note.now.what (slice_get (ops_of script.now note.now.actor) progress.now.answered) }
    ensures { (seen : Seen) (times : Times) → IsProgress seen times note.now.actor progress.now
        → IsFit script.now seen note.now fit.now → PlacesAgree seen → count ≡ times.count + 1
        → IsProgress (seen_after script.now seen note.now) (times_after times note.now) note.now.actor result }
{
    events_go_on();
    answers_end();
    match note.what() {
        What::Silent => progress.begun(),
        What::Idle | What::Wait(_) => *progress,
        What::Event(event) => progress.gone_on(fit.course(), &event, count),
        What::Done(_) => progress.ended(script.ops(note.actor()), count),
    }
}
