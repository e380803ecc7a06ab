//! The verdict on a trace.
ghost use Rattle.std.specs.Prelude.{◌↔◌, IsTrue, IfOk};
ghost use Rattle.gup_spec_check.specs.Verdicts.{IsVerdict};
ghost use Rattle.gup_check.specs.Takes.{HaveEnded};

use crate::take::take;
use gup_base::{ActorNo, NoMemory};
use gup_check_state::Kept;
use gup_law_check::{answers_are_counted, notes_fit_one_by_one};
use gup_law_course::standings_are_places;
use gup_read_trace::Trace;
use gup_script::Script;
use gup_spec_check::Verdict;
use std::alloc::Global;

/// Whether the notes of the trace are accepted of its script, in whatever order the actors take their turns: each event can happen in the
/// plain model and is the next of its operation, each answer is the right one, no page is passed that was named all the time, and
/// whoever waits has a cause. What depends on frames (`noframe`, `unmovable`, `busy`, `untouched`, `stale`) is taken on trust. The only
/// error is that the program's own memory ran out.
///
/// It takes logarithmic time a note in what the note touches, a note of n pages n times that, and a fork's end what was copied.
pub fn check(alloc: Global, trace: &Trace) -> Result<Verdict, NoMemory>
    ensures { IfOk result (IsVerdict trace.now.script trace.now.journal.notes) }
{
    notes_fit_one_by_one();
    answers_are_counted();
    standings_are_places();
    let script = &trace.script;
    let _actors = script.actors();
    let mut kept = Kept::start(alloc, script)?;
    for (before, note) in trace.journal.notes().iter().enumerate() {
        if !take(&mut kept, script, note)? {
            return Ok(Verdict::No(before as u64 + 1));
        }
    }
    if have_ended(&kept, script) {
        Ok(Verdict::Yes)
    } else {
        Ok(Verdict::Open)
    }
}

// Whether no actor of the script has an operation left.
fn have_ended(kept: &Kept, script: &Script) -> bool
    ensures { IsTrue result ↔ HaveEnded script.now kept.now }
{
    for a in 0..script.actors() {
        let actor = ActorNo::new(u64::from(a)).unwrap();
        if kept.present_op(script, actor).is_some() {
            return false;
        }
    }
    true
}
