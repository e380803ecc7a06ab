//! What may come next in an operation.
ghost use Rattle.std.specs.Prelude.{◌≡◌, ℕ, if◌then◌else◌, Some, None};
ghost use Rattle.gup_plain.specs.declared.answer.Answer.TheVariants.{Plain};
ghost use Rattle.gup_check_course.specs.declared.course.Course.TheVariants.{Closing};
ghost use Rattle.gup_check_course.specs.declared.course.Step.TheVariants.{On};
ghost use Rattle.gup_check_course.specs.Arcs.{taken, next_of, begins, goes_on};

use crate::course::{Course, Step};
use crate::said::{
    is_answer, is_fill, is_give, is_load, is_look, is_map, is_protect, is_store, is_take, is_unpin,
    value,
};
use crate::steps::{
    begin_fork, begin_pin, copy_word, discard_page, drop_page, end_short, ended, fork_on,
    go_from_mark, go_slowly, is_refused, move_word, on, take_any, unmap_page, walk,
};
use gup_base::ActorNo;
use gup_plain::{Answer, What};
use gup_script::Op;

/// What an event or an answer makes of an operation of this actor that has come so far: it goes on, or it has
/// ended. `None` exactly where that can't come there. `proc` is the number of the actor's process, or 16 if it is of
/// none.
pub fn next(actor: ActorNo, proc: u8, op: &Op, course: Course, what: What) -> Option<Step>
    ensures { (number : ℕ) → result ≡ next_of (record { actor = actor; proc = proc; number = number }) op.now course what }
{
    match course {
        Course::Start => {
            if is_refused(op, &what) {
                return Some(Step::Ended);
            }
            begin(actor, proc, op, &what)
        }
        Course::Closing(answer) => ended(is_answer(&what, answer)),
        _ => go_on(actor, proc, op, course, &what),
    }
}

// The first event of an operation, or its answer, if it isn't refused.
fn begin(actor: ActorNo, proc: u8, op: &Op, what: &What) -> Option<Step>
    ensures { (number : ℕ) → result ≡ taken what.now (begins (record { actor = actor; proc = proc; number = number }) op.now what.now) }
{
    match op {
        Op::Map { page, n, rights } => closes(is_map(what, actor, proc, *page, *n, *rights)),
        Op::Unmap { page, n } => unmap_page(actor, proc, *page, *n, page.get(), what),
        Op::Protect { page, n, rights } => closes(is_protect(
            what, actor, proc, *page, *n, *rights,
        )),
        Op::Discard { page, n } => discard_page(actor, proc, *page, *n, page.get(), what),
        Op::Load { page, word } => {
            let came = is_load(what, actor, proc, *page, *word);
            on(came, Course::Closing(Answer::Value(value(what))))
        }
        Op::Store { page, word, value } => closes(is_store(
            what, actor, proc, *page, *word, *value,
        )),
        Op::Pin {
            page,
            n,
            want,
            fast,
            ..
        } => begin_pin(actor, proc, *page, *n, *want, *fast, what),
        Op::Unpin { handle } => closes(is_unpin(what, actor, *handle)),
        Op::Give { handle, to } => closes(is_give(what, actor, *handle, *to)),
        Op::Take { handle } => closes(is_take(what, actor, *handle)),
        Op::Get { .. } | Op::Put { .. } | Op::Move { .. } => ended(is_answer(what, Answer::Plain)),
        Op::Transfer {
            handle,
            outward,
            slot,
            parts,
        } => move_word(actor, *handle, *outward, *slot, parts, 0, what),
        Op::Mirror { mirror, proc, page } => closes(is_fill(what, actor, *mirror, *proc, *page)),
        Op::Look { mirror, word } => {
            let came = is_look(what, actor, *mirror, *word);
            on(came, Course::Closing(Answer::Value(value(what))))
        }
        Op::Fork { child } => begin_fork(proc, *child, what),
        Op::Exit => take_any(actor, proc, what),
    }
}

// A single event came, which the plain answer follows.
fn closes(came: bool) -> Option<Step>
    ensures { result ≡ if came then Some (On (Closing Plain)) else None }
{
    on(came, Course::Closing(Answer::Plain))
}

// What comes behind the first event of an operation.
fn go_on(actor: ActorNo, proc: u8, op: &Op, course: Course, what: &What) -> Option<Step>
    ensures { (number : ℕ) → result ≡ taken what.now (goes_on (record { actor = actor; proc = proc; number = number }) op.now course what.now) }
{
    match op {
        Op::Unmap { page, n } => match course {
            Course::Taking(next) => unmap_page(actor, proc, *page, *n, next, what),
            _ => None,
        },
        Op::Discard { page, n } => match course {
            Course::Taking(next) => discard_page(actor, proc, *page, *n, next, what),
            _ => None,
        },
        Op::Exit => match course {
            Course::Taking(_) => take_any(actor, proc, what),
            _ => None,
        },
        Op::Transfer {
            handle,
            outward,
            slot,
            parts,
        } => match course {
            Course::Moved(k) => move_word(actor, *handle, *outward, *slot, parts, k, what),
            _ => None,
        },
        Op::Fork { child } => match course {
            Course::Forking(from) => fork_on(proc, *child, from, what),
            Course::Copying { page, word } => copy_word(proc, *child, page, word, what),
            _ => None,
        },
        Op::Pin {
            handle,
            page,
            n,
            want,
            ..
        } => match course {
            Course::Walking(k) => walk(actor, proc, *handle, *page, *n, *want, k, what),
            Course::Stopped(k) => go_from_mark(actor, proc, *handle, *page, *n, *want, k, what),
            Course::Dropping { dropped, pages } => drop_page(actor, *page, dropped, pages, what),
            Course::Slow(k) => go_slowly(actor, proc, op, *handle, *page, *n, *want, k, what),
            Course::Short(k) => end_short(*n, *want, k, what),
            _ => None,
        },
        _ => None,
    }
}
