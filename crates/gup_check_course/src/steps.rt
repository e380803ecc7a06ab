//! What a note makes of an operation.
ghost use Rattle.std.specs.Prelude.{◌≡◌, ℕ, Bool, List, ◌+◌, ◌-◌, ◌*◌, ◌&&◌, ◌<◌, ◌≤◌, ◌^◌, ◌↔◌, nat_lt, nat_le, if◌then◌else◌, [], ◌∷◌, Some, None, IsSome, IfSome, IsTrue};
ghost use Rattle.gup_base.specs.Parts.{Part, words_of, word_at};
ghost use Rattle.gup_script.specs.declared.op.Op.TheVariants.{Pin, Transfer};
ghost use Rattle.gup_plain.specs.declared.answer.Answer.TheVariants as answers;
ghost use Rattle.gup_plain.specs.declared.event.PlainEvent.TheVariants as events;
ghost use Rattle.gup_plain.specs.declared.event.PlainEvent.{PlainEvent as Plain};
ghost use Rattle.gup_plain.specs.declared.note.What.TheVariants.{Event, Done};
ghost use Rattle.gup_spec_journal.specs.Follows.{refuses};
ghost use Rattle.gup_check_course.specs.declared.course.Course.TheVariants.{Taking, Moved, Forking, Copying, Slow, Walking, Closing};
ghost use Rattle.gup_check_course.specs.declared.course.Step.TheVariants.{On, Ended};
ghost use Rattle.gup_check_course.specs.Arcs.{moved as moved_of, copied as copied_of, made as made_of, dropped as dropped_of, stopped as stopped_of, page_in, answer_in, taken, begins_fork, takes_down, takes_any, moves, forks_on, copies, tries, makes, drops, stops, walks, goes_from_mark, goes_slowly, refuses_later, refuses_at, ends_pin, ends_short, first_try};
ghost use Rattle.gup_check_course.specs.Same.{same_what};

use crate::course::{Course, Step};
use crate::said::{
    cause, is_answer, is_discard, is_drop, is_fork_begin, is_fork_end, is_fork_fail, is_fork_page,
    is_fork_word, is_made, is_moved, is_try, is_unmap, page,
};
use gup_base::{ActorNo, HandleNo, PageNo, Parts, ProcNo, Want};
use gup_plain::{Answer, Cause, What};
use gup_script::Op;

// The words of a page.
const WORDS: u16 = 512;

// The most words of a transfer.
const MOST_WORDS: u8 = 64;

// An operation that goes on so, if this is what came.
pub(crate) fn on(came: bool, course: Course) -> Option<Step>
    ensures { result ≡ if came then Some (On course) else None }
{
    if came { Some(Step::On(course)) } else { None }
}

// One that ends, if this is what came.
pub(crate) fn ended(came: bool) -> Option<Step>
    ensures { result ≡ if came then Some Ended else None }
{
    if came { Some(Step::Ended) } else { None }
}

// Takes a page down, or ends.
fn take_down(what: &What, came: bool, next: u64, end: u64) -> Option<Step>
    ensures { (event : ℕ → Plain) → came ≡ same_what what.now (Event (event (page_in what.now))) → result ≡ taken what.now (takes_down event next end what.now) }
{
    let page = page(what);
    if next <= page && page < end && came {
        return Some(Step::On(Course::Taking(page + 1)));
    }
    ended(is_answer(what, Answer::Plain))
}

// An unmap takes down a page of its n from this one on, if that is `next` or a later one, or it ends.
pub(crate) fn unmap_page(
    actor: ActorNo,
    proc: u8,
    page: PageNo,
    n: u16,
    next: u64,
    what: &What,
) -> Option<Step>
    ensures { result ≡ taken what.now (takes_down (events.Unmap actor proc) next (page + n) what.now) }
{
    let end = page.get() + u64::from(n);
    take_down(what, is_unmap(what, actor, proc), next, end)
}

// A discard does so with its pages.
pub(crate) fn discard_page(
    actor: ActorNo,
    proc: u8,
    page: PageNo,
    n: u16,
    next: u64,
    what: &What,
) -> Option<Step>
    ensures { result ≡ taken what.now (takes_down (events.Discard actor proc) next (page + n) what.now) }
{
    let end = page.get() + u64::from(n);
    take_down(what, is_discard(what, actor, proc), next, end)
}

// An exit takes down a page of its process, or ends.
pub(crate) fn take_any(actor: ActorNo, proc: u8, what: &What) -> Option<Step>
    ensures { (number : ℕ) → result ≡ taken what.now (takes_any (record { actor = actor; proc = proc; number = number }) what.now) }
{
    if is_unmap(what, actor, proc) {
        return Some(Step::On(Course::Taking(0)));
    }
    ended(is_answer(what, Answer::Plain))
}

// Which word of the pin the k-th word is, if there are so many.
fn word(parts: &Parts, k: u8) -> Option<u64>
    ensures some { IsSome result ↔ (k < words_of parts.now) }
    ensures value { IfSome result (λ index. index ≡ word_at parts.now k) }
{
    let mut left = u64::from(k);
    for part in parts.as_slice() {
        let words = u64::from(part.1);
        if left < words {
            return Some(u64::from(part.0) + left);
        }
        left -= words;
    }
    None
}

// Moves the k-th word of a transfer.
pub(crate) fn move_word(
    actor: ActorNo,
    handle: HandleNo,
    outward: bool,
    slot: u32,
    parts: &Parts,
    k: u8,
    what: &What,
) -> Option<Step>
    ensures { (proc number : ℕ) → result ≡ taken what.now (moves (record { actor = actor; proc = proc; number = number }) handle outward slot parts.now k what.now) }
{
    if k >= MOST_WORDS {
        return None;
    }
    let index = word(parts, k)?;
    let came = is_moved(
        what,
        actor,
        handle,
        outward,
        index,
        u64::from(slot) + u64::from(k),
    );
    on(came, moved(parts, k + 1))
}

// A transfer that has moved so many words.
fn moved(parts: &Parts, k: u8) -> Course
    requires { k ≤ words_of parts.now }
    ensures { result ≡ moved_of k (words_of parts.now) }
{
    if word(parts, k).is_none() {
        Course::Closing(Answer::Words)
    } else {
        Course::Moved(k)
    }
}

// A fork shares a page or begins to copy it, or it ends.
pub(crate) fn fork_on(proc: u8, child: ProcNo, from: u64, what: &What) -> Option<Step>
    ensures { (actor number : ℕ) → result ≡ taken what.now (forks_on (record { actor = actor; proc = proc; number = number }) child from what.now) }
{
    let page = page(what);
    if from <= page && is_fork_page(what, proc, child) {
        return Some(Step::On(Course::Forking(page + 1)));
    }
    if from <= page && is_fork_word(what, proc, child, page, 0) {
        return Some(Step::On(Course::Copying { page, word: 1 }));
    }
    if is_fork_end(what, proc, child) {
        return Some(Step::On(Course::Closing(Answer::Plain)));
    }
    on(is_fork_fail(what, child), Course::Closing(Answer::NoFrame))
}

// A fork copies a word of a page.
pub(crate) fn copy_word(proc: u8, child: ProcNo, page: u64, word: u16, what: &What) -> Option<Step>
    ensures { (actor number : ℕ) → result ≡ taken what.now (copies (record { actor = actor; proc = proc; number = number }) child page word) }
{
    if word < WORDS && is_fork_word(what, proc, child, page, word) {
        return Some(Step::On(copied(page, word + 1)));
    }
    None
}

// A fork that has copied so many words of a page.
fn copied(page: u64, word: u16) -> Course
    requires { page < 2 ^ 35 }
    ensures { result ≡ copied_of page word }
{
    if word == WORDS {
        Course::Forking(page + 1)
    } else {
        Course::Copying { page, word }
    }
}

// Whether a pin that has taken k of its n pages tries the next one.
fn tries_next(
    actor: ActorNo,
    proc: u8,
    page: PageNo,
    n: u8,
    write: bool,
    k: u8,
    what: &What,
) -> bool
    ensures came { result ≡ (nat_lt k n && same_what what.now (Event (events.PinTry actor proc (page + k) write))) }
    ensures below { IsTrue result → k < n }
{
    k < n && is_try(what, actor, proc, page.get() + u64::from(k), write)
}

// A pin of n pages that has made its handle of k.
fn made(k: u8, n: u8) -> Course
    ensures { result ≡ made_of k n }
{
    if k == n {
        Course::Closing(Answer::Pinned(n))
    } else {
        Course::Short(k)
    }
}

// Whether a pin that has dropped j of its k pages drops the next one.
fn drops_next(actor: ActorNo, page: PageNo, j: u8, k: u8, what: &What) -> bool
    ensures came { result ≡ (nat_lt j k && same_what what.now (Event (events.PinDrop actor (page + j)))) }
    ensures below { IsTrue result → j < k }
{
    j < k && is_drop(what, actor, page.get() + u64::from(j))
}

// A pin that has dropped j of its k pages.
fn dropped(j: u8, k: u8) -> Course
    ensures { result ≡ dropped_of j k }
{
    if j == k {
        Course::Slow(0)
    } else {
        Course::Dropping {
            dropped: j,
            pages: k,
        }
    }
}

// A walk that has stopped at a mark, with k pages before that.
fn stopped(k: u8) -> Course
    ensures { result ≡ stopped_of k }
{
    if k == 0 {
        Course::Slow(0)
    } else {
        Course::Stopped(k)
    }
}

// A pin walks on, or makes its handle, or stops at a mark, or drops all.
pub(crate) fn walk(
    actor: ActorNo,
    proc: u8,
    handle: HandleNo,
    page: PageNo,
    n: u8,
    want: Want,
    k: u8,
    what: &What,
) -> Option<Step>
    ensures { (number : ℕ) → result ≡ taken what.now (walks (record { actor = actor; proc = proc; number = number }) handle page n want k) }
{
    if tries_next(actor, proc, page, n, want.write, k, what) {
        return Some(Step::On(Course::Walking(k + 1)));
    }
    if k > 0 && is_made(what, actor, handle) {
        return Some(Step::On(made(k, n)));
    }
    if k > 0 && is_drop(what, actor, page.get() + u64::from(k - 1)) {
        return Some(Step::On(stopped(k - 1)));
    }
    on(drops_next(actor, page, 0, k, what), dropped(1, k))
}

// A pin that has stopped at a mark goes on slowly, or makes its handle, or drops all.
pub(crate) fn go_from_mark(
    actor: ActorNo,
    proc: u8,
    handle: HandleNo,
    page: PageNo,
    n: u8,
    want: Want,
    k: u8,
    what: &What,
) -> Option<Step>
    ensures { (number : ℕ) → result ≡ taken what.now (goes_from_mark (record { actor = actor; proc = proc; number = number }) handle page n want k) }
{
    if tries_next(actor, proc, page, n, want.write, k, what) {
        return Some(Step::On(Course::Slow(k + 1)));
    }
    if k > 0 && is_made(what, actor, handle) {
        return Some(Step::On(made(k, n)));
    }
    on(drops_next(actor, page, 0, k, what), dropped(1, k))
}

// A pin drops a page.
pub(crate) fn drop_page(actor: ActorNo, page: PageNo, j: u8, k: u8, what: &What) -> Option<Step>
    ensures { (proc number : ℕ) → result ≡ taken what.now (drops (record { actor = actor; proc = proc; number = number }) page j k ∷ []) }
{
    if drops_next(actor, page, j, k, what) {
        return Some(Step::On(dropped(j + 1, k)));
    }
    None
}

// Whether the operation may be refused so.
fn may_refuse(op: &Op, answer: Answer) -> bool
    ensures { result ≡ refuses op.now answer }
{
    match op {
        Op::Load { .. } => matches!(answer, Answer::Missing | Answer::NoFrame | Answer::Unborn),
        Op::Store { .. } => matches!(
            answer,
            Answer::Missing | Answer::Forbidden | Answer::NoFrame | Answer::Unborn
        ),
        Op::Map { .. } => matches!(answer, Answer::Overlap | Answer::Full | Answer::Unborn),
        Op::Protect { .. } => matches!(answer, Answer::Missing | Answer::Unborn),
        Op::Pin { want, .. } => may_refuse_pin(*want, answer),
        Op::Unpin { .. } => matches!(answer, Answer::NotHeld | Answer::Unborn),
        Op::Give { .. } => matches!(answer, Answer::NotHeld | Answer::Unborn),
        Op::Get { .. } => matches!(answer, Answer::Missing | Answer::NoFrame | Answer::Unborn),
        Op::Put { .. } => matches!(answer, Answer::NotHeld | Answer::Unborn),
        Op::Transfer { outward, .. } => may_refuse_words(*outward, answer),
        Op::Mirror { .. } => matches!(answer, Answer::Missing | Answer::NoFrame | Answer::Unborn),
        Op::Look { .. } => matches!(answer, Answer::Stale),
        Op::Move { .. } => matches!(
            answer,
            Answer::Missing | Answer::Untouched | Answer::Busy(_) | Answer::NoFrame | Answer::Unborn
        ),
        Op::Fork { .. } => false,
        Op::Unmap { .. } | Op::Discard { .. } | Op::Take { .. } | Op::Exit => matches!(
            answer,
            Answer::Unborn
        ),
    }
}

fn may_refuse_pin(want: Want, answer: Answer) -> bool
    ensures { (handle page n : ℕ) (fast : Bool) → result ≡ refuses (Pin handle page n want fast) answer }
{
    match answer {
        Answer::Missing | Answer::Forbidden | Answer::NoFrame | Answer::Unborn => true,
        Answer::Unmovable(_) => want.long,
        _ => false,
    }
}

fn may_refuse_words(outward: bool, answer: Answer) -> bool
    ensures { (handle slot : ℕ) (parts : List Part) → result ≡ refuses (Transfer handle outward slot parts) answer }
{
    match answer {
        Answer::NotHeld | Answer::Range => true,
        Answer::Forbidden => !outward,
        _ => false,
    }
}

// Whether it is refused so, before anything was said of it.
#[tactic(auto, using(crate::proofs::SameLemmas::answer_self, crate::proofs::SameLemmas::and_false))]
pub(crate) fn is_refused(op: &Op, what: &What) -> bool
    ensures { result ≡ (refuses op.now (answer_in what.now) && same_what what.now (Done (answer_in what.now))) }
{
    match what {
        What::Done(answer) => may_refuse(op, *answer),
        _ => false,
    }
}

// Whether it is refused so later: not by a birth that fails.
fn is_refused_later(op: &Op, what: &What) -> bool
    ensures { result ≡ (refuses_later op.now (answer_in what.now) && same_what what.now (Done (answer_in what.now))) }
{
    !is_answer(what, Answer::Unborn) && is_refused(op, what)
}

// A pin tries a page slowly, or makes its handle; at its first page it may be refused.
pub(crate) fn go_slowly(
    actor: ActorNo,
    proc: u8,
    op: &Op,
    handle: HandleNo,
    page: PageNo,
    n: u8,
    want: Want,
    k: u8,
    what: &What,
) -> Option<Step>
    ensures { (number : ℕ) → result ≡ taken what.now (goes_slowly (record { actor = actor; proc = proc; number = number }) op.now handle page n want k what.now) }
{
    if tries_next(actor, proc, page, n, want.write, k, what) {
        return Some(Step::On(Course::Slow(k + 1)));
    }
    if k > 0 {
        return on(is_made(what, actor, handle), made(k, n));
    }
    ended(is_refused_later(op, what))
}

// Whether this may refuse a page behind those that a pin has taken.
fn may_end_pin(want: Want, cause: Cause) -> bool
    ensures { result ≡ ends_pin want cause }
{
    match cause {
        Cause::Missing | Cause::Forbidden | Cause::NoFrame => true,
        Cause::Unmovable(_) => want.long,
    }
}

// A short pin answers.
pub(crate) fn end_short(n: u8, want: Want, k: u8, what: &What) -> Option<Step>
    ensures { result ≡ taken what.now (ends_short n want k what.now) }
{
    let cause = cause(what);
    let short = Answer::Short {
        got: k,
        wanted: n,
        cause,
    };
    ended(may_end_pin(want, cause) && is_answer(what, short))
}

// A pin tries its first page.
pub(crate) fn begin_pin(
    actor: ActorNo,
    proc: u8,
    page: PageNo,
    n: u8,
    want: Want,
    fast: bool,
    what: &What,
) -> Option<Step>
    ensures { (number : ℕ) → result ≡ taken what.now (tries (record { actor = actor; proc = proc; number = number }) page n want 0 (first_try fast) ∷ []) }
{
    let first = if fast {
        Course::Walking(1)
    } else {
        Course::Slow(1)
    };
    on(tries_next(actor, proc, page, n, want.write, 0, what), first)
}

// A fork begins, or its process was never born.
pub(crate) fn begin_fork(proc: u8, child: ProcNo, what: &What) -> Option<Step>
    ensures { (actor number : ℕ) → result ≡ taken what.now (begins_fork (record { actor = actor; proc = proc; number = number }) child) }
{
    if is_fork_begin(what, proc, child) {
        return Some(Step::On(Course::Forking(0)));
    }
    on(is_fork_fail(what, child), Course::Closing(Answer::Unborn))
}
