//! Whether an operation passes only pages that it may.
ghost use Rattle.std.specs.Prelude.{◌≡◌, ℕ, ◌≤◌, ◌<◌, ◌^◌, ◌↔◌, IsTrue, IsSome, true, is_none};
ghost use Rattle.std.specs.Option.{option_copied, ForSome};
ghost use Rattle.gup_script.specs.Valid.{IsOp};
ghost use Rattle.gup_plain.specs.declared.event.PlainEvent.TheVariants.{ForkWord};
ghost use Rattle.gup_exec_plain.specs.Parts.{state_of};
ghost use Rattle.gup_spec_accepted.specs.Passing.{PassesRight, Comes, Ends, ArePassed, page_at, next_behind, first_page as first_page_of};
ghost use Rattle.gup_spec_check.specs.Times.{unnamed_since, is_born};
ghost use Rattle.gup_check_pages.specs.Mapped.{mapped_of};
ghost use Rattle.gup_check_pages.specs.Passing.{GoesByPages, number_of, timed_going};

use crate::mapped::Mapped;
use gup_base::{PageNo, ProcNo, WordNo};
use gup_exec_parts::space::Birth;
use gup_exec_plain::Plain;
use gup_plain::{Answer, PlainEvent, What};
use gup_script::Op;

/// Whether a note passes only pages that its operation may pass. `process` is that of the actor, if this is a thread, and `op` its present
/// operation, if it has one.
///
/// An unmap or a discard passes pages that were unnamed at some moment since note number `since`, which is known from when they were mapped;
/// a fork and an exit pass pages that aren't mapped. `next` is the first page that the operation hasn't come to yet. An event passes the
/// pages from that one on up to its own, an exit's all below it. A plain answer passes those that are left: an exit's leaves none mapped.
/// Whatever else is noted, or done by another operation, passes none.
///
/// An unmap or a discard takes time for each page that is passed, a fork or an exit logarithmic time.
pub fn passes_right(
    plain: &Plain,
    mapped: &Mapped,
    since: u64,
    next: u64,
    process: Option<ProcNo>,
    op: Option<&Op>,
    what: &What,
) -> bool
    requires process { GoesByPages (option_copied op) → IsSome process }
    requires in_range { ForSome (option_copied op) IsOp }
    ensures { IsTrue result ↔ PassesRight (state_of plain.now)
        (timed_going (state_of plain.now) (mapped_of mapped.now) since next (number_of process))
        (number_of process) (option_copied op.entry) what.now }
{
    let (Some(p), Some(op)) = (process, op) else {
        return true;
    };
    match what {
        What::Event(event) => comes_right(plain, mapped, since, next, p, op, event),
        What::Done(Answer::Plain) => ends_right(plain, mapped, since, next, p, op),
        _ => true,
    }
}

/// The first page that an operation hasn't come to yet, behind this event: the one behind the event's page, if it comes to one.
pub fn next_page(next: u64, event: &PlainEvent) -> u64
    ensures { result ≡ next_behind (page_at event.now) next }
{
    match event_page(event) {
        None => next,
        Some(page) => page.get() + 1,
    }
}

/// The first page of an unmap or a discard, and 0 of anything else.
pub fn first_page(op: Option<&Op>) -> u64
    ensures { result ≡ first_page_of (option_copied op.entry) }
{
    match op {
        Some(Op::Unmap { page, .. } | Op::Discard { page, .. }) => page.get(),
        _ => 0,
    }
}

// Whether the pages may be passed up to the event's page, if it comes to one.
fn comes_right(
    plain: &Plain,
    mapped: &Mapped,
    since: u64,
    next: u64,
    p: ProcNo,
    op: &Op,
    event: &PlainEvent,
) -> bool
    ensures { IsTrue result ↔ Comes (state_of plain.now)
        (timed_going (state_of plain.now) (mapped_of mapped.now) since next p) p op.now (page_at event.now) }
{
    let Some(page) = event_page(event) else {
        return true;
    };
    match op {
        Op::Unmap { .. } | Op::Discard { .. } => {
            are_unnamed(plain, mapped, since, p, next, page.get())
        }
        Op::Fork { .. } => lacks_pages(plain, p, next, page),
        Op::Exit => lacks_pages(plain, p, 0, page),
        _ => true,
    }
}

// Whether the pages that are left may be passed.
fn ends_right(plain: &Plain, mapped: &Mapped, since: u64, next: u64, p: ProcNo, op: &Op) -> bool
    requires { IsOp op.now }
    ensures { IsTrue result ↔ Ends (state_of plain.now)
        (timed_going (state_of plain.now) (mapped_of mapped.now) since next p) p op.now }
{
    match op {
        Op::Unmap { page, n } | Op::Discard { page, n } => {
            are_unnamed(plain, mapped, since, p, next, page.get() + u64::from(*n))
        }
        Op::Exit => lacks_all_pages(plain, p),
        _ => true,
    }
}

// Whether each page from this one on, below the other, was unnamed at some moment since that note.
fn are_unnamed(plain: &Plain, mapped: &Mapped, since: u64, p: ProcNo, from: u64, below: u64) -> bool
    requires { below ≤ 2 ^ 35 }
    ensures { IsTrue result ↔ ArePassed (unnamed_since (state_of plain.now) (mapped_of mapped.now) since p) from below }
{
    for page in from..below {
        if !is_unnamed(plain, mapped, since, p, page) {
            return false;
        }
    }
    true
}

// Whether the page was.
fn is_unnamed(plain: &Plain, mapped: &Mapped, since: u64, p: ProcNo, page: u64) -> bool
    requires { page < 2 ^ 35 }
    ensures { result ≡ unnamed_since (state_of plain.now) (mapped_of mapped.now) since p page }
{
    let page = PageNo::new(page).unwrap();
    is_born(plain, p) && (plain.rights(p, page).is_none() || since < mapped.get(p, page))
}

fn is_born(plain: &Plain, p: ProcNo) -> bool
    ensures { result ≡ is_born ((state_of plain.now).birth p) }
{
    match plain.birth_of(p) {
        Birth::Born => true,
        Birth::Unborn | Birth::Growing(_) | Birth::Failed => false,
    }
}

// Whether the process has none of the pages from this one on, below the other.
fn lacks_pages(plain: &Plain, p: ProcNo, from: u64, below: PageNo) -> bool
    ensures { IsTrue result ↔ ArePassed (λ page. is_none ((state_of plain.now).right p page)) from below }
{
    match PageNo::new(from) {
        None => true,
        Some(from) => plain.lacks_pages(p, from, below),
    }
}

// Whether it has no page at all.
fn lacks_all_pages(plain: &Plain, p: ProcNo) -> bool
    ensures { IsTrue result ↔ ((page : ℕ) → is_none ((state_of plain.now).right p page) ≡ true) }
{
    plain.has_no_page(p)
}

// The page that an event comes to.
fn event_page(event: &PlainEvent) -> Option<PageNo>
    ensures { result ≡ page_at event.now }
{
    match event {
        PlainEvent::Unmap { page, .. }
        | PlainEvent::Discard { page, .. }
        | PlainEvent::ForkPage { page, .. } => Some(*page),
        PlainEvent::ForkWord { page, word, .. } => first_word(*page, *word),
        _ => None,
    }
}

// The page whose first word this is.
fn first_word(page: PageNo, word: WordNo) -> Option<PageNo>
    ensures { (parent child : ℕ) → result ≡ page_at (ForkWord parent child page word) }
{
    if word.get() == 0 { Some(page) } else { None }
}
