//! Unmaps, discards and exits: one page a turn.
ghost use Rattle.std.specs.Prelude.{◌≡◌, ◌≤◌, Some, None};
ghost use Rattle.gup_frames.specs.Frames.{frames_of};
ghost use Rattle.gup_space.specs.Space.{space_of};
ghost use Rattle.gup_spec_turns.specs.PageTurns.{unmap_turn, discard_turn, exit_turn};
ghost use Rattle.gup_op_base.specs.Tidy.{IsTidy};
ghost use Rattle.gup_op_base.specs.Said.{Tells, TellsTurn, whats_of, passed_said};
ghost use Rattle.gup_op_base.specs.Turns.{IsTurnOf, Anywhere};
ghost use Rattle.gup_op_pages.specs.Alone.{ShowsAlone, alone_view};

use gup_base::{PageNo, ProcNo};
use gup_frames::Frames;
use gup_op_base::Head;
use gup_plain::{Answer, Journal, PlainEvent};
use gup_space::Space;
use gup_unmap::take_down;

/// One page of an unmap: it is taken down where it is mapped. The last page's turn has the answer too. Answers whether
/// the operation is over.
#[inline]
pub fn unmap(
    space: &mut Space,
    frames: &mut Frames,
    journal: &mut Journal,
    head: &Head,
    proc: ProcNo,
    page: PageNo,
    last: bool,
) -> bool
    requires tidy { IsTidy (frames_of frames.old) (space_of space.old) }
    requires table { (space_of space.old).table ≡ None }
    requires room { 3 ≤ journal.old.room }
    ensures { TellsTurn head.now journal.old journal.new result
        (λ said. IsTurnOf (ShowsAlone proc) Anywhere (alone_view frames.old space.old) (alone_view frames.new space.new)
        (λ s. unmap_turn s head.now.actor proc page last) (whats_of said)) }
{
    let mapped = take_down(space, frames, page);
    let event = PlainEvent::Unmap {
        actor: head.actor,
        proc,
        page,
    };
    passed(journal, head, mapped, event, last);
    last
}

/// One page of a discard: it loses its contents where it is mapped. The last page's turn has the answer too. Answers
/// whether the operation is over.
#[inline]
pub fn discard(
    space: &mut Space,
    frames: &mut Frames,
    journal: &mut Journal,
    head: &Head,
    proc: ProcNo,
    page: PageNo,
    last: bool,
) -> bool
    requires tidy { IsTidy (frames_of frames.old) (space_of space.old) }
    requires table { (space_of space.old).table ≡ None }
    requires room { 3 ≤ journal.old.room }
    ensures { TellsTurn head.now journal.old journal.new result
        (λ said. IsTurnOf (ShowsAlone proc) Anywhere (alone_view frames.old space.old) (alone_view frames.new space.new)
        (λ s. discard_turn s head.now.actor proc page last) (whats_of said)) }
{
    let mapped = gup_unmap::discard(space, frames, page);
    let event = PlainEvent::Discard {
        actor: head.actor,
        proc,
        page,
    };
    passed(journal, head, mapped, event, last);
    last
}

// Says that a page was passed: its event where it was mapped, and the answer at the last page.
#[inline(always)]
fn passed(journal: &mut Journal, head: &Head, mapped: bool, event: PlainEvent, last: bool)
    requires room { 2 ≤ journal.old.room }
    ensures { Tells head.now journal.old journal.new (passed_said mapped event last) }
{
    match (mapped, last) {
        (true, true) => head.done(journal, event, Answer::Plain),
        (true, false) => head.happened(journal, event),
        (false, true) => head.answered(journal, Answer::Plain),
        (false, false) => head.silent(journal),
    }
}

#[inline]
fn first_page() -> PageNo
    ensures { result ≡ 0 }
{
    PageNo::new(0).unwrap()
}

/// An exit takes down the lowest mapped page, and answers where there is none. Answers whether the operation is over.
pub fn exit(
    space: &mut Space,
    frames: &mut Frames,
    journal: &mut Journal,
    head: &Head,
    proc: ProcNo,
) -> bool
    requires tidy { IsTidy (frames_of frames.old) (space_of space.old) }
    requires table { (space_of space.old).table ≡ None }
    requires room { 3 ≤ journal.old.room }
    ensures { TellsTurn head.now journal.old journal.new result
        (λ said. IsTurnOf (ShowsAlone proc) Anywhere (alone_view frames.old space.old) (alone_view frames.new space.new)
        (λ s. exit_turn s head.now.actor proc) (whats_of said)) }
{
    let Some(page) = space.next_page(first_page()) else {
        head.answered(journal, Answer::Plain);
        return true;
    };
    let _mapped = take_down(space, frames, page);
    let unmapped = PlainEvent::Unmap {
        actor: head.actor,
        proc,
        page,
    };
    head.happened(journal, unmapped);
    false
}
