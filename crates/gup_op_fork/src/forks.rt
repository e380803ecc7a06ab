//! Forks: their beginning, and then page by page.
ghost use Rattle.std.specs.Prelude.{◌≡◌, ℕ, ◌+◌, ◌-◌, ◌<◌, ◌≤◌, ◌^◌, true, false, is_some, Some, None, IsSome, MatchOption};
ghost use Rattle.gup_base.specs.declared.entry.Allowed.TheVariants.{Any};
ghost use Rattle.gup_base.specs.declared.entry.Entry.{Entry as EntryValue};
ghost use Rattle.gup_base.specs.declared.entry.Rights.{Rights as RightsValue};
ghost use Rattle.gup_plain.specs.Event.{page_numbers, words};
ghost use Rattle.gup_plain.specs.Put.{lowest};
ghost use Rattle.gup_plain.specs.State.{Birth, growing, born};
ghost use Rattle.gup_plain.specs.declared.event.PlainEvent.TheVariants as events;
ghost use Rattle.gup_frames.specs.Frames.{FrameLists, frames_of, taken, IsFrame};
ghost use Rattle.gup_space.specs.Space.{SpaceParts, space_of, lacking, AreMapped};
ghost use Rattle.gup_space.specs.Found.{found_for};
ghost use Rattle.gup_space.specs.Counted.{AreCounted};
ghost use Rattle.gup_fork.specs.Forks.{copies_frame};
ghost use Rattle.gup_spec_turns.specs.ForkTurns.{fork_turn};
ghost use Rattle.gup_spec_turns.specs.JobPlace.{JobPlace as PlaceValue, unbegun, from_page, at_page, wants_frame, at_word};
ghost use Rattle.gup_op_base.specs.Tidy.{IsTidy};
ghost use Rattle.gup_op_base.specs.Said.{Tells, TellsTurn, whats_of, happened_said};
ghost use Rattle.gup_op_base.specs.Turns.{IsTurnOf};
ghost use Rattle.gup_op_base.specs.Jobs.{place_of};
ghost use Rattle.gup_op_fork.specs.Forked.{IsCountedIn, IsCopyOf, IsReadyAt, IsHeldUp, is_over, place_after, birth_after, ShowsForking, StandsAsFork, forking_view};

use gup_base::{Allowed, FrameNo, PageNo, ProcNo, WordNo, maybe_pinned};
use gup_fork::{begin, copy_word, end, fail, place_child, share};
use gup_frames::Frames;
use gup_op_base::{Head, JobPlace};
use gup_plain::{Answer, Journal, PlainEvent};
use gup_space::Space;

/// What came of a turn of a fork.
#[derive(Clone, Copy, Debug)]
pub enum Forked {
    /// It goes on from this place.
    Goes(JobPlace),
    /// It is over, and the child is born.
    Born,
    /// It is over, since it has failed, and so has the child.
    Failed,
}

/// Takes a turn of a fork of process `proc` into `child_no`, puts its notes on, and answers what came of it.
///
/// The first turn gives the child its parent's mappings, and takes the parent's structure lock. Then come the child's
/// pages, from the lowest on: one without an entry of the parent is passed, and any other is counted in one turn,
/// which takes the table lock. Most pages are shared in the next turn. One that may be pinned is copied instead, so
/// that the parent keeps the frame that it pinned (Linux's `copy_present_page` in mm/memory.c): a turn takes the
/// lowest free frame, each of 512 turns copies a word, and one more gives the copy to the child. That others have
/// turns between the words, and that the table lock is kept while a frame is taken, is this project's own: Linux lets
/// it go to allocate one. Where no page is left the fork ends.
///
/// Where no frame is free for a copy the fork fails in that turn, with the answer `NoFrame`: the child loses its
/// mappings and its entries, and the parent's locks are free again (of Linux's `dup_mmap`, which fails with `ENOMEM`
/// then). So it does where the child lacks a page table for a page that is shared or copied; no frame is taken then (of
/// Linux's `copy_pte_range`, which fails with `ENOMEM` where it is given no page table).
#[inline(always)]
pub fn fork(
    parent: &mut Space,
    child: &mut Space,
    frames: &mut Frames,
    journal: &mut Journal,
    head: &Head,
    proc: ProcNo,
    child_no: ProcNo,
    place: JobPlace,
) -> Forked
    requires room { 3 ≤ journal.old.room }
    requires parent { IsTidy (frames_of frames.old) (space_of parent.old) }
    requires child { IsTidy (frames_of frames.old) (space_of child.old) }
    requires sequence { (space_of parent.old).sequence < 2 ^ 40 }
    requires few { (f : ℕ) → (frames_of frames.old).count f < 2 ^ 40 }
    requires place { IsReadyAt (frames_of frames.old) head.now.actor (place_of place) (space_of parent.old) (space_of child.old) }
    ensures { TellsTurn head.now journal.old journal.new (is_over result)
        (λ said. (birth : Birth)
        → IsTurnOf (ShowsForking head.now.actor proc child_no) (StandsAsFork head.now.actor proc child_no)
        (forking_view frames.old parent.old child.old (place_of place) birth)
        (forking_view frames.new parent.new child.new (place_of (place_after result)) (birth_after proc result))
        (λ s. fork_turn s head.now.actor proc child_no (s.job head.now.actor)) (whats_of said)) }
{
    match place {
        JobPlace::From(from) => {
            next_turn(parent, child, frames, journal, head, proc, child_no, from)
        }
        JobPlace::At(page) => {
            share_turn(parent, child, frames, journal, head, proc, child_no, page)
        }
        JobPlace::Wanting(page) => {
            frame_turn(parent, child, frames, journal, head, proc, child_no, page)
        }
        JobPlace::Copying { page, word, to } => Forked::Goes(copy_turn(
            parent, child, frames, journal, head, proc, child_no, page, word, to,
        )),
        _ => Forked::Goes(first_turn(parent, child, journal, head, proc, child_no)),
    }
}

// The beginning, which takes the parent's structure lock.
#[inline(never)]
fn first_turn(
    parent: &mut Space,
    child: &mut Space,
    journal: &mut Journal,
    head: &Head,
    proc: ProcNo,
    child_no: ProcNo,
) -> JobPlace
    requires room { 3 ≤ journal.old.room }
    requires sequence { (space_of parent.old).sequence < 2 ^ 40 }
    ensures { TellsTurn head.now journal.old journal.new false
        (λ said. (frames : FrameLists) (birth : Birth)
        → IsTurnOf (ShowsForking head.now.actor proc child_no) (StandsAsFork head.now.actor proc child_no)
        (forking_view frames parent.old child.old unbegun birth)
        (forking_view frames parent.new child.new (place_of result) (growing proc))
        (λ s. fork_turn s head.now.actor proc child_no (s.job head.now.actor)) (whats_of said)) }
{
    begin(parent, child);
    parent.set_structure(Some(head.actor));
    let event = PlainEvent::ForkBegin {
        parent: proc,
        child: child_no,
    };
    head.happened(journal, event);
    JobPlace::From(0)
}

// The next page from this one on is passed or counted; where there is none, the fork ends.
fn next_turn(
    parent: &mut Space,
    child: &Space,
    frames: &Frames,
    journal: &mut Journal,
    head: &Head,
    proc: ProcNo,
    child_no: ProcNo,
    from: u64,
) -> Forked
    requires room { 3 ≤ journal.old.room }
    requires parent { IsTidy (frames_of frames.now) (space_of parent.old) }
    requires child { IsTidy (frames_of frames.now) (space_of child.now) }
    requires sequence { (space_of parent.old).sequence < 2 ^ 40 }
    ensures { TellsTurn head.now journal.old journal.new (is_over result)
        (λ said. (birth : Birth)
        → IsTurnOf (ShowsForking head.now.actor proc child_no) (StandsAsFork head.now.actor proc child_no)
        (forking_view frames.now parent.old child.now (from_page from) birth)
        (forking_view frames.now parent.new child.now (place_of (place_after result)) (birth_after proc result))
        (λ s. fork_turn s head.now.actor proc child_no (s.job head.now.actor)) (whats_of said)) }
{
    let Some(page) = next_page(child, from) else {
        last_turn(parent, journal, head, proc, child_no);
        return Forked::Born;
    };
    let Some(entry) = parent.entry(page) else {
        page_done(journal, head, proc, child_no, page);
        return Forked::Goes(JobPlace::From(page.get() + 1));
    };
    Forked::Goes(count_turn(parent, frames, journal, head, page, entry.frame))
}

// The count of the page's frame is read, and the table lock taken: the page is to be copied, or to be shared.
fn count_turn(
    parent: &mut Space,
    frames: &Frames,
    journal: &mut Journal,
    head: &Head,
    page: PageNo,
    frame: FrameNo,
) -> JobPlace
    requires room { 3 ≤ journal.old.room }
    requires there { IsFrame (frames_of frames.now) frame }
    ensures { (p c from : ℕ) (child : SpaceParts) (e : EntryValue)
        → lowest from (page_numbers - from) (λ g. is_some ((space_of child).right g)) ≡ Some page
        → (space_of parent.old).entry page ≡ Some e → e.frame ≡ frame
        → TellsTurn head.now journal.old journal.new false
        (λ said. (birth : Birth) → IsTurnOf (ShowsForking head.now.actor p c) (StandsAsFork head.now.actor p c)
        (forking_view frames.now parent.old child (from_page from) birth)
        (forking_view frames.now parent.new child (place_of result) (growing p))
        (λ s. fork_turn s head.now.actor p c (s.job head.now.actor)) (whats_of said)) }
{
    let copied = is_copied(parent, frames, frame);
    parent.set_table(Some(head.actor));
    head.silent(journal);
    if copied {
        JobPlace::Wanting(page)
    } else {
        JobPlace::At(page)
    }
}

// Whether the page of this frame is to be copied: the frame is exclusive and may be pinned, and the process has ever
// pinned.
fn is_copied(parent: &Space, frames: &Frames, frame: FrameNo) -> bool
    requires { IsFrame (frames_of frames.now) frame }
    ensures { result ≡ copies_frame (frames_of frames.now) (space_of parent.now) frame }
{
    frames.mark(frame) && parent.has_pinned() && maybe_pinned(frames.count(frame))
}

/// The child's lowest mapped page at or above this number, the next one of a fork that stands there.
pub fn next_page(child: &Space, from: u64) -> Option<PageNo>
    requires { (page : ℕ) (rights : RightsValue) → (space_of child.now).right page ≡ Some rights → page < page_numbers }
    ensures { result ≡ lowest from (page_numbers - from) (λ page. is_some ((space_of child.now).right page)) }
{
    let Some(first) = PageNo::new(from) else {
        return None;
    };
    child.next_page(first)
}

// The end, which frees the parent's structure lock.
#[inline(never)]
fn last_turn(parent: &mut Space, journal: &mut Journal, head: &Head, proc: ProcNo, child_no: ProcNo)
    requires room { 3 ≤ journal.old.room }
    requires sequence { (space_of parent.old).sequence < 2 ^ 40 }
    ensures { (from : ℕ) (frames : FrameLists) (child : SpaceParts)
        → lowest from (page_numbers - from) (λ page. is_some ((space_of child).right page)) ≡ None
        → TellsTurn head.now journal.old journal.new true
        (λ said. (birth : Birth)
        → IsTurnOf (ShowsForking head.now.actor proc child_no) (StandsAsFork head.now.actor proc child_no)
        (forking_view frames parent.old child (from_page from) birth)
        (forking_view frames parent.new child unbegun born)
        (λ s. fork_turn s head.now.actor proc child_no (s.job head.now.actor)) (whats_of said)) }
{
    end(parent);
    parent.set_structure(None);
    let event = PlainEvent::ForkEnd {
        parent: proc,
        child: child_no,
    };
    head.done(journal, event, Answer::Plain);
}

// The counted page is shared, and the table lock is free again; where the child lacks a table for it the fork fails.
fn share_turn(
    parent: &mut Space,
    child: &mut Space,
    frames: &mut Frames,
    journal: &mut Journal,
    head: &Head,
    proc: ProcNo,
    child_no: ProcNo,
    page: PageNo,
) -> Forked
    requires room { 3 ≤ journal.old.room }
    requires parent { IsTidy (frames_of frames.old) (space_of parent.old) }
    requires child { IsTidy (frames_of frames.old) (space_of child.old) }
    requires sequence { (space_of parent.old).sequence < 2 ^ 40 }
    requires few { (f : ℕ) → (frames_of frames.old).count f < 2 ^ 40 }
    requires ready { IsCountedIn page (space_of parent.old) (space_of child.old) }
    ensures { TellsTurn head.now journal.old journal.new (is_over result)
        (λ said. (birth : Birth)
        → IsTurnOf (ShowsForking head.now.actor proc child_no) (StandsAsFork head.now.actor proc child_no)
        (forking_view frames.old parent.old child.old (at_page page) birth)
        (forking_view frames.new parent.new child.new (place_of (place_after result)) (birth_after proc result))
        (λ s. fork_turn s head.now.actor proc child_no (s.job head.now.actor)) (whats_of said)) }
{
    if child.lacks(page) > 0 {
        return fail_turn(parent, child, frames, journal, head, proc, child_no);
    }
    share(parent, child, frames, page);
    parent.set_table(None);
    page_done(journal, head, proc, child_no, page);
    Forked::Goes(JobPlace::From(page.get() + 1))
}

// A page that is to be copied gets a frame; where none is found for it the fork fails.
#[inline(never)]
fn frame_turn(
    parent: &mut Space,
    child: &mut Space,
    frames: &mut Frames,
    journal: &mut Journal,
    head: &Head,
    proc: ProcNo,
    child_no: ProcNo,
    page: PageNo,
) -> Forked
    requires room { 3 ≤ journal.old.room }
    requires child { IsTidy (frames_of frames.old) (space_of child.old) }
    requires sequence { (space_of parent.old).sequence < 2 ^ 40 }
    ensures { TellsTurn head.now journal.old journal.new (is_over result)
        (λ said. (birth : Birth)
        → IsTurnOf (ShowsForking head.now.actor proc child_no) (StandsAsFork head.now.actor proc child_no)
        (forking_view frames.old parent.old child.old (wants_frame page) birth)
        (forking_view frames.new parent.new child.new (place_of (place_after result)) (birth_after proc result))
        (λ s. fork_turn s head.now.actor proc child_no (s.job head.now.actor)) (whats_of said)) }
{
    let Some(to) = take_for(child, frames, page) else {
        return fail_turn(parent, child, frames, journal, head, proc, child_no);
    };
    head.silent(journal);
    Forked::Goes(JobPlace::Copying { page, word: 0, to })
}

// Takes the lowest free frame for this page of the child. None is taken where none is free, or where the child lacks a page
// table for it.
fn take_for(child: &Space, frames: &mut Frames, page: PageNo) -> Option<FrameNo>
    ensures frame { result ≡ found_for (frames_of frames.old) (space_of child.now) page Any }
    ensures taken { MatchOption result (frames_of frames.new ≡ frames_of frames.old) (λ f. frames_of frames.new ≡ taken f (frames_of frames.old)) }
{
    if child.lacks(page) == 0 {
        frames.take(Allowed::Any)
    } else {
        None
    }
}

// The failure, which frees both locks of the parent.
#[inline(never)]
fn fail_turn(
    parent: &mut Space,
    child: &mut Space,
    frames: &mut Frames,
    journal: &mut Journal,
    head: &Head,
    proc: ProcNo,
    child_no: ProcNo,
) -> Forked
    requires room { 3 ≤ journal.old.room }
    requires child { AreCounted (frames_of frames.old) (space_of child.old) }
    requires mapped { AreMapped (space_of child.old) }
    requires sequence { (space_of parent.old).sequence < 2 ^ 40 }
    ensures { (place : PlaceValue) → IsHeldUp (frames_of frames.old) place (space_of child.old)
        → TellsTurn head.now journal.old journal.new (is_over result)
        (λ said. (birth : Birth)
        → IsTurnOf (ShowsForking head.now.actor proc child_no) (StandsAsFork head.now.actor proc child_no)
        (forking_view frames.old parent.old child.old place birth)
        (forking_view frames.new parent.new child.new (place_of (place_after result)) (birth_after proc result))
        (λ s. fork_turn s head.now.actor proc child_no (s.job head.now.actor)) (whats_of said)) }
{
    fail(parent, child, frames);
    parent.set_table(None);
    parent.set_structure(None);
    let event = PlainEvent::ForkFail { child: child_no };
    head.done(journal, event, Answer::NoFrame);
    Forked::Failed
}

// The next word of the page is copied, or, where all are, the child gets the copy.
#[inline(always)]
fn copy_turn(
    parent: &mut Space,
    child: &mut Space,
    frames: &mut Frames,
    journal: &mut Journal,
    head: &Head,
    proc: ProcNo,
    child_no: ProcNo,
    page: PageNo,
    word: u16,
    to: FrameNo,
) -> JobPlace
    requires room { 3 ≤ journal.old.room }
    requires parent { IsTidy (frames_of frames.old) (space_of parent.old) }
    requires child { IsTidy (frames_of frames.old) (space_of child.old) }
    requires ready { IsCountedIn page (space_of parent.old) (space_of child.old) }
    requires copy { IsCopyOf (frames_of frames.old) page to (space_of parent.old) }
    requires word { word ≤ words }
    requires path { lacking (space_of child.old) page ≡ 0 }
    ensures { TellsTurn head.now journal.old journal.new false
        (λ said. (birth : Birth)
        → IsTurnOf (ShowsForking head.now.actor proc child_no) (StandsAsFork head.now.actor proc child_no)
        (forking_view frames.old parent.old child.old (at_word page word to) birth)
        (forking_view frames.new parent.new child.new (place_of result) (growing proc))
        (λ s. fork_turn s head.now.actor proc child_no (s.job head.now.actor)) (whats_of said)) }
{
    let Some(next) = WordNo::new(u64::from(word)) else {
        return place_turn(parent, child, frames, journal, head, page, to);
    };
    word_turn(
        parent, frames, journal, head, proc, child_no, page, next, to,
    );
    let word = word + 1;
    JobPlace::Copying { page, word, to }
}

/// The turn of a fork that copies this word of a page into frame `to`, and puts its note on; it is what `fork` does
/// there. Most turns of a fork that copies are such, and they need nothing of the child.
#[inline(always)]
pub fn word_turn(
    parent: &Space,
    frames: &mut Frames,
    journal: &mut Journal,
    head: &Head,
    proc: ProcNo,
    child_no: ProcNo,
    page: PageNo,
    word: WordNo,
    to: FrameNo,
)
    requires room { 1 ≤ journal.old.room }
    requires parent { IsTidy (frames_of frames.old) (space_of parent.now) }
    requires entry { IsSome ((space_of parent.now).entry page) }
    requires copy { IsCopyOf (frames_of frames.old) page to (space_of parent.now) }
    ensures { TellsTurn head.now journal.old journal.new false
        (λ said. (child : SpaceParts) (birth : Birth)
        → IsTurnOf (ShowsForking head.now.actor proc child_no) (StandsAsFork head.now.actor proc child_no)
        (forking_view frames.old parent.now child (at_word page word to) birth)
        (forking_view frames.new parent.now child (at_word page (word + 1) to) (growing proc))
        (λ s. fork_turn s head.now.actor proc child_no (s.job head.now.actor)) (whats_of said)) }
{
    copy_word(parent, frames, page, to, word);
    let event = PlainEvent::ForkWord {
        parent: proc,
        child: child_no,
        page,
        word,
    };
    head.happened(journal, event);
}

// All words are copied: the child gets the copy, and the table lock is free again.
#[inline(never)]
fn place_turn(
    parent: &mut Space,
    child: &mut Space,
    frames: &mut Frames,
    journal: &mut Journal,
    head: &Head,
    page: PageNo,
    to: FrameNo,
) -> JobPlace
    requires room { 3 ≤ journal.old.room }
    requires child { IsTidy (frames_of frames.old) (space_of child.old) }
    requires ready { IsCountedIn page (space_of parent.old) (space_of child.old) }
    requires copy { IsCopyOf (frames_of frames.old) page to (space_of parent.old) }
    requires path { lacking (space_of child.old) page ≡ 0 }
    ensures { (p c word : ℕ) → words ≤ word
        → TellsTurn head.now journal.old journal.new false
        (λ said. (birth : Birth) → IsTurnOf (ShowsForking head.now.actor p c) (StandsAsFork head.now.actor p c)
        (forking_view frames.old parent.old child.old (at_word page word to) birth)
        (forking_view frames.new parent.new child.new (place_of result) (growing p))
        (λ s. fork_turn s head.now.actor p c (s.job head.now.actor)) (whats_of said)) }
{
    place_child(parent, child, frames, page, to);
    parent.set_table(None);
    head.silent(journal);
    JobPlace::From(page.get() + 1)
}

// The page is done: the child has what the parent has there.
#[inline]
fn page_done(journal: &mut Journal, head: &Head, proc: ProcNo, child_no: ProcNo, page: PageNo)
    requires { 1 ≤ journal.old.room }
    ensures { Tells head.now journal.old journal.new (happened_said (events.ForkPage proc child_no page)) }
{
    let done = PlainEvent::ForkPage {
        parent: proc,
        child: child_no,
        page,
    };
    head.happened(journal, done);
}
