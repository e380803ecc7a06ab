//! What the conditions and changes of events are made of.
ghost use Rattle.std.specs.Prelude.{◌≡◌, ℕ, ◌+◌, ◌-◌, ◌/◌, ◌%◌, ◌==◌, ◌<◌, ◌^◌, ◌↔◌, Bool, if◌then◌else◌, true, false, Some, None, IsTrue, IfOk, MatchResult, slice_get};
ghost use Rattle.std.specs.Option.{option_map};
ghost use Rattle.gup_base.specs.declared.entry.Entry.{Entry as EntryValue};
ghost use Rattle.gup_base.specs.declared.entry.Rights.TheVariants.{RW};
ghost use Rattle.gup_spec_events.specs.Event.{entry_of, counted_as, is_writable};
ghost use Rattle.gup_spec_events.specs.State.{idle, unread, counted, copying};
ghost use Rattle.gup_exec_parts.specs.Contents.{content_of};
ghost use Rattle.gup_plain.specs.Event.{IsHeldBy};
ghost use Rattle.gup_plain.specs.Put.{put};
ghost use Rattle.gup_exec_rows.specs.Handles.{handles_in};
ghost use Rattle.gup_exec_rows.specs.Row.{at};
ghost use Rattle.gup_exec_jobs.specs.Job.{count_of, step_of};
ghost use Rattle.gup_exec_jobs.specs.Needs.{after_unpin, table_after};

use crate::job::{Counted, ForkStep, Job};
use crate::refused::Refused;
use gup_base::{ActorNo, Entry, FrameNo, HandleNo, NoMemory, PageNo, ProcNo, Rights, WordNo};
use gup_exec_parts::contents::Contents;
use gup_exec_rows::clearing::clear;
use gup_exec_rows::handles::Handles;
use gup_exec_rows::row::Row;

/// Refuses what lacks a condition.
pub fn need(holds: bool) -> Result<(), Refused>
    ensures { MatchResult result (λ _. holds ≡ true) (λ e. (e ≡ Refused.Cannot) × (holds ≡ false)) }
{
    if holds { Ok(()) } else { Err(Refused::Cannot) }
}

/// The sum, where a `u64` holds it.
pub fn sum(n: u64, more: u64) -> Result<u64, NoMemory>
    ensures { IfOk result (λ all. all ≡ n + more) }
{
    n.checked_add(more).ok_or(NoMemory)
}

/// Whether the frame is the one that is there.
pub fn is_frame(found: Option<FrameNo>, f: FrameNo) -> bool
    ensures { IsTrue result ↔ (found ≡ Some f) }
{
    match found {
        None => false,
        Some(frame) => frame == f,
    }
}

/// Whether the entry is the one that is there.
pub fn is_entry(found: Option<Entry>, entry: &Entry) -> bool
    ensures { IsTrue result ↔ (found ≡ Some entry.now) }
{
    match found {
        None => false,
        Some(present) => present == *entry,
    }
}

/// Whether there are rights to write, or none are wanted.
pub fn allows(found: Option<Rights>, write: bool) -> bool
    ensures { IsTrue result ↔ (write ≡ true → found ≡ Some RW) }
{
    if !write {
        return true;
    }
    match found {
        Some(Rights::RW) => true,
        Some(Rights::R) | None => false,
    }
}

/// Whether there are rights to write.
pub fn may_write(found: Option<Rights>) -> bool
    ensures { IsTrue result ↔ (found ≡ Some RW) }
{
    match found {
        Some(Rights::RW) => true,
        Some(Rights::R) | None => false,
    }
}

/// Whether the rights are those that are there.
pub fn is_right(found: Option<Rights>, rights: Rights) -> bool
    ensures { IsTrue result ↔ (found ≡ Some rights) }
{
    match found {
        None => false,
        Some(present) => present == rights,
    }
}

/// Whether what is there is this entry, or nothing where this is none.
pub fn is_same(found: Option<Entry>, was: &Option<Entry>) -> bool
    ensures { IsTrue result ↔ (found ≡ was.now) }
{
    match was {
        None => found.is_none(),
        Some(entry) => is_entry(found, entry),
    }
}

/// Whether the entry that is there is one of this frame.
pub fn has_frame(found: Option<Entry>, f: FrameNo) -> bool
    ensures { IsTrue result ↔ ((writable : Bool) × (found ≡ Some (entry_of f writable))) }
{
    match found {
        None => false,
        Some(entry) => entry.frame == f,
    }
}

/// The frame of an entry, if there is one.
pub fn frame_of(was: &Option<Entry>) -> Option<FrameNo>
    ensures { result ≡ option_map (λ (e : EntryValue). e.frame) was.now }
{
    match was {
        None => None,
        Some(entry) => Some(entry.frame),
    }
}

/// An entry of the frame.
pub fn entry_to(f: FrameNo, writable: bool) -> Entry
    ensures { result ≡ entry_of f writable }
{
    Entry { frame: f, writable }
}

/// Whether the second holds where the first does.
pub fn implies(wanted: bool, holds: bool) -> bool
    ensures { IsTrue result ↔ (wanted ≡ true → holds ≡ true) }
{
    !wanted || holds
}

/// A frame loses `n` references. At 0 it is free, and nothing marks or owns it.
pub fn give_back(
    count: &mut Row<u64, 16384>,
    mark: &mut Row<bool, 16384>,
    own: &mut Row<Option<u64>, 16384>,
    f: FrameNo,
    n: u64,
)
    ensures count { at count.new ≡ put f (at count.old f - n) (at count.old) }
    ensures mark { at mark.new ≡ put f (if at count.old f == n then false else at mark.old f) (at mark.old) }
    ensures own { at own.new ≡ put f (if at count.old f == n then None else at own.old f) (at own.old) }
{
    let had = *count.get(f);
    let marked = mark_left(had, n, *mark.get(f));
    let owned = own_left(had, n, *own.get(f));
    count.put(f, had.saturating_sub(n));
    mark.put(f, marked);
    own.put(f, owned);
}

// The mark of a frame that had so many references, and loses `n`.
fn mark_left(had: u64, n: u64, marked: bool) -> bool
    ensures { result ≡ (if had == n then false else marked) }
{
    if had == n { false } else { marked }
}

// What a frame that had so many references, and loses `n`, holds exclusively.
fn own_left(had: u64, n: u64, owned: Option<u64>) -> Option<u64>
    ensures { result ≡ (if had == n then None else owned) }
{
    if had == n { None } else { owned }
}

/// The handle, of whose pages these are left, is gone where none is.
pub fn end_pin(handles: &mut Handles, h: HandleNo, a: ActorNo, left: &[FrameNo])
    requires { IsHeldBy (handles_in handles.old h) a }
    ensures { handles_in handles.new ≡ put h (after_unpin left.now (handles_in handles.old h)) (handles_in handles.old) }
{
    if let [] = left {
        handles.let_go(h, a);
    }
}

/// Whether the reference is the actor's, to this frame.
pub fn is_got(found: Option<(ActorNo, FrameNo)>, a: ActorNo, f: FrameNo) -> bool
    ensures { IsTrue result ↔ (found ≡ Some (a, f)) }
{
    match found {
        None => false,
        Some((actor, frame)) => {
            if actor != a {
                return false;
            }
            frame == f
        }
    }
}

/// What a mover makes of the count that it read.
pub fn counted_as(count: u64) -> Counted
    ensures { count_of result ≡ counted_as count }
{
    if count == 1 {
        Counted::One
    } else {
        Counted::More(count)
    }
}

/// Whether the count has been read.
pub fn is_read(count: Counted) -> bool
    ensures { IsTrue result ↔ (count_of count ≡ unread → ⊥) }
{
    match count {
        Counted::Unread => false,
        Counted::One | Counted::More(_) => true,
    }
}

/// Where a fork goes on that has read a page's count.
pub fn first_step(copies: bool, page: PageNo) -> ForkStep
    ensures { step_of result ≡ (if copies then copying page 0 else counted page) }
{
    if copies {
        ForkStep::Copying(page, 0)
    } else {
        ForkStep::Sharing(page)
    }
}

/// Who has the table lock when a fork fails there: a fork in the middle of a page lets it go.
pub fn after_failure(step: &ForkStep, holder: Option<ActorNo>) -> Option<ActorNo>
    ensures { result ≡ table_after (step_of step.now) holder }
{
    match *step {
        ForkStep::Between => holder,
        _ => None,
    }
}

/// Lets the lock of the process go, where its fork ends.
pub fn free_if(lock: &mut Row<Option<ActorNo>, 16>, p: ProcNo, ends: bool)
    ensures { at lock.new ≡ (if ends then put p None (at lock.old) else at lock.old) }
{
    if ends {
        lock.put(p, None);
    }
}

/// The actor is in the middle of nothing, where its fork ends.
pub fn end_if(job: &mut Row<Job, 81>, a: ActorNo, ends: bool)
    ensures { at job.new ≡ (if ends then put a idle (at job.old) else at job.old) }
{
    if ends {
        job.put(a, Job::idle());
    }
}

/// Whether rights are those to write.
pub fn is_writable(rights: Rights) -> bool
    ensures { result ≡ is_writable rights }
{
    match rights {
        Rights::R => false,
        Rights::RW => true,
    }
}

/// Makes all words of the object 0.
pub fn clear_one(contents: &mut Contents, object: u64)
    requires { object + 1 < 2 ^ 64 }
    ensures content { content_of contents.new ≡ put object (λ _. 0) (content_of contents.old) }
    ensures made { contents.new.made ≡ contents.old.made }
{
    clear(contents, object, 1);
}

/// Whether no entry is there, or the rights are those that a writable one wants.
pub fn keeps_right(found: Option<Entry>, rights: Rights) -> bool
    ensures { IsTrue result ↔ ((e : EntryValue) → found ≡ Some e → e.writable ≡ true → rights ≡ RW) }
{
    match found {
        None => true,
        Some(entry) => {
            if !entry.writable {
                return true;
            }
            match rights {
                Rights::R => false,
                Rights::RW => true,
            }
        }
    }
}

/// The word of its page that has this index in a row of pages.
pub fn word_at(index: u32) -> WordNo
    ensures { result ≡ index % 512 }
{
    WordNo::new(u64::from(index) % 512).unwrap()
}

/// Whether the frame is that of the word with this index.
pub fn is_pinned(frames: &[FrameNo], index: u32, f: FrameNo) -> bool
    ensures { IsTrue result ↔ (slice_get frames.now (index / 512) ≡ Some f) }
{
    match frames.get(index as usize / 512) {
        None => false,
        Some(frame) => *frame == f,
    }
}
