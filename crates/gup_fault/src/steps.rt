//! What faults are made of: a page gets a frame, a mark, a writable entry, or a copy of its frame.
ghost use Rattle.std.specs.Prelude.{◌≡◌, ℕ, ◌+◌, true, false, Some, None, Ok, OnOk, IsSome};
ghost use Rattle.gup_base.specs.declared.entry.Entry.{Entry as EntryValue};
ghost use Rattle.gup_base.specs.declared.entry.Rights.TheVariants.{RW};
ghost use Rattle.gup_frames.specs.Frames.{frames_of, free_frame};
ghost use Rattle.gup_spec_events.specs.Event.{upgrade as upgrades};
ghost use Rattle.gup_spec_events.specs.Fault.{fills, fills_writable, marks, breaks};
ghost use Rattle.gup_space.specs.Found.{found_for};
ghost use Rattle.gup_space.specs.Space.{space_of};
ghost use Rattle.gup_space.specs.Shows.{change_of, AreEvents};
ghost use Rattle.gup_space.specs.Counted.{IsCounted};
ghost use Rattle.gup_fault.specs.Refused.{frame_denial};
ghost use Rattle.gup_fault.specs.Faults.{one_event, IsFault, KeepsBytes, HasEntry, IsExclusiveEntry};

use crate::denied::NoFrame;
use gup_base::{Allowed, Entry, PageNo};
use gup_frames::Frames;
use gup_space::Space;

/// Gives the mapped page, which has no entry, a frame of zeros, marked and read-only (of Linux's
/// `do_anonymous_page`; that the entry is never writable at once is this project's own).
///
/// Refused exactly where the page lacks a page table (as where Linux's `pte_alloc` fails, `mm/memory.c`), or no frame of the
/// allowed zones is free.
#[inline]
pub fn fill(
    space: &mut Space,
    frames: &mut Frames,
    page: PageNo,
    allowed: Allowed,
) -> Result<(), NoFrame>
    requires mapped { IsSome ((space_of space.old).right page) }
    requires absent { (space_of space.old).entry page ≡ None }
    ensures fault { IsFault (change_of frames.old frames.new space.old space.new) (frame_denial result)
        (λ a p. fills a p page (found_for (frames_of frames.old) (space_of space.old) page allowed)) }
    ensures entry { OnOk result (IsExclusiveEntry (frames_of frames.new) false ((space_of space.new).entry page)) }
{
    if space.lacks(page) > 0 {
        return Err(NoFrame);
    }
    let Some(frame) = frames.take(allowed) else {
        return Err(NoFrame);
    };
    frames.set_mark(frame, true);
    let filled = Entry {
        frame,
        writable: false,
    };
    space.set_entry(page, Some(filled));
    Ok(())
}

/// Gives the mapped page, which has no entry, a frame of zeros, marked, and a writable entry.
///
/// Refused exactly where the page lacks a page table, or no frame of the allowed zones is free.
#[inline]
pub(crate) fn fill_writable(
    space: &mut Space,
    frames: &mut Frames,
    page: PageNo,
    allowed: Allowed,
) -> Result<(), NoFrame>
    requires mapped { IsSome ((space_of space.old).right page) }
    requires absent { (space_of space.old).entry page ≡ None }
    ensures fault { IsFault (change_of frames.old frames.new space.old space.new) (frame_denial result)
        (λ a p. fills_writable a p page (found_for (frames_of frames.old) (space_of space.old) page allowed)) }
    ensures entry { OnOk result (IsExclusiveEntry (frames_of frames.new) true ((space_of space.new).entry page)) }
{
    let missing = space.lacks(page);
    if missing > 0 {
        return Err(NoFrame);
    }
    let Some(fresh) = frames.take(allowed) else {
        return Err(NoFrame);
    };
    frames.set_mark(fresh, true);
    let written = Entry {
        frame: fresh,
        writable: true,
    };
    space.set_entry(page, Some(written));
    Ok(())
}

/// Marks the frame of the page's entry as exclusive: nothing else refers to it (of Linux's `wp_can_reuse_anon_folio`).
#[inline]
pub fn mark(space: &Space, frames: &mut Frames, page: PageNo)
    requires alone { HasEntry ((space_of space.now).entry page)
        (λ e. (frames_of frames.old).count e.frame ≡ 1) }
    requires counted { IsCounted (frames_of frames.old) (space_of space.now) page }
    ensures events { (e : EntryValue) → (space_of space.now).entry page ≡ Some e
        → AreEvents (change_of frames.old frames.new space.now space.now) (λ a p. marks a p page e) }
    ensures bytes { KeepsBytes (change_of frames.old frames.new space.now space.now) }
{
    if let Some(entry) = space.entry(page) {
        frames.set_mark(entry.frame, true);
    }
}

/// Makes the page's entry, of a marked frame, writable (of Linux's `wp_page_reuse`).
#[inline]
pub fn upgrade(space: &mut Space, frames: &Frames, page: PageNo)
    requires marked { HasEntry ((space_of space.old).entry page) (λ e. (frames_of frames.now).mark e.frame ≡ true) }
    requires right { (space_of space.old).right page ≡ Some RW }
    ensures events { (e : EntryValue) → (space_of space.old).entry page ≡ Some e
        → AreEvents (change_of frames.now frames.now space.old space.new) (λ a p. one_event (upgrades a p page e.frame)) }
    ensures bytes { KeepsBytes (change_of frames.now frames.now space.old space.new) }
{
    if let Some(entry) = space.entry(page) {
        let upgraded = Entry {
            frame: entry.frame,
            writable: true,
        };
        space.has_path(page);
        space.set_entry(page, Some(upgraded));
    }
}

/// Gives the page a marked copy of its frame, which is unmarked, and gives the old reference back (of Linux's
/// `wp_page_copy`): a fault to write where the entry gets writable, else one to read that unshares.
///
/// Refused exactly where no frame of the allowed zones is free.
pub fn break_copy(
    space: &mut Space,
    frames: &mut Frames,
    page: PageNo,
    allowed: Allowed,
    writable: bool,
) -> Result<(), NoFrame>
    requires unmarked { HasEntry ((space_of space.old).entry page) (λ e. (frames_of frames.old).mark e.frame ≡ false) }
    requires right { writable ≡ true → (space_of space.old).right page ≡ Some RW }
    requires counted { IsCounted (frames_of frames.old) (space_of space.old) page }
    ensures fault { (e : EntryValue) → (space_of space.old).entry page ≡ Some e
        → IsFault (change_of frames.old frames.new space.old space.new) (frame_denial result)
        (λ a p. breaks a p page e writable (free_frame (frames_of frames.old) allowed)) }
    ensures entry { OnOk result (IsExclusiveEntry (frames_of frames.new) writable ((space_of space.new).entry page)) }
{
    let Some(entry) = space.entry(page) else {
        return Err(NoFrame);
    };
    break_entry(space, frames, page, entry, allowed, writable)
}

/// Gives the page, which has this entry, a marked copy of its frame, and gives the old reference back.
pub(crate) fn break_entry(
    space: &mut Space,
    frames: &mut Frames,
    page: PageNo,
    entry: Entry,
    allowed: Allowed,
    writable: bool,
) -> Result<(), NoFrame>
    requires entry { (space_of space.old).entry page ≡ Some entry }
    requires counted { IsCounted (frames_of frames.old) (space_of space.old) page }
    ensures fault { IsFault (change_of frames.old frames.new space.old space.new) (frame_denial result)
        (λ a p. breaks a p page entry writable (free_frame (frames_of frames.old) allowed)) }
    ensures entry { OnOk result (IsExclusiveEntry (frames_of frames.new) writable ((space_of space.new).entry page)) }
{
    space.has_path(page);
    let Some(copy) = frames.take_copy(allowed, entry.frame) else {
        return Err(NoFrame);
    };
    frames.set_mark(copy, true);
    let copied = Entry {
        frame: copy,
        writable,
    };
    space.set_entry(page, Some(copied));
    frames.put(entry.frame, 1);
    Ok(())
}
