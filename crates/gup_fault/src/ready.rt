//! Pages that are made ready to be read, to be pinned for reading, or to be written.
ghost use Rattle.std.specs.Prelude.{◌≡◌, ℕ, true, false, Some, None, Ok, OnOk, IsSome};
ghost use Rattle.gup_base.specs.declared.entry.Entry.{Entry as EntryValue};
ghost use Rattle.gup_frames.specs.Frames.{frames_of, free_frame};
ghost use Rattle.gup_spec_events.specs.Fault.{read_fault, unshare_fault, unshares, write_fault, makes_writable};
ghost use Rattle.gup_space.specs.Found.{found_for};
ghost use Rattle.gup_space.specs.Space.{space_of};
ghost use Rattle.gup_space.specs.Shows.{change_of};
ghost use Rattle.gup_space.specs.Counted.{IsCounted};
ghost use Rattle.gup_fault.specs.Refused.{denial_of, frame_denial};
ghost use Rattle.gup_fault.specs.Faults.{IsFault, HasEntry, IsReadOnly, IsMarked, IsWritable, KeepsAlone};

use crate::denied::{Denied, NoFrame};
use crate::steps::{break_entry, fill, fill_writable};
use gup_base::{Allowed, Entry, PageNo, Rights};
use gup_frames::Frames;
use gup_space::Space;

/// Makes the page ready for a load: any entry is enough, and one that has none gets a frame of zeros.
///
/// Refused first where the page has no mapping, then where it wants a frame and lacks a page table, or no frame of the
/// allowed zones is free.
#[inline]
pub fn ready_read(
    space: &mut Space,
    frames: &mut Frames,
    page: PageNo,
    allowed: Allowed,
) -> Result<(), Denied>
    requires counted { IsCounted (frames_of frames.old) (space_of space.old) page }
    ensures fault { IsFault (change_of frames.old frames.new space.old space.new) (denial_of result)
        (λ a p. read_fault a p page ((space_of space.old).right page) ((space_of space.old).entry page)
        (found_for (frames_of frames.old) (space_of space.old) page allowed)) }
    ensures entry { OnOk result (IsSome ((space_of space.new).entry page)) }
    ensures read_only { IsReadOnly ((space_of space.old).entry page) → IsReadOnly ((space_of space.new).entry page) }
{
    if space.rights_at(page).is_none() {
        return Err(Denied::Missing);
    }
    if space.entry(page).is_some() {
        return Ok(());
    }
    fill(space, frames, page, allowed)?;
    Ok(())
}

/// Makes the page ready for a pin that reads: its frame must be exclusive, and is copied where it may have other
/// references (Linux's `FAULT_FLAG_UNSHARE`).
///
/// Refused first where the page has no mapping, then where it wants a frame and lacks a page table, or no frame of the
/// allowed zones is free.
#[inline]
pub fn unshare(
    space: &mut Space,
    frames: &mut Frames,
    page: PageNo,
    allowed: Allowed,
) -> Result<(), Denied>
    requires counted { IsCounted (frames_of frames.old) (space_of space.old) page }
    ensures fault { IsFault (change_of frames.old frames.new space.old space.new) (denial_of result)
        (λ a p. unshare_fault a p page ((space_of space.old).right page) ((space_of space.old).entry page)
        (frames_of frames.old).mark (frames_of frames.old).count
        (found_for (frames_of frames.old) (space_of space.old) page allowed)) }
    ensures marked { OnOk result (IsMarked (frames_of frames.new) ((space_of space.new).entry page)) }
    ensures read_only { IsReadOnly ((space_of space.old).entry page) → IsReadOnly ((space_of space.new).entry page) }
    ensures alone { KeepsAlone (change_of frames.old frames.new space.old space.new) page }
{
    let rights = space.rights_at(page);
    if rights.is_none() {
        return Err(Denied::Missing);
    }
    let Some(entry) = space.entry(page) else {
        fill(space, frames, page, allowed)?;
        return Ok(());
    };
    space.has_path(page);
    unshare_entry(space, frames, page, entry, allowed)?;
    Ok(())
}

// Makes the frame of the page's entry exclusive, or gives the page a copy that is.
#[inline]
fn unshare_entry(
    space: &mut Space,
    frames: &mut Frames,
    page: PageNo,
    entry: Entry,
    allowed: Allowed,
) -> Result<(), NoFrame>
    requires entry { (space_of space.old).entry page ≡ Some entry }
    requires counted { IsCounted (frames_of frames.old) (space_of space.old) page }
    ensures fault { IsFault (change_of frames.old frames.new space.old space.new) (frame_denial result)
        (λ a p. unshares a p page entry ((frames_of frames.old).mark entry.frame) ((frames_of frames.old).count entry.frame)
        (free_frame (frames_of frames.old) allowed)) }
    ensures marked { OnOk result (IsMarked (frames_of frames.new) ((space_of space.new).entry page)) }
    ensures read_only { IsReadOnly ((space_of space.old).entry page) → IsReadOnly ((space_of space.new).entry page) }
    ensures alone { KeepsAlone (change_of frames.old frames.new space.old space.new) page }
{
    if frames.mark(entry.frame) {
        return Ok(());
    }
    if frames.count(entry.frame) == 1 {
        frames.set_mark(entry.frame, true);
        return Ok(());
    }
    break_entry(space, frames, page, entry, allowed, false)
}

/// Makes the page ready for a store, or for a pin that writes: its entry gets writable, of a frame that is exclusive,
/// and is copied where it may have other references (of Linux's `do_wp_page`).
///
/// Refused first where the page has no mapping, then where its rights don't allow a write, then where it wants a frame
/// and lacks a page table, or no frame of the allowed zones is free.
#[inline]
pub fn ready_write(
    space: &mut Space,
    frames: &mut Frames,
    page: PageNo,
    allowed: Allowed,
) -> Result<(), Denied>
    requires counted { IsCounted (frames_of frames.old) (space_of space.old) page }
    ensures fault { IsFault (change_of frames.old frames.new space.old space.new) (denial_of result)
        (λ a p. write_fault a p page ((space_of space.old).right page) ((space_of space.old).entry page)
        (frames_of frames.old).mark (frames_of frames.old).count
        (found_for (frames_of frames.old) (space_of space.old) page allowed)) }
    ensures writable { OnOk result (IsWritable ((space_of space.new).entry page)) }
    ensures marked { ((e : EntryValue) → (space_of space.old).entry page ≡ Some e → e.writable ≡ true
        → (frames_of frames.old).mark e.frame ≡ true)
        → OnOk result (IsMarked (frames_of frames.new) ((space_of space.new).entry page)) }
    ensures alone { KeepsAlone (change_of frames.old frames.new space.old space.new) page }
{
    match space.rights_at(page) {
        None => return Err(Denied::Missing),
        Some(Rights::R) => return Err(Denied::Forbidden),
        Some(Rights::RW) => {}
    }
    let Some(entry) = space.entry(page) else {
        fill_writable(space, frames, page, allowed)?;
        return Ok(());
    };
    space.has_path(page);
    if !entry.writable {
        make_writable(space, frames, page, entry, allowed)?;
    }
    Ok(())
}

// Makes the page's entry writable once its frame is exclusive, or gives the page a copy that is.
#[inline]
fn make_writable(
    space: &mut Space,
    frames: &mut Frames,
    page: PageNo,
    entry: Entry,
    allowed: Allowed,
) -> Result<(), NoFrame>
    requires entry { (space_of space.old).entry page ≡ Some entry }
    requires counted { IsCounted (frames_of frames.old) (space_of space.old) page }
    ensures fault { IsFault (change_of frames.old frames.new space.old space.new) (frame_denial result)
        (λ a p. makes_writable a p page entry ((frames_of frames.old).mark entry.frame) ((frames_of frames.old).count entry.frame)
        (free_frame (frames_of frames.old) allowed)) }
    ensures writable { OnOk result (IsWritable ((space_of space.new).entry page)) }
    ensures marked { OnOk result (IsMarked (frames_of frames.new) ((space_of space.new).entry page)) }
    ensures alone { KeepsAlone (change_of frames.old frames.new space.old space.new) page }
{
    space.has_path(page);
    let upgraded = Some(Entry {
        frame: entry.frame,
        writable: true,
    });
    if frames.mark(entry.frame) {
        space.set_entry(page, upgraded);
        return Ok(());
    }
    let references = frames.count(entry.frame);
    if references == 1 {
        frames.set_mark(entry.frame, true);
        space.set_entry(page, upgraded);
        return Ok(());
    }
    break_entry(space, frames, page, entry, allowed, true)
}
