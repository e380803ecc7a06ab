//! Fork: what its steps do to the parent, to the child that it brings, and to frames (of Linux's `dup_mmap` and
//! `copy_page_range`, for private anonymous memory).
#![tactic(auto)]

ghost use Rattle.std.specs.Prelude.{◌≡◌, ℕ, ◌+◌, ◌<◌, ◌^◌, false, [], ◌∷◌, List, Some, None, IsSome};
ghost use Rattle.gup_base.specs.declared.entry.Entry.{Entry as EntryValue};
ghost use Rattle.gup_base.specs.declared.entry.Zone.{Zone as ZoneValue};
ghost use Rattle.gup_frames.specs.Frames.{FrameLists, frames_of, free_of};
ghost use Rattle.gup_spec_events.specs.Event.{begin_fork, end_fork, entry_of};
ghost use Rattle.gup_space.specs.Space.{SpaceParts, space_of, lacking};
ghost use Rattle.gup_space.specs.Counted.{IsCounted};
ghost use Rattle.gup_fork.specs.Forks.{fork_change_of, with_structure, with_table, AreForkEvents, with_maps_of, copies_frame, shares, shared, with_shared};

use gup_base::{Entry, FrameNo, PageNo, maybe_pinned};
use gup_frames::Frames;
use gup_space::Space;

mod copying;
mod fails;

pub use copying::{copy_word, place_child};
pub use fails::fail;

/// The beginning of a fork: the parent's sequence gets odd, which tells lockless walks that its pages are being shared
/// (Linux's `write_protect_seq`; that there is one pair of rises for the whole fork is this project's own, Linux has
/// one for each area), and the child gets the parent's mappings. Who forks takes the parent's structure lock with it.
#[inline]
pub fn begin(parent: &mut Space, child: &mut Space)
    requires { (space_of parent.old).sequence < 2 ^ 40 }
    ensures parent { space_of parent.new ≡ record (space_of parent.old) { sequence = (space_of parent.old).sequence + 1 } }
    ensures child { space_of child.new ≡ with_maps_of (space_of parent.old) (space_of child.old) }
    ensures events { (a : ℕ) (frames : FrameLists) → AreForkEvents
        (with_structure (Some a) (fork_change_of frames frames parent.old parent.new child.old child.new))
        (λ p c. begin_fork a p c ∷ []) }
{
    parent.is_counted();
    child.copy_maps(parent);
    parent.raise();
}

/// Whether the fork copies the page, which has an entry, instead of sharing it: its frame is exclusive and may be
/// pinned, and the process has ever pinned (Linux's `folio_needs_cow_for_dma`).
#[inline]
pub fn copies(parent: &Space, frames: &Frames, page: PageNo) -> bool
    requires entry { IsSome ((space_of parent.now).entry page) }
    requires counted { IsCounted (frames_of frames.now) (space_of parent.now) page }
    ensures { (e : EntryValue) → (space_of parent.now).entry page ≡ Some e
        → result ≡ copies_frame (frames_of frames.now) (space_of parent.now) e.frame }
{
    let Some(entry) = parent.entry(page) else {
        return false;
    };
    frames.mark(entry.frame) && parent.has_pinned() && maybe_pinned(frames.count(entry.frame))
}

// The read-only entry of the frame.
#[inline(always)]
fn read_only(frame: FrameNo) -> Entry
    ensures { result ≡ entry_of frame false }
{
    Entry {
        frame,
        writable: false,
    }
}

/// Shares the page, which has an entry and of which the child has none, but all four page tables of its path: the parent's entry becomes read-only, the
/// frame's mark goes, and the child gets a read-only entry of the same frame, which has one reference more
/// (`__copy_present_ptes`; the order is this project's own, Linux raises the count first). No frame is taken, and no
/// word changes. Whoever counted the page frees the table lock with it.
#[inline]
pub fn share(parent: &mut Space, child: &mut Space, frames: &mut Frames, page: PageNo)
    requires entry { IsSome ((space_of parent.old).entry page) }
    requires counted { IsCounted (frames_of frames.old) (space_of parent.old) page }
    requires few { (e : EntryValue) → (space_of parent.old).entry page ≡ Some e
        → (frames_of frames.old).count e.frame < 2 ^ 40 }
    requires mapped { IsSome ((space_of child.old).right page) }
    requires absent { (space_of child.old).entry page ≡ None }
    requires path { lacking (space_of child.old) page ≡ 0 }
    ensures parent { (e : EntryValue) → (space_of parent.old).entry page ≡ Some e
        → space_of parent.new ≡ with_shared page e.frame (space_of parent.old) }
    ensures child { (e : EntryValue) → (space_of parent.old).entry page ≡ Some e
        → space_of child.new ≡ with_shared page e.frame (space_of child.old) }
    ensures frames { (e : EntryValue) → (space_of parent.old).entry page ≡ Some e
        → frames_of frames.new ≡ shared e.frame (frames_of frames.old) }
    ensures words { (f w : ℕ) → (frames_of frames.new).word f w ≡ (frames_of frames.old).word f w }
    ensures free { (zone : ZoneValue) → free_of (frames_of frames.new) zone ≡ free_of (frames_of frames.old) zone }
    ensures events { (a : ℕ) (done : List ℕ) (e : EntryValue) → (space_of parent.old).entry page ≡ Some e → AreForkEvents
        (with_table None (fork_change_of frames.old frames.new parent.old parent.new child.old child.new))
        (λ p c. shares a p c done page e) }
{
    let Some(entry) = parent.lower_entry(page) else {
        return;
    };
    let frame = entry.frame;
    frames.set_mark(frame, false);
    frames.grab(frame, 1);
    child.set_entry(page, Some(read_only(frame)));
}

/// The end of a fork: the parent's sequence gets even again. Who forked frees the parent's structure lock with it.
#[inline]
pub fn end(parent: &mut Space)
    requires { (space_of parent.old).sequence < 2 ^ 40 }
    ensures parent { space_of parent.new ≡ record (space_of parent.old) { sequence = (space_of parent.old).sequence + 1 } }
    ensures events { (a : ℕ) (done : List ℕ) (frames : FrameLists) (child : SpaceParts) → AreForkEvents
        (with_structure None (fork_change_of frames frames parent.old parent.new child child))
        (λ p c. end_fork a p c done ∷ []) }
{
    parent.raise();
}
