//! Long-term pins: which page such a pin must first move out of the movable zone, and what the count of its frame
//! says about that (of Linux's `__gup_longterm_locked`, `mm/gup.c`).
#![tactic(auto)]

ghost use Rattle.std.specs.Prelude.{◌≡◌, Some, IsSome, nat_lt};
ghost use Rattle.gup_base.specs.declared.entry.Entry.{Entry as EntryValue};
ghost use Rattle.gup_frames.specs.Frames.{frames_of, IsFrame};
ghost use Rattle.gup_spec_events.specs.Event.{counted_as};
ghost use Rattle.gup_space.specs.Space.{space_of};
ghost use Rattle.gup_long.specs.Steps.{step_after, counted_in};

use gup_base::{PageNo, Zone};
use gup_frames::Frames;
use gup_space::Space;

/// What a long-term pin does with a page after it has cleared its entry and read the count of its frame.
#[derive(Clone, Copy, Debug, PartialEq, Eq)]
pub enum LongStep {
    /// Nothing else refers to the frame: the page is placed in one of the normal zone, and pinned there.
    Place,
    /// The frame has this count, so the page can't be moved: its entry is restored, and the pin is refused there.
    Restore(u64),
}

/// Whether a long-term pin must move the page, which has an entry, before it pins it: its frame is of the movable
/// zone (of Linux's `folio_is_longterm_pinnable`, `include/linux/mm.h`, by which `collect_longterm_unpinnable_folios`
/// finds the pages to migrate; that each page is moved before it is pinned is this project's own, Linux pins the
/// whole range first).
#[inline]
pub fn needs_move(space: &Space, frames: &Frames, page: PageNo) -> bool
    requires entry { IsSome ((space_of space.now).entry page) }
    requires there { (e : EntryValue) → (space_of space.now).entry page ≡ Some e → IsFrame (frames_of frames.now) e.frame }
    ensures { (e : EntryValue) → (space_of space.now).entry page ≡ Some e
        → result ≡ nat_lt e.frame (frames_of frames.now).movable }
{
    let Some(entry) = space.entry(page) else {
        return false;
    };
    frames.zone(entry.frame) == Zone::Movable
}

/// What a long-term pin does with a page after the count of its frame, which it read when the entry was cleared: at 1
/// the page can be moved, and at any other count it can't (of Linux's `__migrate_folio`, `mm/migrate.c`; that one
/// reading decides is this project's own, Linux tries several times).
#[inline]
pub fn after_count(count: u64) -> LongStep
    ensures step { result ≡ step_after count }
    ensures counted { counted_in result ≡ counted_as count }
{
    if count == 1 {
        LongStep::Place
    } else {
        LongStep::Restore(count)
    }
}
