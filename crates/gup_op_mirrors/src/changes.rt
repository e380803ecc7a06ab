//! Pages that a store or a pin makes ready: whether that changes the entry that a page has.
ghost use Rattle.std.specs.Prelude.{◌≡◌, ℕ, nat_lt, is_some, is_none};
ghost use Rattle.gup_frames.specs.Frames.{frames_of, free_frame, IsFrame};
ghost use Rattle.gup_space.specs.Space.{SpaceValue, space_of, lacking};
ghost use Rattle.gup_space.specs.Shows.{ShowsFrames, ShowsSpace};
ghost use Rattle.gup_spec_events.specs.State.{CoreState};
ghost use Rattle.gup_spec_turns.specs.CoreTurn.{zones_of};
ghost use Rattle.gup_plain.specs.Denial.{pin_denial};
ghost use Rattle.gup_op_base.specs.Tidy.{IsTidy};
ghost use Rattle.gup_law_mirrors.specs.Invalidated.{copies as copied, changes_entry as entry_changes, changes_page as page_changes};

use gup_base::{Entry, FrameNo, PageNo, Rights, Want, Zone};
use gup_frames::Frames;
use gup_space::Space;

/// Whether the turn that makes this page ready, as a pin that wants that, breaks or clears its entry. It breaks it where it
/// copies the page: in Linux `wp_page_copy`, `mm/memory.c`, which invalidates the page first. It clears it where the page is to
/// be moved before it is pinned for long: in Linux `try_to_migrate_one`, `mm/rmap.c`, which does so too. A store makes its page
/// ready as a write pin does that isn't for long.
pub fn changes_page(space: &Space, frames: &Frames, page: PageNo, want: Want) -> bool
    requires { IsTidy (frames_of frames.now) (space_of space.now) }
    ensures { (s : CoreState) (p : ℕ) → ShowsFrames (frames_of frames.now) s → ShowsSpace p (space_of space.now) s
        → result ≡ page_changes s p page want }
{
    match space.entry(page) {
        Some(entry) => {
            space.has_path(page);
            may_pin(want.write, space.rights_at(page)) && changes_entry(frames, want, entry)
        }
        None => false,
    }
}

// Whether the rights of a page allow a pin, one that writes or not.
fn may_pin(write: bool, rights: Option<Rights>) -> bool
    ensures { result ≡ is_none (pin_denial write rights) }
{
    match rights {
        Some(Rights::RW) => true,
        Some(Rights::R) => !write,
        None => false,
    }
}

// Whether the entry of a page that is made ready is broken, for which a frame must be free, or else cleared. The page lacks no page
// table, since it has an entry.
fn changes_entry(frames: &Frames, want: Want, entry: Entry) -> bool
    requires { IsFrame (frames_of frames.now) entry.frame }
    ensures { (space : SpaceValue) (s : CoreState) (p page : ℕ) → ShowsFrames (frames_of frames.now) s → ShowsSpace p space s
        → lacking space page ≡ 0 → result ≡ entry_changes s p page want entry }
{
    let frame = entry.frame;
    if copies(frames, want.write, entry) {
        has_free(frames, want)
    } else {
        want.long && is_movable(frames, frame)
    }
}

// Whether the frame is of the movable zone.
fn is_movable(frames: &Frames, frame: FrameNo) -> bool
    requires { IsFrame (frames_of frames.now) frame }
    ensures { result ≡ nat_lt frame (frames_of frames.now).movable }
{
    frames.zone(frame) == Zone::Movable
}

// Whether a fault copies the frame of this entry: one that may have other references, of an entry that isn't right yet.
fn copies(frames: &Frames, write: bool, entry: Entry) -> bool
    requires { IsFrame (frames_of frames.now) entry.frame }
    ensures { result ≡ copied write entry ((frames_of frames.now).mark entry.frame) ((frames_of frames.now).count entry.frame) }
{
    let ready = write && entry.writable;
    !ready && (!frames.mark(entry.frame) && frames.count(entry.frame) != 1)
}

// Whether a frame is free of the zones from which the pages of a pin take frames: the normal zone alone where it is for long.
fn has_free(frames: &Frames, want: Want) -> bool
    ensures { result ≡ is_some (free_frame (frames_of frames.now) (zones_of want)) }
{
    frames.free(Zone::Normal) > 0 || (!want.long && frames.free(Zone::Movable) > 0)
}
