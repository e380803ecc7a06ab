//! Slow pins and plain references: the frame of a page that a fault has made ready is pinned, or gets a reference, under the
//! lock of the page tables (of Linux's `follow_page_pte`).
#![tactic(auto)]

ghost use Rattle.std.specs.Prelude.{◌≡◌, ℕ, true, Some};
ghost use Rattle.gup_frames.specs.Frames.{frames_of, with_references};
ghost use Rattle.gup_spec_events.specs.Invariant.{frame_of};
ghost use Rattle.gup_space.specs.Space.{space_of};
ghost use Rattle.gup_space.specs.Shows.{change_of, AreEvents};
ghost use Rattle.gup_slow.specs.Pins.{IsReady, HasFrame, pins, gets};

use gup_base::{FrameNo, PIN_BIAS, PageNo, Want, Zone};
use gup_frames::Frames;
use gup_space::Space;

/// Pins the page, which a fault has made ready, and answers its frame: the process has pinned from now on
/// (`MMF_HAS_PINNED`), and the frame's count gets the weight of a pin (Linux's `try_grab_folio` in `follow_page_pte`,
/// `mm/gup.c`). Linux sets the flag at the beginning of a call, also where that then fails; a page that sets it again
/// changes nothing.
#[inline]
pub fn pin_page(space: &mut Space, frames: &mut Frames, page: PageNo, want: Want) -> FrameNo
    requires { IsReady (frames_of frames.old) (space_of space.old) page want }
    ensures frame { frame_of ((space_of space.old).entry page) ≡ Some result }
    ensures space { space_of space.new ≡ record (space_of space.old) { has_pinned = true } }
    ensures frames { frames_of frames.new ≡ with_references result 1024 (frames_of frames.old) }
    ensures events { AreEvents (change_of frames.old frames.new space.old space.new)
        (λ a p. pins a p page ((space_of space.old).entry page) want) }
{
    let entry = space.entry(page).unwrap();
    let frame = entry.frame;
    // Linux looks for this here (`gup_must_unshare`, `can_follow_write_pte`, `folio_is_longterm_pinnable`).
    prove!(frames.mark(frame));
    prove!(entry.writable || !want.write);
    prove!(frames.zone(frame) == Zone::Normal || !want.long);
    space.set_pinned();
    frames.grab(frame, PIN_BIAS);
    frame
}

/// Gets a reference of the frame of the page, which a fault has made present, and answers the frame: its count goes up by
/// 1 (Linux's `try_grab_folio` with `FOLL_GET` in `follow_page_pte`, `mm/gup.c`).
#[inline]
pub fn get_page(space: &Space, frames: &mut Frames, page: PageNo) -> FrameNo
    requires { HasFrame (frames_of frames.old) (space_of space.now) page }
    ensures frame { frame_of ((space_of space.now).entry page) ≡ Some result }
    ensures frames { frames_of frames.new ≡ with_references result 1 (frames_of frames.old) }
    ensures event { (k : ℕ) → AreEvents (change_of frames.old frames.new space.now space.now)
        (λ a p. gets a p page ((space_of space.now).entry page) k) }
{
    let entry = space.entry(page).unwrap();
    let frame = entry.frame;
    frames.grab(frame, 1);
    frame
}
