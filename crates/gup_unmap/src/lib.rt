//! Taking pages down: what an unmap and a discard do to the page table and to frames, page by page (of Linux's
//! `munmap` and `madvise`, for private anonymous memory).
#![tactic(auto)]

ghost use Rattle.std.specs.Prelude.{◌≡◌, ℕ, is_some};
ghost use Rattle.gup_frames.specs.Frames.{frames_of};
ghost use Rattle.gup_spec_events.specs.Fault.{takes_down, discards};
ghost use Rattle.gup_space.specs.Space.{space_of};
ghost use Rattle.gup_space.specs.Shows.{change_of, AreEvents};
ghost use Rattle.gup_space.specs.Counted.{IsCounted};

use gup_base::PageNo;
use gup_frames::Frames;
use gup_space::Space;

/// Unmaps the page, and gives its frame's reference back where it has an entry: a page of Linux's `munmap`
/// (`zap_pte_range`). Answers whether it was mapped; else nothing changes.
#[inline]
pub fn take_down(space: &mut Space, frames: &mut Frames, page: PageNo) -> bool
    requires { IsCounted (frames_of frames.old) (space_of space.old) page }
    ensures mapped { result ≡ is_some ((space_of space.old).right page) }
    ensures events { AreEvents (change_of frames.old frames.new space.old space.new)
        (λ a p. takes_down a p page ((space_of space.old).right page) ((space_of space.old).entry page)) }
    ensures words { (f w : ℕ) → (frames_of frames.new).word f w ≡ (frames_of frames.old).word f w }
{
    if !space.unmap_page(page) {
        return false;
    }
    let Some(entry) = space.take_entry(page) else {
        return true;
    };
    frames.put(entry.frame, 1);
    true
}

/// Gives the reference of the page's frame back where the page has an entry, so that it reads as zeros again: a page of
/// Linux's `madvise(MADV_DONTNEED)`. The mapping stays. Answers whether the page is mapped; else nothing changes.
#[inline]
pub fn discard(space: &mut Space, frames: &mut Frames, page: PageNo) -> bool
    requires { IsCounted (frames_of frames.old) (space_of space.old) page }
    ensures mapped { result ≡ is_some ((space_of space.old).right page) }
    ensures events { AreEvents (change_of frames.old frames.new space.old space.new)
        (λ a p. discards a p page ((space_of space.old).right page) ((space_of space.old).entry page)) }
    ensures words { (f w : ℕ) → (frames_of frames.new).word f w ≡ (frames_of frames.old).word f w }
{
    if space.rights_at(page).is_none() {
        return false;
    }
    let Some(old) = space.take_entry(page) else {
        return true;
    };
    frames.put(old.frame, 1);
    true
}
