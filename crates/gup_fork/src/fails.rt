//! What a fork that fails takes back (of Linux's `dup_mmap` where it fails, and of the `exit_mmap` after it).
ghost use Rattle.std.specs.Prelude.{◌≡◌, ℕ, ◌+◌, ◌<◌, ◌≤◌, ◌^◌, List, Some, None};
ghost use Rattle.gup_base.specs.declared.entry.Entry.{Entry as EntryValue};
ghost use Rattle.gup_plain.specs.Event.{page_numbers};
ghost use Rattle.gup_frames.specs.Frames.{frames_of, IsFrame, without_references};
ghost use Rattle.gup_spec_events.specs.State.{ForkStep};
ghost use Rattle.gup_spec_events.specs.Failure.{fails};
ghost use Rattle.gup_maps.specs.Maps.{IsNextPage};
ghost use Rattle.gup_space.specs.Space.{space_of, with_entry, without_page, AreMapped};
ghost use Rattle.gup_space.specs.Counted.{AreCounted};
ghost use Rattle.gup_fork.specs.Forks.{fork_change_of, with_structure, with_table, AreForkEvents, without_entry, without_entries, given_back, table_behind, emptied};

use gup_base::{FrameNo, PageNo};
use gup_frames::Frames;
use gup_space::Space;

// Takes a reference of the frame back, where it has one.
#[inline]
fn put_one(frames: &mut Frames, frame: FrameNo)
    requires { IsFrame (frames_of frames.old) frame }
    ensures { frames_of frames.new ≡ without_references frame 1 (frames_of frames.old) }
{
    if frames.count(frame) > 0 {
        frames.put(frame, 1);
    }
}

// Takes the page's entry away, where it has one, and gives its reference back.
#[inline]
fn put_entry(child: &mut Space, frames: &mut Frames, page: PageNo)
    requires { (e : EntryValue) → (space_of child.old).entry page ≡ Some e → IsFrame (frames_of frames.old) e.frame }
    ensures child { space_of child.new ≡ with_entry page None (space_of child.old) }
    ensures frames { frames_of frames.new ≡ without_entry ((space_of child.old).entry page) (frames_of frames.old) }
{
    if let Some(entry) = child.take_entry(page) {
        put_one(frames, entry.frame);
    }
}

// The lowest page number.
fn lowest_page() -> PageNo
    ensures { result ≡ 0 }
{
    PageNo::new(0).unwrap()
}

// Takes all mappings and entries of the child away, from the lowest page up, and gives the references of its entries
// back.
fn empty(child: &mut Space, frames: &mut Frames)
    requires counted { AreCounted (frames_of frames.old) (space_of child.old) }
    requires mapped { AreMapped (space_of child.old) }
    ensures child { space_of child.new ≡ emptied (space_of child.old) }
    ensures frames { frames_of frames.new ≡ without_entries (space_of child.old).entry 0 page_numbers (frames_of frames.old) }
    ensures below { (page : ℕ) → page_numbers ≤ page → (space_of child.old).entry page ≡ None }
{
    frames.are_there();
    let first = lowest_page();
    while let Some(page) = child.next_page(first) {
        put_entry(child, frames, page);
        let _was_mapped = child.unmap_page(page);
    }
}

/// A fork fails, at whatever step it is, as where it finds no frame for a copy: the parent's sequence gets even again, and the
/// child loses its mappings and its entries, whose frames have a reference less for each. What was shared stays read-only in
/// the parent, and its frames unmarked. Who forked frees the parent's structure lock with it, and the table lock where it is
/// within a page.
pub fn fail(parent: &mut Space, child: &mut Space, frames: &mut Frames)
    requires sequence { (space_of parent.old).sequence < 2 ^ 40 }
    requires counted { AreCounted (frames_of frames.old) (space_of child.old) }
    requires mapped { AreMapped (space_of child.old) }
    ensures parent { space_of parent.new ≡ record (space_of parent.old) { sequence = (space_of parent.old).sequence + 1 } }
    ensures child { space_of child.new ≡ emptied (space_of child.old) }
    ensures frames { frames_of frames.new ≡ given_back (space_of child.old).entry (frames_of frames.old) }
    ensures events { (a : ℕ) (done : List ℕ) (step : ForkStep) → AreForkEvents
        (with_structure None (with_table (table_behind step (space_of parent.old).table)
        (fork_change_of frames.old frames.new parent.old parent.new child.old child.new)))
        (λ p c. fails a p c done step (space_of child.old).entry) }
{
    parent.raise();
    empty(child, frames);
}
