//! The pages whose mirror slots a turn empties.
ghost use Rattle.std.specs.Prelude.{◌≡◌, ℕ, ◌+◌, ◌<◌, ◌≤◌, ◌^◌, ◌&&◌, not, length, Some, IsSome};
ghost use Rattle.std.specs.Option.{option_copied};
ghost use Rattle.gup_frames.specs.Frames.{frames_of};
ghost use Rattle.gup_space.specs.Space.{space_of};
ghost use Rattle.gup_space.specs.Shows.{ShowsFrames, ShowsSpace};
ghost use Rattle.gup_plain.specs.Denial.{any_unmapped};
ghost use Rattle.gup_script.specs.Valid.{IsOp};
ghost use Rattle.gup_spec_events.specs.State.{CoreState};
ghost use Rattle.gup_spec_turns.specs.Emptying.{has_page, invalidate};
ghost use Rattle.gup_spec_turns.specs.JobPlace.{unbegun, place_in};
ghost use Rattle.gup_spec_turns.specs.PageTurns.{lowest_page as lowest_mapped};
ghost use Rattle.gup_spec_turns.specs.Turn.{op_turn};
ghost use Rattle.gup_op_base.specs.Far.{HasFar, far_in};
ghost use Rattle.gup_op_base.specs.Jobs.{place_of};
ghost use Rattle.gup_op_base.specs.Tidy.{IsTidy, AreNumbered};
ghost use Rattle.gup_op_waits.specs.Locks.{child_in};
ghost use Rattle.gup_op_waits.specs.Stands.{StandsAt};
ghost use Rattle.gup_law_mirrors.specs.Invalidated.{page_if as if_page, for_store, changes_page as page_changes, page_in, pages_in};
ghost use Rattle.gup_op_mirrors.specs.Places.{at_beginning, lacks_none, shared_at, ShowsChild};
ghost use Rattle.gup_op_mirrors.specs.Ranges.{range_of};

use crate::changes::changes_page;
use gup_base::{PageNo, ProcNo, Want};
use gup_frames::Frames;
use gup_law_mirrors::turns_invalidate_pages;
use gup_op_base::{JobPlace, page_behind};
use gup_script::Op;
use gup_space::Space;

/// So many pages of a process, from this one on.
#[derive(Clone, Copy, Debug, PartialEq, Eq)]
pub struct Pages {
    pub proc: ProcNo,
    pub page: PageNo,
    pub n: u16,
}

/// Of which pages of process `proc` the next turn of this operation is to empty the mirror slots, before it is taken, if of any:
/// those whose entry it shares, breaks, clears, lowers, drops or discards, or whose rights it sets. Of the operation `far` turns
/// are over, its actor stands there, and as a pin it has taken `got` pages. A fork has its `child` there: where that lacks a page
/// table for the page that is to be shared, the fork fails in place of it, and no slot is emptied. Slots are filled with pages
/// that have an entry alone: of others the answer says nothing.
///
/// Linux calls `mmu_notifier_invalidate_range_start` there: in `copy_page_range`, `wp_page_copy`, `unmap_vmas` and
/// `zap_page_range_single` (`mm/memory.c`), in `try_to_migrate_one` (`mm/rmap.c`), and in `change_pud_range` (`mm/mprotect.c`).
/// That a turn of one page empties the slots of that page alone is this project's own: Linux invalidates the whole range first.
pub fn invalidated(
    space: &Space,
    child: Option<&Space>,
    frames: &Frames,
    proc: ProcNo,
    far: u16,
    got: u8,
    place: &JobPlace,
    op: &Op,
) -> Option<Pages>
    requires tidy { IsTidy (frames_of frames.now) (space_of space.now) }
    requires op { IsOp op.now }
    requires far { HasFar op.now far }
    ensures { (s : CoreState) (a slots k : ℕ) → ShowsFrames (frames_of frames.now) s → ShowsSpace proc (space_of space.now) s
        → ShowsChild (child_in op.now) (option_copied child.entry) s
        → place_of place.now ≡ place_in s a → got ≡ length (s.taken a) → far ≡ far_in (Some op.now) k
        → StandsAt s a proc k op.now → (q g : ℕ) → IsSome (s.entry q g)
        → invalidate (op_turn s a proc slots k op.now).events q g ≡ has_page (range_of result) q g }
{
    turns_invalidate_pages();
    let page = first_page(space, child, frames, far, got, place, op)?;
    let n = page_count(op);
    Some(Pages { proc, page, n })
}

// How many pages they are.
fn page_count(op: &Op) -> u16
    ensures { result ≡ pages_in op.now }
{
    match op {
        Op::Protect { n, .. } => *n,
        _ => 1,
    }
}

// The first one of the pages.
fn first_page(
    space: &Space,
    child: Option<&Space>,
    frames: &Frames,
    far: u16,
    got: u8,
    place: &JobPlace,
    op: &Op,
) -> Option<PageNo>
    requires tidy { IsTidy (frames_of frames.now) (space_of space.now) }
    requires op { IsOp op.now }
    requires far { HasFar op.now far }
    ensures { (s : CoreState) (a p k : ℕ) → ShowsFrames (frames_of frames.now) s → ShowsSpace p (space_of space.now) s
        → ShowsChild (child_in op.now) (option_copied child.entry) s
        → place_of place.now ≡ place_in s a → got ≡ length (s.taken a) → far ≡ far_in (Some op.now) k
        → StandsAt s a p k op.now → result ≡ page_in s a p k op.now }
{
    match op {
        Op::Unmap { page, .. } | Op::Discard { page, .. } => Some(page_behind(*page, far)),
        Op::Protect { page, n, .. } => page_if(are_mapped(space, *page, *n), *page),
        Op::Store { page, .. } => stored(space, frames, *page),
        Op::Pin {
            page,
            want,
            fast,
            ..
        } => pinned(space, frames, *page, got, *want, *fast && far == 0, place),
        Op::Move { page, .. } => moved(*page, place),
        Op::Fork { .. } => shared(child, place),
        Op::Exit => lowest_page(space),
        Op::Map { .. } | Op::Load { .. } | Op::Get { .. } | Op::Put { .. } => None,
        Op::Unpin { .. } | Op::Give { .. } | Op::Take { .. } => None,
        Op::Transfer { .. } | Op::Mirror { .. } | Op::Look { .. } => None,
    }
}

// The page, where it is so.
fn page_if(is_so: bool, page: PageNo) -> Option<PageNo>
    ensures { result ≡ if_page is_so page }
{
    if is_so { Some(page) } else { None }
}

// Whether the `n` pages from `page` on are mapped.
fn are_mapped(space: &Space, page: PageNo, n: u16) -> bool
    requires { page + n ≤ 2 ^ 35 }
    ensures { result ≡ not (any_unmapped (space_of space.now).right page n) }
{
    for k in 0..n {
        if space.rights_at(page_behind(page, k)).is_none() {
            return false;
        }
    }
    true
}

// The page of a store, where that breaks its entry.
fn stored(space: &Space, frames: &Frames, page: PageNo) -> Option<PageNo>
    requires { IsTidy (frames_of frames.now) (space_of space.now) }
    ensures { (s : CoreState) (p : ℕ) → ShowsFrames (frames_of frames.now) s → ShowsSpace p (space_of space.now) s
        → result ≡ if_page (page_changes s p page for_store) page }
{
    let want = Want {
        write: true,
        long: false,
    };
    page_if(changes_page(space, frames, page, want), page)
}

// The page that a pin makes ready, where that breaks or clears its entry: in a turn that is in the middle of nothing, and doesn't
// begin a walk.
fn pinned(
    space: &Space,
    frames: &Frames,
    page: PageNo,
    got: u8,
    want: Want,
    begins: bool,
    place: &JobPlace,
) -> Option<PageNo>
    requires { IsTidy (frames_of frames.now) (space_of space.now) }
    ensures { (s : CoreState) (p : ℕ) → ShowsFrames (frames_of frames.now) s → ShowsSpace p (space_of space.now) s
        → (place_of place.now ≡ unbegun → page + got < 2 ^ 35)
        → result ≡ at_beginning (place_of place.now) (if_page (not begins && page_changes s p (page + got) want) (page + got)) }
{
    if begins || !matches!(place, JobPlace::Unbegun) {
        return None;
    }
    let here = PageNo::new(page.get() + u64::from(got))?;
    page_if(changes_page(space, frames, here, want), here)
}

// The page of a move, whose entry its first turn clears.
fn moved(page: PageNo, place: &JobPlace) -> Option<PageNo>
    ensures { result ≡ at_beginning (place_of place.now) (Some page) }
{
    page_if(matches!(place, JobPlace::Unbegun), page)
}

// The page that a fork is about to share: the one that it has counted, unless its child lacks a page table for it.
fn shared(child: Option<&Space>, place: &JobPlace) -> Option<PageNo>
    ensures { result ≡ shared_at (option_copied child.entry) (place_of place.now) }
{
    match place {
        JobPlace::At(page) => page_if(has_tables(child, *page), *page),
        _ => None,
    }
}

// Whether the page lacks no page table in this process, if there is one.
fn has_tables(space: Option<&Space>, page: PageNo) -> bool
    ensures { result ≡ lacks_none (option_copied space.entry) page }
{
    match space {
        Some(space) => space.lacks(page) == 0,
        None => false,
    }
}

// The lowest mapped page, which an exit takes down.
fn lowest_page(space: &Space) -> Option<PageNo>
    requires { AreNumbered (space_of space.now) }
    ensures { result ≡ lowest_mapped (space_of space.now).right }
{
    let first = PageNo::new(0)?;
    space.next_page(first)
}
