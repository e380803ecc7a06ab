//! Where a lockless walk is, and where it goes on.
ghost use Rattle.std.specs.Prelude.{◌≡◌, ◌<◌, ◌==◌, ◌||◌, ◌↔◌, if◌then◌else◌, IsTrue, length};
ghost use Rattle.gup_spec_events.specs.Event.{MayRest, is_odd, step_at, step_led, step_left};
ghost use Rattle.gup_spec_events.specs.State.{ready, read, grabbed, rechecked, refused, over};
ghost use Rattle.gup_exec_jobs.specs.Job.{walk_of};
ghost use Rattle.gup_exec_jobs.specs.Trail.{trail_of};

use crate::taken::Taken;
use crate::trail::Trail;
use gup_base::{Entry, FrameNo, PageNo};
use gup_tables::TableNo;

/// Where a lockless walk is.
#[derive(Clone, Copy, Debug, PartialEq, Eq)]
pub enum WalkStep {
    /// It has begun.
    Entered,
    /// It has read the sequence, or is done with a page.
    Ready,
    /// It is inside of the tables of the page's path.
    Reading(PageNo, Trail),
    /// It has read the page's entry, which is right for the pin.
    Read(PageNo, Trail, Entry),
    /// The entry's frame has the weight of a pin.
    Grabbed(PageNo, Trail, Entry),
    /// It has found the same entry once more, and taken the page.
    Rechecked(PageNo, Entry),
    /// It has found another entry, and is to drop the frame.
    Differed(FrameNo),
    /// The frame isn't marked, and the walk is to drop the last page.
    Refused,
    /// It takes no further page.
    Stopped,
    /// Its sequence has changed, and it drops page after page.
    Dropping,
    /// It is to leave.
    Over,
}

/// Where a walk is that has come down the page's path so far.
pub fn on_the_way(page: PageNo, path: &Trail) -> WalkStep
    ensures { walk_of result ≡ step_at page (trail_of path.now) }
{
    match *path {
        Trail::Root => WalkStep::Ready,
        _ => WalkStep::Reading(page, *path),
    }
}

/// Where a walk is that a word has led to this table, or nowhere.
pub fn after_link(page: PageNo, path: &Trail, next: Option<TableNo>) -> WalkStep
    requires { length (trail_of path.now) < 3 }
    ensures { walk_of result ≡ step_led page (trail_of path.now) next }
{
    let Some(table) = next else {
        return WalkStep::Stopped;
    };
    let longer = match *path {
        Trail::Root => Trail::Third(table),
        Trail::Third(third) => Trail::Second(table, third),
        Trail::Second(second, third) | Trail::Last(_, second, third) => Trail::Last(
            table, second, third,
        ),
    };
    WalkStep::Reading(page, longer)
}

/// Where a walk is that has read the page's entry, and goes on with it.
pub fn after_reading(page: PageNo, path: &Trail, entry: &Entry) -> WalkStep
    ensures { walk_of result ≡ read page (trail_of path.now) entry.now }
{
    WalkStep::Read(page, *path, *entry)
}

/// Where a walk is that has grabbed the entry's frame.
pub fn after_grab(page: PageNo, path: &Trail, entry: &Entry) -> WalkStep
    ensures { walk_of result ≡ grabbed page (trail_of path.now) entry.now }
{
    WalkStep::Grabbed(page, *path, *entry)
}

/// Where a walk is that has found the entry once more.
pub fn after_recheck(page: PageNo, entry: &Entry) -> WalkStep
    ensures { walk_of result ≡ rechecked page entry.now }
{
    WalkStep::Rechecked(page, *entry)
}

/// Where a walk is that has read this sequence.
pub fn after_sequence(sequence: u64) -> WalkStep
    ensures { walk_of result ≡ (if is_odd sequence then over else ready) }
{
    if sequence % 2 == 1 {
        WalkStep::Over
    } else {
        WalkStep::Ready
    }
}

/// Where a walk is that has read the mark of the entry's frame.
pub fn after_mark(entry: &Entry, mark: bool) -> WalkStep
    ensures { walk_of result ≡ (if entry.now.writable || mark then ready else refused) }
{
    if entry.writable || mark {
        WalkStep::Ready
    } else {
        WalkStep::Refused
    }
}

/// Where a walk is that has read the sequence again, and has taken these pages.
pub fn after_end(sequence: u64, now: u64, taken: &[Taken]) -> WalkStep
    ensures { walk_of result ≡ (if now == sequence then over else step_left taken.now) }
{
    if now == sequence {
        WalkStep::Over
    } else {
        after_drop(taken)
    }
}

/// Where a walk is that drops its pages, and has these left.
pub fn after_drop(left: &[Taken]) -> WalkStep
    ensures { walk_of result ≡ step_left left.now }
{
    match left {
        [] => WalkStep::Over,
        [_, ..] => WalkStep::Dropping,
    }
}

/// Whether a walk that is there may read the sequence again.
pub fn may_rest(step: &WalkStep) -> bool
    ensures { IsTrue result ↔ MayRest (walk_of step.now) }
{
    match *step {
        WalkStep::Ready | WalkStep::Stopped => true,
        _ => false,
    }
}

// Whether these are the same step.
fn are_same(step: &WalkStep, other: &WalkStep) -> bool
    ensures { IsTrue result ↔ (step.now ≡ other.now) }
{
    *step == *other
}

/// Whether a walk is in the same place there.
pub fn is_same_step(step: &WalkStep, other: &WalkStep) -> bool
    ensures { IsTrue result ↔ (walk_of step.now ≡ walk_of other.now) }
{
    are_same(step, other)
}
