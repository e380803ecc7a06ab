//! What the conditions and changes of a walk's events are made of.
ghost use Rattle.std.specs.Prelude.{◌≡◌, ◌↔◌, ℕ, ◌-◌, ◌==◌, if◌then◌else◌, false, None, Some, IsTrue};
ghost use Rattle.gup_spec_events.specs.Event.{is_wrong, step_read};
ghost use Rattle.gup_spec_events.specs.State.{walking, grabbed, differed};
ghost use Rattle.gup_exec_jobs.specs.Job.{walk_of};
ghost use Rattle.gup_exec_jobs.specs.Trail.{trail_of};
ghost use Rattle.gup_exec_rows.specs.Row.{at};
ghost use Rattle.gup_exec_core.specs.State.{state_of};

use gup_base::{ActorNo, Entry, PageNo, ProcNo};
use gup_exec_core::Trial;
use gup_exec_jobs::trail::Trail;
use gup_exec_jobs::walk::{WalkStep, after_grab, after_reading};
use gup_tables::TableNo;

/// Whether the actor walks over pages of `p`, for pins of this kind, has read this sequence, and is there.
pub fn is_walking(
    trial: &Trial,
    a: ActorNo,
    p: ProcNo,
    write: bool,
    long: bool,
    sequence: u64,
    step: &WalkStep,
) -> bool
    ensures { IsTrue result ↔ (at trial.now.job a ≡ walking p write long sequence (walk_of step.now)) }
{
    trial.job.get(a).is_walking(p, write, long, sequence, step)
}

/// Whether the entry is wrong for the walk's pin: read-only for a write, or of a movable frame for long.
pub fn is_wrong(trial: &Trial, write: bool, long: bool, entry: &Entry) -> bool
    ensures { result ≡ is_wrong (state_of trial.now) write long entry.now }
{
    (write && !entry.writable) || (long && entry.frame.get() < u64::from(trial.movable))
}

/// Where a walk is that has read the page's entry.
pub fn after_entry(
    trial: &Trial,
    write: bool,
    long: bool,
    page: PageNo,
    path: &Trail,
    was: &Option<Entry>,
) -> WalkStep
    ensures { walk_of result ≡ step_read (state_of trial.now) write long page (trail_of path.now) was.now }
{
    match was {
        None => WalkStep::Stopped,
        Some(entry) => {
            if is_wrong(trial, write, long, entry) {
                WalkStep::Stopped
            } else {
                after_reading(page, path, entry)
            }
        }
    }
}

/// Whether what is there is this table.
pub fn is_table(found: Option<TableNo>, table: TableNo) -> bool
    ensures { IsTrue result ↔ (found ≡ Some table) }
{
    match found {
        None => false,
        Some(other) => other == table,
    }
}

/// Whether what is there is this table, or none where this is none.
pub fn is_same_table(found: Option<TableNo>, next: &Option<TableNo>) -> bool
    ensures { IsTrue result ↔ (next.now ≡ found) }
{
    match next {
        None => found.is_none(),
        Some(table) => is_table(found, *table),
    }
}

/// Where a walk is that has read the word above again.
pub fn after_above(page: PageNo, path: &Trail, entry: &Entry, same: bool) -> WalkStep
    ensures { walk_of result ≡ (if same then grabbed page (trail_of path.now) entry.now else differed entry.now.frame) }
{
    if same {
        after_grab(page, path, entry)
    } else {
        WalkStep::Differed(entry.frame)
    }
}
