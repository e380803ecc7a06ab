//! A page of a walk.
ghost use Rattle.gup_spec_events.specs.Event as core;
ghost use Rattle.gup_exec_core.specs.State.{state_of};
ghost use Rattle.gup_exec_core.specs.Tried.{Tried};
ghost use Rattle.gup_exec_jobs.specs.Trail.{trail_of};

use crate::parts::{after_above, after_entry, is_same_table, is_walking};
use gup_base::{ActorNo, Entry, PageNo, ProcNo};
use gup_exec_core::Trial;
use gup_exec_jobs::job::Job;
use gup_exec_jobs::needs::{is_entry, is_same, need, sum};
use gup_exec_jobs::refused::Refused;
use gup_exec_jobs::taken::{Taken, TakenList, is_untaken, with_one_more};
use gup_exec_jobs::trail::{Trail, is_short, is_whole};
use gup_exec_jobs::walk::{
    WalkStep, after_grab, after_link, after_mark, after_reading, after_recheck, on_the_way,
};
use gup_tables::TableNo;

/// A word is read on the page's path, and no lock is taken: it leads to this table, or to none and the walk stops.
pub fn read_link(
    trial: &mut Trial,
    a: ActorNo,
    p: ProcNo,
    write: bool,
    long: bool,
    sequence: u64,
    page: PageNo,
    path: Trail,
    next: Option<TableNo>,
) -> Result<(), Refused>
    ensures { Tried (state_of trial.old) (state_of trial.new) (core.read_link a p write long sequence page (trail_of path) next) result }
{
    need(is_walking(trial, a, p, write, long, sequence, &on_the_way(page, &path)))?;
    need(is_short(&path))?;
    need(is_same_table(trial.link_at(p, &path, page), &next))?;
    need(is_untaken(trial.taken.get(a).as_slice(), page))?;
    let step = after_link(page, &path, next);
    trial
        .job
        .put(a, Job::walking(p, write, long, sequence, step));
    Ok(())
}

/// The page's entry is read at the end of its path, and no lock is taken. Where it isn't right for the pin, the walk stops.
pub fn read_entry(
    trial: &mut Trial,
    a: ActorNo,
    p: ProcNo,
    write: bool,
    long: bool,
    sequence: u64,
    page: PageNo,
    path: Trail,
    was: Option<Entry>,
) -> Result<(), Refused>
    ensures { Tried (state_of trial.old) (state_of trial.new) (core.read_entry a p write long sequence page (trail_of path) was) result }
{
    need(is_walking(trial, a, p, write, long, sequence, &on_the_way(page, &path)))?;
    need(is_whole(&path))?;
    need(is_same(trial.entry_at(p, &path, page), &was))?;
    need(is_untaken(trial.taken.get(a).as_slice(), page))?;
    let step = after_entry(trial, write, long, page, &path, &was);
    trial
        .job
        .put(a, Job::walking(p, write, long, sequence, step));
    Ok(())
}

/// The entry's frame gets the weight of a pin.
pub fn grab_frame(
    trial: &mut Trial,
    a: ActorNo,
    p: ProcNo,
    write: bool,
    long: bool,
    sequence: u64,
    page: PageNo,
    path: Trail,
    entry: Entry,
) -> Result<(), Refused>
    ensures { Tried (state_of trial.old) (state_of trial.new) (core.grab_frame a p write long sequence page (trail_of path) entry) result }
{
    need(is_walking(
        trial,
        a,
        p,
        write,
        long,
        sequence,
        &after_reading(page, &path, &entry),
    ))?;
    need(*trial.count.get(entry.frame) != 0)?;
    let count = sum(*trial.count.get(entry.frame), 1024)?;
    trial.count.put(entry.frame, count);
    let step = after_grab(page, &path, &entry);
    trial
        .job
        .put(a, Job::walking(p, write, long, sequence, step));
    Ok(())
}

/// The frame gets nothing, and the walk stops.
pub fn miss_frame(
    trial: &mut Trial,
    a: ActorNo,
    p: ProcNo,
    write: bool,
    long: bool,
    sequence: u64,
    page: PageNo,
    path: Trail,
    entry: Entry,
) -> Result<(), Refused>
    ensures { Tried (state_of trial.old) (state_of trial.new) (core.miss_frame a p write long sequence page (trail_of path) entry) result }
{
    need(is_walking(
        trial,
        a,
        p,
        write,
        long,
        sequence,
        &after_reading(page, &path, &entry),
    ))?;
    trial.job.put(a, Job::walking(p, write, long, sequence, WalkStep::Stopped));
    Ok(())
}

/// The word above is read again: it leads to the path's last table still, or the frame is to be dropped.
pub fn recheck_above(
    trial: &mut Trial,
    a: ActorNo,
    p: ProcNo,
    write: bool,
    long: bool,
    sequence: u64,
    page: PageNo,
    path: Trail,
    entry: Entry,
    same: bool,
) -> Result<(), Refused>
    ensures { Tried (state_of trial.old) (state_of trial.new) (core.recheck_above a p write long sequence page (trail_of path) entry same) result }
{
    need(is_walking(
        trial,
        a,
        p,
        write,
        long,
        sequence,
        &after_grab(page, &path, &entry),
    ))?;
    let leads = trial.leads_still(p, &path, page);
    need(same == leads)?;
    let step = after_above(page, &path, &entry, same);
    trial
        .job
        .put(a, Job::walking(p, write, long, sequence, step));
    Ok(())
}

/// The entry is read again, and is the same: the page is taken, with the object that it names now.
pub fn recheck_same(
    trial: &mut Trial,
    a: ActorNo,
    p: ProcNo,
    write: bool,
    long: bool,
    sequence: u64,
    page: PageNo,
    path: Trail,
    entry: Entry,
) -> Result<(), Refused>
    ensures { Tried (state_of trial.old) (state_of trial.new) (core.recheck_same a p write long sequence page (trail_of path) entry) result }
{
    need(is_walking(
        trial,
        a,
        p,
        write,
        long,
        sequence,
        &after_grab(page, &path, &entry),
    ))?;
    need(is_entry(trial.entry_at(p, &path, page), &entry))?;
    let object = trial.object.get(p, page);
    let more = Taken::new(p, page, entry.frame, object, write, long);
    let taken = with_one_more(trial.alloc, trial.taken.get(a).as_slice(), more)?;
    trial.taken.put(a, TakenList::new(taken));
    let step = after_recheck(page, &entry);
    trial
        .job
        .put(a, Job::walking(p, write, long, sequence, step));
    Ok(())
}

/// The entry is read again, and is another: the frame is to be dropped.
pub fn recheck_other(
    trial: &mut Trial,
    a: ActorNo,
    p: ProcNo,
    write: bool,
    long: bool,
    sequence: u64,
    page: PageNo,
    path: Trail,
    entry: Entry,
) -> Result<(), Refused>
    ensures { Tried (state_of trial.old) (state_of trial.new) (core.recheck_other a p write long sequence page (trail_of path) entry) result }
{
    need(is_walking(
        trial,
        a,
        p,
        write,
        long,
        sequence,
        &after_grab(page, &path, &entry),
    ))?;
    need(!is_entry(trial.entry_at(p, &path, page), &entry))?;
    let step = WalkStep::Differed(entry.frame);
    trial
        .job
        .put(a, Job::walking(p, write, long, sequence, step));
    Ok(())
}

/// The frame's mark is read. An unmarked frame in a read-only entry is to be dropped.
pub fn read_mark(
    trial: &mut Trial,
    a: ActorNo,
    p: ProcNo,
    write: bool,
    long: bool,
    sequence: u64,
    page: PageNo,
    entry: Entry,
    mark: bool,
) -> Result<(), Refused>
    ensures { Tried (state_of trial.old) (state_of trial.new) (core.read_mark a p write long sequence page entry mark) result }
{
    need(is_walking(
        trial,
        a,
        p,
        write,
        long,
        sequence,
        &after_recheck(page, &entry),
    ))?;
    need(mark == *trial.mark.get(entry.frame))?;
    let step = after_mark(&entry, mark);
    trial
        .job
        .put(a, Job::walking(p, write, long, sequence, step));
    Ok(())
}
