//! How a walk begins and ends.
ghost use Rattle.gup_spec_events.specs.Event as core;
ghost use Rattle.gup_exec_jobs.specs.Job.{walk_of};
ghost use Rattle.gup_exec_core.specs.State.{state_of};
ghost use Rattle.gup_exec_core.specs.Tried.{Tried};

use crate::parts::is_walking;
use gup_base::{ActorNo, FrameNo, ProcNo};
use gup_exec_core::Trial;
use gup_exec_jobs::job::Job;
use gup_exec_jobs::needs::{give_back, need, sum};
use gup_exec_jobs::refused::Refused;
use gup_exec_jobs::taken::{Taken, TakenList, begins_with, ends_with, has_none, same};
use gup_exec_jobs::walk::{WalkStep, after_drop, after_end, after_sequence, may_rest};

/// The actor begins a walk over pages of `p`, to be written or not, and kept for long or not.
pub fn enter_walk(
    trial: &mut Trial,
    a: ActorNo,
    p: ProcNo,
    write: bool,
    long: bool,
) -> Result<(), Refused>
    ensures { Tried (state_of trial.old) (state_of trial.new) (core.enter_walk a p write long) result }
{
    need(trial.procs.is_born(p))?;
    need(trial.is_idle(a))?;
    need(has_none(trial.taken.get(a).as_slice()))?;
    need(*trial.has_pinned.get(p))?;
    let walks = sum(*trial.walks.get(p), 1)?;
    trial.walks.put(p, walks);
    trial
        .job
        .put(a, Job::walking(p, write, long, 0, WalkStep::Entered));
    Ok(())
}

/// The sequence is read. Where it is odd, a fork is running, and the walk is over.
pub fn read_sequence(
    trial: &mut Trial,
    a: ActorNo,
    p: ProcNo,
    write: bool,
    long: bool,
    sequence: u64,
) -> Result<(), Refused>
    ensures { Tried (state_of trial.old) (state_of trial.new) (core.read_sequence a p write long sequence) result }
{
    need(is_walking(trial, a, p, write, long, 0, &WalkStep::Entered))?;
    need(sequence == *trial.sequence.get(p))?;
    let step = after_sequence(sequence);
    trial
        .job
        .put(a, Job::walking(p, write, long, sequence, step));
    Ok(())
}

/// The sequence is read again. Where it has changed, all that the walk has taken is dropped.
pub fn read_again(
    trial: &mut Trial,
    a: ActorNo,
    p: ProcNo,
    write: bool,
    long: bool,
    sequence: u64,
    step: WalkStep,
    now: u64,
) -> Result<(), Refused>
    ensures { Tried (state_of trial.old) (state_of trial.new) (core.read_again a p write long sequence (walk_of step) now) result }
{
    need(is_walking(trial, a, p, write, long, sequence, &step))?;
    need(may_rest(&step))?;
    need(now == *trial.sequence.get(p))?;
    let step = after_end(sequence, now, trial.taken.get(a).as_slice());
    trial
        .job
        .put(a, Job::walking(p, write, long, sequence, step));
    Ok(())
}

/// The frame whose entry was another is dropped.
pub fn drop_grab(
    trial: &mut Trial,
    a: ActorNo,
    p: ProcNo,
    write: bool,
    long: bool,
    sequence: u64,
    f: FrameNo,
) -> Result<(), Refused>
    ensures { Tried (state_of trial.old) (state_of trial.new) (core.drop_grab a p write long sequence f) result }
{
    need(is_walking(trial, a, p, write, long, sequence, &WalkStep::Differed(f)))?;
    give_back(&mut trial.count, &mut trial.mark, &mut trial.own, f, 1024);
    trial.job.put(a, Job::walking(p, write, long, sequence, WalkStep::Stopped));
    Ok(())
}

/// The page that was taken last is dropped, since its frame wasn't marked. These are left.
pub fn drop_last(
    trial: &mut Trial,
    a: ActorNo,
    p: ProcNo,
    write: bool,
    long: bool,
    sequence: u64,
    left: &[Taken],
    last: Taken,
) -> Result<(), Refused>
    ensures { Tried (state_of trial.old) (state_of trial.new) (core.drop_last a p write long sequence left.now last) result }
{
    need(is_walking(trial, a, p, write, long, sequence, &WalkStep::Refused))?;
    need(ends_with(trial.taken.get(a).as_slice(), left, &last))?;
    let pages = same(trial.alloc, left)?;
    give_back(
        &mut trial.count,
        &mut trial.mark,
        &mut trial.own,
        last.frame(),
        1024,
    );
    trial.taken.put(a, TakenList::new(pages));
    trial.job.put(a, Job::walking(p, write, long, sequence, WalkStep::Stopped));
    Ok(())
}

/// The page that was taken first is dropped, since the sequence has changed. These are left.
pub fn drop_first(
    trial: &mut Trial,
    a: ActorNo,
    p: ProcNo,
    write: bool,
    long: bool,
    sequence: u64,
    first: Taken,
    left: &[Taken],
) -> Result<(), Refused>
    ensures { Tried (state_of trial.old) (state_of trial.new) (core.drop_first a p write long sequence first left.now) result }
{
    need(is_walking(trial, a, p, write, long, sequence, &WalkStep::Dropping))?;
    need(begins_with(trial.taken.get(a).as_slice(), &first, left))?;
    let pages = same(trial.alloc, left)?;
    give_back(
        &mut trial.count,
        &mut trial.mark,
        &mut trial.own,
        first.frame(),
        1024,
    );
    trial.taken.put(a, TakenList::new(pages));
    let step = after_drop(left);
    trial
        .job
        .put(a, Job::walking(p, write, long, sequence, step));
    Ok(())
}

/// The walk is over, and the actor in the middle of nothing.
pub fn leave_walk(
    trial: &mut Trial,
    a: ActorNo,
    p: ProcNo,
    write: bool,
    long: bool,
    sequence: u64,
) -> Result<(), Refused>
    ensures { Tried (state_of trial.old) (state_of trial.new) (core.leave_walk a p write long sequence) result }
{
    need(is_walking(trial, a, p, write, long, sequence, &WalkStep::Over))?;
    let walks = trial.walks.get(p).saturating_sub(1);
    trial.walks.put(p, walks);
    trial.job.put(a, Job::idle());
    Ok(())
}
