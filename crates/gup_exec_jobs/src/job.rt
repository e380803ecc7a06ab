//! What an actor is in the middle of.
ghost use Rattle.std.specs.Prelude.{◌≡◌, ◌↔◌, if◌then◌else◌, IsTrue};
ghost use Rattle.gup_spec_events.specs.State.{idle, marking, moving, forking, walking, failing};
ghost use Rattle.gup_spec_events.specs.Event.{MayPrepare, MayFail, child_of};
ghost use Rattle.gup_exec_jobs.specs.Job.{job_of, step_of, count_of, walk_of};

use crate::lists;
use crate::walk::{WalkStep, is_same_step};
use gup_base::{Allowed, Entry, FrameNo, PageNo, ProcNo};
use std::marker::Model;

/// What a mover has read of the count of the frame that it took out of its entry.
#[derive(Clone, Copy, Debug, PartialEq, Eq)]
pub enum Counted {
    /// Nothing yet.
    Unread,
    /// That it is 1.
    One,
    /// That it is this, and not 1.
    More(u64),
}

/// Where a fork is.
#[derive(Clone, Copy, Debug, PartialEq, Eq)]
pub enum ForkStep {
    /// Between two pages.
    Between,
    /// It has found that the page is to be shared.
    Sharing(PageNo),
    /// It has made the parent's entry of the page read-only.
    Lowered(PageNo),
    /// It has taken the mark of the page's frame.
    Cleared(PageNo),
    /// It has copied so many words of the page.
    Copying(PageNo, u16),
    /// It gives back what the child has.
    Failing,
}

/// The kinds of what an actor may be in the middle of.
#[derive(Debug, Drop)]
pub enum Stage {
    /// Nothing.
    Idle,
    /// It has read the count 1 of this page's frame, and is about to mark it.
    Marking(ProcNo, PageNo, FrameNo),
    /// It has cleared this page's entry, to move the page to these zones.
    Moving(ProcNo, PageNo, Entry, Allowed, Counted),
    /// It forks the first process into the second. These pages are done, the last one first.
    Forking(ProcNo, ProcNo, Vec<PageNo>, ForkStep),
    /// It pins pages of the process by a lockless walk.
    Walking {
        /// Whose pages.
        proc: ProcNo,
        /// Whether they are pinned to be written.
        write: bool,
        /// Whether they are pinned for long.
        long: bool,
        /// The sequence that the walk has read.
        sequence: u64,
        /// Where the walk is.
        step: WalkStep,
    },
}

/// What an actor is in the middle of.
#[derive(Debug, Drop)]
pub struct Job {
    stage: Stage,
}

impl Model for Job {
    ghost use Rattle.gup_spec_events.specs.State.{Job as JobValue};

    ghost Value = { JobValue };

    ghost use Rattle.gup_exec_jobs.specs.Job.{job_of};

    ghost view = { λ j. job_of j.stage };
}

impl Job {
    /// Nothing.
    pub fn idle() -> Job
        ensures { result ≡ idle }
    {
        Job { stage: Stage::Idle }
    }

    /// About to mark the frame of the page.
    pub fn marking(p: ProcNo, page: PageNo, f: FrameNo) -> Job
        ensures { result ≡ marking p page f }
    {
        Job {
            stage: Stage::Marking(p, page, f),
        }
    }

    /// Moving the page to these zones.
    pub fn moving(p: ProcNo, page: PageNo, entry: Entry, allowed: Allowed, count: Counted) -> Job
        ensures { result ≡ moving p page entry allowed (count_of count) }
    {
        Job {
            stage: Stage::Moving(p, page, entry, allowed, count),
        }
    }

    /// Forking `p` into `c`.
    pub fn forking(p: ProcNo, c: ProcNo, done: Vec<PageNo>, step: ForkStep) -> Job
        ensures { result ≡ forking p c done.items (step_of step) }
    {
        Job {
            stage: Stage::Forking(p, c, done, step),
        }
    }

    /// What is left to do of a fork of `p` into `c` that fails: nothing where it ends.
    pub fn failing(p: ProcNo, c: ProcNo, done: Vec<PageNo>, ends: bool) -> Job
        ensures { result ≡ (if ends then idle else forking p c done.items failing) }
    {
        if ends {
            Job::idle()
        } else {
            Job::forking(p, c, done, ForkStep::Failing)
        }
    }

    /// Walking over pages of `p`, and there.
    pub fn walking(p: ProcNo, write: bool, long: bool, sequence: u64, step: WalkStep) -> Job
        ensures { result ≡ walking p write long sequence (walk_of step) }
    {
        Job {
            stage: Stage::Walking {
                proc: p,
                write,
                long,
                sequence,
                step,
            },
        }
    }

    /// Of which kind it is.
    pub fn stage(&self) -> &Stage
        ensures { job_of result.now ≡ self.now }
    {
        &self.stage
    }

    /// Whether it is nothing.
    pub fn is_idle(&self) -> bool
        ensures { IsTrue result ↔ (self.now ≡ idle) }
    {
        match self.stage {
            Stage::Idle => true,
            _ => false,
        }
    }

    /// Whether it is about to mark the frame of the page.
    pub fn is_marking(&self, p: ProcNo, page: PageNo, f: FrameNo) -> bool
        ensures { IsTrue result ↔ (self.now ≡ marking p page f) }
    {
        match &self.stage {
            Stage::Marking(proc, at, frame) => *proc == p && *at == page && *frame == f,
            _ => false,
        }
    }

    /// Whether it moves the page to these zones, and has read this of its frame's count.
    pub fn is_moving(
        &self,
        p: ProcNo,
        page: PageNo,
        entry: Entry,
        allowed: Allowed,
        count: Counted,
    ) -> bool
        ensures { IsTrue result ↔ (self.now ≡ moving p page entry allowed (count_of count)) }
    {
        match &self.stage {
            Stage::Moving(proc, at, was, zones, read) => {
                if *zones != allowed {
                    return false;
                }
                *proc == p && *at == page && *was == entry && *read == count
            }
            _ => false,
        }
    }

    /// Whether it forks `p` into `c`, with these pages done, and is there.
    pub fn is_forking(&self, p: ProcNo, c: ProcNo, done: &[PageNo], step: ForkStep) -> bool
        ensures { IsTrue result ↔ (self.now ≡ forking p c done.now (step_of step)) }
    {
        match &self.stage {
            Stage::Forking(proc, child, pages, at) => {
                if *proc != p {
                    return false;
                }
                if *child != c {
                    return false;
                }
                if !lists::are_same_pages(pages, done) {
                    return false;
                }
                *at == step
            }
            _ => false,
        }
    }

    /// Whether it walks over pages of `p`, for pins of this kind, has read this sequence, and is there.
    pub fn is_walking(
        &self,
        p: ProcNo,
        write: bool,
        long: bool,
        sequence: u64,
        step: &WalkStep,
    ) -> bool
        ensures { IsTrue result ↔ (self.now ≡ walking p write long sequence (walk_of step.now)) }
    {
        match &self.stage {
            Stage::Walking {
                proc,
                write: writes,
                long: stays,
                sequence: read,
                step: at,
            } => {
                if *proc != p {
                    return false;
                }
                if *writes != write {
                    return false;
                }
                if *stays != long {
                    return false;
                }
                if *read != sequence {
                    return false;
                }
                is_same_step(at, step)
            }
            _ => false,
        }
    }

    /// The child of a running fork, also of one that fails.
    pub fn child(&self) -> Option<ProcNo>
        ensures { result ≡ child_of self.now }
    {
        match &self.stage {
            Stage::Forking(_, child, _, _) => Some(*child),
            _ => None,
        }
    }

    /// Whether a frame may be taken in the middle of it.
    pub fn may_prepare(&self) -> bool
        ensures { IsTrue result ↔ MayPrepare self.now }
    {
        match &self.stage {
            Stage::Idle => true,
            Stage::Moving(_, _, _, _, Counted::One) => true,
            Stage::Forking(_, _, _, ForkStep::Copying(_, n)) => *n == 0,
            _ => false,
        }
    }
}

/// Whether a fork that is there may find that no frame is left.
pub fn may_fail(step: &ForkStep) -> bool
    ensures { IsTrue result ↔ MayFail (step_of step.now) }
{
    match *step {
        ForkStep::Failing => false,
        _ => true,
    }
}
