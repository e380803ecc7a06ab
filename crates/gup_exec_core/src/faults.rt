//! The events of faults.
ghost use Rattle.gup_spec_events.specs.Event as core;
ghost use Rattle.gup_exec_core.specs.State.{state_of};
ghost use Rattle.gup_exec_core.specs.Tried.{Tried};

use crate::trial::Trial;
use gup_base::{ActorNo, FrameNo, PageNo, ProcNo};
use gup_exec_jobs::job::Job;
use gup_exec_jobs::needs::{allows, entry_to, give_back, is_entry, is_frame, may_write, need};
use gup_exec_jobs::refused::Refused;

impl Trial {
    /// The actor takes a free frame, zeroed, to prepare it.
    pub fn take_frame(&mut self, a: ActorNo, f: FrameNo) -> Result<(), Refused>
        ensures { Tried (state_of self.old) (state_of self.new) (core.take_frame a f) result }
    {
        need(self.job.get(a).may_prepare())?;
        need(self.prepared.get(a).is_none())?;
        need(f.get() < u64::from(self.movable) + u64::from(self.normal))?;
        need(*self.count.get(f) == 0)?;
        self.count.put(f, 1);
        self.mark.put(f, false);
        self.own.put(f, None);
        self.word.clear(f);
        self.prepared.put(a, Some(f));
        Ok(())
    }

    /// The prepared frame goes into the absent entry of a mapped page, marked and read-only.
    pub fn fill(&mut self, a: ActorNo, p: ProcNo, page: PageNo, f: FrameNo) -> Result<(), Refused>
        ensures { Tried (state_of self.old) (state_of self.new) (core.fill a p page f) result }
    {
        need(self.procs.is_born(p))?;
        need(self.is_unlocked(p))?;
        need(self.job.get(a).is_idle())?;
        need(self.right.get(p, page).is_some())?;
        need(self.entry.get(p, page).is_none())?;
        need(is_frame(*self.prepared.get(a), f))?;
        let object = self.object.get(p, page);
        let row = self.entry.with(p, page, entry_to(f, false))?;
        self.entry.put_at(p, page, Some(entry_to(f, false)), row);
        self.mark.put(f, true);
        self.own.put(f, Some(object));
        self.prepared.put(a, None);
        Ok(())
    }

    /// The count of an unmarked frame is read, and it is 1: the actor is about to mark it, and keeps the table lock.
    pub fn count_one(
        &mut self,
        a: ActorNo,
        p: ProcNo,
        page: PageNo,
        f: FrameNo,
        writable: bool,
    ) -> Result<(), Refused>
        ensures { Tried (state_of self.old) (state_of self.new) (core.count_one a p page f writable) result }
    {
        need(self.procs.is_born(p))?;
        need(self.is_unlocked(p))?;
        need(self.is_idle(a))?;
        need(is_entry(self.entry.get(p, page), &entry_to(f, writable)))?;
        need(!*self.mark.get(f))?;
        need(*self.count.get(f) == 1)?;
        let object = self.object.get(p, page);
        self.own.put(f, Some(object));
        self.table.put(p, Some(a));
        self.job.put(a, Job::marking(p, page, f));
        Ok(())
    }

    /// The frame is marked, and the table lock let go.
    pub fn set_mark(
        &mut self,
        a: ActorNo,
        p: ProcNo,
        page: PageNo,
        f: FrameNo,
    ) -> Result<(), Refused>
        ensures { Tried (state_of self.old) (state_of self.new) (core.set_mark a p page f) result }
    {
        need(self.job.get(a).is_marking(p, page, f))?;
        self.mark.put(f, true);
        self.table.put(p, None);
        self.job.put(a, Job::idle());
        Ok(())
    }

    /// The read-only entry of a marked frame becomes writable.
    pub fn upgrade(
        &mut self,
        a: ActorNo,
        p: ProcNo,
        page: PageNo,
        f: FrameNo,
    ) -> Result<(), Refused>
        ensures { Tried (state_of self.old) (state_of self.new) (core.upgrade a p page f) result }
    {
        need(self.procs.is_born(p))?;
        need(self.is_unlocked(p))?;
        need(may_write(self.right.get(p, page)))?;
        need(is_entry(self.entry.get(p, page), &entry_to(f, false)))?;
        need(*self.mark.get(f))?;
        let row = self.entry.with(p, page, entry_to(f, true))?;
        self.entry.put_at(p, page, Some(entry_to(f, true)), row);
        Ok(())
    }

    /// The entry of an unmarked frame gets the prepared one instead, a marked copy. The old reference is owed.
    pub fn break_entry(
        &mut self,
        a: ActorNo,
        p: ProcNo,
        page: PageNo,
        old: FrameNo,
        new: FrameNo,
        was: bool,
        writable: bool,
    ) -> Result<(), Refused>
        ensures { Tried (state_of self.old) (state_of self.new) (core.break_entry a p page old new was writable) result }
    {
        need(self.procs.is_born(p))?;
        need(self.is_unlocked(p))?;
        need(self.job.get(a).is_idle())?;
        need(is_frame(*self.prepared.get(a), new))?;
        need(self.owed.get(a).is_none())?;
        need(is_entry(self.entry.get(p, page), &entry_to(old, was)))?;
        need(!*self.mark.get(old))?;
        need(allows(self.right.get(p, page), writable))?;
        need(self.is_unmirrored(p, page))?;
        let object = self.object.get(p, page);
        let words = self.word.copy_of(old)?;
        let row = self.entry.with(p, page, entry_to(new, writable))?;
        self.entry
            .put_at(p, page, Some(entry_to(new, writable)), row);
        self.mark.put(new, true);
        self.own.put(new, Some(object));
        self.word.put(new, words);
        self.prepared.put(a, None);
        self.owed.put(a, Some(old));
        Ok(())
    }

    /// The reference of an entry that is gone is given back.
    pub fn put_entry(&mut self, a: ActorNo, f: FrameNo) -> Result<(), Refused>
        ensures { Tried (state_of self.old) (state_of self.new) (core.put_entry a f) result }
    {
        need(is_frame(*self.owed.get(a), f))?;
        give_back(&mut self.count, &mut self.mark, &mut self.own, f, 1);
        self.owed.put(a, None);
        Ok(())
    }
}
