//! The events of moves.
ghost use Rattle.gup_spec_events.specs.Event as core;
ghost use Rattle.gup_exec_core.specs.State.{state_of};
ghost use Rattle.gup_exec_core.specs.Tried.{Tried};
ghost use Rattle.std.specs.Prelude.{◌≡◌, ◌↔◌, IsTrue};
ghost use Rattle.gup_spec_events.specs.State.{moving};
ghost use Rattle.gup_exec_jobs.specs.Job.{count_of};
ghost use Rattle.gup_exec_rows.specs.Row.{at};

use crate::trial::Trial;
use gup_base::{ActorNo, Allowed, Entry, FrameNo, PageNo, ProcNo};
use gup_exec_jobs::job::{Counted, Job};
use gup_exec_jobs::needs::{counted_as, entry_to, is_entry, is_frame, is_read, need};
use gup_exec_jobs::refused::Refused;

impl Trial {
    // Whether the actor moves the page to these zones, and has read this of its frame's count.
    fn is_moving(
        &self,
        a: ActorNo,
        p: ProcNo,
        page: PageNo,
        entry: &Entry,
        allowed: Allowed,
        count: Counted,
    ) -> bool
        ensures { IsTrue result ↔ (at self.now.job a ≡ moving p page entry.now allowed (count_of count)) }
    {
        let entry = entry_to(entry.frame, entry.writable);
        self.job.get(a).is_moving(p, page, entry, allowed, count)
    }

    /// The entry is cleared, and the table lock kept.
    pub fn clear_entry(
        &mut self,
        a: ActorNo,
        p: ProcNo,
        page: PageNo,
        entry: Entry,
        allowed: Allowed,
    ) -> Result<(), Refused>
        ensures { Tried (state_of self.old) (state_of self.new) (core.clear_entry a p page entry allowed) result }
    {
        need(self.procs.is_born(p))?;
        need(self.table.get(p).is_none())?;
        need(self.is_idle(a))?;
        need(self.owed.get(a).is_none())?;
        need(is_entry(self.entry.get(p, page), &entry))?;
        need(self.is_unmirrored(p, page))?;
        let row = self.entry.without(p, page)?;
        self.entry.put_at(p, page, None, row);
        self.table.put(p, Some(a));
        self.job
            .put(a, Job::moving(p, page, entry, allowed, Counted::Unread));
        Ok(())
    }

    /// The count of the cleared entry's frame is read.
    pub fn count_moved(
        &mut self,
        a: ActorNo,
        p: ProcNo,
        page: PageNo,
        entry: Entry,
        allowed: Allowed,
        count: u64,
    ) -> Result<(), Refused>
        ensures { Tried (state_of self.old) (state_of self.new) (core.count_moved a p page entry allowed count) result }
    {
        need(self.is_moving(a, p, page, &entry, allowed, Counted::Unread))?;
        need(count == *self.count.get(entry.frame))?;
        self.job
            .put(a, Job::moving(p, page, entry, allowed, counted_as(count)));
        Ok(())
    }

    /// After a count of 1 the prepared frame, of an allowed zone, takes the place of the old one, whose reference is owed.
    pub fn place_frame(
        &mut self,
        a: ActorNo,
        p: ProcNo,
        page: PageNo,
        f: FrameNo,
        entry: Entry,
        allowed: Allowed,
    ) -> Result<(), Refused>
        ensures { Tried (state_of self.old) (state_of self.new) (core.place_frame a p page f entry allowed) result }
    {
        need(self.is_moving(a, p, page, &entry, allowed, Counted::One))?;
        need(is_frame(*self.prepared.get(a), f))?;
        need(self.owed.get(a).is_none())?;
        need(self.may_move_to(&allowed, f))?;
        let old = entry.frame;
        let words = self.word.copy_of(old)?;
        let row = self.entry.with(p, page, entry_to(f, entry.writable))?;
        self.entry
            .put_at(p, page, Some(entry_to(f, entry.writable)), row);
        let marked = *self.mark.get(old);
        let owned = *self.own.get(old);
        self.mark.put(f, marked);
        self.own.put(old, None);
        self.own.put(f, owned);
        self.word.put(f, words);
        self.table.put(p, None);
        self.job.put(a, Job::idle());
        self.prepared.put(a, None);
        self.owed.put(a, Some(old));
        Ok(())
    }

    /// The entry is put back.
    pub fn restore_entry(
        &mut self,
        a: ActorNo,
        p: ProcNo,
        page: PageNo,
        entry: Entry,
        allowed: Allowed,
        count: Counted,
    ) -> Result<(), Refused>
        ensures { Tried (state_of self.old) (state_of self.new) (core.restore_entry a p page entry allowed (count_of count)) result }
    {
        need(self.is_moving(a, p, page, &entry, allowed, count))?;
        need(is_read(count))?;
        need(self.prepared.get(a).is_none())?;
        let row = self
            .entry
            .with(p, page, entry_to(entry.frame, entry.writable))?;
        self.entry
            .put_at(p, page, Some(entry_to(entry.frame, entry.writable)), row);
        self.table.put(p, None);
        self.job.put(a, Job::idle());
        Ok(())
    }
}
