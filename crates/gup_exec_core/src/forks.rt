//! The events of forks.
ghost use Rattle.gup_spec_events.specs.Event as core;
ghost use Rattle.gup_exec_core.specs.State.{state_of};
ghost use Rattle.gup_exec_core.specs.Tried.{Tried};
ghost use Rattle.std.specs.Prelude.{◌≡◌};
ghost use Rattle.gup_spec_events.specs.Event.{copies_page};
ghost use Rattle.gup_exec_jobs.specs.Job.{step_of};

use crate::trial::Trial;
use gup_base::{ActorNo, Entry, FrameNo, PageNo, ProcNo, Rights, WordNo};
use gup_exec_jobs::job::{ForkStep, Job, may_fail};
use gup_exec_jobs::lists::{same_pages, with_page};
use gup_exec_jobs::needs::{
    after_failure, end_if, entry_to, first_step, free_if, give_back, is_entry, is_frame, is_right,
    is_writable, need, sum,
};
use gup_exec_jobs::refused::Refused;
use gup_exec_jobs::taken::has_none;
use gup_exec_parts::space::PAGE_NUMBERS;
use gup_exec_rows::clearing::clear;
use gup_exec_rows::grid::{are_gone, are_others_gone, has_page};

impl Trial {
    // Whether a fork copies the page with this frame.
    fn copies_page(&self, p: ProcNo, f: FrameNo) -> bool
        ensures { result ≡ copies_page (state_of self.now) p f }
    {
        *self.mark.get(f) && *self.has_pinned.get(p) && *self.count.get(f) >= 1024
    }

    /// The child begins to grow, with the parent's mappings, each with an object of its own.
    #[tactic(auto, unfolding(gup_plain::specs::Event::page_numbers))]
    pub fn begin_fork(&mut self, a: ActorNo, p: ProcNo, c: ProcNo) -> Result<(), Refused>
        ensures { Tried (state_of self.old) (state_of self.new) (core.begin_fork a p c) result }
    {
        need(self.procs.is_born(p))?;
        need(self.procs.is_unborn(c))?;
        need(self.is_unlocked(p))?;
        need(self.is_idle(a))?;
        need(self.owed.get(a).is_none())?;
        need(has_none(self.taken.get(a).as_slice()))?;
        let objects = self.contents.made;
        let made = sum(objects, PAGE_NUMBERS)?;
        let sequence = sum(*self.sequence.get(p), 1)?;
        let rights = self.right.copy_of(p)?;
        let names = self.object.own(&self.right, p, objects)?;
        clear(&mut self.contents, objects, PAGE_NUMBERS);
        self.contents.made = made;
        let pages = self.right.count(p);
        self.procs.grow(c, p);
        self.right.put(c, rights);
        self.object.put(c, names);
        self.pages.put(c, pages);
        self.sequence.put(p, sequence);
        self.structure.put(p, Some(a));
        let done = Vec::new(self.alloc);
        self.job.put(a, Job::forking(p, c, done, ForkStep::Between));
        Ok(())
    }

    /// The page's count is read: it is to be copied, or else shared.
    #[tactic(auto, unfolding(gup_exec_rows::specs::Lists::IsOneOf))]
    pub fn count_page(
        &mut self,
        a: ActorNo,
        p: ProcNo,
        c: ProcNo,
        done: &[PageNo],
        page: PageNo,
        entry: Entry,
        copies: bool,
    ) -> Result<(), Refused>
        ensures { Tried (state_of self.old) (state_of self.new) (core.count_page a p c done.now page entry copies) result }
    {
        need(self.job.get(a).is_forking(p, c, done, ForkStep::Between))?;
        need(self.table.get(p).is_none())?;
        need(self.right.get(c, page).is_some())?;
        need(!has_page(done, page))?;
        need(is_entry(self.entry.get(p, page), &entry))?;
        need(copies == self.copies_page(p, entry.frame))?;
        let done = same_pages(self.alloc, done)?;
        self.table.put(p, Some(a));
        self.job
            .put(a, Job::forking(p, c, done, first_step(copies, page)));
        Ok(())
    }

    /// A share begins: the parent's entry becomes read-only.
    pub fn share_entry(
        &mut self,
        a: ActorNo,
        p: ProcNo,
        c: ProcNo,
        done: &[PageNo],
        page: PageNo,
        f: FrameNo,
        writable: bool,
    ) -> Result<(), Refused>
        ensures { Tried (state_of self.old) (state_of self.new) (core.share_entry a p c done.now page f writable) result }
    {
        need(
            self.job
                .get(a)
                .is_forking(p, c, done, ForkStep::Sharing(page)),
        )?;
        need(is_entry(self.entry.get(p, page), &entry_to(f, writable)))?;
        need(self.is_unmirrored(p, page))?;
        let done = same_pages(self.alloc, done)?;
        let row = self.entry.with(p, page, entry_to(f, false))?;
        self.entry.put_at(p, page, Some(entry_to(f, false)), row);
        self.job
            .put(a, Job::forking(p, c, done, ForkStep::Lowered(page)));
        Ok(())
    }

    /// The frame loses its mark.
    pub fn share_mark(
        &mut self,
        a: ActorNo,
        p: ProcNo,
        c: ProcNo,
        done: &[PageNo],
        page: PageNo,
        f: FrameNo,
        writable: bool,
    ) -> Result<(), Refused>
        ensures { Tried (state_of self.old) (state_of self.new) (core.share_mark a p c done.now page f writable) result }
    {
        need(
            self.job
                .get(a)
                .is_forking(p, c, done, ForkStep::Lowered(page)),
        )?;
        need(is_entry(self.entry.get(p, page), &entry_to(f, writable)))?;
        let done = same_pages(self.alloc, done)?;
        self.mark.put(f, false);
        self.own.put(f, None);
        self.job
            .put(a, Job::forking(p, c, done, ForkStep::Cleared(page)));
        Ok(())
    }

    /// The child gets its entry, and the page is done.
    pub fn share_child(
        &mut self,
        a: ActorNo,
        p: ProcNo,
        c: ProcNo,
        done: &[PageNo],
        page: PageNo,
        f: FrameNo,
        writable: bool,
    ) -> Result<(), Refused>
        ensures { Tried (state_of self.old) (state_of self.new) (core.share_child a p c done.now page f writable) result }
    {
        need(
            self.job
                .get(a)
                .is_forking(p, c, done, ForkStep::Cleared(page)),
        )?;
        need(is_entry(self.entry.get(p, page), &entry_to(f, writable)))?;
        let count = sum(*self.count.get(f), 1)?;
        let done = with_page(self.alloc, page, done)?;
        let from = self.object.get(p, page);
        let to = self.object.get(c, page);
        let row = self.entry.with(c, page, entry_to(f, false))?;
        self.procs.touch(c, page)?;
        self.contents.copy(from, to)?;
        self.entry.put_at(c, page, Some(entry_to(f, false)), row);
        self.count.put(f, count);
        self.procs.copy_page(c, page);
        self.table.put(p, None);
        self.job.put(a, Job::forking(p, c, done, ForkStep::Between));
        Ok(())
    }

    /// One word of the page is copied into the prepared frame.
    pub fn copy_word(
        &mut self,
        a: ActorNo,
        p: ProcNo,
        c: ProcNo,
        done: &[PageNo],
        page: PageNo,
        word: WordNo,
        to: FrameNo,
        entry: Entry,
    ) -> Result<(), Refused>
        ensures { Tried (state_of self.old) (state_of self.new) (core.copy_word a p c done.now page word to entry) result }
    {
        let n = word.get() as u16;
        need(
            self.job
                .get(a)
                .is_forking(p, c, done, ForkStep::Copying(page, n)),
        )?;
        need(is_frame(*self.prepared.get(a), to))?;
        need(is_entry(self.entry.get(p, page), &entry))?;
        let done = same_pages(self.alloc, done)?;
        let read = self.word.get(entry.frame, word);
        let words = self.word.with(to, word, read)?;
        let from = self.object.get(p, page);
        let object = self.object.get(c, page);
        let value = self.contents.read(from, word);
        self.procs.touch(c, page)?;
        self.contents.write(object, word, value)?;
        self.word.put_at(to, word, read, words);
        self.procs.copy_word(c, page, word);
        self.job.put(a, Job::forking(p, c, done, ForkStep::Copying(page, n + 1)));
        Ok(())
    }

    /// The copy goes into the child's entry, and the page is done.
    pub fn place_child(
        &mut self,
        a: ActorNo,
        p: ProcNo,
        c: ProcNo,
        done: &[PageNo],
        page: PageNo,
        to: FrameNo,
        rights: Rights,
    ) -> Result<(), Refused>
        ensures { Tried (state_of self.old) (state_of self.new) (core.place_child a p c done.now page to rights) result }
    {
        need(
            self.job
                .get(a)
                .is_forking(p, c, done, ForkStep::Copying(page, 512)),
        )?;
        need(is_frame(*self.prepared.get(a), to))?;
        need(is_right(self.right.get(c, page), rights))?;
        let done = with_page(self.alloc, page, done)?;
        let object = self.object.get(c, page);
        let row = self.entry.with(c, page, entry_to(to, is_writable(rights)))?;
        self.entry
            .put_at(c, page, Some(entry_to(to, is_writable(rights))), row);
        self.mark.put(to, true);
        self.own.put(to, Some(object));
        self.prepared.put(a, None);
        self.table.put(p, None);
        self.job.put(a, Job::forking(p, c, done, ForkStep::Between));
        Ok(())
    }

    /// A page without an entry has nothing to share.
    #[tactic(auto, unfolding(gup_exec_rows::specs::Lists::IsOneOf))]
    pub fn pass_page(
        &mut self,
        a: ActorNo,
        p: ProcNo,
        c: ProcNo,
        done: &[PageNo],
        page: PageNo,
    ) -> Result<(), Refused>
        ensures { Tried (state_of self.old) (state_of self.new) (core.pass_page a p c done.now page) result }
    {
        need(self.job.get(a).is_forking(p, c, done, ForkStep::Between))?;
        need(self.table.get(p).is_none())?;
        need(self.right.get(c, page).is_some())?;
        need(!has_page(done, page))?;
        need(self.entry.get(p, page).is_none())?;
        let done = with_page(self.alloc, page, done)?;
        let from = self.object.get(p, page);
        let to = self.object.get(c, page);
        self.procs.touch(c, page)?;
        self.contents.copy(from, to)?;
        self.procs.copy_page(c, page);
        self.job.put(a, Job::forking(p, c, done, ForkStep::Between));
        Ok(())
    }

    /// The child is born.
    pub fn end_fork(
        &mut self,
        a: ActorNo,
        p: ProcNo,
        c: ProcNo,
        done: &[PageNo],
    ) -> Result<(), Refused>
        ensures { Tried (state_of self.old) (state_of self.new) (core.end_fork a p c done.now) result }
    {
        need(self.job.get(a).is_forking(p, c, done, ForkStep::Between))?;
        need(self.right.is_within(c, done))?;
        let sequence = sum(*self.sequence.get(p), 1)?;
        self.procs.be_born(c);
        self.sequence.put(p, sequence);
        self.structure.put(p, None);
        self.job.put(a, Job::idle());
        Ok(())
    }

    /// No frame is left: the child's mappings go at once, its entries one by one. Where it has none the fork ends.
    pub fn fail_fork(
        &mut self,
        a: ActorNo,
        p: ProcNo,
        c: ProcNo,
        done: &[PageNo],
        step: ForkStep,
        ends: bool,
    ) -> Result<(), Refused>
        ensures { Tried (state_of self.old) (state_of self.new) (core.fail_fork a p c done.now (step_of step) ends) result }
    {
        need(may_fail(&step))?;
        let table = after_failure(&step, *self.table.get(p));
        need(self.job.get(a).is_forking(p, c, done, step))?;
        need(self.prepared.get(a).is_none())?;
        need(are_gone(&self.entry, c, ends))?;
        let done = same_pages(self.alloc, done)?;
        let sequence = sum(*self.sequence.get(p), 1)?;
        self.procs.fail(c);
        self.right.clear(c);
        self.pages.put(c, 0);
        self.sequence.put(p, sequence);
        self.table.put(p, table);
        free_if(&mut self.structure, p, ends);
        self.job.put(a, Job::failing(p, c, done, ends));
        Ok(())
    }

    /// A reference of the failed child is given back. Where that was the last the fork ends.
    pub fn put_child(
        &mut self,
        a: ActorNo,
        p: ProcNo,
        c: ProcNo,
        done: &[PageNo],
        page: PageNo,
        entry: Entry,
        ends: bool,
    ) -> Result<(), Refused>
        ensures { Tried (state_of self.old) (state_of self.new) (core.put_child a p c done.now page entry ends) result }
    {
        need(self.job.get(a).is_forking(p, c, done, ForkStep::Failing))?;
        need(is_entry(self.entry.get(c, page), &entry))?;
        let row = self.entry.without(c, page)?;
        need(are_others_gone(&self.entry, c, page, &row, ends))?;
        give_back(
            &mut self.count,
            &mut self.mark,
            &mut self.own,
            entry.frame,
            1,
        );
        self.entry.put_at(c, page, None, row);
        free_if(&mut self.structure, p, ends);
        end_if(&mut self.job, a, ends);
        Ok(())
    }

    /// A fork by an actor of a failed process fails.
    pub fn fail_unborn(&mut self, a: ActorNo, p: ProcNo, c: ProcNo) -> Result<(), Refused>
        ensures { Tried (state_of self.old) (state_of self.new) (core.fail_unborn a p c) result }
    {
        let _a = a;
        need(self.procs.has_failed(p))?;
        need(self.procs.is_unborn(c))?;
        self.procs.fail(c);
        self.right.clear(c);
        self.pages.put(c, 0);
        Ok(())
    }
}
