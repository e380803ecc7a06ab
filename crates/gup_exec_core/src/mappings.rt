//! The events of mappings.
ghost use Rattle.gup_spec_events.specs.Event as core;
ghost use Rattle.gup_exec_core.specs.State.{state_of};
ghost use Rattle.gup_exec_core.specs.Tried.{Tried};
ghost use Rattle.std.specs.Prelude.{◌≡◌, ℕ, ◌+◌, ◌<◌, ◌≤◌, ◌^◌, ◌↔◌, None, IsTrue};
ghost use Rattle.gup_exec_rows.specs.Grid.{found};
ghost use Rattle.gup_exec_core.specs.Protected.{MayProtect, CanProtect};

use crate::trial::Trial;
use gup_base::{ActorNo, Entry, FrameNo, PageNo, ProcNo, Rights};
use gup_exec_jobs::needs::{
    clear_one, entry_to, frame_of, is_entry, is_same, keeps_right, need, sum,
};
use gup_exec_jobs::refused::Refused;
use gup_exec_parts::space::PAGE_NUMBERS;
use gup_exec_rows::clearing::clear;
use gup_exec_rows::grid::nth;

impl Trial {
    // Whether none of the pages has rights.
    fn are_free(&self, p: ProcNo, page: PageNo, n: u16) -> bool
        requires { page + n ≤ 2 ^ 35 }
        ensures { IsTrue result ↔ ((k : ℕ) → k < n → found self.now.right p (page + k) ≡ None) }
    {
        for k in 0..n {
            if self.right.get(p, nth(page, k)).is_some() {
                return false;
            }
        }
        true
    }

    // Whether the page can get these rights.
    #[tactic(auto, unfolding(crate::specs::Protected::MayProtect))]
    fn is_protectable(&self, p: ProcNo, page: PageNo, rights: Rights) -> bool
        ensures { IsTrue result ↔ MayProtect (state_of self.now) p page rights }
    {
        if self.right.get(p, page).is_none() {
            return false;
        }
        if !keeps_right(self.entry.get(p, page), rights) {
            return false;
        }
        self.is_unmirrored(p, page)
    }

    // Whether each of the pages can get these rights.
    fn are_protectable(&self, p: ProcNo, page: PageNo, n: u16, rights: Rights) -> bool
        requires { page + n ≤ 2 ^ 35 }
        ensures { IsTrue result ↔ ((k : ℕ) → k < n → MayProtect (state_of self.now) p (page + k) rights) }
    {
        for k in 0..n {
            if !self.is_protectable(p, nth(page, k), rights) {
                return false;
            }
        }
        true
    }

    // Whether the pages can get these rights.
    fn can_protect(&self, p: ProcNo, page: PageNo, n: u16, rights: Rights) -> bool
        requires { page + n ≤ 2 ^ 35 }
        ensures { IsTrue result ↔ CanProtect (state_of self.now) p page n rights }
    {
        self.are_protectable(p, page, n, rights)
    }

    /// The pages get their rights and a fresh object each, untouched.
    #[tactic(auto, unfolding(gup_plain::specs::Event::page_numbers))]
    pub fn map_pages(
        &mut self,
        a: ActorNo,
        p: ProcNo,
        page: PageNo,
        n: u16,
        rights: Rights,
    ) -> Result<(), Refused>
        ensures { Tried (state_of self.old) (state_of self.new) (core.map_pages a p page n rights) result }
    {
        let _a = a;
        need(self.procs.is_born(p))?;
        need(self.is_unlocked(p))?;
        need(page.get() + u64::from(n) <= PAGE_NUMBERS)?;
        need(self.are_free(p, page, n))?;
        let pages = sum(*self.pages.get(p), u64::from(n))?;
        need(pages <= 1024)?;
        let objects = self.contents.made;
        let made = sum(objects, u64::from(n))?;
        let mapped = self.right.with_range(p, page, n, rights)?;
        let names = self.object.with_range(p, page, n, objects)?;
        clear(&mut self.contents, objects, u64::from(n));
        self.contents.made = made;
        self.right.put(p, mapped);
        self.object.put(p, names);
        self.pages.put(p, pages);
        Ok(())
    }

    /// The entry becomes read-only.
    pub fn lower_entry(
        &mut self,
        a: ActorNo,
        p: ProcNo,
        page: PageNo,
        f: FrameNo,
    ) -> Result<(), Refused>
        ensures { Tried (state_of self.old) (state_of self.new) (core.lower_entry a p page f) result }
    {
        let _a = a;
        need(self.procs.is_born(p))?;
        need(self.is_unlocked(p))?;
        need(is_entry(self.entry.get(p, page), &entry_to(f, true)))?;
        need(self.is_unmirrored(p, page))?;
        let row = self.entry.with(p, page, entry_to(f, false))?;
        self.entry.put_at(p, page, Some(entry_to(f, false)), row);
        Ok(())
    }

    /// The pages get other rights. Pages past the last number are answered with `NoMemory`.
    pub fn protect_pages(
        &mut self,
        a: ActorNo,
        p: ProcNo,
        page: PageNo,
        n: u16,
        rights: Rights,
    ) -> Result<(), Refused>
        ensures { Tried (state_of self.old) (state_of self.new) (core.protect_pages a p page n rights) result }
    {
        let _a = a;
        need(self.procs.is_born(p))?;
        need(self.is_unlocked(p))?;
        if page.get() + u64::from(n) > PAGE_NUMBERS {
            return Err(Refused::NoMemory);
        }
        need(self.can_protect(p, page, n, rights))?;
        let row = self.right.with_range(p, page, n, rights)?;
        self.right.put(p, row);
        Ok(())
    }

    /// The page loses its entry, if it has one, and its mapping.
    pub fn drop_entry(
        &mut self,
        a: ActorNo,
        p: ProcNo,
        page: PageNo,
        was: Option<Entry>,
    ) -> Result<(), Refused>
        ensures { Tried (state_of self.old) (state_of self.new) (core.drop_entry a p page was) result }
    {
        need(self.procs.is_born(p))?;
        need(self.is_unlocked(p))?;
        need(self.job.get(a).is_idle())?;
        need(self.right.get(p, page).is_some())?;
        need(is_same(self.entry.get(p, page), &was))?;
        need(self.owed.get(a).is_none())?;
        need(self.is_unmirrored(p, page))?;
        let row = self.entry.without(p, page)?;
        let rights = self.right.without(p, page)?;
        let pages = self.pages.get(p).saturating_sub(1);
        self.entry.put_at(p, page, None, row);
        self.right.put_at(p, page, None, rights);
        self.pages.put(p, pages);
        self.owed.put(a, frame_of(&was));
        Ok(())
    }

    /// The page loses its entry, if it has one, and its contents: it names a fresh object.
    pub fn discard_entry(
        &mut self,
        a: ActorNo,
        p: ProcNo,
        page: PageNo,
        was: Option<Entry>,
    ) -> Result<(), Refused>
        ensures { Tried (state_of self.old) (state_of self.new) (core.discard_entry a p page was) result }
    {
        need(self.procs.is_born(p))?;
        need(self.is_unlocked(p))?;
        need(self.job.get(a).is_idle())?;
        need(self.right.get(p, page).is_some())?;
        need(is_same(self.entry.get(p, page), &was))?;
        need(self.owed.get(a).is_none())?;
        need(self.is_unmirrored(p, page))?;
        let object = self.contents.made;
        let made = sum(object, 1)?;
        let row = self.entry.without(p, page)?;
        let names = self.object.with(p, page, object)?;
        clear_one(&mut self.contents, object);
        self.contents.made = made;
        self.entry.put_at(p, page, None, row);
        self.object.put_at(p, page, object, names);
        self.owed.put(a, frame_of(&was));
        Ok(())
    }
}
