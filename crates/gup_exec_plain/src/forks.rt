//! The events of a process's coming into being.
ghost use Rattle.std.specs.Prelude.{◌≡◌, ℕ, MatchOption};
ghost use Rattle.gup_plain.specs.Event.{AreForking};
ghost use Rattle.gup_plain.specs.Put.{put};
ghost use Rattle.gup_plain.specs.State.{unborn, born};
ghost use Rattle.gup_plain.specs.declared.event.PlainEvent.TheVariants as events;
ghost use Rattle.gup_exec_plain.specs.Parts.{state_of, HasAll, IsMade, IsAsMany, Applies};

use crate::parts::Parts;
use crate::refusal::PlainRefusal;
use gup_base::{PageNo, ProcNo, WordNo};
use gup_exec_parts::contents::made_after;
use gup_exec_parts::pages;
use gup_exec_parts::space::{Birth, PAGE_NUMBERS};

impl Parts {
    /// The process, which is unborn, is born.
    pub fn birth(&mut self, p: ProcNo)
        requires all { HasAll self.old }
        requires unborn { (state_of self.old).birth p ≡ unborn }
        ensures state { state_of self.new ≡ record (state_of self.old) { birth = put p born (state_of self.old).birth } }
        ensures many { IsAsMany self.old self.new }
    {
        let space = &mut self.spaces[p.get() as usize];
        space.birth = Birth::Born;
    }

    /// The child begins to grow.
    pub fn fork_begin(&mut self, parent: ProcNo, child: ProcNo) -> Result<(), PlainRefusal>
        requires all { HasAll self.old }
        requires made { IsMade (state_of self.old) }
        ensures event { Applies (state_of self.old) (state_of self.new) (events.ForkBegin parent child) result }
        ensures many { IsAsMany self.old self.new }
    {
        if !self.space(parent).is_born() || !self.space(child).is_unborn() {
            return Err(PlainRefusal::Broken);
        }
        let objects = self.contents.made;
        let made = made_after(objects, PAGE_NUMBERS)?;
        let pages = pages::with_own_objects(self.alloc, &self.space(parent).pages, objects)?;
        self.contents.made = made;
        let space = &mut self.spaces[child.get() as usize];
        space.grow(parent, pages);
        Ok(())
    }

    // The objects of the page of parent and child, where it is being forked.
    fn forking(&self, parent: ProcNo, child: ProcNo, page: PageNo) -> Option<(u64, u64)>
        requires { HasAll self.now }
        ensures { MatchOption result (AreForking (state_of self.now) parent child page → ⊥)
            (λ objects. AreForking (state_of self.now) parent child page
            × ((state_of self.now).object parent page ≡ objects.0)
            × ((state_of self.now).object child page ≡ objects.1)) }
    {
        if !self.space(child).grows_from(parent) {
            return None;
        }
        let Some(from) = self.space(parent).pages.get(&page) else {
            return None;
        };
        let Some(to) = self.space(child).pages.get(&page) else {
            return None;
        };
        Some((from.object, to.object))
    }

    /// All words of the page are copied at once.
    pub fn fork_page(
        &mut self,
        parent: ProcNo,
        child: ProcNo,
        page: PageNo,
    ) -> Result<(), PlainRefusal>
        requires all { HasAll self.old }
        ensures event { Applies (state_of self.old) (state_of self.new) (events.ForkPage parent child page) result }
        ensures many { IsAsMany self.old self.new }
    {
        let Some((from, to)) = self.forking(parent, child, page) else {
            return Err(PlainRefusal::Broken);
        };
        if !self.space(child).has_copied_none(page) {
            return Err(PlainRefusal::Broken);
        }
        let alloc = self.alloc;
        let space = &mut self.spaces[child.get() as usize];
        space.touch(alloc, page)?;
        self.contents.copy(from, to)?;
        space.copy_page(page);
        Ok(())
    }

    /// One word of the page is copied.
    pub fn fork_word(
        &mut self,
        parent: ProcNo,
        child: ProcNo,
        page: PageNo,
        word: WordNo,
    ) -> Result<(), PlainRefusal>
        requires all { HasAll self.old }
        ensures event { Applies (state_of self.old) (state_of self.new) (events.ForkWord parent child page word) result }
        ensures many { IsAsMany self.old self.new }
    {
        let Some((from, to)) = self.forking(parent, child, page) else {
            return Err(PlainRefusal::Broken);
        };
        if self.space(child).has_copied(page, word) {
            return Err(PlainRefusal::Broken);
        }
        let value = self.contents.read(from, word);
        let alloc = self.alloc;
        let space = &mut self.spaces[child.get() as usize];
        space.touch(alloc, page)?;
        self.contents.write(to, word, value)?;
        space.copy_word(page, word);
        Ok(())
    }

    /// The child is born.
    pub fn fork_end(&mut self, parent: ProcNo, child: ProcNo) -> Result<(), PlainRefusal>
        requires all { HasAll self.old }
        ensures event { Applies (state_of self.old) (state_of self.new) (events.ForkEnd parent child) result }
        ensures many { IsAsMany self.old self.new }
    {
        let space = self.space(child);
        if !space.grows_from(parent) {
            return Err(PlainRefusal::Broken);
        }
        if !space.has_copied_all() {
            return Err(PlainRefusal::Broken);
        }
        let space = &mut self.spaces[child.get() as usize];
        space.be_born();
        Ok(())
    }

    /// The child has failed.
    pub fn fork_fail(&mut self, child: ProcNo) -> Result<(), PlainRefusal>
        requires all { HasAll self.old }
        ensures event { Applies (state_of self.old) (state_of self.new) (events.ForkFail child) result }
        ensures many { IsAsMany self.old self.new }
    {
        if !self.space(child).may_fail() {
            return Err(PlainRefusal::Broken);
        }
        let space = &mut self.spaces[child.get() as usize];
        space.fail();
        Ok(())
    }
}
