//! The plain model's state, in parts, and the events of pages.
ghost use Rattle.std.specs.Prelude.{◌≡◌, ◌↔◌, vec_len, false, Some, IsTrue, MatchOption, IfOk};
ghost use Rattle.gup_plain.specs.State.{IsNamed, born, plain_start};
ghost use Rattle.gup_plain.specs.declared.event.PlainEvent.TheVariants as events;
ghost use Rattle.gup_exec_plain.specs.Parts.{state_of, spaces_of, HasAll, IsMade, IsAsMany, Applies};
ghost use Rattle.gup_exec_parts.specs.Space.{seen};

use crate::refusal::PlainRefusal;
use gup_base::{NoMemory, PageNo, ProcNo, Rights, WordNo};
use gup_exec_parts::actor::{self, Actor};
use gup_exec_parts::contents::{Contents, made_after};
use gup_exec_parts::mirror::{self, Mirror};
use gup_exec_parts::pages::{self, Page};
use gup_exec_parts::pin::{self, Pin};
use gup_exec_parts::space::{self, Space};
use std::alloc::Global;

/// All that the plain state has.
#[derive(Drop)]
pub struct Parts {
    pub processes: u8,
    pub contents: Contents,
    pub spaces: Vec<Space>,
    pub pins: Vec<Pin>,
    pub actors: Vec<Actor>,
    pub mirrors: Vec<Option<Mirror>>,
    pub alloc: Global,
}

impl Parts {
    /// The start: nothing is there but the numbers.
    pub fn new(alloc: Global, processes: u8, actors: u8) -> Result<Parts, NoMemory>
        ensures all { IfOk result HasAll }
        ensures state { IfOk result (λ parts. state_of parts ≡ plain_start (λ _. false)) }
        ensures processes { IfOk result (λ parts. parts.processes ≡ processes) }
        ensures actors { IfOk result (λ parts. vec_len parts.actors ≡ actors) }
    {
        Ok(Parts {
            processes,
            contents: Contents::new(alloc),
            spaces: space::spaces(alloc)?,
            pins: pin::pins(alloc)?,
            actors: actor::idle(alloc, actors)?,
            mirrors: mirror::mirrors(alloc)?,
            alloc,
        })
    }

    /// The process.
    pub fn space(&self, p: ProcNo) -> &Space
        requires { HasAll self.now }
        ensures { seen result.now ≡ spaces_of self.now p }
    {
        &self.spaces[p.get() as usize]
    }

    /// The page, where it is named: mapped by a process that is born.
    pub fn named(&self, p: ProcNo, page: PageNo) -> Option<Page>
        requires { HasAll self.now }
        ensures { MatchOption result (IsNamed (state_of self.now) p page → ⊥)
            (λ found. ((state_of self.now).birth p ≡ born) × ((state_of self.now).right p page ≡ Some found.rights)
            × ((state_of self.now).object p page ≡ found.object)) }
    {
        let space = &self.spaces[p.get() as usize];
        if space.is_born() {
            space.pages.get(&page).copied()
        } else {
            None
        }
    }

    /// Whether the page is named.
    pub fn is_named(&self, p: ProcNo, page: PageNo) -> bool
        requires { HasAll self.now }
        ensures { IsTrue result ↔ IsNamed (state_of self.now) p page }
    {
        self.named(p, page).is_some()
    }

    /// The page is named, and the word of its object is `value`.
    pub fn load(
        &mut self,
        p: ProcNo,
        page: PageNo,
        word: WordNo,
        value: u64,
    ) -> Result<(), PlainRefusal>
        requires all { HasAll self.old }
        ensures event { Applies (state_of self.old) (state_of self.new) (events.Load 0 p page word value) result }
        ensures many { IsAsMany self.old self.new }
    {
        match self.named(p, page) {
            Some(found) if self.contents.read(found.object, word) == value => Ok(()),
            _ => Err(PlainRefusal::Broken),
        }
    }

    /// The word of the page's object becomes `value`.
    pub fn store(
        &mut self,
        p: ProcNo,
        page: PageNo,
        word: WordNo,
        value: u64,
    ) -> Result<(), PlainRefusal>
        requires all { HasAll self.old }
        ensures event { Applies (state_of self.old) (state_of self.new) (events.Store 0 p page word value) result }
        ensures many { IsAsMany self.old self.new }
    {
        let Some(found) = self.named(p, page) else {
            return Err(PlainRefusal::Broken);
        };
        if found.rights != Rights::RW {
            return Err(PlainRefusal::Broken);
        }
        self.contents.write(found.object, word, value)?;
        Ok(())
    }

    /// The page names no object any more.
    pub fn unmap(&mut self, p: ProcNo, page: PageNo) -> Result<(), PlainRefusal>
        requires all { HasAll self.old }
        ensures event { Applies (state_of self.old) (state_of self.new) (events.Unmap 0 p page) result }
        ensures many { IsAsMany self.old self.new }
    {
        if !self.is_named(p, page) {
            return Err(PlainRefusal::Broken);
        }
        let space = &mut self.spaces[p.get() as usize];
        pages::remove(&mut space.pages, page);
        Ok(())
    }

    /// The page names a fresh object.
    pub fn discard(&mut self, p: ProcNo, page: PageNo) -> Result<(), PlainRefusal>
        requires all { HasAll self.old }
        requires made { IsMade (state_of self.old) }
        ensures event { Applies (state_of self.old) (state_of self.new) (events.Discard 0 p page) result }
        ensures many { IsAsMany self.old self.new }
    {
        if !self.is_named(p, page) {
            return Err(PlainRefusal::Broken);
        }
        let object = self.contents.made;
        self.contents.made = made_after(object, 1)?;
        let space = &mut self.spaces[p.get() as usize];
        pages::set_object(&mut space.pages, page, object);
        Ok(())
    }

    /// The pages get fresh objects and these rights.
    pub fn map(
        &mut self,
        p: ProcNo,
        page: PageNo,
        n: u16,
        rights: Rights,
    ) -> Result<(), PlainRefusal>
        requires all { HasAll self.old }
        requires made { IsMade (state_of self.old) }
        ensures event { Applies (state_of self.old) (state_of self.new) (events.Map 0 p page n rights) result }
        ensures many { IsAsMany self.old self.new }
    {
        if !self.space(p).can_map(page, n) {
            return Err(PlainRefusal::Broken);
        }
        let object = self.contents.made;
        let made = made_after(object, u64::from(n))?;
        let space = &mut self.spaces[p.get() as usize];
        pages::map(&mut space.pages, page, n, rights, object)?;
        self.contents.made = made;
        Ok(())
    }

    /// The pages have these rights.
    pub fn protect(
        &mut self,
        p: ProcNo,
        page: PageNo,
        n: u16,
        rights: Rights,
    ) -> Result<(), PlainRefusal>
        requires all { HasAll self.old }
        requires made { IsMade (state_of self.old) }
        ensures event { Applies (state_of self.old) (state_of self.new) (events.Protect 0 p page n rights) result }
        ensures many { IsAsMany self.old self.new }
    {
        if !self.space(p).can_protect(page, n) {
            return Err(PlainRefusal::Broken);
        }
        let space = &mut self.spaces[p.get() as usize];
        pages::protect(&mut space.pages, page, n, rights);
        Ok(())
    }
}
