//! The events of data and mirrors.
ghost use Rattle.gup_spec_events.specs.Event as core;
ghost use Rattle.gup_exec_core.specs.State.{state_of};
ghost use Rattle.gup_exec_core.specs.Tried.{Tried};

use crate::trial::Trial;
use gup_base::{ActorNo, FrameNo, HandleNo, MirrorNo, PageNo, ProcNo, WordNo};
use gup_exec_jobs::needs::{entry_to, has_frame, is_entry, is_frame, is_pinned, need, word_at};
use gup_exec_jobs::refused::Refused;
use gup_exec_parts::mirror::Mirror;

impl Trial {
    /// One word of the entry's frame is read.
    pub fn load(
        &mut self,
        a: ActorNo,
        p: ProcNo,
        page: PageNo,
        word: WordNo,
        f: FrameNo,
        value: u64,
    ) -> Result<(), Refused>
        ensures { Tried (state_of self.old) (state_of self.new) (core.load a p page word f value) result }
    {
        let _a = a;
        need(self.procs.is_born(p))?;
        need(has_frame(self.entry.get(p, page), f))?;
        need(value == self.word.get(f, word))?;
        Ok(())
    }

    /// One word is written through a writable entry.
    pub fn store(
        &mut self,
        a: ActorNo,
        p: ProcNo,
        page: PageNo,
        word: WordNo,
        f: FrameNo,
        value: u64,
    ) -> Result<(), Refused>
        ensures { Tried (state_of self.old) (state_of self.new) (core.store a p page word f value) result }
    {
        let _a = a;
        need(self.procs.is_born(p))?;
        need(is_entry(self.entry.get(p, page), &entry_to(f, true)))?;
        let object = self.object.get(p, page);
        let words = self.word.with(f, word, value)?;
        self.contents.write(object, word, value)?;
        self.word.put_at(f, word, value, words);
        Ok(())
    }

    /// One word goes from a pinned frame to a slot of the store.
    pub fn move_out(
        &mut self,
        a: ActorNo,
        h: HandleNo,
        index: u32,
        slot: u32,
        f: FrameNo,
        value: u64,
    ) -> Result<(), Refused>
        ensures { Tried (state_of self.old) (state_of self.new) (core.move_out a h index slot f value) result }
    {
        need(self.handle.is_held_by(h, a))?;
        need(is_pinned(self.pinned.get(h).as_slice(), index, f))?;
        need(slot < 4096)?;
        let word = word_at(index);
        need(value == self.word.get(f, word))?;
        self.store.set(a, slot, value)?;
        Ok(())
    }

    /// One word goes from a slot of the store to a pinned frame.
    pub fn move_in(
        &mut self,
        a: ActorNo,
        h: HandleNo,
        index: u32,
        slot: u32,
        f: FrameNo,
        value: u64,
    ) -> Result<(), Refused>
        ensures { Tried (state_of self.old) (state_of self.new) (core.move_in a h index slot f value) result }
    {
        need(self.handle.is_held_by(h, a))?;
        need(is_pinned(self.pinned.get(h).as_slice(), index, f))?;
        need(slot < 4096)?;
        let word = word_at(index);
        need(self.handle.may_write(h))?;
        need(value == self.store.get(a, slot))?;
        let object = self.handle.object_at(h, index);
        let words = self.word.with(f, word, value)?;
        self.contents.write(object, word, value)?;
        self.word.put_at(f, word, value, words);
        Ok(())
    }

    /// The mirror slot is emptied.
    pub fn empty_mirror(&mut self, a: ActorNo, m: MirrorNo) -> Result<(), Refused>
        ensures { Tried (state_of self.old) (state_of self.new) (core.empty_mirror a m) result }
    {
        let _a = a;
        need(self.mirrors.frame(m).is_some())?;
        self.mirrors.empty(m);
        Ok(())
    }

    /// The mirror slot is filled with the page.
    pub fn fill_mirror(
        &mut self,
        a: ActorNo,
        m: MirrorNo,
        p: ProcNo,
        page: PageNo,
        f: FrameNo,
        writable: bool,
    ) -> Result<(), Refused>
        ensures { Tried (state_of self.old) (state_of self.new) (core.fill_mirror a m p page f writable) result }
    {
        let _a = a;
        need(self.procs.is_born(p))?;
        need(self.is_unlocked(p))?;
        need(is_entry(self.entry.get(p, page), &entry_to(f, writable)))?;
        let object = self.object.get(p, page);
        self.mirrors.fill(m, f, Mirror::new(p, page, object))?;
        Ok(())
    }

    /// One word is read through the mirror slot.
    pub fn look(
        &mut self,
        a: ActorNo,
        m: MirrorNo,
        word: WordNo,
        f: FrameNo,
        value: u64,
    ) -> Result<(), Refused>
        ensures { Tried (state_of self.old) (state_of self.new) (core.look a m word f value) result }
    {
        let _a = a;
        need(is_frame(self.mirrors.frame(m), f))?;
        need(value == self.word.get(f, word))?;
        Ok(())
    }
}
