//! The events of pins, references and handles.
ghost use Rattle.gup_spec_events.specs.Event as core;
ghost use Rattle.gup_exec_core.specs.State.{state_of};
ghost use Rattle.gup_exec_core.specs.Tried.{Tried};

use crate::trial::Trial;
use gup_base::{ActorNo, Entry, FrameNo, HandleNo, PageNo, ProcNo};
use gup_exec_jobs::lists::{Frames, ends_with, same_frames};
use gup_exec_jobs::needs::{end_pin, entry_to, give_back, implies, is_entry, is_got, need, sum};
use gup_exec_jobs::refused::Refused;
use gup_exec_jobs::taken::{
    Taken, TakenList, are_alike, for_long, frames, has_one, is_untaken, objects, with_one_more,
    writes,
};

impl Trial {
    /// The process has pinned, from now on.
    pub fn raise_flag(&mut self, a: ActorNo, p: ProcNo) -> Result<(), Refused>
        ensures { Tried (state_of self.old) (state_of self.new) (core.raise_flag a p) result }
    {
        let _a = a;
        need(self.procs.is_born(p))?;
        self.has_pinned.put(p, true);
        Ok(())
    }

    /// A slow pin takes the page's marked frame.
    pub fn pin_page(
        &mut self,
        a: ActorNo,
        p: ProcNo,
        page: PageNo,
        entry: Entry,
        write: bool,
        long: bool,
    ) -> Result<(), Refused>
        ensures { Tried (state_of self.old) (state_of self.new) (core.pin_page a p page entry write long) result }
    {
        need(self.procs.is_born(p))?;
        need(self.is_unlocked(p))?;
        need(self.is_idle(a))?;
        need(*self.has_pinned.get(p))?;
        need(is_entry(self.entry.get(p, page), &entry))?;
        need(*self.mark.get(entry.frame))?;
        need(implies(write, entry.writable))?;
        need(self.may_stay(long, entry.frame))?;
        need(is_untaken(self.taken.get(a).as_slice(), page))?;
        need(are_alike(self.taken.get(a).as_slice(), write, long))?;
        let count = sum(*self.count.get(entry.frame), 1024)?;
        let object = self.object.get(p, page);
        let page = Taken::new(p, page, entry.frame, object, write, long);
        let taken = with_one_more(self.alloc, self.taken.get(a).as_slice(), page)?;
        self.count.put(entry.frame, count);
        self.taken.put(a, TakenList::new(taken));
        Ok(())
    }

    /// What the pin has taken is the handle's.
    pub fn make_handle(&mut self, a: ActorNo, h: HandleNo) -> Result<(), Refused>
        ensures { Tried (state_of self.old) (state_of self.new) (core.make_handle a h) result }
    {
        need(self.job.get(a).is_idle())?;
        need(self.handle.is_unmade(h))?;
        need(has_one(self.taken.get(a).as_slice()))?;
        let taken = self.taken.get(a).as_slice();
        let objects = objects(self.alloc, taken)?;
        let frames = frames(self.alloc, taken)?;
        let write = writes(taken);
        let long = for_long(taken);
        self.handle.hold(h, a, objects, write);
        self.pinned.put(h, Frames::new(frames));
        self.for_long.put(h, long);
        self.taken.put(a, TakenList::new(Vec::new(self.alloc)));
        Ok(())
    }

    /// The last page that the handle still has is given back; these are left.
    pub fn unpin_page(
        &mut self,
        a: ActorNo,
        h: HandleNo,
        f: FrameNo,
        left: &[FrameNo],
    ) -> Result<(), Refused>
        ensures { Tried (state_of self.old) (state_of self.new) (core.unpin_page a h f left.now) result }
    {
        need(self.handle.is_held_by(h, a))?;
        need(ends_with(self.pinned.get(h).as_slice(), left, f))?;
        let frames = same_frames(self.alloc, left)?;
        give_back(&mut self.count, &mut self.mark, &mut self.own, f, 1024);
        self.pinned.put(h, Frames::new(frames));
        end_pin(&mut self.handle, h, a, left);
        Ok(())
    }

    /// The handle is given to another actor.
    pub fn give_handle(&mut self, a: ActorNo, h: HandleNo, to: ActorNo) -> Result<(), Refused>
        ensures { Tried (state_of self.old) (state_of self.new) (core.give_handle a h to) result }
    {
        need(self.handle.is_held_by(h, a))?;
        self.handle.give(h, a, to);
        Ok(())
    }

    /// The actor holds the handle that was given to it.
    pub fn take_handle(&mut self, a: ActorNo, h: HandleNo) -> Result<(), Refused>
        ensures { Tried (state_of self.old) (state_of self.new) (core.take_handle a h) result }
    {
        need(self.handle.is_given_to(h, a))?;
        self.handle.take(h, a);
        Ok(())
    }

    /// A reference to the page's frame is got.
    pub fn get_reference(
        &mut self,
        a: ActorNo,
        p: ProcNo,
        page: PageNo,
        f: FrameNo,
        k: HandleNo,
        writable: bool,
    ) -> Result<(), Refused>
        ensures { Tried (state_of self.old) (state_of self.new) (core.get_reference a p page f k writable) result }
    {
        need(self.procs.is_born(p))?;
        need(self.is_unlocked(p))?;
        need(is_entry(self.entry.get(p, page), &entry_to(f, writable)))?;
        need(self.got.get(k).is_none())?;
        let count = sum(*self.count.get(f), 1)?;
        self.count.put(f, count);
        self.got.put(k, Some((a, f)));
        Ok(())
    }

    /// The reference is given back.
    pub fn put_reference(&mut self, a: ActorNo, f: FrameNo, k: HandleNo) -> Result<(), Refused>
        ensures { Tried (state_of self.old) (state_of self.new) (core.put_reference a f k) result }
    {
        need(is_got(*self.got.get(k), a, f))?;
        give_back(&mut self.count, &mut self.mark, &mut self.own, f, 1);
        self.got.put(k, None);
        Ok(())
    }
}
