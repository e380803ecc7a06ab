//! The events of pins and of their handles.
ghost use Rattle.std.specs.Prelude.{◌≡◌, ◌<◌, vec_len, MatchOption};
ghost use Rattle.gup_plain.specs.Event.{MayPin};
ghost use Rattle.gup_plain.specs.State.{born};
ghost use Rattle.gup_plain.specs.declared.event.PlainEvent.TheVariants as events;
ghost use Rattle.gup_exec_plain.specs.Parts.{state_of, HasAll, IsAsMany, Applies};

use crate::parts::Parts;
use crate::refusal::PlainRefusal;
use gup_base::{ActorNo, HandleNo, PageNo, ProcNo, Rights};
use gup_exec_parts::taken;

impl Parts {
    // The object of a page that may be pinned so.
    fn pinnable(&self, p: ProcNo, page: PageNo, write: bool) -> Option<u64>
        requires { HasAll self.now }
        ensures { MatchOption result
            (((state_of self.now).birth p ≡ born) × MayPin (state_of self.now) p page write → ⊥)
            (λ object. ((state_of self.now).birth p ≡ born) × MayPin (state_of self.now) p page write × (object ≡ (state_of self.now).object p page)) }
    {
        let Some(found) = self.named(p, page) else {
            return None;
        };
        if write && found.rights != Rights::RW {
            return None;
        }
        Some(found.object)
    }

    /// The actor's running pin takes the page.
    pub fn pin_try(
        &mut self,
        actor: ActorNo,
        p: ProcNo,
        page: PageNo,
        write: bool,
    ) -> Result<(), PlainRefusal>
        requires all { HasAll self.old }
        requires actor { actor < vec_len self.old.actors }
        ensures event { Applies (state_of self.old) (state_of self.new) (events.PinTry actor p page write) result }
        ensures many { IsAsMany self.old self.new }
    {
        let Some(object) = self.pinnable(p, page, write) else {
            return Err(PlainRefusal::Broken);
        };
        let by = &mut self.actors[actor.get() as usize];
        if taken::has_page(&by.taken, page) {
            return Err(PlainRefusal::Broken);
        }
        taken::push(&mut by.taken, page, object, write)?;
        Ok(())
    }

    /// The actor's running pin lets the page go.
    pub fn pin_drop(&mut self, actor: ActorNo, page: PageNo) -> Result<(), PlainRefusal>
        requires all { HasAll self.old }
        requires actor { actor < vec_len self.old.actors }
        ensures event { Applies (state_of self.old) (state_of self.new) (events.PinDrop actor page) result }
        ensures many { IsAsMany self.old self.new }
    {
        let by = &mut self.actors[actor.get() as usize];
        if !taken::has_page(&by.taken, page) {
            return Err(PlainRefusal::Broken);
        }
        taken::drop_page(&mut by.taken, page);
        Ok(())
    }

    /// The pages that the running pin has taken become the handle's.
    pub fn pin_ok(&mut self, actor: ActorNo, handle: HandleNo) -> Result<(), PlainRefusal>
        requires all { HasAll self.old }
        requires actor { actor < vec_len self.old.actors }
        ensures event { Applies (state_of self.old) (state_of self.new) (events.PinOk actor handle) result }
        ensures many { IsAsMany self.old self.new }
    {
        let pin = &mut self.pins[handle.get() as usize];
        if !pin.is_unmade() {
            return Err(PlainRefusal::Broken);
        }
        let by = &mut self.actors[actor.get() as usize];
        let Some(write) = taken::agreed(&by.taken) else {
            return Err(PlainRefusal::Broken);
        };
        let objects = taken::objects(self.alloc, &by.taken)?;
        pin.hold(actor, objects, write);
        by.taken.clear();
        Ok(())
    }

    /// The handle is gone.
    pub fn unpin(&mut self, actor: ActorNo, handle: HandleNo) -> Result<(), PlainRefusal>
        requires all { HasAll self.old }
        ensures event { Applies (state_of self.old) (state_of self.new) (events.Unpin actor handle) result }
        ensures many { IsAsMany self.old self.new }
    {
        let pin = &mut self.pins[handle.get() as usize];
        if pin.unpin(actor) {
            Ok(())
        } else {
            Err(PlainRefusal::Broken)
        }
    }

    /// The handle is given to another actor.
    pub fn give(
        &mut self,
        actor: ActorNo,
        handle: HandleNo,
        to: ActorNo,
    ) -> Result<(), PlainRefusal>
        requires all { HasAll self.old }
        ensures event { Applies (state_of self.old) (state_of self.new) (events.Give actor handle to) result }
        ensures many { IsAsMany self.old self.new }
    {
        let pin = &mut self.pins[handle.get() as usize];
        if pin.give(actor, to) {
            Ok(())
        } else {
            Err(PlainRefusal::Broken)
        }
    }

    /// The actor holds the handle that was given to it.
    pub fn take(&mut self, actor: ActorNo, handle: HandleNo) -> Result<(), PlainRefusal>
        requires all { HasAll self.old }
        ensures event { Applies (state_of self.old) (state_of self.new) (events.Take actor handle) result }
        ensures many { IsAsMany self.old self.new }
    {
        let pin = &mut self.pins[handle.get() as usize];
        if pin.take(actor) {
            Ok(())
        } else {
            Err(PlainRefusal::Broken)
        }
    }
}
