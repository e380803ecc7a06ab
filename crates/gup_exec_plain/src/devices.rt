//! The events of devices and of mirrors.
ghost use Rattle.std.specs.Prelude.{◌≡◌, ◌<◌, ◌%◌, vec_len};
ghost use Rattle.gup_plain.specs.declared.event.PlainEvent.TheVariants as events;
ghost use Rattle.gup_exec_plain.specs.Parts.{state_of, HasAll, IsAsMany, Applies};

use crate::parts::Parts;
use crate::refusal::PlainRefusal;
use gup_base::{ActorNo, HandleNo, MirrorNo, PageNo, ProcNo, WordNo};
use gup_exec_parts::actor;
use gup_exec_parts::mirror::Mirror;

// How many slots a device's store has.
const SLOTS: u32 = 4096;

// The number within its page of the word with this index among those of a handle's pages.
fn word_in_page(index: u32) -> WordNo
    ensures { result ≡ index % 512 }
{
    WordNo::new(u64::from(index % 512)).unwrap()
}

impl Parts {
    /// A word of the handle's pages is copied to a slot.
    pub fn move_out(
        &mut self,
        actor: ActorNo,
        handle: HandleNo,
        index: u32,
        slot: u32,
        value: u64,
    ) -> Result<(), PlainRefusal>
        requires all { HasAll self.old }
        requires actor { actor < vec_len self.old.actors }
        ensures event { Applies (state_of self.old) (state_of self.new) (events.MoveOut actor handle index slot value) result }
        ensures many { IsAsMany self.old self.new }
    {
        let Some(object) = self.pins[handle.get() as usize].object(actor, index) else {
            return Err(PlainRefusal::Broken);
        };
        if slot >= SLOTS || self.contents.read(object, word_in_page(index)) != value {
            return Err(PlainRefusal::Broken);
        }
        let by = &mut self.actors[actor.get() as usize];
        actor::set_slot(&mut by.store, slot, value)?;
        Ok(())
    }

    // The word in a slot of the actor's store.
    fn slot_word(&self, actor: ActorNo, slot: u32) -> u64
        requires { actor < vec_len self.now.actors }
        ensures { result ≡ (state_of self.now).store actor slot }
    {
        let actor = &self.actors[actor.get() as usize];
        actor.store.get(&slot).copied().unwrap_or(0)
    }

    /// The word in a slot is copied to the handle's pages.
    pub fn move_in(
        &mut self,
        actor: ActorNo,
        handle: HandleNo,
        index: u32,
        slot: u32,
        value: u64,
    ) -> Result<(), PlainRefusal>
        requires all { HasAll self.old }
        requires actor { actor < vec_len self.old.actors }
        ensures event { Applies (state_of self.old) (state_of self.new) (events.MoveIn actor handle index slot value) result }
        ensures many { IsAsMany self.old self.new }
    {
        let pin = &self.pins[handle.get() as usize];
        let Some(object) = pin.object(actor, index) else {
            return Err(PlainRefusal::Broken);
        };
        if slot >= SLOTS || !pin.may_write() || self.slot_word(actor, slot) != value {
            return Err(PlainRefusal::Broken);
        }
        self.contents.write(object, word_in_page(index), value)?;
        Ok(())
    }

    /// The mirror slot notes the page and its object.
    pub fn mirror_fill(
        &mut self,
        mirror: MirrorNo,
        p: ProcNo,
        page: PageNo,
    ) -> Result<(), PlainRefusal>
        requires all { HasAll self.old }
        ensures event { Applies (state_of self.old) (state_of self.new) (events.MirrorFill 0 mirror p page) result }
        ensures many { IsAsMany self.old self.new }
    {
        let Some(found) = self.named(p, page) else {
            return Err(PlainRefusal::Broken);
        };
        self.mirrors[mirror.get() as usize] = Some(Mirror::new(p, page, found.object));
        Ok(())
    }

    /// The page that the mirror slot notes still names its object, and the word of that is `value`.
    pub fn look(&mut self, mirror: MirrorNo, word: WordNo, value: u64) -> Result<(), PlainRefusal>
        requires all { HasAll self.old }
        ensures event { Applies (state_of self.old) (state_of self.new) (events.Look 0 mirror word value) result }
        ensures many { IsAsMany self.old self.new }
    {
        let Some(noted) = self.mirrors[mirror.get() as usize] else {
            return Err(PlainRefusal::Broken);
        };
        let Some(found) = self.named(noted.proc(), noted.page()) else {
            return Err(PlainRefusal::Broken);
        };
        if found.object != noted.object() || self.contents.read(found.object, word) != value {
            return Err(PlainRefusal::Broken);
        }
        Ok(())
    }
}
