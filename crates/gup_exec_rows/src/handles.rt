//! Handles, each the name of one pin.
ghost use Rattle.std.specs.Prelude.{◌≡◌, ℕ, ◌↔◌, IsTrue, IfOk, List, vec_len};
ghost use Rattle.gup_plain.specs.Event.{IsHeldBy, IsGivenTo, given_to, held_by, may_write, object_at};
ghost use Rattle.gup_plain.specs.Put.{put};
ghost use Rattle.gup_plain.specs.State.{Handle, unmade, held, gone};

use gup_base::{ActorNo, HandleNo, NoMemory};
use gup_exec_parts::pin::{self, Pin};
use std::alloc::Global;

/// The handles that a number can name.
#[derive(Drop)]
pub struct Handles {
    pins: Vec<Pin>,
    ghost sized: { vec_len pins ≡ 1024 },
}

impl Handles {
    ghost use Rattle.gup_exec_rows.specs.Handles.{handles_in};

    /// No handle is made.
    pub fn new(alloc: Global) -> Result<Handles, NoMemory>
        ensures { IfOk result (λ handles. handles_in handles ≡ (λ _. unmade)) }
    {
        Ok(Handles {
            pins: pin::pins(alloc)?,
        })
    }

    // The handle.
    #[tactic(auto, unfolding(crate::specs::Handles::handles_in))]
    fn pin(&self, h: HandleNo) -> &Pin
        ensures { result.now ≡ handles_in self.now h }
    {
        &self.pins[h.get() as usize]
    }

    /// Whether the handle isn't made.
    pub fn is_unmade(&self, h: HandleNo) -> bool
        ensures { IsTrue result ↔ (handles_in self.now h ≡ unmade) }
    {
        self.pin(h).is_unmade()
    }

    /// Whether the actor holds the handle.
    pub fn is_held_by(&self, h: HandleNo, a: ActorNo) -> bool
        ensures { IsTrue result ↔ IsHeldBy (handles_in self.now h) a }
    {
        self.pin(h).is_held_by(a)
    }

    /// Whether the handle is given to the actor.
    pub fn is_given_to(&self, h: HandleNo, a: ActorNo) -> bool
        ensures { IsTrue result ↔ IsGivenTo (handles_in self.now h) a }
    {
        self.pin(h).is_given_to(a)
    }

    /// Whether the handle's pin is one to write.
    pub fn may_write(&self, h: HandleNo) -> bool
        ensures { result ≡ may_write (handles_in self.now h) }
    {
        self.pin(h).may_write()
    }

    /// The object of the word with this index.
    pub fn object_at(&self, h: HandleNo, index: u32) -> u64
        ensures { result ≡ object_at (handles_in self.now h) index }
    {
        self.pin(h).object_at(index)
    }

    /// Makes the handle: the actor holds these objects by it.
    pub fn hold(&mut self, h: HandleNo, a: ActorNo, objects: Vec<u64>, write: bool)
        ensures { handles_in self.new ≡ put h (held a objects.items write) (handles_in self.old) }
    {
        let pin = &mut self.pins[h.get() as usize];
        pin.hold(a, objects, write);
    }

    /// The handle, which the actor holds, is gone.
    pub fn let_go(&mut self, h: HandleNo, a: ActorNo)
        requires { IsHeldBy (handles_in self.old h) a }
        ensures { handles_in self.new ≡ put h gone (handles_in self.old) }
    {
        let pin = &mut self.pins[h.get() as usize];
        let _held = pin.unpin(a);
    }

    /// The handle, which the actor holds, is given to another.
    pub fn give(&mut self, h: HandleNo, a: ActorNo, to: ActorNo)
        requires { IsHeldBy (handles_in self.old h) a }
        ensures { handles_in self.new ≡ put h (given_to (handles_in self.old h) to) (handles_in self.old) }
    {
        let pin = &mut self.pins[h.get() as usize];
        let _held = pin.give(a, to);
    }

    /// The actor takes the handle, which was given to it.
    pub fn take(&mut self, h: HandleNo, a: ActorNo)
        requires { IsGivenTo (handles_in self.old h) a }
        ensures { handles_in self.new ≡ put h (held_by (handles_in self.old h) a) (handles_in self.old) }
    {
        let pin = &mut self.pins[h.get() as usize];
        let _given = pin.take(a);
    }
}
