//! Handles: each is the name of one pin.
ghost use Rattle.std.specs.Prelude.{◌≡◌, ◌≢◌, true, false, ◌↔◌, length, IsTrue, IsSome, IfSome, MatchOption, MatchBool, IfOk, vec_len};
ghost use Rattle.gup_plain.specs.State.{Handle, unmade, held, gone, objects_of};
ghost use Rattle.gup_plain.specs.Event.{IsHeldBy, IsGivenTo, given_to, held_by, may_write, object_at};
ghost use Rattle.gup_exec_parts.specs.Pin.{handle_of, HasWord};
ghost use Rattle.gup_exec_parts.specs.Tables.{at_place};

use gup_base::{ActorNo, NoMemory};
use std::alloc::Global;
use std::marker::Model;

// How many handles a number can name.
const HANDLES: u16 = 1024;

#[derive(Clone, Copy, Debug)]
enum Stage {
    Unmade,
    Held(ActorNo),
    Given(ActorNo),
    Gone,
}

/// A handle, with the objects that it pins and whether it may write them.
#[derive(Debug, Drop)]
pub struct Pin {
    stage: Stage,
    objects: Vec<u64>,
    write: bool,
}

impl Model for Pin {
    ghost use Rattle.gup_plain.specs.State.{Handle};

    ghost Value = { Handle };

    ghost use Rattle.gup_exec_parts.specs.Pin.{handle_of};

    ghost view = { λ p. handle_of p.stage p.objects.items p.write };
}

impl Pin {
    /// A handle that isn't made.
    pub fn unmade(alloc: Global) -> Pin
        ensures { result ≡ unmade }
    {
        Pin {
            stage: Stage::Unmade,
            objects: Vec::new(alloc),
            write: false,
        }
    }

    /// Whether the handle isn't made.
    pub fn is_unmade(&self) -> bool
        ensures { IsTrue result ↔ (self.now ≡ unmade) }
    {
        match self.stage {
            Stage::Unmade => true,
            Stage::Held(_) | Stage::Given(_) | Stage::Gone => false,
        }
    }

    /// Makes the handle: the actor holds these objects by it.
    pub fn hold(&mut self, actor: ActorNo, objects: Vec<u64>, write: bool)
        ensures { self.new ≡ held actor objects.items write }
    {
        self.stage = Stage::Held(actor);
        self.objects = objects;
        self.write = write;
    }

    /// Whether the actor holds the handle.
    pub fn is_held_by(&self, actor: ActorNo) -> bool
        ensures { IsTrue result ↔ IsHeldBy self.now actor }
    {
        match self.stage {
            Stage::Held(by) => by == actor,
            Stage::Unmade | Stage::Given(_) | Stage::Gone => false,
        }
    }

    /// Whether the handle is given to the actor.
    pub fn is_given_to(&self, actor: ActorNo) -> bool
        ensures { IsTrue result ↔ IsGivenTo self.now actor }
    {
        match self.stage {
            Stage::Given(to) => to == actor,
            Stage::Unmade | Stage::Held(_) | Stage::Gone => false,
        }
    }

    /// Lets the handle go, if the actor holds it, and says whether it does.
    pub fn unpin(&mut self, actor: ActorNo) -> bool
        ensures { MatchBool result (IsHeldBy self.old actor × (self.new ≡ gone)) ((IsHeldBy self.old actor → ⊥) × (self.new ≡ self.old)) }
    {
        let holds = self.is_held_by(actor);
        if holds {
            self.stage = Stage::Gone;
            self.objects.clear();
        }
        holds
    }

    /// Gives the handle to another actor, if this one holds it, and says whether it does.
    pub fn give(&mut self, actor: ActorNo, to: ActorNo) -> bool
        ensures { MatchBool result (IsHeldBy self.old actor × (self.new ≡ given_to self.old to)) ((IsHeldBy self.old actor → ⊥) × (self.new ≡ self.old)) }
    {
        let holds = self.is_held_by(actor);
        if holds {
            self.stage = Stage::Given(to);
        }
        holds
    }

    /// Takes the handle, if it was given to the actor, and says whether it was.
    pub fn take(&mut self, actor: ActorNo) -> bool
        ensures { MatchBool result (IsGivenTo self.old actor × (self.new ≡ held_by self.old actor)) ((IsGivenTo self.old actor → ⊥) × (self.new ≡ self.old)) }
    {
        let given = self.is_given_to(actor);
        if given {
            self.stage = Stage::Held(actor);
        }
        given
    }

    /// The object of the word with this index among those of the handle's pages, where the actor holds the handle
    /// and there is such a word.
    pub fn object(&self, actor: ActorNo, index: u32) -> Option<u64>
        ensures { MatchOption result (HasWord self.now actor index → ⊥) (λ object. HasWord self.now actor index × (object ≡ object_at self.now index)) }
    {
        if !self.is_held_by(actor) {
            return None;
        }
        self.objects.get(index as usize / 512).copied()
    }

    /// The object of the word with this index among those of the handle's pages, and 0 where there is no such word.
    pub fn object_at(&self, index: u32) -> u64
        ensures { result ≡ object_at self.now index }
    {
        match self.stage {
            Stage::Held(_) | Stage::Given(_) => match self.objects.get(index as usize / 512) {
                Some(object) => *object,
                None => 0,
            },
            Stage::Unmade | Stage::Gone => 0,
        }
    }

    /// How many pages the handle pins: none where it isn't made, or is gone.
    pub fn pages(&self) -> usize
        ensures { result ≡ length (objects_of self.now) }
    {
        match self.stage {
            Stage::Held(_) | Stage::Given(_) => self.objects.len(),
            Stage::Unmade | Stage::Gone => 0,
        }
    }

    /// Whether the handle's pin is one to write.
    pub fn may_write(&self) -> bool
        ensures { result ≡ may_write self.now }
    {
        match self.stage {
            Stage::Held(_) | Stage::Given(_) => self.write,
            Stage::Unmade | Stage::Gone => false,
        }
    }
}

/// As many handles, not made, as a number can name.
pub fn pins(alloc: Global) -> Result<Vec<Pin>, NoMemory>
    ensures len { IfOk result (λ pins. vec_len pins ≡ 1024) }
    ensures unmade { IfOk result (λ pins. at_place (λ (h : Handle). h) unmade pins.items ≡ (λ _. unmade)) }
{
    let mut pins = Vec::new(alloc);
    for _h in 0..HANDLES {
        pins.push(Pin::unmade(alloc))?;
    }
    Ok(pins)
}
