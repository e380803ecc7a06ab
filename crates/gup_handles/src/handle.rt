//! One handle.
ghost use Rattle.std.specs.Prelude.{◌≡◌, ℕ, ◌<◌, ◌≤◌, ◌↔◌, length, IsTrue, IsSome, IfSome, OnSome, IfNone, MatchOption, if◌then◌else◌};
ghost use Rattle.arrayvec.specs.ArrayVec.{array_vec_len};
ghost use Rattle.gup_handles.specs.State.{state_of, HasFewFrames};
ghost use Rattle.gup_handles.specs.Handles.{unmade, held, got, IsPinOf, IsHeldBy, IsGotBy, IsGivenTo, given_to, taken_by, without_last, HasLast};

use arrayvec::ArrayVec;
use gup_base::{ActorNo, FrameNo};
use std::marker::Model;

#[derive(Clone, Copy, Debug)]
enum Stage {
    Unmade,
    Held(ActorNo),
    Given(ActorNo),
    Got(ActorNo, FrameNo),
    Gone,
}

/// What a handle is: a pin that an actor holds or that is given to one, with the frames of its pages in order and whether they may be
/// written, at least one frame and at most 16, or a reference that an actor got.
#[derive(Clone, Copy, Debug)]
pub enum HandleState<'a> {
    Unmade,
    Held {
        by: ActorNo,
        frames: &'a [FrameNo],
        write: bool,
    },
    Given {
        to: ActorNo,
        frames: &'a [FrameNo],
        write: bool,
    },
    Got {
        by: ActorNo,
        frame: FrameNo,
    },
    Gone,
}

/// A handle, with the frames of the pages that it still pins and whether it may write them.
#[derive(Drop)]
pub(crate) struct Handle {
    stage: Stage,
    frames: ArrayVec<FrameNo, 16>,
    write: bool,
}

impl Model for Handle {
    ghost use Rattle.gup_handles.specs.Handles.{HandleValue};

    ghost Value = { HandleValue };

    ghost use Rattle.gup_handles.specs.Kept.{handle_of, HasPage};

    ghost view = { λ a. handle_of a.stage a.frames.items a.write };

    ghost invariant = { λ a. HasPage a.stage a.frames.items };
}

impl Handle {
    /// A handle that isn't made.
    pub(crate) fn unmade() -> Handle
        ensures { result ≡ unmade }
    {
        Handle {
            stage: Stage::Unmade,
            frames: ArrayVec::new(),
            write: false,
        }
    }

    /// What it is.
    pub(crate) fn state(&self) -> HandleState<'_>
        ensures state { state_of result ≡ self.now }
        ensures few { HasFewFrames self.now }
    {
        let frames = self.frames.as_slice();
        let write = self.write;
        match self.stage {
            Stage::Unmade => HandleState::Unmade,
            Stage::Held(by) => HandleState::Held { by, frames, write },
            Stage::Given(to) => HandleState::Given { to, frames, write },
            Stage::Got(by, frame) => HandleState::Got { by, frame },
            Stage::Gone => HandleState::Gone,
        }
    }

    /// From now on the actor holds a pin of these frames by it.
    pub(crate) fn hold(&mut self, actor: ActorNo, frames: &ArrayVec<FrameNo, 16>, write: bool)
        requires { 0 < array_vec_len frames.now }
        ensures { self.new ≡ held actor frames.now.items write }
    {
        self.stage = Stage::Held(actor);
        self.frames.clear();
        self.frames
            .try_extend_from_slice(frames.as_slice())
            .unwrap();
        self.write = write;
    }

    /// From now on the actor holds a reference of the frame by it.
    pub(crate) fn hold_got(&mut self, actor: ActorNo, frame: FrameNo)
        ensures { self.new ≡ got actor frame }
    {
        self.stage = Stage::Got(actor, frame);
    }

    // Whether the actor holds a pin by it.
    fn is_pin_of(&self, actor: ActorNo) -> bool
        ensures { IsTrue result ↔ IsPinOf self.now actor }
    {
        match self.stage {
            Stage::Held(by) => by == actor,
            Stage::Unmade | Stage::Given(_) | Stage::Got(_, _) | Stage::Gone => false,
        }
    }

    /// The frame of which the actor holds a reference by it.
    pub(crate) fn reference(&self, actor: ActorNo) -> Option<FrameNo>
        ensures held { IsSome result ↔ IsGotBy self.now actor }
        ensures frame { MatchOption result (IsHeldBy self.now actor → IsPinOf self.now actor) (λ frame. self.now ≡ got actor frame) }
    {
        match self.stage {
            Stage::Got(by, frame) => { if by == actor { Some(frame) } else { None } }
            Stage::Unmade | Stage::Held(_) | Stage::Given(_) | Stage::Gone => None,
        }
    }

    /// Gives the pin to an actor, if this one holds it, and says whether it does.
    pub(crate) fn give(&mut self, actor: ActorNo, to: ActorNo) -> bool
        ensures held { IsTrue result ↔ IsPinOf self.old actor }
        ensures given { self.new ≡ (if result then given_to to self.old else self.old) }
    {
        let holds = self.is_pin_of(actor);
        if holds {
            self.stage = Stage::Given(to);
        }
        holds
    }

    /// Whether the pin is given to the actor.
    pub(crate) fn is_given_to(&self, actor: ActorNo) -> bool
        ensures { IsTrue result ↔ IsGivenTo self.now actor }
    {
        match self.stage {
            Stage::Given(to) => to == actor,
            Stage::Unmade | Stage::Held(_) | Stage::Got(_, _) | Stage::Gone => false,
        }
    }

    /// Takes the pin, if it is given to the actor, and says whether it is.
    pub(crate) fn take(&mut self, actor: ActorNo) -> bool
        ensures given { IsTrue result ↔ IsGivenTo self.old actor }
        ensures taken { self.new ≡ (if result then taken_by actor self.old else self.old) }
    {
        let given = self.is_given_to(actor);
        if given {
            self.stage = Stage::Held(actor);
        }
        given
    }

    /// Lets the last page go, or the reference, if the actor holds it, and answers its frame.
    pub(crate) fn drop_last(&mut self, actor: ActorNo) -> Option<FrameNo>
        ensures held { IsSome result ↔ IsHeldBy self.old actor }
        ensures last { IfSome result (HasLast self.old) }
        ensures dropped { OnSome result (self.new ≡ without_last self.old) }
        ensures still { IfNone result (self.new ≡ self.old) }
    {
        if self.is_pin_of(actor) {
            let last = self.frames.pop().unwrap();
            if self.frames.is_empty() {
                self.stage = Stage::Gone;
            }
            return Some(last);
        }
        let Some(frame) = self.reference(actor) else {
            return None;
        };
        self.stage = Stage::Unmade;
        Some(frame)
    }

    /// The frames of the pages and whether they may be written, if the actor holds the pin.
    pub(crate) fn pages(&self, actor: ActorNo) -> Option<(&[FrameNo], bool)>
        ensures held { IsSome result ↔ IsPinOf self.now actor }
        ensures pages { IfSome result (λ pages. self.now ≡ held actor pages.0.now pages.1) }
        ensures few { IfSome result (λ pages. length pages.0.now ≤ 16) }
    {
        if self.is_pin_of(actor) {
            Some((self.frames.as_slice(), self.write))
        } else {
            None
        }
    }
}
