//! All handles.
ghost use Rattle.std.specs.Prelude.{◌≡◌, ℕ, Bool, ◌<◌, ◌≤◌, ◌↔◌, length, IsTrue, IsOk, IfOk, OnOk, OnErr, if◌then◌else◌};
ghost use Rattle.std.specs.Bool.{OnTrue};
ghost use Rattle.arrayvec.specs.ArrayVec.{array_vec_len};
ghost use Rattle.gup_plain.specs.Put.{put};
ghost use Rattle.gup_spec_events.specs.State.{CoreState};
ghost use Rattle.gup_spec_events.specs.Event.{happens, make_handle, give_handle, take_handle, get_reference, taken_frames, writes_taken};
ghost use Rattle.gup_handles.specs.Handles.{handles_of, unmade, held, got, IsPinOf, IsHeldBy, IsGotBy, IsGivenTo, given_to, taken_by, without_last, HasLast};
ghost use Rattle.gup_handles.specs.Shows.{ShowsHandles, IsEvent, drops};
ghost use Rattle.gup_handles.specs.State.{state_of, HasFewFrames};

use crate::handle::{Handle, HandleState};
use arrayvec::ArrayVec;
use gup_base::{ActorNo, FrameNo, HandleNo, NoMemory};
use std::alloc::Global;
use std::error::Error;
use std::fmt;
use std::marker::Model;

// How many handles a number can name.
const HANDLES: u16 = 1024;

/// The actor doesn't hold the handle (this project's own: Linux's pins have no names and no holders, and whoever gives
/// back what isn't pinned makes the counts wrong).
#[derive(Clone, Copy, Debug, PartialEq, Eq)]
pub struct NotHeld;

impl fmt::Display for NotHeld {
    fn fmt<W: fmt::Write>(&self, f: &mut fmt::Formatter<W>) -> fmt::Result {
        f.write_str("the handle isn't held")
    }
}

impl Error for NotHeld {}

/// The handles, each the name of a pin (`pin_user_pages`) or of one got reference (`get_user_pages`). Each is made at
/// most once, and no pin is made again once it is gone; a reference that is put back is as one that was never got. They
/// are this project's own: in Linux a caller keeps the pages that it pinned in an array.
#[derive(Drop)]
pub struct Handles {
    handles: Vec<Handle>,
}

impl Model for Handles {
    ghost use Rattle.std.specs.Prelude.{◌≡◌, List, vec_len};
    ghost use Rattle.gup_handles.specs.Handles.{HandleValue};

    ghost Value = { List HandleValue };

    ghost view = { λ a. a.handles.items };

    ghost invariant = { λ a. vec_len a.handles ≡ 1024 };
}

impl Handles {
    /// The 1,024 handles, all unmade, and the memory for all that they will be: no other call takes any. Each call takes
    /// a time that doesn't grow with anything.
    pub fn new(alloc: Global) -> Result<Handles, NoMemory>
        ensures { IfOk result (λ handles. handles_of handles ≡ (λ _. unmade)) }
    {
        let mut handles = Vec::with_capacity(alloc, usize::from(HANDLES))?;
        for _h in 0..HANDLES {
            handles.push(Handle::unmade())?;
        }
        Ok(Handles { handles })
    }

    /// A law: no handle is made but the 1,024.
    pub fn are_numbered(&self)
        ensures { (h : ℕ) → 1024 ≤ h → handles_of self.now h ≡ unmade }
    {
        let _handles = &self.handles;
    }

    /// What the handle is.
    pub fn state(&self, h: HandleNo) -> HandleState<'_>
        ensures state { state_of result ≡ handles_of self.now h }
        ensures few { HasFewFrames (handles_of self.now h) }
    {
        self.handles[h.get() as usize].state()
    }

    /// The actor holds a pin of these frames by the handle, at least one, in the order of its pages.
    #[inline]
    pub fn hold(&mut self, h: HandleNo, actor: ActorNo, frames: &ArrayVec<FrameNo, 16>, write: bool)
        requires unmade { handles_of self.old h ≡ unmade }
        requires some { 0 < array_vec_len frames.now }
        ensures held { handles_of self.new ≡ put h (held actor frames.now.items write) (handles_of self.old) }
        ensures event { (s : CoreState) → taken_frames (s.taken actor) ≡ frames.now.items → writes_taken (s.taken actor) ≡ write
            → ShowsHandles (handles_of self.old) s → ShowsHandles (handles_of self.new) (happens s (make_handle actor h)) }
    {
        let handle = &mut self.handles[h.get() as usize];
        handle.hold(actor, frames, write);
    }

    /// The actor holds a reference of the frame by the handle.
    #[inline]
    pub fn hold_got(&mut self, h: HandleNo, actor: ActorNo, frame: FrameNo)
        requires { handles_of self.old h ≡ unmade }
        ensures got { handles_of self.new ≡ put h (got actor frame) (handles_of self.old) }
        ensures event { (p page : ℕ) (writable : Bool)
            → IsEvent (handles_of self.old) (handles_of self.new) (get_reference actor p page frame h writable) }
    {
        let handle = &mut self.handles[h.get() as usize];
        handle.hold_got(actor, frame);
    }

    /// Gives the actor's pin to another, or to itself. Nobody holds it until it is taken.
    ///
    /// `NotHeld` comes exactly where the actor doesn't hold a pin by the handle, and then nothing changes.
    #[inline]
    pub fn give(&mut self, h: HandleNo, actor: ActorNo, to: ActorNo) -> Result<(), NotHeld>
        ensures held { IsOk result ↔ IsPinOf (handles_of self.old h) actor }
        ensures given { OnOk result (handles_of self.new ≡ put h (given_to to (handles_of self.old h)) (handles_of self.old)) }
        ensures event { OnOk result (IsEvent (handles_of self.old) (handles_of self.new) (give_handle actor h to)) }
        ensures err { OnErr result (self.new ≡ self.old) }
    {
        let handle = &mut self.handles[h.get() as usize];
        if !handle.give(actor, to) {
            return Err(NotHeld);
        }
        Ok(())
    }

    /// Whether the handle is given to the actor.
    #[inline]
    pub fn given(&self, h: HandleNo, actor: ActorNo) -> bool
        ensures { IsTrue result ↔ IsGivenTo (handles_of self.now h) actor }
    {
        self.handles[h.get() as usize].is_given_to(actor)
    }

    /// The actor takes the pin that is given to it, and holds it then. Answers whether it is given to it; else nothing
    /// changes.
    #[inline]
    pub fn take(&mut self, h: HandleNo, actor: ActorNo) -> bool
        ensures given { IsTrue result ↔ IsGivenTo (handles_of self.old h) actor }
        ensures taken { handles_of self.new
            ≡ (if result then put h (taken_by actor (handles_of self.old h)) (handles_of self.old) else handles_of self.old) }
        ensures event { OnTrue result (IsEvent (handles_of self.old) (handles_of self.new) (take_handle actor h)) }
    {
        let handle = &mut self.handles[h.get() as usize];
        handle.take(actor)
    }

    /// The actor's pin loses the last of the pages that it still has, whose frame is answered, and is gone with the last
    /// of all. (Linux's `unpin_user_pages` goes from the first page up.) A got reference is put back at once.
    ///
    /// `NotHeld` comes exactly where the actor holds neither by the handle, and then nothing changes.
    #[inline]
    pub fn drop_last(&mut self, h: HandleNo, actor: ActorNo) -> Result<FrameNo, NotHeld>
        ensures held { IsOk result ↔ IsHeldBy (handles_of self.old h) actor }
        ensures last { IfOk result (HasLast (handles_of self.old h)) }
        ensures dropped { OnOk result (handles_of self.new ≡ put h (without_last (handles_of self.old h)) (handles_of self.old)) }
        ensures event { IfOk result
            (λ frame. IsEvent (handles_of self.old) (handles_of self.new) (drops actor h frame (handles_of self.old h))) }
        ensures err { OnErr result (self.new ≡ self.old) }
    {
        let handle = &mut self.handles[h.get() as usize];
        match handle.drop_last(actor) {
            Some(frame) => Ok(frame),
            None => Err(NotHeld),
        }
    }

    /// The frame of the reference that the actor got by the handle.
    ///
    /// `NotHeld` comes exactly where the actor doesn't hold a got reference by it.
    #[inline]
    pub fn reference(&self, h: HandleNo, actor: ActorNo) -> Result<FrameNo, NotHeld>
        ensures held { IsOk result ↔ IsGotBy (handles_of self.now h) actor }
        ensures frame { IfOk result (λ frame. handles_of self.now h ≡ got actor frame) }
    {
        match self.handles[h.get() as usize].reference(actor) {
            Some(frame) => Ok(frame),
            None => Err(NotHeld),
        }
    }

    /// The frames of the pages that the actor's pin still has, in order, at most 16, and whether the pin may write them.
    ///
    /// `NotHeld` comes exactly where the actor doesn't hold a pin by the handle.
    #[inline]
    pub fn pages(&self, h: HandleNo, actor: ActorNo) -> Result<(&[FrameNo], bool), NotHeld>
        ensures held { IsOk result ↔ IsPinOf (handles_of self.now h) actor }
        ensures pages { IfOk result (λ pages. handles_of self.now h ≡ held actor pages.0.now pages.1) }
        ensures few { IfOk result (λ pages. length pages.0.now ≤ 16) }
    {
        match self.handles[h.get() as usize].pages(actor) {
            Some(pages) => Ok(pages),
            None => Err(NotHeld),
        }
    }
}
