//! What is done with a pin that is made: it is given from one actor to another, and given back page by page.
ghost use Rattle.std.specs.Prelude.{◌≡◌, ◌≤◌, true, Some, None};
ghost use Rattle.gup_plain.specs.declared.answer.Answer.TheVariants as answers;
ghost use Rattle.gup_plain.specs.declared.event.PlainEvent.TheVariants as events;
ghost use Rattle.gup_frames.specs.Frames.{FrameLists, frames_of};
ghost use Rattle.gup_handles.specs.Handles.{handles_of, IsPinOf, IsGivenTo, given_to, taken_by};
ghost use Rattle.gup_spec_turns.specs.PinTurns.{unpin_turn, give_turn, take_turn};
ghost use Rattle.gup_op_base.specs.Said.{TellsTurn, whats_of, answered_said};
ghost use Rattle.gup_op_base.specs.Turns.{IsTurnOf, Anywhere};
ghost use Rattle.gup_op_pins.specs.Pins.{IsWeighed};
ghost use Rattle.gup_op_pins.specs.Held.{ShowsHeld, IsUnpin, IsDone, IsRefused, held_view};

use gup_base::{ActorNo, HandleNo, PIN_BIAS};
use gup_frames::Frames;
use gup_handles::Handles;
use gup_op_base::Head;
use gup_plain::{Answer, Journal, PlainEvent};

/// One page of an unpin: the last one that the pin still has, whose frame loses the weight of a pin (Linux's
/// `unpin_user_page`, `mm/gup.c`). With the last of all the pin is gone. `NotHeld` is answered where the actor doesn't hold
/// the pin. Answers whether the operation is over.
#[inline]
pub fn unpin(
    frames: &mut Frames,
    handles: &mut Handles,
    journal: &mut Journal,
    head: &Head,
    handle: HandleNo,
) -> bool
    requires weighed { IsWeighed (frames_of frames.old) (handles_of handles.old handle) }
    requires room { 3 ≤ journal.old.room }
    ensures turn { TellsTurn head.now journal.old journal.new result
        (λ said. IsTurnOf (ShowsHeld head.now.actor) Anywhere
        (held_view frames.old handles.old None) (held_view frames.new handles.new None)
        (λ s. unpin_turn s head.now.actor handle) (whats_of said)) }
    ensures held { IsPinOf (handles_of handles.old handle) head.now.actor
        → TellsTurn head.now journal.old journal.new result
        (λ said. IsUnpin (held_view frames.old handles.old None) (held_view frames.new handles.new None) head.now.actor handle said) }
    ensures not_held { (IsPinOf (handles_of handles.old handle) head.now.actor → ⊥)
        → TellsTurn head.now journal.old journal.new result
        (λ said. IsRefused (held_view frames.old handles.old None) (held_view frames.new handles.new None) answers.NotHeld said) }
{
    let actor = head.actor;
    // A got reference is held by a handle too, and is no pin.
    let Ok((pages, _)) = handles.pages(handle, actor) else {
        head.answered(journal, Answer::NotHeld);
        return true;
    };
    let last = pages.len() == 1;
    // Who holds the pin holds its handle: this isn't refused.
    let Ok(frame) = handles.drop_last(handle, actor) else {
        head.answered(journal, Answer::NotHeld);
        return true;
    };
    frames.put(frame, PIN_BIAS);
    if !last {
        head.silent(journal);
        return false;
    }
    head.done(journal, PlainEvent::Unpin { actor, handle }, Answer::Plain);
    true
}

/// Gives the actor's pin to another, or to itself: `NotHeld` is answered where the actor doesn't hold it. Either way the
/// operation is over.
#[inline]
pub fn give(
    handles: &mut Handles,
    journal: &mut Journal,
    head: &Head,
    handle: HandleNo,
    to: ActorNo,
)
    requires room { 3 ≤ journal.old.room }
    ensures turn { TellsTurn head.now journal.old journal.new true
        (λ said. (frames : FrameLists) → IsTurnOf (ShowsHeld head.now.actor) Anywhere
        (held_view frames handles.old None) (held_view frames handles.new None)
        (λ s. give_turn s head.now.actor handle to) (whats_of said)) }
    ensures held { IsPinOf (handles_of handles.old handle) head.now.actor
        → TellsTurn head.now journal.old journal.new true
        (λ said. IsDone (handles_of handles.old) (handles_of handles.new) handle (given_to to (handles_of handles.old handle))
        (events.Give head.now.actor handle to) said) }
    ensures not_held { (IsPinOf (handles_of handles.old handle) head.now.actor → ⊥)
        → TellsTurn head.now journal.old journal.new true
        (λ said. (handles_of handles.new ≡ handles_of handles.old) × (said ≡ answered_said answers.NotHeld)) }
{
    let actor = head.actor;
    if handles.give(handle, actor, to).is_err() {
        head.answered(journal, Answer::NotHeld);
        return;
    }
    head.done(
        journal,
        PlainEvent::Give { actor, handle, to },
        Answer::Plain,
    );
}

/// Takes the pin that is given to the actor. With that the operation is over.
#[inline]
pub fn take_over(handles: &mut Handles, journal: &mut Journal, head: &Head, handle: HandleNo)
    requires given { IsGivenTo (handles_of handles.old handle) head.now.actor }
    requires room { 3 ≤ journal.old.room }
    ensures turn { TellsTurn head.now journal.old journal.new true
        (λ said. (frames : FrameLists) → IsTurnOf (ShowsHeld head.now.actor) Anywhere
        (held_view frames handles.old None) (held_view frames handles.new None)
        (λ s. take_turn head.now.actor handle) (whats_of said)) }
    ensures taken { TellsTurn head.now journal.old journal.new true
        (λ said. IsDone (handles_of handles.old) (handles_of handles.new) handle
        (taken_by head.now.actor (handles_of handles.old handle)) (events.Take head.now.actor handle) said) }
{
    let actor = head.actor;
    handles.take(handle, actor);
    head.done(journal, PlainEvent::Take { actor, handle }, Answer::Plain);
}
