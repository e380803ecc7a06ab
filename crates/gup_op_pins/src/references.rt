//! Plain references: the frame of a page gets one, and it is put back.
ghost use Rattle.std.specs.Prelude.{◌≡◌, ℕ, ◌≤◌, ◌<◌, ◌^◌, List, true, None, OnOk};
ghost use Rattle.gup_base.specs.declared.entry.Allowed.TheVariants.{Any};
ghost use Rattle.gup_spec_events.specs.Fault.{read_fault};
ghost use Rattle.gup_frames.specs.Frames.{frames_of};
ghost use Rattle.gup_space.specs.Space.{space_of};
ghost use Rattle.gup_space.specs.Found.{found_for};
ghost use Rattle.gup_space.specs.Shows.{change_of};
ghost use Rattle.gup_fault.specs.Refused.{denial_of};
ghost use Rattle.gup_fault.specs.Faults.{IsFault};
ghost use Rattle.gup_slow.specs.Pins.{HasFrame};
ghost use Rattle.gup_handles.specs.Handles.{handles_of, unmade};
ghost use Rattle.gup_op_base.specs.declared.jobs.JobPlace.TheVariants.{Unbegun};
ghost use Rattle.gup_spec_turns.specs.PinTurns.{get_turn, put_turn};
ghost use Rattle.gup_op_base.specs.Tidy.{IsTidy};
ghost use Rattle.gup_op_base.specs.Said.{TellsTurn, whats_of};
ghost use Rattle.gup_op_base.specs.Turns.{IsTurnOf, Anywhere};
ghost use Rattle.gup_op_pins.specs.Pins.{IsReferred, ShowsPinning, pinning_view};
ghost use Rattle.gup_op_pins.specs.Held.{ShowsHeld, held_view};

use gup_base::{Allowed, HandleNo, PageNo, ProcNo};
use gup_fault::{Denied, answer_of, ready_read};
use gup_frames::Frames;
use gup_handles::Handles;
use gup_op_base::Head;
use gup_plain::{Answer, Journal};
use gup_slow::get_page;
use gup_space::Space;

/// Gets a reference of the page's frame by the handle (Linux's `get_user_pages` of one page, `mm/gup.c`). The page is made
/// present as a load does it, and the frame's count goes up by 1; a page without a mapping is refused with `Missing`, and one
/// that lacks a page table or finds no frame with `NoFrame`. With that the operation is over.
#[inline]
pub fn get(
    space: &mut Space,
    frames: &mut Frames,
    handles: &mut Handles,
    journal: &mut Journal,
    head: &Head,
    proc: ProcNo,
    handle: HandleNo,
    page: PageNo,
)
    requires tidy { IsTidy (frames_of frames.old) (space_of space.old) }
    requires table { (space_of space.old).table ≡ None }
    requires few { (f : ℕ) → (frames_of frames.old).count f < 2 ^ 40 }
    requires unmade { handles_of handles.old handle ≡ unmade }
    requires room { 3 ≤ journal.old.room }
    ensures { TellsTurn head.now journal.old journal.new true
        (λ said. (taken : List ℕ) → IsTurnOf (ShowsPinning head.now.actor proc) Anywhere
        (pinning_view frames.old space.old handles.old taken Unbegun)
        (pinning_view frames.new space.new handles.new taken Unbegun)
        (λ s. get_turn s head.now.actor proc handle page (s.entry proc page)) (whats_of said)) }
{
    match ready(space, frames, page) {
        Ok(()) => {
            let frame = get_page(space, frames, page);
            handles.hold_got(handle, head.actor, frame);
            head.answered(journal, Answer::Plain);
        }
        Err(denied) => head.answered(journal, answer_of(denied)),
    }
}

// Makes the page present, as a load does it.
fn ready(space: &mut Space, frames: &mut Frames, page: PageNo) -> Result<(), Denied>
    requires tidy { IsTidy (frames_of frames.old) (space_of space.old) }
    requires table { (space_of space.old).table ≡ None }
    requires few { (f : ℕ) → (frames_of frames.old).count f < 2 ^ 40 }
    ensures fault { IsFault (change_of frames.old frames.new space.old space.new) (denial_of result)
        (λ a p. read_fault a p page ((space_of space.old).right page) ((space_of space.old).entry page)
        (found_for (frames_of frames.old) (space_of space.old) page Any)) }
    ensures ready { OnOk result (HasFrame (frames_of frames.new) (space_of space.new) page) }
{
    let ready = ready_read(space, frames, page, Allowed::Any);
    frames.are_there();
    ready
}

/// Puts the actor's reference back, whose frame's count goes down by 1 (Linux's `put_page`). `NotHeld` is answered where the
/// actor didn't get it, or has put it back. Either way the operation is over.
#[inline]
pub fn put(
    frames: &mut Frames,
    handles: &mut Handles,
    journal: &mut Journal,
    head: &Head,
    handle: HandleNo,
)
    requires referred { IsReferred (frames_of frames.old) (handles_of handles.old handle) }
    requires room { 3 ≤ journal.old.room }
    ensures { TellsTurn head.now journal.old journal.new true
        (λ said. IsTurnOf (ShowsHeld head.now.actor) Anywhere
        (held_view frames.old handles.old None) (held_view frames.new handles.new None)
        (λ s. put_turn s head.now.actor handle) (whats_of said)) }
{
    let actor = head.actor;
    // A pin is held by a handle too, and is no reference.
    if handles.reference(handle, actor).is_err() {
        head.answered(journal, Answer::NotHeld);
        return;
    }
    // Who got the reference holds its handle: this isn't refused.
    let Ok(frame) = handles.drop_last(handle, actor) else {
        head.answered(journal, Answer::NotHeld);
        return;
    };
    frames.put(frame, 1);
    head.answered(journal, Answer::Plain);
}
