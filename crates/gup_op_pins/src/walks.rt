//! A pin's lockless walk: one step a turn.
ghost use Rattle.std.specs.Prelude.{◌≡◌, ℕ, ◌+◌, ◌==◌, ◌≤◌, ◌<◌, ◌^◌, ◌&&◌, [], List, length, Some, None, true, false};
ghost use Rattle.gup_frames.specs.Frames.{FrameLists, frames_of};
ghost use Rattle.gup_base.specs.declared.entry.Entry.{Entry as EntryValue};
ghost use Rattle.gup_space.specs.Space.{space_of, tables_in};
ghost use Rattle.gup_spec_tables.specs.Paths.{KeepsPath};
ghost use Rattle.gup_space.specs.Shows.{change_of};
ghost use Rattle.gup_spec_events.specs.State.{WalkStep, ready, grabbed};
ghost use Rattle.gup_fast.specs.Stages.{stage_of};
ghost use Rattle.gup_fast.specs.Walks.{at, left_in};
ghost use Rattle.gup_op_base.specs.Jobs.{place_of, step_of};
ghost use Rattle.gup_op_base.specs.Tidy.{IsTidy};
ghost use Rattle.gup_handles.specs.Handles.{HandleValue, handles_of, unmade};
ghost use Rattle.gup_spec_turns.specs.PinPlace.{IsAtStep};
ghost use Rattle.gup_op_base.specs.declared.jobs.JobPlace.TheVariants.{Unbegun, Walking};
ghost use Rattle.gup_op_base.specs.declared.jobs.WalkPlace.TheVariants.{Ready};
ghost use Rattle.gup_op_base.specs.Said.{TellsTurn, whats_of};
ghost use Rattle.gup_op_pins.specs.Pins.{IsPinTurn, IsReadyToWalk, pinning_view, last_page as page_of_last};
ghost use Rattle.gup_op_pins.specs.Steps.{HasEnd, IsStep, IsRunning, IsGrabbed, dropped_event, first_of_left, step_whats, stage_place, last_at};

use crate::pins::{PinCall, hold};
use arrayvec::ArrayVec;
use gup_base::{ActorNo, FrameNo, PageNo, ProcNo};
use gup_fast::{Stage, Step, Walk};
use gup_frames::Frames;
use gup_handles::Handles;
use gup_op_base::{Head, JobPlace, WalkPlace, page_behind};
use gup_plain::{Answer, Journal, PlainEvent};
use gup_space::Space;

/// The first turn of a pin that walks: the process has pinned from now on, and one walk more runs in it (Linux's
/// `gup_fast_fallback`, `mm/gup.c`).
pub(crate) fn begin_turn(
    space: &mut Space,
    journal: &mut Journal,
    head: &Head,
    call: PinCall,
) -> JobPlace
    requires walks { (space_of space.old).walks < 2 ^ 40 }
    requires room { 3 ≤ journal.old.room }
    ensures { TellsTurn head.now journal.old journal.new false
        (λ said. (frames : FrameLists) (handles : List HandleValue) (taken : List ℕ) (many far : ℕ) → (call.fast && far == 0) ≡ true
        → IsPinTurn head.now.actor call many far (pinning_view frames space.old handles taken Unbegun)
        (pinning_view frames space.new handles taken result) (whats_of said)) }
{
    space.set_pinned();
    space.enter();
    head.silent(journal);
    JobPlace::Walking {
        place: WalkPlace::Entered,
        page: call.page,
        sequence: 0,
    }
}

/// A turn of a pin that walks, and stands there: the walk's next step. It answers whether the operation is over, and where it
/// stands then.
///
/// A walk that has kept all pages, and finds the sequence as it was, makes the handle; one that stopped before a page leaves the
/// slow way those that it has (Linux's `gup_fast_fallback`, `mm/gup.c`). A walk that is over runs in the process no more.
pub(crate) fn walk_turn(
    space: &mut Space,
    frames: &mut Frames,
    handles: &mut Handles,
    taken: &mut ArrayVec<FrameNo, 16>,
    journal: &mut Journal,
    head: &Head,
    call: PinCall,
    place: WalkPlace,
    page: PageNo,
    sequence: u64,
) -> (bool, JobPlace)
    requires tidy { IsTidy (frames_of frames.old) (space_of space.old) }
    requires here { IsAtStep (call.page + length taken.old.items) call.n (length taken.old.items) (step_of place page) }
    requires steps { IsReadyToWalk (frames_of frames.old) (space_of space.old) taken.old.items (step_of place page) }
    requires few { (f : ℕ) → (frames_of frames.old).count f < 2 ^ 40 }
    requires unmade { handles_of handles.old call.handle ≡ unmade }
    requires within { length taken.old.items ≤ call.n }
    requires some { 1 ≤ call.n }
    requires most { call.n ≤ 16 }
    requires range { call.page + call.n ≤ 2 ^ 35 }
    requires walks { 0 < (space_of space.old).walks }
    requires room { 3 ≤ journal.old.room }
    ensures { TellsTurn head.now journal.old journal.new result.0
        (λ said. (far : ℕ) → IsPinTurn head.now.actor call (length taken.old.items) far
        (pinning_view frames.old space.old handles.old taken.old.items (Walking place page sequence))
        (pinning_view frames.new space.new handles.new taken.new.items result.1) (whats_of said)) }
{
    let got = taken.len() as u8;
    if place == WalkPlace::Ready && got == call.n && space.sequence() == sequence {
        all_turn(space, handles, taken, journal, head, call, sequence, page);
        return (true, JobPlace::Unbegun);
    }
    let next = step_turn(
        space, frames, taken, journal, head, call, got, place, page, sequence,
    );
    (false, next)
}

// The walk has kept all pages, and the sequence is as it was: the handle is made, and the walk is over.
fn all_turn(
    space: &mut Space,
    handles: &mut Handles,
    taken: &mut ArrayVec<FrameNo, 16>,
    journal: &mut Journal,
    head: &Head,
    call: PinCall,
    sequence: u64,
    page: PageNo,
)
    requires unmade { handles_of handles.old call.handle ≡ unmade }
    requires all { length taken.old.items ≡ call.n }
    requires some { 1 ≤ call.n }
    requires same { (space_of space.old).sequence ≡ sequence }
    requires walks { 0 < (space_of space.old).walks }
    requires room { 3 ≤ journal.old.room }
    ensures { TellsTurn head.now journal.old journal.new true
        (λ said. (frames : FrameLists) (far : ℕ) → IsPinTurn head.now.actor call (length taken.old.items) far
        (pinning_view frames space.old handles.old taken.old.items (Walking Ready page sequence))
        (pinning_view frames space.new handles.new taken.new.items Unbegun) (whats_of said)) }
{
    let actor = head.actor;
    let handle = call.handle;
    space.leave();
    hold(handles, taken, actor, handle, call.want.write);
    head.done(
        journal,
        PlainEvent::PinOk { actor, handle },
        Answer::Pinned(call.n),
    );
}

// A step after which the operation goes on.
fn step_turn(
    space: &mut Space,
    frames: &mut Frames,
    taken: &mut ArrayVec<FrameNo, 16>,
    journal: &mut Journal,
    head: &Head,
    call: PinCall,
    got: u8,
    place: WalkPlace,
    page: PageNo,
    sequence: u64,
) -> JobPlace
    requires tidy { IsTidy (frames_of frames.old) (space_of space.old) }
    requires here { IsAtStep (call.page + got) call.n got (step_of place page) }
    requires steps { IsReadyToWalk (frames_of frames.old) (space_of space.old) taken.old.items (step_of place page) }
    requires few { (f : ℕ) → (frames_of frames.old).count f < 2 ^ 40 }
    requires taken { length taken.old.items ≡ got }
    requires within { got ≤ call.n }
    requires some { 1 ≤ call.n }
    requires most { call.n ≤ 16 }
    requires range { call.page + call.n ≤ 2 ^ 35 }
    requires other { step_of place page ≡ ready → length taken.old.items ≡ call.n
        → ((space_of space.old).sequence == sequence) ≡ false }
    requires walks { 0 < (space_of space.old).walks }
    requires room { 3 ≤ journal.old.room }
    ensures { TellsTurn head.now journal.old journal.new false
        (λ said. (handles : List HandleValue) (far : ℕ) → IsPinTurn head.now.actor call (length taken.old.items) far
        (pinning_view frames.old space.old handles taken.old.items (Walking place page sequence))
        (pinning_view frames.new space.new handles taken.new.items result) (whats_of said)) }
{
    let stage = stage_at(place, page);
    let last = end_of(&stage, page, call.page, got);
    let mut walk = Walk::new(call.page, call.n, call.want);
    walk.resume(sequence, stage, taken);
    let next = walk_on(
        &mut walk, space, frames, taken, journal, head, call, got, last,
    );
    leave_where_over(space, walk.stage());
    next
}

// A walk of the process that is over at this stage runs in it no more.
fn leave_where_over(space: &mut Space, stage: Stage)
    requires { 0 < (space_of space.old).walks }
    ensures { space_of space.new ≡ left_in (space_of space.old) (stage_of stage) (space_of space.old).walks }
{
    if stage == Stage::Left {
        space.leave();
    }
}

// The walk's next step is taken, and told.
fn walk_on(
    walk: &mut Walk,
    space: &Space,
    frames: &mut Frames,
    taken: &mut ArrayVec<FrameNo, 16>,
    journal: &mut Journal,
    head: &Head,
    call: PinCall,
    got: u8,
    last: PageNo,
) -> JobPlace
    requires tidy { IsTidy (frames_of frames.old) (space_of space.now) }
    requires few { (f : ℕ) → (frames_of frames.old).count f < 2 ^ 40 }
    requires runs { IsRunning walk.old.stage }
    requires steps { (step : WalkStep) → walk.old.stage ≡ at step → IsReadyToWalk (frames_of frames.old) (space_of space.now) walk.old.taken step }
    requires some { 1 ≤ walk.old.n }
    requires other { walk.old.stage ≡ at ready → length walk.old.taken ≡ walk.old.n
        → ((space_of space.now).sequence == walk.old.sequence) ≡ false }
    requires want { walk.old.want ≡ call.want }
    requires taken { length walk.old.taken ≡ got }
    requires room { 3 ≤ journal.old.room }
    ensures step { TellsTurn head.now journal.old journal.new false
        (λ said. IsStep (change_of frames.old frames.new space.now space.now) walk.old walk.new head.now.actor call.proc last
        (whats_of said)) }
    ensures taken { taken.new.items ≡ walk.new.taken }
    ensures place { place_of result ≡ stage_place walk.new.sequence walk.new.stage }
    ensures last { page_of_last result ≡ last_at walk.new.stage last }
{
    let event = take_step(
        walk,
        space,
        frames,
        head.actor,
        call.proc,
        call.want.write,
        got,
        last,
    );
    tell(journal, head, event);
    walk.put_taken(taken);
    place_at(walk.stage(), walk.sequence_read(), last)
}

// The event of a step, or a turn without any.
fn tell(journal: &mut Journal, head: &Head, event: Option<PlainEvent>)
    requires { 1 ≤ journal.old.room }
    ensures { TellsTurn head.now journal.old journal.new false (λ said. whats_of said ≡ step_whats event) }
{
    match event {
        Some(event) => head.happened(journal, event),
        None => head.silent(journal),
    }
}

// The page where those end that the walk has taken.
fn end_of(stage: &Stage, kept: PageNo, first: PageNo, got: u8) -> PageNo
    requires { first + got ≤ 2 ^ 35 }
    ensures { (step : WalkStep) → stage_of stage.now ≡ at step → HasEnd step (Some kept) result first got }
{
    match stage {
        Stage::Dropping => kept,
        _ => page_behind(first, u16::from(got.saturating_sub(1))),
    }
}

// The walk's next step, unless that ends it and it keeps all pages of the pin, and the event that stands at it, if one does. The pages
// that it has taken end at the last one.
fn take_step(
    walk: &mut Walk,
    space: &Space,
    frames: &mut Frames,
    actor: ActorNo,
    proc: ProcNo,
    write: bool,
    got: u8,
    last: PageNo,
) -> Option<PlainEvent>
    requires tidy { IsTidy (frames_of frames.old) (space_of space.now) }
    requires few { (f : ℕ) → (frames_of frames.old).count f < 2 ^ 40 }
    requires runs { IsRunning walk.old.stage }
    requires steps { (step : WalkStep) → walk.old.stage ≡ at step → IsReadyToWalk (frames_of frames.old) (space_of space.now) walk.old.taken step }
    requires some { 1 ≤ walk.old.n }
    requires other { walk.old.stage ≡ at ready → length walk.old.taken ≡ walk.old.n
        → ((space_of space.now).sequence == walk.old.sequence) ≡ false }
    requires write { walk.old.want.write ≡ write }
    requires taken { length walk.old.taken ≡ got }
    ensures step { IsStep (change_of frames.old frames.new space.now space.now) walk.old walk.new actor proc last (step_whats result) }
    ensures page { walk.new.page ≡ walk.old.page }
    ensures n { walk.new.n ≡ walk.old.n }
{
    match walk.next() {
        Step::Sequence => {
            walk.sequence(space);
            None
        }
        Step::Read(_) => {
            walk.read(space, frames);
            None
        }
        Step::Grab { .. } => {
            walk.grab(frames);
            None
        }
        Step::Recheck { page, .. } => recheck(walk, space, actor, proc, page, write),
        Step::Mark { .. } => {
            walk.mark(frames);
            None
        }
        Step::Again => {
            walk.again(space);
            None
        }
        Step::Drop(_) => {
            let event = drop_event(walk.stage(), actor, got, last);
            walk.drop_one(frames);
            event
        }
        Step::Flag | Step::Nothing => None,
    }
}

// The entry is read again; where it is the same the pin names the page.
fn recheck(
    walk: &mut Walk,
    space: &Space,
    actor: ActorNo,
    proc: ProcNo,
    page: PageNo,
    write: bool,
) -> Option<PlainEvent>
    requires grabbed { IsGrabbed walk.old.stage page }
    requires kept { (g : ℕ) (path : List ℕ) (e : EntryValue) → walk.old.stage ≡ at (grabbed g path e)
        → KeepsPath (tables_in (space_of space.now)) path g }
    requires write { walk.old.want.write ≡ write }
    ensures step { (frames : FrameLists) (last : ℕ) → IsStep (change_of frames frames space.now space.now) walk.old walk.new actor proc last
        (step_whats result) }
    ensures page { walk.new.page ≡ walk.old.page }
    ensures n { walk.new.n ≡ walk.old.n }
{
    if walk.recheck(space).is_some() {
        return None;
    }
    Some(PlainEvent::PinTry {
        actor,
        proc,
        page,
        write,
    })
}

// The event of a drop, if it is of a page that was taken: the last one where its mark was missing, else the first of those that
// end at the last one.
fn drop_event(stage: Stage, actor: ActorNo, got: u8, last: PageNo) -> Option<PlainEvent>
    ensures { result ≡ dropped_event (stage_of stage) actor got last }
{
    match stage {
        Stage::Refused => Some(PlainEvent::PinDrop { actor, page: last }),
        Stage::Dropping => Some(PlainEvent::PinDrop {
            actor,
            page: first_left(got, last),
        }),
        _ => None,
    }
}

// The first of so many pages that end at this one.
fn first_left(got: u8, last: PageNo) -> PageNo
    ensures { result ≡ first_of_left got last }
{
    let behind = u64::from(got.saturating_sub(1));
    PageNo::new(last.get().saturating_sub(behind)).unwrap()
}

// Where a walk stands that was kept so.
fn stage_at(place: WalkPlace, page: PageNo) -> Stage
    ensures { stage_of result ≡ at (step_of place page) }
{
    match place {
        WalkPlace::Entered => Stage::Entered,
        WalkPlace::Ready => Stage::Ready,
        WalkPlace::Read { path, entry } => Stage::Read { page, path, entry },
        WalkPlace::Grabbed { path, entry } => Stage::Grabbed { page, path, entry },
        WalkPlace::Rechecked(entry) => Stage::Rechecked { page, entry },
        WalkPlace::Differed(frame) => Stage::Differed(frame),
        WalkPlace::Refused => Stage::Refused,
        WalkPlace::Stopped => Stage::Stopped,
        WalkPlace::Dropping => Stage::Dropping,
    }
}

// And how it is kept; the pages that are left to drop end at the last one.
fn place_at(stage: Stage, sequence: u64, last: PageNo) -> JobPlace
    ensures place { place_of result ≡ stage_place sequence (stage_of stage) }
    ensures last { page_of_last result ≡ last_at (stage_of stage) last }
{
    let (place, page) = match stage {
        Stage::Entered => (WalkPlace::Entered, last),
        Stage::Ready => (WalkPlace::Ready, last),
        Stage::Read { page, path, entry } => (WalkPlace::Read { path, entry }, page),
        Stage::Grabbed { page, path, entry } => (WalkPlace::Grabbed { path, entry }, page),
        Stage::Rechecked { page, entry } => (WalkPlace::Rechecked(entry), page),
        Stage::Differed(frame) => (WalkPlace::Differed(frame), last),
        Stage::Refused => (WalkPlace::Refused, last),
        Stage::Stopped => (WalkPlace::Stopped, last),
        Stage::Dropping => (WalkPlace::Dropping, last),
        Stage::Unbegun | Stage::Left => return JobPlace::Unbegun,
    };
    JobPlace::Walking {
        place,
        page,
        sequence,
    }
}
