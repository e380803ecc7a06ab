ghost use Rattle.std.specs.Prelude.{◌<◌, ◌≢◌};
ghost use Rattle.arrayvec.specs.ArrayVec.{array_vec_len};

use arrayvec::ArrayVec;
use gup_base::{ActorNo, FrameNo, HandleNo, NoMemory};
use gup_handles::{Handles, NotHeld};
use std::alloc::Global;
use std::process::Abort;
use std::test::Fail;

// The frames with the numbers from this one to before the end.
fn frames(first: u64, end: u64) -> Option<ArrayVec<FrameNo, 16>> {
    let mut frames = ArrayVec::new();
    for number in first..end {
        let frame = FrameNo::new(number)?;
        frames.try_push(frame).ok()?;
    }
    Some(frames)
}

// Handles of which the actor holds two: a pin of these pages, and a reference of the frame.
fn hold_both(
    alloc: Global,
    actor: ActorNo,
    pin: HandleNo,
    pages: &ArrayVec<FrameNo, 16>,
    write: bool,
    reference: HandleNo,
    frame: FrameNo,
) -> Result<Handles, NoMemory>
    requires some { 0 < array_vec_len pages.now }
    requires two { reference ≢ pin }
{
    let mut handles = Handles::new(alloc)?;
    handles.hold(pin, actor, pages, write);
    handles.hold_got(reference, actor, frame);
    Ok(handles)
}

// Handles of which the actor holds two: a pin of the frames from 7 to before the end, and a reference of frame 3.
fn two_handles(
    rt: &impl Abort,
    alloc: Global,
    actor: ActorNo,
    end: u64,
    write: bool,
) -> Result<(Handles, HandleNo, HandleNo), Fail> {
    let pin = HandleNo::new(0).ok_or("a handle")?;
    let reference = HandleNo::new(1_023).ok_or("a handle")?;
    let pages = frames(7, end).ok_or("frames")?;
    let frame = FrameNo::new(3).ok_or("a frame")?;
    assert!(rt; !pages.is_empty());
    assert!(rt; reference.get() != pin.get());
    let handles = hold_both(alloc, actor, pin, &pages, write, reference, frame).or(Err("memory"))?;
    Ok((handles, pin, reference))
}

// How many pages there are, the number of the first one's frame, and whether they may be written.
fn seen(handles: &Handles, h: HandleNo, actor: ActorNo) -> Option<(usize, u64, bool)> {
    match handles.pages(h, actor) {
        Ok((frames, write)) => match frames.first() {
            Some(frame) => Some((frames.len(), frame.get(), write)),
            None => None,
        },
        Err(NotHeld) => None,
    }
}

// The number of the frame that goes.
fn dropped(handles: &mut Handles, h: HandleNo, actor: ActorNo) -> Result<u64, NotHeld> {
    match handles.drop_last(h, actor) {
        Ok(frame) => Ok(frame.get()),
        Err(NotHeld) => Err(NotHeld),
    }
}

#[test]
fn pages_go_from_the_last_to_the_first(rt: HostRuntime) -> Result<(), Fail> {
    let actor = ActorNo::new(80).ok_or("an actor")?;
    let other = ActorNo::new(0).ok_or("an actor")?;
    let (mut handles, pin, reference) = two_handles(&rt, rt.alloc(), actor, 23, true)?;
    assert_eq!(rt;
        (seen(&handles, pin, actor), seen(&handles, pin, other)),
        (Some((16, 7, true)), None)
    );
    assert_eq!(rt; dropped(&mut handles, pin, other), Err(NotHeld));
    for left in 0..16 {
        assert_eq!(rt; dropped(&mut handles, pin, actor), Ok(22 - left));
    }
    for (handle, want) in [
        (pin, Err(NotHeld)),
        (reference, Ok(3)),
        (reference, Err(NotHeld)),
    ] {
        assert_eq!(rt; dropped(&mut handles, handle, actor), want);
    }
    assert_eq!(rt; seen(&handles, pin, actor), None);
    Ok(())
}

#[derive(Clone, Copy, Debug)]
enum Step {
    Give,
    Given,
    Take,
    Drop,
}

// Gives the pin to the other actor, asks whether it is given to this one, takes it or drops its last page, and answers
// whether that worked or is so.
fn did(handles: &mut Handles, h: HandleNo, actor: ActorNo, other: ActorNo, step: Step) -> bool {
    match step {
        Step::Give => handles.give(h, actor, other).is_ok(),
        Step::Given => handles.given(h, actor),
        Step::Take => handles.take(h, actor),
        Step::Drop => dropped(handles, h, actor).is_ok(),
    }
}

#[test]
fn pins_are_given_and_taken(rt: HostRuntime) -> Result<(), Fail> {
    let actor = ActorNo::new(5).ok_or("an actor")?;
    let other = ActorNo::new(6).ok_or("an actor")?;
    let (mut handles, pin, reference) = two_handles(&rt, rt.alloc(), actor, 9, false)?;
    for (step, who, done, seen_by_actor, seen_by_other) in [
        (Step::Give, other, false, Some((2, 7, false)), None),
        (Step::Take, actor, false, Some((2, 7, false)), None),
        (Step::Give, actor, true, None, None),
        (Step::Give, actor, false, None, None),
        (Step::Drop, actor, false, None, None),
        (Step::Given, actor, false, None, None),
        (Step::Given, other, true, None, None),
        (Step::Take, actor, false, None, None),
        (Step::Take, other, true, None, Some((2, 7, false))),
        (Step::Given, other, false, None, Some((2, 7, false))),
        (Step::Drop, other, true, None, Some((1, 7, false))),
        (Step::Give, other, true, None, None),
        (Step::Take, other, true, None, Some((1, 7, false))),
    ] {
        let was = did(&mut handles, pin, who, other, step);
        assert_eq!(rt;
            (was, seen(&handles, pin, actor), seen(&handles, pin, other)),
            (done, seen_by_actor, seen_by_other),
            "{step:?} by {who:?}"
        );
    }
    let given = did(&mut handles, reference, actor, other, Step::Give);
    assert_eq!(rt; (given, seen(&handles, reference, actor)), (false, None));
    Ok(())
}

#[test]
fn the_error_is_told(rt: HostRuntime) -> Result<(), Fail> {
    let text = format!(in rt.alloc(); "{NotHeld}").or(Err("memory"))?;
    assert_eq!(rt; text.as_str(), "the handle isn't held");
    Ok(())
}
