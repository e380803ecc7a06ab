ghost use Rattle.std.specs.Prelude.{◌↔◌, IsTrue};
ghost use Rattle.gup_frames.specs.Frames.{frames_of, IsFrame};

use gup_base::{Allowed, FrameNo, Zone};
use gup_frames::Frames;
use std::alloc::Global;
use std::process::Abort;
use std::test::Fail;

const MOVABLE: Allowed = Allowed::Only(Zone::Movable);

const NORMAL: Allowed = Allowed::Only(Zone::Normal);

// Whether the frame is there.
pub(crate) fn has(frames: &Frames, frame: FrameNo) -> bool
    ensures { IsTrue result ↔ IsFrame (frames_of frames.now) frame }
{
    frame.get() < u64::from(frames.movable()) + u64::from(frames.normal())
}

// Takes the frames from the first number to before the end, and then there is none.
fn take_all(rt: &impl Abort, frames: &mut Frames, allowed: Allowed, first: u64, end: u64) {
    for number in first..end {
        assert_eq!(rt; frames.take(allowed).map(|f| f.get()), Some(number));
    }
    assert_eq!(rt; frames.take(allowed), None, "{first} to {end}");
}

// How many frames of each zone are free.
fn free(frames: &Frames) -> (u32, u32) {
    (frames.free(Zone::Movable), frames.free(Zone::Normal))
}

// Takes all frames allowed of new ones: those from the first number to before the end.
fn take_all_of(
    rt: &impl Abort,
    alloc: Global,
    zones: (u32, u32),
    allowed: Allowed,
    numbers: (u64, u64),
    left: (u32, u32),
) -> Result<(), Fail> {
    assert!(rt; zones.0 <= 1_024 && zones.1 <= 1_024 - zones.0);
    let mut frames = Frames::new(alloc, zones.0, zones.1).or(Err("memory"))?;
    assert_eq!(rt;
        (frames.movable(), frames.normal(), free(&frames)),
        (zones.0, zones.1, zones)
    );
    take_all(rt, &mut frames, allowed, numbers.0, numbers.1);
    assert_eq!(rt; free(&frames), left);
    Ok(())
}

#[test]
fn the_lowest_free_frames_are_taken(rt: HostRuntime) -> Result<(), Fail> {
    for (zones, allowed, numbers, left) in [
        ((512, 512), Allowed::Any, (0, 1_024), (0, 0)),
        ((512, 512), MOVABLE, (0, 512), (0, 512)),
        ((512, 512), NORMAL, (512, 1_024), (512, 0)),
        ((1_024, 0), Allowed::Any, (0, 1_024), (0, 0)),
        ((1_024, 0), NORMAL, (0, 0), (1_024, 0)),
        ((0, 1_024), MOVABLE, (0, 0), (0, 1_024)),
        ((63, 66), NORMAL, (63, 129), (63, 0)),
        ((0, 0), Allowed::Any, (0, 0), (0, 0)),
    ] {
        take_all_of(&rt, rt.alloc(), zones, allowed, numbers, left)?;
    }
    Ok(())
}

#[derive(Clone, Copy)]
enum Step {
    Grab(u64),
    Put(u64),
    Mark(bool),
}

// Does the step where it can be done.
fn follow(frames: &mut Frames, frame: FrameNo, step: Step) -> Option<()> {
    if !has(frames, frame) {
        return None;
    }
    let count = frames.count(frame);
    match step {
        Step::Grab(by) => {
            if count == 0 || count >= 1 << 40 || by != 1 && by != 1_024 {
                return None;
            }
            frames.grab(frame, by);
        }
        Step::Put(by) => {
            if by == 0 || by > count {
                return None;
            }
            frames.put(frame, by);
        }
        Step::Mark(on) => frames.set_mark(frame, on),
    }
    Some(())
}

// The count, the mark and the zone of the frame, where it is there.
fn state(frames: &Frames, frame: FrameNo) -> Option<(u64, bool, Zone)> {
    if has(frames, frame) {
        Some((frames.count(frame), frames.mark(frame), frames.zone(frame)))
    } else {
        None
    }
}

// Does the step, after which the frame has this count and mark, and so many normal frames are free.
fn stepped(
    rt: &impl Abort,
    frames: &mut Frames,
    number: u64,
    step: Step,
    after: (u64, bool),
    left: u32,
) -> Result<(), Fail> {
    let frame = FrameNo::new(number).ok_or("a frame")?;
    let done = follow(frames, frame, step);
    assert_eq!(rt;
        (done, state(frames, frame), free(frames)),
        (Some(()), Some((after.0, after.1, Zone::Normal)), (0, left))
    );
    Ok(())
}

#[test]
fn references_and_marks(rt: HostRuntime) -> Result<(), Fail> {
    let mut frames = Frames::new(rt.alloc(), 1, 2).or(Err("memory"))?;
    take_all(&rt, &mut frames, Allowed::Any, 0, 3);
    for (number, step, after, left) in [
        (1, Step::Mark(true), (1, true), 0),
        (1, Step::Grab(1_024), (1_025, true), 0),
        (1, Step::Grab(1), (1_026, true), 0),
        (1, Step::Put(1_024), (2, true), 0),
        (1, Step::Put(1), (1, true), 0),
        (1, Step::Put(1), (0, false), 1),
        (2, Step::Mark(true), (1, true), 1),
        (2, Step::Mark(false), (1, false), 1),
        (2, Step::Put(1), (0, false), 2),
    ] {
        stepped(&rt, &mut frames, number, step, after, left)?;
    }
    take_all(&rt, &mut frames, Allowed::Any, 1, 3);
    Ok(())
}
