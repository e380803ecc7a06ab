ghost use Rattle.gup_frames.specs.Frames.{frames_of, IsFrame};
ghost use Rattle.gup_space.specs.Space.{space_of};
ghost use Rattle.gup_space.specs.Counted.{IsCounted};

use crate::tables::with_tables;
use gup_base::{Allowed, Entry, FrameNo, PageNo, Rights};
use gup_frames::Frames;
use gup_space::Space;
use gup_unmap::{discard, take_down};
use std::alloc::Global;
use std::process::Abort;
use std::test::Fail;

// The frame is there.
fn expect_frame(rt: &impl Abort, frames: &Frames, frame: FrameNo)
    ensures { IsFrame (frames_of frames.now) frame }
{
    let many = u64::from(frames.movable()) + u64::from(frames.normal());
    assert!(rt; frame.get() < many);
}

// What each call needs of the page.
fn expect_counted(rt: &impl Abort, space: &Space, frames: &Frames, page: PageNo)
    ensures { IsCounted (frames_of frames.now) (space_of space.now) page }
{
    let Some(entry) = space.entry(page) else {
        return;
    };
    expect_frame(rt, frames, entry.frame);
    assert!(rt; space.rights_at(page).is_some() && frames.count(entry.frame) > 0);
}

// Maps the page, and gives it a frame where one is free.
fn give(rt: &impl Abort, space: &mut Space, frames: &mut Frames, page: PageNo) -> bool {
    assert!(rt; page.get() < 34_359_738_368);
    if space.map(page, 1, Rights::RW).is_err() {
        return false;
    }
    let Some(frame) = frames.take(Allowed::Any) else {
        return false;
    };
    let writable = true;
    assert!(rt; space.rights_at(page).is_some() && space.lacks(page) == 0);
    space.set_entry(page, Some(Entry { frame, writable }));
    true
}

// A process with pages 3, 4 and 5, of which the first two have the two frames.
fn three_pages(rt: &impl Abort, alloc: Global, frames: &mut Frames) -> Result<Space, Fail> {
    let mut space = with_tables(rt, alloc)?;
    for (number, given) in [(3, true), (4, true), (5, false)] {
        let page = PageNo::new(number).ok_or("a page")?;
        assert_eq!(rt; give(rt, &mut space, frames, page), given, "page {number}");
    }
    Ok(space)
}

// The references of the frame.
fn count(rt: &impl Abort, frames: &Frames, number: u64) -> Option<u64> {
    let frame = FrameNo::new(number)?;
    expect_frame(rt, frames, frame);
    Some(frames.count(frame))
}

// Whether the page is mapped and has an entry, and the references of both frames.
fn seen(
    rt: &impl Abort,
    space: &Space,
    frames: &Frames,
    page: PageNo,
) -> Option<(bool, bool, u64, u64)> {
    let mapped = space.rights_at(page).is_some();
    let entry = space.entry(page).is_some();
    Some((mapped, entry, count(rt, frames, 0)?, count(rt, frames, 1)?))
}

// Takes the page down, or discards it, and answers what the call did.
fn call(
    rt: &impl Abort,
    space: &mut Space,
    frames: &mut Frames,
    page: PageNo,
    unmaps: bool,
) -> bool {
    expect_counted(rt, space, frames, page);
    if unmaps {
        take_down(space, frames, page)
    } else {
        discard(space, frames, page)
    }
}

#[test]
fn pages_are_taken_down(rt: HostRuntime) -> Result<(), Fail> {
    let mut frames = Frames::new(rt.alloc(), 1, 1).or(Err("memory"))?;
    let mut space = three_pages(&rt, rt.alloc(), &mut frames)?;
    for (number, was, first, second) in [
        (2, false, 1, 1),
        (4, true, 1, 0),
        (4, false, 1, 0),
        (5, true, 1, 0),
        (3, true, 0, 0),
    ] {
        let page = PageNo::new(number).ok_or("a page")?;
        let answer = call(&rt, &mut space, &mut frames, page, true);
        assert_eq!(rt;
            (answer, seen(&rt, &space, &frames, page)),
            (was, Some((false, false, first, second))),
            "page {number}"
        );
    }
    assert_eq!(rt; space.len(), 0);
    Ok(())
}

#[test]
fn pages_are_discarded(rt: HostRuntime) -> Result<(), Fail> {
    let mut frames = Frames::new(rt.alloc(), 1, 1).or(Err("memory"))?;
    let mut space = three_pages(&rt, rt.alloc(), &mut frames)?;
    for (number, is, first, second) in [
        (2, false, 1, 1),
        (4, true, 1, 0),
        (4, true, 1, 0),
        (5, true, 1, 0),
        (3, true, 0, 0),
    ] {
        let page = PageNo::new(number).ok_or("a page")?;
        let answer = call(&rt, &mut space, &mut frames, page, false);
        assert_eq!(rt;
            (answer, seen(&rt, &space, &frames, page)),
            (is, Some((is, false, first, second))),
            "page {number}"
        );
    }
    assert_eq!(rt; space.len(), 3);
    Ok(())
}
