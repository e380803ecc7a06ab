ghost use Rattle.gup_frames.specs.Frames.{frames_of, IsFrame};
ghost use Rattle.gup_space.specs.Space.{space_of};
ghost use Rattle.gup_slow.specs.Pins.{IsReady};

use crate::tables::with_tables;
use gup_base::{Allowed, Entry, FrameNo, PageNo, Rights, Want, Zone};
use gup_frames::Frames;
use gup_slow::pin_page;
use gup_space::Space;
use std::alloc::Global;
use std::process::Abort;
use std::test::Fail;

// The frame is there.
fn expect_frame(rt: &impl Abort, frames: &Frames, frame: FrameNo)
    ensures { IsFrame (frames_of frames.now) frame }
{
    let many = u64::from(frames.movable()) + u64::from(frames.normal());
    assert!(rt; frame.get() < many);
}

// What a pin needs of the page.
fn expect_ready(rt: &impl Abort, space: &Space, frames: &Frames, page: PageNo, want: Want)
    ensures { IsReady (frames_of frames.now) (space_of space.now) page want }
{
    let entry = space.entry(page);
    assert!(rt; entry.is_some());
    let entry = entry.unwrap();
    let frame = entry.frame;
    expect_frame(rt, frames, frame);
    let count = frames.count(frame);
    assert!(rt; 0 < count && count < 1_099_511_627_776 && frames.mark(frame));
    assert!(rt; entry.writable || !want.write);
    assert!(rt; frame.get() >= u64::from(frames.movable()) || !want.long);
}

// A process with page 3 mapped, which has a marked frame of the zones allowed.
fn one_page(
    rt: &impl Abort,
    alloc: Global,
    frames: &mut Frames,
    allowed: Allowed,
    writable: bool,
) -> Result<(Space, PageNo), Fail> {
    let mut space = with_tables(rt, alloc)?;
    let page = PageNo::new(3).ok_or("a page")?;
    assert!(rt; page.get() < 34_359_738_368);
    space.map(page, 1, Rights::RW).or(Err("a mapping"))?;
    let frame = frames.take(allowed).ok_or("a frame")?;
    expect_frame(rt, frames, frame);
    frames.set_mark(frame, true);
    assert!(rt; space.rights_at(page).is_some() && space.lacks(page) == 0);
    space.set_entry(page, Some(Entry { frame, writable }));
    Ok((space, page))
}

// The frame's count and mark.
fn seen(rt: &impl Abort, frames: &Frames, frame: FrameNo) -> (u64, bool) {
    expect_frame(rt, frames, frame);
    (frames.count(frame), frames.mark(frame))
}

#[test]
fn pinned_frames_have_the_weight_of_each_pin(rt: HostRuntime) -> Result<(), Fail> {
    let normal = Allowed::Only(Zone::Normal);
    for (allowed, write, long, number) in [
        (Allowed::Any, false, false, 0),
        (Allowed::Any, true, false, 0),
        (normal, false, true, 1),
        (normal, true, true, 1),
    ] {
        let mut frames = Frames::new(rt.alloc(), 1, 1).or(Err("memory"))?;
        let (mut space, page) = one_page(&rt, rt.alloc(), &mut frames, allowed, write)?;
        let want = Want { write, long };
        let entry = space.entry(page);
        assert!(rt; !space.has_pinned());
        for count in [1_025, 2_049] {
            expect_ready(&rt, &space, &frames, page, want);
            let frame = pin_page(&mut space, &mut frames, page, want);
            assert_eq!(rt; frame.get(), number);
            assert_eq!(rt; seen(&rt, &frames, frame), (count, true));
            assert!(rt; space.has_pinned());
            assert_eq!(rt; space.entry(page), entry);
        }
    }
    Ok(())
}
