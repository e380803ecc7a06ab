ghost use Rattle.std.specs.Prelude.{◌≡◌, OnErr};
ghost use Rattle.gup_frames.specs.Frames.{frames_of, IsFrame};
ghost use Rattle.gup_space.specs.Space.{space_of};
ghost use Rattle.gup_space.specs.Counted.{IsCounted};

use crate::tables::{grown, map_page, start, with_tables};
use gup_base::{Allowed, Entry, FrameNo, PageNo, Rights, WordNo, Zone};
use gup_fault::{
    Denied, NoFrame, break_copy, fill, mark, ready_read, ready_write, unshare, upgrade,
};
use gup_frames::Frames;
use gup_space::Space;
use std::alloc::Global;
use std::process::Abort;
use std::test::Fail;

#[derive(Clone, Copy, Debug, PartialEq, Eq)]
enum Call {
    Read,
    Unshare,
    Write,
}

// The frame is there.
fn expect_frame(rt: &impl Abort, frames: &Frames, frame: FrameNo)
    ensures { IsFrame (frames_of frames.now) frame }
{
    let many = u64::from(frames.movable()) + u64::from(frames.normal());
    assert!(rt; frame.get() < many);
}

// What each call needs of the page.
fn expect_counted(rt: &impl Abort, space: &Space, frames: &Frames, page: PageNo)
    ensures { IsCounted (frames_of frames.now) (space_of space.now) page }
{
    let Some(entry) = space.entry(page) else {
        return;
    };
    expect_frame(rt, frames, entry.frame);
    assert!(rt; space.rights_at(page).is_some() && frames.count(entry.frame) > 0);
}

fn ready(
    rt: &impl Abort,
    space: &mut Space,
    frames: &mut Frames,
    page: PageNo,
    call: Call,
) -> Result<(), Denied>
    ensures { OnErr result (space_of space.new ≡ space_of space.old) }
{
    expect_counted(rt, space, frames, page);
    match call {
        Call::Read => ready_read(space, frames, page, Allowed::Any),
        Call::Unshare => unshare(space, frames, page, Allowed::Any),
        Call::Write => ready_write(space, frames, page, Allowed::Any),
    }
}

// A process with these pages mapped.
fn space_with(alloc: Global, rt: &impl Abort, pages: &[(u64, Rights)]) -> Result<Space, Fail> {
    let mut space = with_tables(rt, alloc)?;
    for (number, rights) in pages {
        let page = PageNo::new(*number).ok_or("a page")?;
        assert!(rt; page.get() < 34_359_738_368);
        space.map(page, 1, *rights).or(Err("a mapping"))?;
    }
    Ok(space)
}

// The page's frame, whether its entry is writable, and the frame's mark and count.
fn seen(
    rt: &impl Abort,
    space: &Space,
    frames: &Frames,
    page: PageNo,
) -> Option<(u64, bool, bool, u64)> {
    let entry = space.entry(page)?;
    expect_frame(rt, frames, entry.frame);
    Some((
        entry.frame.get(),
        entry.writable,
        frames.mark(entry.frame),
        frames.count(entry.frame),
    ))
}

// What the call answers, and what is seen of the page then.
fn readied(
    rt: &impl Abort,
    space: &mut Space,
    frames: &mut Frames,
    number: u64,
    call: Call,
) -> Option<(Result<(), Denied>, Option<(u64, bool, bool, u64)>)> {
    let page = PageNo::new(number)?;
    let answer = ready(rt, space, frames, page, call);
    Some((answer, seen(rt, space, frames, page)))
}

#[test]
fn pages_are_made_ready_or_refused(rt: HostRuntime) -> Result<(), Fail> {
    let pages = [
        (3, Rights::RW),
        (4, Rights::RW),
        (5, Rights::R),
        (7, Rights::RW),
    ];
    let mut space = space_with(rt.alloc(), &rt, &pages)?;
    let mut frames = Frames::new(rt.alloc(), 1, 2).or(Err("memory"))?;
    for (number, call, want, got) in [
        (6, Call::Read, Err(Denied::Missing), None),
        (6, Call::Unshare, Err(Denied::Missing), None),
        (6, Call::Write, Err(Denied::Missing), None),
        (5, Call::Write, Err(Denied::Forbidden), None),
        (5, Call::Read, Ok(()), Some((0, false, true, 1))),
        (5, Call::Unshare, Ok(()), Some((0, false, true, 1))),
        (3, Call::Write, Ok(()), Some((1, true, true, 1))),
        (4, Call::Unshare, Ok(()), Some((2, false, true, 1))),
        (4, Call::Write, Ok(()), Some((2, true, true, 1))),
        (7, Call::Read, Err(Denied::NoFrame), None),
        (7, Call::Unshare, Err(Denied::NoFrame), None),
        (7, Call::Write, Err(Denied::NoFrame), None),
    ] {
        assert_eq!(rt;
            readied(&rt, &mut space, &mut frames, number, call),
            Some((want, got)),
            "{call:?} of {number}"
        );
    }
    Ok(())
}

// The page lacks page tables, so the call is refused, and changes nothing.
fn refused(rt: &impl Abort, space: &mut Space, frames: &mut Frames, page: PageNo, call: Call)
    ensures { space_of space.new ≡ space_of space.old }
{
    assert!(rt; space.lacks(page) > 0);
    let answer = ready(rt, space, frames, page, call);
    assert_eq!(rt; answer, Err(Denied::NoFrame), "{call:?}");
    assert!(rt; answer.is_err());
}

// A page of a new process gets its entry by this call once it has its page tables, and not before.
fn ready_once_grown(
    rt: &impl Abort,
    alloc: Global,
    call: Call,
    writable: bool,
) -> Result<(), Fail> {
    let mut frames = Frames::new(alloc, 1, 0).or(Err("memory"))?;
    let (mut space, mut pool) = start(alloc)?;
    let page = PageNo::new(3).ok_or("a page")?;
    map_page(rt, &mut space, page, Rights::RW);
    refused(rt, &mut space, &mut frames, page, call);
    assert_eq!(rt; (space.entry(page), frames.free(Zone::Movable)), (None, 1));
    grown(rt, &mut space, &mut pool, page);
    let answer = ready(rt, &mut space, &mut frames, page, call);
    assert_eq!(rt;
        (answer, seen(rt, &space, &frames, page)),
        (Ok(()), Some((0, writable, true, 1))),
        "{call:?}"
    );
    Ok(())
}

#[test]
fn pages_without_tables_are_refused(rt: HostRuntime) -> Result<(), Fail> {
    for (call, writable) in [
        (Call::Read, false),
        (Call::Unshare, false),
        (Call::Write, true),
    ] {
        ready_once_grown(&rt, rt.alloc(), call, writable)?;
    }
    Ok(())
}

// The other page gets the page's frame as well, as a fork shares it.
fn share(
    rt: &impl Abort,
    space: &mut Space,
    frames: &mut Frames,
    page: PageNo,
    other: PageNo,
) -> Result<(), Fail> {
    let entry = space.entry(page).ok_or("an entry")?;
    let frame = entry.frame;
    expect_frame(rt, frames, frame);
    let count = frames.count(frame);
    assert!(rt; 0 < count && count < 1_099_511_627_776);
    frames.grab(frame, 1);
    expect_frame(rt, frames, frame);
    frames.set_mark(frame, false);
    for at in [page, other] {
        let shared = Entry {
            frame,
            writable: false,
        };
        assert!(rt; space.rights_at(at).is_some() && space.lacks(at) == 0);
        space.set_entry(at, Some(shared));
    }
    Ok(())
}

// The frame's word 511.
fn last_word(rt: &impl Abort, frames: &Frames, frame: FrameNo) -> Option<u64> {
    expect_frame(rt, frames, frame);
    let last = WordNo::new(511)?;
    Some(frames.word(frame, last))
}

// Writes word 511 of the frame.
fn write_last_word(rt: &impl Abort, frames: &mut Frames, frame: FrameNo, value: u64) -> Option<()> {
    expect_frame(rt, frames, frame);
    let last = WordNo::new(511)?;
    frames.set_word(frame, last, value);
    Some(())
}

// Page 3 gets frame 0, whose last word is 9, and pages 4 and 5 share it.
fn shared_by_three(rt: &impl Abort, alloc: Global, frames: &mut Frames) -> Result<Space, Fail> {
    let pages = [
        (3, Rights::RW),
        (4, Rights::RW),
        (5, Rights::RW),
        (6, Rights::RW),
    ];
    let mut space = space_with(alloc, rt, &pages)?;
    let three = PageNo::new(3).ok_or("a page")?;
    let zero = FrameNo::new(0).ok_or("a frame")?;
    ready(rt, &mut space, frames, three, Call::Write).or(Err("a frame"))?;
    write_last_word(rt, frames, zero, 9).ok_or("a word")?;
    for number in 4..6 {
        let other = PageNo::new(number).ok_or("a page")?;
        share(rt, &mut space, frames, three, other)?;
    }
    Ok(space)
}

#[test]
fn shared_pages_are_copied_and_then_exclusive(rt: HostRuntime) -> Result<(), Fail> {
    let mut frames = Frames::new(rt.alloc(), 0, 3).or(Err("memory"))?;
    let mut space = shared_by_three(&rt, rt.alloc(), &mut frames)?;
    for (number, call, got) in [
        (3, Call::Read, (0, false, false, 3)),
        (3, Call::Write, (1, true, true, 1)),
        (5, Call::Unshare, (2, false, true, 1)),
        (4, Call::Unshare, (0, false, true, 1)),
        (4, Call::Write, (0, true, true, 1)),
    ] {
        assert_eq!(rt;
            readied(&rt, &mut space, &mut frames, number, call),
            Some((Ok(()), Some(got))),
            "{call:?} of {number}"
        );
    }
    let one = FrameNo::new(1).ok_or("a frame")?;
    assert_eq!(rt; last_word(&rt, &frames, one), Some(9));
    Ok(())
}

#[test]
fn shared_pages_want_a_frame(rt: HostRuntime) -> Result<(), Fail> {
    let mut frames = Frames::new(rt.alloc(), 1, 0).or(Err("memory"))?;
    let mut space = shared_by_three(&rt, rt.alloc(), &mut frames)?;
    for call in [Call::Unshare, Call::Write] {
        assert_eq!(rt;
            readied(&rt, &mut space, &mut frames, 4, call),
            Some((Err(Denied::NoFrame), Some((0, false, false, 3)))),
            "{call:?}"
        );
    }
    Ok(())
}

fn fill_page(
    rt: &impl Abort,
    space: &mut Space,
    frames: &mut Frames,
    page: PageNo,
) -> Result<(), NoFrame> {
    expect_counted(rt, space, frames, page);
    assert!(rt; space.rights_at(page).is_some() && space.entry(page).is_none());
    fill(space, frames, page, Allowed::Only(Zone::Normal))
}

fn mark_alone(rt: &impl Abort, space: &Space, frames: &mut Frames, page: PageNo) -> bool {
    expect_counted(rt, space, frames, page);
    let Some(entry) = space.entry(page) else {
        return false;
    };
    expect_frame(rt, frames, entry.frame);
    assert!(rt; !frames.mark(entry.frame) && frames.count(entry.frame) == 1);
    mark(space, frames, page);
    true
}

fn upgrade_marked(rt: &impl Abort, space: &mut Space, frames: &Frames, page: PageNo) -> bool {
    let Some(Rights::RW) = space.rights_at(page) else {
        return false;
    };
    let Some(entry) = space.entry(page) else {
        return false;
    };
    expect_frame(rt, frames, entry.frame);
    assert!(rt; frames.mark(entry.frame));
    upgrade(space, frames, page);
    true
}

fn break_shared(
    rt: &impl Abort,
    space: &mut Space,
    frames: &mut Frames,
    page: PageNo,
    writable: bool,
) -> Option<Result<(), NoFrame>> {
    expect_counted(rt, space, frames, page);
    let Some(Rights::RW) = space.rights_at(page) else {
        return None;
    };
    let Some(entry) = space.entry(page) else {
        return None;
    };
    expect_frame(rt, frames, entry.frame);
    assert!(rt; !frames.mark(entry.frame));
    Some(break_copy(space, frames, page, Allowed::Any, writable))
}

#[test]
fn pages_are_filled_and_upgraded(rt: HostRuntime) -> Result<(), Fail> {
    let mut space = space_with(rt.alloc(), &rt, &[(3, Rights::RW), (4, Rights::RW)])?;
    let mut frames = Frames::new(rt.alloc(), 1, 1).or(Err("memory"))?;
    let three = PageNo::new(3).ok_or("a page")?;
    let four = PageNo::new(4).ok_or("a page")?;
    let filled = (
        fill_page(&rt, &mut space, &mut frames, three),
        fill_page(&rt, &mut space, &mut frames, four),
    );
    let upgraded = upgrade_marked(&rt, &mut space, &frames, three);
    assert_eq!(rt;
        (filled, upgraded, seen(&rt, &space, &frames, three)),
        ((Ok(()), Err(NoFrame)), true, Some((1, true, true, 1)))
    );
    Ok(())
}

#[test]
fn pages_are_broken_and_marked(rt: HostRuntime) -> Result<(), Fail> {
    let mut frames = Frames::new(rt.alloc(), 3, 0).or(Err("memory"))?;
    let mut space = shared_by_three(&rt, rt.alloc(), &mut frames)?;
    let three = PageNo::new(3).ok_or("a page")?;
    for (number, writable) in [(4, true), (5, false)] {
        let page = PageNo::new(number).ok_or("a page")?;
        assert_eq!(rt;
            break_shared(&rt, &mut space, &mut frames, page, writable),
            Some(Ok(())),
            "page {number}"
        );
    }
    let marked = mark_alone(&rt, &space, &mut frames, three);
    assert_eq!(rt;
        (marked, seen(&rt, &space, &frames, three)),
        (true, Some((0, false, true, 1)))
    );
    Ok(())
}

#[test]
fn refusals_can_be_read(rt: HostRuntime) -> Result<(), Fail> {
    for (denied, text) in [
        (Denied::Missing, "the page isn't mapped"),
        (Denied::Forbidden, "the page's rights don't allow a write"),
        (Denied::NoFrame, "no frame of the allowed zones is free"),
    ] {
        let shown = format!(in rt.alloc(); "{denied}")?;
        assert_eq!(rt; shown.as_str(), text);
    }
    Ok(())
}
