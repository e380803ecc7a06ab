ghost use Rattle.std.specs.Prelude.{◌≡◌, ℕ, ◌<◌, ◌^◌, Some, None, IsSome};
ghost use Rattle.gup_base.specs.declared.entry.Entry.{Entry as EntryValue};
ghost use Rattle.gup_frames.specs.Frames.{frames_of, IsFrame};
ghost use Rattle.gup_space.specs.Space.{space_of, lacking};
ghost use Rattle.gup_space.specs.Counted.{IsCounted};
ghost use Rattle.gup_fork.specs.Forks.{with_maps_of};

use crate::tables::with_tables;
use gup_base::{Allowed, Entry, FrameNo, PageNo, Rights, WordNo, Zone};
use gup_fork::{begin, copies, copy_word, end, fail, place_child, share};
use gup_frames::Frames;
use gup_space::Space;
use std::alloc::Global;
use std::process::Abort;
use std::test::Fail;

// The frame is there.
fn expect_frame(rt: &impl Abort, frames: &Frames, frame: FrameNo)
    ensures { IsFrame (frames_of frames.now) frame }
{
    let many = u64::from(frames.movable()) + u64::from(frames.normal());
    assert!(rt; frame.get() < many);
}

// The page has an entry, which is of a mapped page and of a frame with references.
fn expect_entry(rt: &impl Abort, parent: &Space, frames: &Frames, page: PageNo)
    ensures entry { IsSome ((space_of parent.now).entry page) }
    ensures counted { IsCounted (frames_of frames.now) (space_of parent.now) page }
    ensures few { (e : EntryValue) → (space_of parent.now).entry page ≡ Some e
        → (frames_of frames.now).count e.frame < 2 ^ 40 }
{
    let Some(entry) = parent.entry(page) else {
        panic!(rt; "the page has no entry");
    };
    expect_frame(rt, frames, entry.frame);
    let count = frames.count(entry.frame);
    let mapped = parent.rights_at(page).is_some();
    assert!(rt; mapped && count > 0 && count < 1_099_511_627_776);
}

// The page is mapped, has no entry, and lacks no page table.
fn expect_room(rt: &impl Abort, child: &Space, page: PageNo)
    ensures mapped { IsSome ((space_of child.now).right page) }
    ensures absent { (space_of child.now).entry page ≡ None }
    ensures path { lacking (space_of child.now) page ≡ 0 }
{
    let mapped = child.rights_at(page).is_some();
    assert!(rt; mapped && child.entry(page).is_none() && child.lacks(page) == 0);
}

// Maps page 3, and gives it frame 0, which is marked and whose word 0 is 7.
fn give(rt: &impl Abort, space: &mut Space, frames: &mut Frames) -> Option<()> {
    let page = PageNo::new(3)?;
    assert!(rt; page.get() < 34_359_738_368);
    let _mapped = space.map(page, 1, Rights::RW).ok()?;
    let frame = frames.take(Allowed::Any)?;
    expect_frame(rt, frames, frame);
    frames.set_mark(frame, true);
    expect_frame(rt, frames, frame);
    frames.set_word(frame, WordNo::new(0)?, 7);
    assert!(rt; space.rights_at(page).is_some() && space.lacks(page) == 0);
    let writable = true;
    space.set_entry(page, Some(Entry { frame, writable }));
    Some(())
}

// A process with page 3, which has frame 0 of two.
fn one_page(rt: &impl Abort, alloc: Global) -> Result<(Space, Frames), Fail> {
    let mut frames = Frames::new(alloc, 1, 1).or(Err("memory"))?;
    let mut space = with_tables(rt, alloc)?;
    let given = give(rt, &mut space, &mut frames);
    assert!(rt; given.is_some());
    Ok((space, frames))
}

// Begins the fork where the sequence isn't too high.
fn begin_here(rt: &impl Abort, parent: &mut Space, child: &mut Space)
    ensures { space_of child.new ≡ with_maps_of (space_of parent.old) (space_of child.old) }
{
    assert!(rt; parent.sequence() < 1_099_511_627_776);
    begin(parent, child);
}

#[test]
fn a_child_has_its_parents_mappings(rt: HostRuntime) -> Result<(), Fail> {
    let (mut parent, _frames) = one_page(&rt, rt.alloc())?;
    let mut child = with_tables(&rt, rt.alloc())?;
    let page = PageNo::new(3).ok_or("a page")?;
    begin_here(&rt, &mut parent, &mut child);
    let sequences = (parent.sequence(), child.sequence());
    let mapped = (child.rights_at(page), child.len());
    let entries = (child.entry(page).is_some(), parent.entry(page).is_some());
    assert_eq!(rt;
        (sequences, mapped, entries),
        ((1, 0), (Some(Rights::RW), 1), (false, true))
    );
    Ok(())
}

#[test]
fn the_end_makes_the_sequence_even(rt: HostRuntime) -> Result<(), Fail> {
    let (mut parent, _frames) = one_page(&rt, rt.alloc())?;
    let mut child = with_tables(&rt, rt.alloc())?;
    begin_here(&rt, &mut parent, &mut child);
    assert!(rt; parent.sequence() < 1_099_511_627_776);
    end(&mut parent);
    assert_eq!(rt; parent.sequence(), 2);
    Ok(())
}

// Gives frame 0 this mark, and one pin more or one reference more.
fn grab(rt: &impl Abort, frames: &mut Frames, marked: bool, pins: bool) -> Option<()> {
    let frame = FrameNo::new(0)?;
    expect_frame(rt, frames, frame);
    frames.set_mark(frame, marked);
    expect_frame(rt, frames, frame);
    let count = frames.count(frame);
    assert!(rt; count > 0 && count < 1_099_511_627_776);
    if pins {
        frames.grab(frame, 1_024);
    } else {
        frames.grab(frame, 1);
    }
    Some(())
}

// Whether a fork copies page 3, where its frame has this mark, its process has pinned, and its frame is pinned.
fn is_copied(
    rt: &impl Abort,
    alloc: Global,
    marked: bool,
    has_pinned: bool,
    pins: bool,
) -> Result<bool, Fail> {
    let (mut parent, mut frames) = one_page(rt, alloc)?;
    let grabbed = grab(rt, &mut frames, marked, pins);
    assert!(rt; grabbed.is_some());
    if has_pinned {
        parent.set_pinned();
    }
    let page = PageNo::new(3).ok_or("a page")?;
    expect_entry(rt, &parent, &frames, page);
    Ok(copies(&parent, &frames, page))
}

#[test]
fn exclusive_pages_that_may_be_pinned_are_copied(rt: HostRuntime) -> Result<(), Fail> {
    for (marked, has_pinned, pins, want) in [
        (true, true, true, true),
        (false, true, true, false),
        (true, false, true, false),
        (true, true, false, false),
    ] {
        assert_eq!(rt; is_copied(&rt, rt.alloc(), marked, has_pinned, pins)?, want);
    }
    Ok(())
}

// Shares the page.
fn share_here(
    rt: &impl Abort,
    parent: &mut Space,
    child: &mut Space,
    frames: &mut Frames,
    page: PageNo,
) {
    expect_entry(rt, parent, frames, page);
    expect_room(rt, child, page);
    share(parent, child, frames, page);
}

// The frame's references, its mark and its word 0, and how many frames of each zone are free.
fn seen(rt: &impl Abort, frames: &Frames, number: u64) -> Option<(u64, bool, u64, u32, u32)> {
    let frame = FrameNo::new(number)?;
    expect_frame(rt, frames, frame);
    let word = frames.word(frame, WordNo::new(0)?);
    Some((
        frames.count(frame),
        frames.mark(frame),
        word,
        frames.free(Zone::Movable),
        frames.free(Zone::Normal),
    ))
}

// The frame of the page's entry, and whether the entry is writable.
fn entry_seen(space: &Space, page: PageNo) -> Option<(u64, bool)> {
    let entry = space.entry(page)?;
    Some((entry.frame.get(), entry.writable))
}

#[test]
fn shared_pages_are_read_only_in_both(rt: HostRuntime) -> Result<(), Fail> {
    let (mut parent, mut frames) = one_page(&rt, rt.alloc())?;
    let mut child = with_tables(&rt, rt.alloc())?;
    let page = PageNo::new(3).ok_or("a page")?;
    begin_here(&rt, &mut parent, &mut child);
    assert_eq!(rt; seen(&rt, &frames, 0), Some((1, true, 7, 0, 1)));
    share_here(&rt, &mut parent, &mut child, &mut frames, page);
    let entries = (entry_seen(&parent, page), entry_seen(&child, page));
    assert_eq!(rt;
        (entries, seen(&rt, &frames, 0)),
        (
            (Some((0, false)), Some((0, false))),
            Some((2, false, 7, 0, 1))
        )
    );
    Ok(())
}

// Takes a frame for the copy of the page, which is the one with this number.
fn take_copy(rt: &impl Abort, frames: &mut Frames, number: u64) -> Option<FrameNo> {
    let copy = frames.take(Allowed::Any)?;
    assert!(rt; copy.get() == number);
    Some(copy)
}

// The frame is there, has references, and isn't the one of the page's entry.
fn expect_copy(rt: &impl Abort, parent: &Space, frames: &Frames, page: PageNo, copy: FrameNo)
    ensures there { IsFrame (frames_of frames.now) copy }
    ensures held { (frames_of frames.now).count copy ≡ 0 → ⊥ }
    ensures apart { (e : EntryValue) → (space_of parent.now).entry page ≡ Some e → copy ≡ e.frame → ⊥ }
{
    expect_frame(rt, frames, copy);
    assert!(rt; frames.count(copy) > 0);
    let Some(entry) = parent.entry(page) else {
        return;
    };
    assert!(rt; copy.get() != entry.frame.get());
}

// Copies word 0 of the page, and places the copy.
fn copy_here(
    rt: &impl Abort,
    parent: &Space,
    child: &mut Space,
    frames: &mut Frames,
    page: PageNo,
) -> Option<()> {
    let copy = take_copy(rt, frames, 1)?;
    let word = WordNo::new(0)?;
    expect_entry(rt, parent, frames, page);
    expect_copy(rt, parent, frames, page, copy);
    copy_word(parent, frames, page, copy, word);
    expect_entry(rt, parent, frames, page);
    expect_copy(rt, parent, frames, page, copy);
    expect_room(rt, child, page);
    place_child(parent, child, frames, page, copy);
    Some(())
}

#[test]
fn a_copied_page_is_the_childs_own(rt: HostRuntime) -> Result<(), Fail> {
    let (mut parent, mut frames) = one_page(&rt, rt.alloc())?;
    let mut child = with_tables(&rt, rt.alloc())?;
    let page = PageNo::new(3).ok_or("a page")?;
    begin_here(&rt, &mut parent, &mut child);
    let copied = copy_here(&rt, &parent, &mut child, &mut frames, page);
    assert_eq!(rt;
        (copied, entry_seen(&child, page), seen(&rt, &frames, 1)),
        (Some(()), Some((1, true)), Some((1, true, 7, 0, 0)))
    );
    Ok(())
}

// Shares the page with the child, which has no entry yet, and then the fork fails.
fn fail_here(
    rt: &impl Abort,
    parent: &mut Space,
    child: &mut Space,
    frames: &mut Frames,
    page: PageNo,
)
    requires { (g : ℕ) → (space_of child.old).entry g ≡ None }
{
    let Some(_entry) = parent.entry(page) else {
        return;
    };
    expect_entry(rt, parent, frames, page);
    expect_room(rt, child, page);
    share(parent, child, frames, page);
    assert!(rt; parent.sequence() < 1_099_511_627_776);
    fail(parent, child, frames);
}

// How many of the first eight pages have an entry.
fn entries(space: &Space) -> Option<u16> {
    let mut many = 0_u16;
    for number in 0..8 {
        if space.entry(PageNo::new(number)?).is_some() {
            many = many.checked_add(1)?;
        }
    }
    Some(many)
}

// The fork into a new child fails after the share of the page; how many pages and entries the child then has.
fn fail_child(
    rt: &impl Abort,
    alloc: Global,
    parent: &mut Space,
    frames: &mut Frames,
    page: PageNo,
) -> Result<(u16, u16), Fail> {
    let mut child = with_tables(rt, alloc)?;
    begin_here(rt, parent, &mut child);
    fail_here(rt, parent, &mut child, frames, page);
    let entries = entries(&child).ok_or("pages")?;
    Ok((child.len(), entries))
}

#[test]
fn a_failed_fork_gives_its_references_back(rt: HostRuntime) -> Result<(), Fail> {
    let (mut parent, mut frames) = one_page(&rt, rt.alloc())?;
    let page = PageNo::new(3).ok_or("a page")?;
    let left = fail_child(&rt, rt.alloc(), &mut parent, &mut frames, page)?;
    assert_eq!(rt;
        (left, seen(&rt, &frames, 0)),
        ((0, 0), Some((1, false, 7, 0, 1)))
    );
    Ok(())
}
