use crate::tables::with_tables;
use gup_base::{Allowed, MirrorNo, PageNo, ProcNo, Rights};
use gup_fault::fill;
use gup_frames::Frames;
use gup_notify::Mirrors;
use std::alloc::Global;
use std::process::Abort;
use std::test::Fail;

const PAGE: u64 = 5;

// Slots of which the last is filled with the page of process 1.
fn mirrored(rt: &impl Abort, alloc: Global) -> Result<Mirrors, Fail> {
    let page = PageNo::new(PAGE).ok_or("a page")?;
    let mut space = with_tables(rt, alloc)?;
    assert!(rt; page.get() + 1 <= 34_359_738_368);
    space.map(page, 1, Rights::RW).or(Err("mapped"))?;
    let mut frames = Frames::new(alloc, 1, 0).or(Err("memory"))?;
    assert!(rt; space.rights_at(page).is_some() && space.entry(page).is_none());
    fill(&mut space, &mut frames, page, Allowed::Any).or(Err("a frame"))?;
    let mut mirrors = Mirrors::new(alloc).or(Err("memory"))?;
    assert!(rt; !mirrors.is_any_filled());
    assert!(rt; space.entry(page).is_some());
    mirrors.fill(
        MirrorNo::new(63).ok_or("a slot")?,
        ProcNo::new(1).ok_or("a process")?,
        page,
        &space,
    );
    assert!(rt; mirrors.is_any_filled());
    Ok(mirrors)
}

// Whether the slot is filled after so many pages of a process were invalidated, from this one on.
fn stays_filled(
    rt: &impl Abort,
    alloc: Global,
    proc: u64,
    page: u64,
    n: u16,
) -> Result<bool, Fail> {
    let mut mirrors = mirrored(rt, alloc)?;
    let proc = ProcNo::new(proc).ok_or("a process")?;
    let page = PageNo::new(page).ok_or("a page")?;
    mirrors.invalidate_pages(proc, page, n);
    Ok(mirrors.is_any_filled())
}

#[test]
fn a_slot_is_emptied_by_its_own_page_alone(rt: HostRuntime) -> Result<(), Fail> {
    // the process, the first page, how many, and whether the slot of page 5 of process 1 is filled then
    let rows = [
        (1, 5, 1, false),
        (0, 5, 1, true),
        (1, 4, 1, true),
        (1, 6, 1, true),
        (1, 4, 2, false),
        (1, 4, 3, false),
        (1, 3, 2, true),
        (1, 5, 0, true),
        (0, 0, 1_024, true),
        (1, 0, 1_024, false),
    ];
    for (proc, page, n, filled) in rows {
        assert_eq!(rt;
            stays_filled(&rt, rt.alloc(), proc, page, n)?,
            filled,
            "{proc} {page} {n}"
        );
    }
    Ok(())
}
