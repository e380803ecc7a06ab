use crate::tables::with_tables;
use gup_base::{Entry, FrameNo, PageNo, Rights};
use gup_maps::MapRefusal;
use gup_space::Space;
use std::process::Abort;
use std::test::Fail;

// Maps the pages, and answers how many are mapped then.
fn map(
    rt: &impl Abort,
    space: &mut Space,
    first: u64,
    n: u16,
) -> Option<(Result<(), MapRefusal>, u16)> {
    let page = PageNo::new(first)?;
    assert!(rt; page.get() + u64::from(n) <= 34_359_738_368);
    let answer = space.map(page, n, Rights::R);
    Some((answer, space.len()))
}

#[test]
fn pages_are_mapped_or_refused(rt: HostRuntime) -> Result<(), Fail> {
    let mut space = Space::new(rt.alloc()).or(Err("memory"))?;
    for (first, n, want, len) in [
        (34_359_738_367, 1, Ok(()), 1),
        (34_359_738_367, 1, Err(MapRefusal::Overlap), 1),
        (0, 1_024, Err(MapRefusal::Full), 1),
        (0, 1_023, Ok(()), 1_024),
    ] {
        assert_eq!(rt;
            map(&rt, &mut space, first, n),
            Some((want, len)),
            "{n} pages from {first}"
        );
    }
    Ok(())
}

// How many of the first eight pages have an entry.
fn entries(space: &Space) -> Option<u16> {
    let mut many = 0_u16;
    for number in 0..8 {
        if space.entry(PageNo::new(number)?).is_some() {
            many = many.checked_add(1)?;
        }
    }
    Some(many)
}

// Gives the page an entry that is writable or not, or none, and answers whether the one that it has then is, and how
// many of the first eight pages have one.
fn set(
    rt: &impl Abort,
    space: &mut Space,
    number: u64,
    writable: Option<bool>,
) -> Option<(Option<bool>, u16)> {
    let page = PageNo::new(number)?;
    let frame = FrameNo::new(1_023)?;
    if let Some(writable) = writable {
        assert!(rt; space.rights_at(page).is_some() && space.lacks(page) == 0);
        space.set_entry(page, Some(Entry { frame, writable }));
    } else {
        space.set_entry(page, None);
    }
    Some((
        space.entry(page).map(|entry| entry.writable),
        entries(space)?,
    ))
}

#[test]
fn entries_are_set_and_taken_away(rt: HostRuntime) -> Result<(), Fail> {
    let mut space = with_tables(&rt, rt.alloc())?;
    assert_eq!(rt; map(&rt, &mut space, 3, 2), Some((Ok(()), 2)));
    for (number, writable, many) in [
        (3, Some(false), 1),
        (4, Some(true), 2),
        (3, Some(true), 2),
        (3, None, 1),
        (5, None, 1),
        (4, None, 0),
    ] {
        assert_eq!(rt;
            set(&rt, &mut space, number, writable),
            Some((writable, many)),
            "page {number}"
        );
    }
    Ok(())
}

#[test]
fn walks_are_counted(rt: HostRuntime) -> Result<(), Fail> {
    let mut space = Space::new(rt.alloc()).or(Err("memory"))?;
    assert_eq!(rt; space.walks(), 0);
    space.enter();
    space.enter();
    assert_eq!(rt; space.walks(), 2);
    space.leave();
    assert_eq!(rt; space.walks(), 1);
    Ok(())
}
