use gup_base::{PageNo, Rights};
use gup_maps::{Hole, MapRefusal, Maps};
use std::test::Fail;

// Maps n pages, where there are so many from this one on, and answers how many are mapped then.
fn map(maps: &mut Maps, first: u64, n: u16) -> Option<(Result<(), MapRefusal>, u16)> {
    let page = PageNo::new(first)?;
    if page.get() + u64::from(n) > 34_359_738_368 {
        return None;
    }
    let answer = maps.map(page, n, Rights::R);
    Some((answer, maps.len()))
}

// The rights of the page, the next mapped page, whether it was mapped when it is unmapped, and the same again.
fn unmap_twice(
    maps: &mut Maps,
    page: PageNo,
) -> (Option<Rights>, Option<u64>, bool, Option<Rights>, bool) {
    let rights = maps.rights_at(page);
    let next = maps.next_page(page).map(|p| p.get());
    let was = maps.unmap_page(page);
    (
        rights,
        next,
        was,
        maps.rights_at(page),
        maps.unmap_page(page),
    )
}

#[test]
fn mappings_are_made_and_refused(rt: HostRuntime) -> Result<(), Fail> {
    let overlap = Err(MapRefusal::Overlap);
    let full = Err(MapRefusal::Full);
    let mut maps = Maps::new(rt.alloc()).or(Err("memory"))?;
    assert_eq!(rt; maps.len(), 0);
    for (first, n, want, len) in [
        (34_359_738_367, 1, Ok(()), 1),
        (34_359_672_833, 65_535, overlap, 1),
        (0, 1_024, full, 1),
        (0, 1_000, Ok(()), 1_001),
        (1_001, 23, Ok(()), 1_024),
        (1_000, 1, full, 1_024),
        (1_000, 2, overlap, 1_024),
        (999, 1, overlap, 1_024),
        (999, 0, Ok(()), 1_024),
        (34_359_672_833, 65_534, full, 1_024),
    ] {
        assert_eq!(rt;
            map(&mut maps, first, n),
            Some((want, len)),
            "{n} pages from {first}"
        );
    }
    Ok(())
}

#[test]
fn rights_are_changed_and_lost(rt: HostRuntime) -> Result<(), Fail> {
    let mut maps = Maps::new(rt.alloc()).or(Err("memory"))?;
    let last = PageNo::new(34_359_738_367).ok_or("a page")?;
    let ten = PageNo::new(10).ok_or("a page")?;
    assert_eq!(rt; maps.map(last, 1, Rights::R), Ok(()));
    assert_eq!(rt; maps.map(ten, 3, Rights::R), Ok(()));
    for (first, n, want) in [
        (10, 4, Err(Hole)),
        (9, 2, Err(Hole)),
        (11, 2, Ok(())),
        (20, 0, Ok(())),
        (20, 1, Err(Hole)),
        (34_359_738_367, 2, Err(Hole)),
        (34_359_738_367, 1, Ok(())),
    ] {
        let page = PageNo::new(first).ok_or("a page")?;
        assert_eq!(rt;
            maps.protect(page, n, Rights::RW),
            want,
            "{n} pages from {first}"
        );
    }
    for (number, rights, next, mapped) in [
        (0, None, Some(10), false),
        (10, Some(Rights::R), Some(10), true),
        (11, Some(Rights::RW), Some(11), true),
        (13, None, Some(34_359_738_367), false),
        (34_359_738_367, Some(Rights::RW), Some(34_359_738_367), true),
    ] {
        let page = PageNo::new(number).ok_or("a page")?;
        assert_eq!(rt;
            unmap_twice(&mut maps, page),
            (rights, next, mapped, None, false),
            "page {number}"
        );
    }
    assert_eq!(rt; (maps.len(), maps.next_page(last)), (1, None));
    Ok(())
}
