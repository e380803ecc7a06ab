ghost use Rattle.std.specs.Prelude.{◌≡◌, ℕ, None, Some, IfOk};
ghost use Rattle.gup_tables.specs.Pool.{PoolValue, pool_of};
ghost use Rattle.gup_space.specs.Space.{space_of, lacking, OwnsTables};

use gup_base::{Entry, FrameNo, PageNo, Rights, pack};
use gup_space::Space;
use gup_tables::{Pool, TableNo};
use std::alloc::Global;
use std::process::Abort;
use std::test::Fail;

// The last page.
const LAST: u64 = 34_359_738_367;

// A process without mappings, and the pool of which its page tables are.
pub(crate) fn start(alloc: Global) -> Result<(Space, Pool), Fail>
    ensures own { IfOk result (λ r. OwnsTables (space_of r.0) (pool_of r.1)) }
    ensures empty { IfOk result (λ r. (g : ℕ) → (space_of r.0).entry g ≡ None) }
{
    let space = Space::new(alloc)?;
    let pool = Pool::new(alloc, 16)?;
    Ok((space, pool))
}

// Gives the page the tables that it lacks.
pub(crate) fn grown(rt: &impl Abort, space: &mut Space, pool: &mut Pool, page: PageNo)
    requires { OwnsTables (space_of space.old) (pool_of pool.old) }
    ensures own { OwnsTables (space_of space.new) (pool_of pool.new) }
    ensures path { lacking (space_of space.new) page ≡ 0 }
    ensures entries { (space_of space.new).entry ≡ (space_of space.old).entry }
{
    assert!(rt; space.grow(pool, page).is_ok());
}

// A process without mappings, in which page 3 has its four page tables, and so has each of the pages up to 511.
pub(crate) fn with_tables(rt: &impl Abort, alloc: Global) -> Result<Space, Fail>
    ensures { IfOk result (λ space. (g : ℕ) → (space_of space).entry g ≡ None) }
{
    let page = PageNo::new(3).ok_or("a page")?;
    let (mut space, mut pool) = start(alloc)?;
    grown(rt, &mut space, &mut pool, page);
    Ok(space)
}

// Maps the page, which leaves the tables.
pub(crate) fn map_page(rt: &impl Abort, space: &mut Space, page: PageNo, rights: Rights)
    ensures { (pool : PoolValue) → OwnsTables (space_of space.old) pool → OwnsTables (space_of space.new) pool }
{
    assert!(rt; page.get() < 34_359_738_368);
    assert!(rt; space.map(page, 1, rights).is_ok());
}

// Gives the mapped page, that has its tables, an entry of this frame. That leaves the tables.
fn touch(rt: &impl Abort, space: &mut Space, page: PageNo, frame: FrameNo, writable: bool)
    ensures { (pool : PoolValue) → OwnsTables (space_of space.old) pool → OwnsTables (space_of space.new) pool }
{
    assert!(rt; space.rights_at(page).is_some() && space.lacks(page) == 0);
    space.set_entry(page, Some(Entry { frame, writable }));
}

// What is read on the page's path, from the root on.
fn read(space: &Space, page: PageNo) -> Option<u64> {
    let number = page.get();
    let mut table = space.root()?;
    for span in [134_217_728, 262_144, 512] {
        let word = space.word_at(table, (number / span % 512) as u16);
        table = TableNo::new(word / 4_096)?;
    }
    Some(space.word_at(table, (number % 512) as u16))
}

#[test]
fn a_page_s_path_ends_with_its_entry(rt: HostRuntime) -> Result<(), Fail> {
    let (mut space, mut pool) = start(rt.alloc())?;
    assert!(rt; space.root().is_none());
    // beside the page: its frame, whether its entry is writable, and the word that has both
    for (number, frame, writable, want) in [
        (5, 1, false, 4_097),
        (6, 2, true, 8_195),
        (262_144 + 5, 16_383, true, 67_104_771),
        (LAST, 0, true, 3),
    ] {
        let page = PageNo::new(number).ok_or("a page")?;
        let frame = FrameNo::new(frame).ok_or("a frame")?;
        map_page(&rt, &mut space, page, Rights::RW);
        grown(&rt, &mut space, &mut pool, page);
        assert_eq!(rt; read(&space, page), Some(0), "page {number}");
        touch(&rt, &mut space, page, frame, writable);
        assert_eq!(rt; pack(space.entry(page)), want, "page {number}");
        assert_eq!(rt; read(&space, page), Some(want), "page {number}");
    }
    Ok(())
}

// How many tables the process has of the pool's sixteen, by their numbers.
fn tables(space: &Space) -> Option<u16> {
    let mut many = 0_u16;
    for number in 0..16 {
        if space.place(TableNo::new(number)?).is_some() {
            many = many.checked_add(1)?;
        }
    }
    Some(many)
}

// Unmaps the page, and takes its entry and its empty tables away.
fn unmapped(rt: &impl Abort, space: &mut Space, pool: &mut Pool, page: PageNo)
    requires { OwnsTables (space_of space.old) (pool_of pool.old) }
    ensures { OwnsTables (space_of space.new) (pool_of pool.new) }
{
    assert!(rt; space.unmap_page(page));
    let _was = space.take_entry(page);
    space.retire(pool, page);
}

#[test]
fn the_root_alone_is_left_of_an_unmapped_page(rt: HostRuntime) -> Result<(), Fail> {
    let (mut space, mut pool) = start(rt.alloc())?;
    let five = PageNo::new(5).ok_or("a page")?;
    let six = PageNo::new(6).ok_or("a page")?;
    let frame = FrameNo::new(9).ok_or("a frame")?;
    for page in [five, six] {
        map_page(&rt, &mut space, page, Rights::RW);
        grown(&rt, &mut space, &mut pool, page);
        touch(&rt, &mut space, page, frame, true);
    }
    let root = space.root();
    assert_eq!(rt; (tables(&space), pool.free()), (Some(4), 12));
    // the other page keeps the tables
    unmapped(&rt, &mut space, &mut pool, six);
    assert_eq!(rt;
        (tables(&space), pool.free(), space.lacks(six)),
        (Some(4), 12, 0)
    );
    unmapped(&rt, &mut space, &mut pool, five);
    assert_eq!(rt;
        (tables(&space), pool.free(), space.lacks(five)),
        (Some(1), 15, 3)
    );
    assert!(rt; root.is_some() && space.root() == root);
    Ok(())
}
