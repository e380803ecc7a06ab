ghost use Rattle.std.specs.Prelude.{◌≡◌, ◌<◌, true, false, IfOk};
ghost use Rattle.gup_tables.specs.Pool.{pool_of, with_free};
ghost use Rattle.gup_tables.specs.Tree.{tree_of};

use super::*;
use gup_base::{Entry, FrameNo, PageNo};
use std::alloc::Global;
use std::process::Abort;
use std::test::Fail;

// How many tables the pools and trees of these tests are of.
const MOST: u32 = 20;

// A pool of so many tables gives them in order, and then none.
fn is_taken_in_order(rt: &impl Abort, alloc: Global, tables: u32) -> Result<(), Fail> {
    assert!(rt; tables <= 8_192);
    let mut pool = Pool::new(alloc, tables)?;
    assert_eq!(rt; pool.tables(), tables);
    for number in 0..tables {
        assert_eq!(rt; pool.free(), tables - number);
        let table = pool.take().ok_or("no table")?;
        assert_eq!(rt; table.number().get(), u64::from(number), "of {tables}");
    }
    assert!(rt; pool.take().is_none() && pool.free() == 0);
    Ok(())
}

#[test]
fn tables_are_taken_in_order(rt: HostRuntime) -> Result<(), Fail> {
    for tables in [0, 1, 3, 64, 65, 8_192] {
        is_taken_in_order(&rt, rt.alloc(), tables)?;
    }
    Ok(())
}

// Takes a table, which has to have this number.
fn taken(rt: &impl Abort, pool: &mut Pool, number: u64) -> Result<Table, Fail>
    ensures table { IfOk result (λ table. table ≡ number) }
    ensures pool { IfOk result (λ _. pool_of pool.new ≡ with_free number false (pool_of pool.old)) }
{
    let table = pool.take().ok_or("no table")?;
    assert!(rt; table.number().get() == number);
    Ok(table)
}

#[test]
fn the_lowest_is_taken_again(rt: HostRuntime) -> Result<(), Fail> {
    let mut pool = Pool::new(rt.alloc(), 3)?;
    let _zero = taken(&rt, &mut pool, 0)?;
    let one = taken(&rt, &mut pool, 1)?;
    let two = taken(&rt, &mut pool, 2)?;
    pool.give_back(two);
    pool.give_back(one);
    assert_eq!(rt; pool.free(), 2);
    let _one = taken(&rt, &mut pool, 1)?;
    let _two = taken(&rt, &mut pool, 2)?;
    assert_eq!(rt; pool.free(), 0);
    Ok(())
}

fn page_no(number: u64) -> Result<PageNo, Fail> {
    let page = PageNo::new(number).ok_or("no page")?;
    Ok(page)
}

// Adds the pool's lowest table on the page's path. So many were missing, and it stands at this place.
fn is_added(
    rt: &impl Abort,
    tree: &mut Tree,
    pool: &mut Pool,
    page: u64,
    missing: u8,
    added: (u64, u8, u64),
) -> Result<(), Fail>
    requires { (tree_of tree.old).room ≡ 20 }
    ensures room { (tree_of tree.new).room ≡ 20 }
    ensures pool { IfOk result (λ _. pool_of pool.new ≡ with_free added.0 false (pool_of pool.old)) }
{
    let (number, level, span) = added;
    let page = page_no(page)?;
    let table = taken(rt, pool, number)?;
    let number = table.number();
    assert_eq!(rt; tree.lacks(page), missing);
    assert!(rt; missing > 0 && tree.tables() < MOST && tree.place(number).is_none());
    tree.add(page, table);
    assert_eq!(rt; tree.lacks(page), missing - 1);
    assert_eq!(rt; tree.place(number), Some(Place { level, span }));
    Ok(())
}

// The last page.
const LAST: u64 = 34_359_738_367;

// The pages on whose paths tables are added, one each time: how many were missing, and which table stands where then.
const ADDED: [(u64, u8, (u64, u8, u64)); 13] = [
    (5, 4, (0, 4, 0)),
    (5, 3, (1, 3, 0)),
    (5, 2, (2, 2, 0)),
    (5, 1, (3, 1, 0)),
    (LAST, 3, (4, 3, 255)),
    (LAST, 2, (5, 2, 131_071)),
    (LAST, 1, (6, 1, 67_108_863)),
    (512, 1, (7, 1, 1)),
    (262_144, 2, (8, 2, 1)),
    (262_144, 1, (9, 1, 512)),
    (134_217_728, 3, (10, 3, 1)),
    (134_217_728, 2, (11, 2, 512)),
    (134_217_728, 1, (12, 1, 262_144)),
];

// The tree with all of these tables.
fn grown(rt: &impl Abort, alloc: Global) -> Result<Tree, Fail> {
    let mut pool = Pool::new(alloc, MOST)?;
    let mut tree = Tree::new(alloc, MOST)?;
    for (page, missing, table) in ADDED {
        is_added(rt, &mut tree, &mut pool, page, missing, table)?;
    }
    Ok(tree)
}

// Gives the page an entry of this frame, that may be written or not, or none, and sees it there.
fn is_set(
    rt: &impl Abort,
    tree: &mut Tree,
    page: u64,
    entry: Option<(u64, bool)>,
) -> Result<(), Fail> {
    let page = page_no(page)?;
    let entry = match entry {
        Some((frame, writable)) => {
            let frame = FrameNo::new(frame).ok_or("no frame")?;
            Some(Entry { frame, writable })
        }
        None => None,
    };
    assert!(rt; tree.lacks(page) == 0);
    tree.set(page, entry);
    assert_eq!(rt; tree.look(page), entry);
    Ok(())
}

// Word `i` of the table with this number, which is in the tree.
fn word(rt: &impl Abort, tree: &Tree, number: u64, i: u16) -> Result<u64, Fail> {
    let table = TableNo::new(number).ok_or("no number")?;
    assert!(rt; i < 512 && tree.place(table).is_some());
    Ok(tree.word_at(table, i))
}

#[test]
fn words_lead_from_the_root_on(rt: HostRuntime) -> Result<(), Fail> {
    let mut tree = grown(&rt, rt.alloc())?;
    is_set(&rt, &mut tree, 5, Some((77, false)))?;
    is_set(&rt, &mut tree, LAST, Some((16_383, true)))?;
    for (number, i, want) in [
        (0, 0, 3 + 4_096),
        (0, 1, 3 + 4_096 * 10),
        (0, 2, 0),
        (0, 255, 3 + 4_096 * 4),
        (1, 0, 3 + 4_096 * 2),
        (1, 1, 3 + 4_096 * 8),
        (2, 0, 3 + 4_096 * 3),
        (2, 1, 3 + 4_096 * 7),
        (3, 4, 0),
        (3, 5, 1 + 4_096 * 77),
        (4, 511, 3 + 4_096 * 5),
        (5, 511, 3 + 4_096 * 6),
        (6, 511, 3 + 4_096 * 16_383),
        (8, 0, 3 + 4_096 * 9),
        (10, 0, 3 + 4_096 * 11),
        (11, 0, 3 + 4_096 * 12),
    ] {
        assert_eq!(rt; word(&rt, &tree, number, i)?, want, "{i} of {number}");
    }
    Ok(())
}

// The page's path has these tables of level 3, 2 and 1, or lacks one.
fn has_path(
    rt: &impl Abort,
    tree: &Tree,
    page: u64,
    want: Option<(u64, u64, u64)>,
) -> Result<(), Fail> {
    let path = tree.path(page_no(page)?);
    let tables = path.map(|p| (p.third.get(), p.second.get(), p.last.get()));
    assert_eq!(rt; tables, want, "at {page}");
    Ok(())
}

#[test]
fn paths_are_read(rt: HostRuntime) -> Result<(), Fail> {
    let tree = grown(&rt, rt.alloc())?;
    for (page, want) in [
        (5, Some((1, 2, 3))),
        (1_023, Some((1, 2, 7))),
        (1_024, None),
        (262_144, Some((1, 8, 9))),
        (134_217_728, Some((10, 11, 12))),
        (134_218_240, None),
        (268_435_456, None),
        (LAST, Some((4, 5, 6))),
    ] {
        has_path(&rt, &tree, page, want)?;
    }
    Ok(())
}

// So many tables of the page's path are missing.
fn lacks(rt: &impl Abort, tree: &Tree, page: u64, want: u8) -> Result<(), Fail> {
    assert_eq!(rt; tree.lacks(page_no(page)?), want, "at {page}");
    Ok(())
}

#[test]
fn neighbours_share_tables(rt: HostRuntime) -> Result<(), Fail> {
    let tree = grown(&rt, rt.alloc())?;
    for (page, want) in [
        (0, 0),
        (511, 0),
        (1_023, 0),
        (1_024, 1),
        (262_143, 1),
        (262_656, 1),
        (524_288, 2),
        (134_217_727, 2),
        (268_435_456, 3),
        (LAST - 512, 1),
    ] {
        lacks(&rt, &tree, page, want)?;
    }
    Ok(())
}

// The next page from this one on that has an entry.
fn is_next(rt: &impl Abort, tree: &Tree, from: u64, want: Option<u64>) -> Result<(), Fail> {
    let found = match tree.next_touched(page_no(from)?) {
        Some(page) => Some(page.get()),
        None => None,
    };
    assert_eq!(rt; found, want, "from {from} on");
    Ok(())
}

#[test]
fn touched_pages_are_found(rt: HostRuntime) -> Result<(), Fail> {
    let mut tree = grown(&rt, rt.alloc())?;
    is_next(&rt, &tree, 0, None)?;
    for page in [5, 512, 262_144, 134_217_728, LAST] {
        is_set(&rt, &mut tree, page, Some((page % 1_000, true)))?;
    }
    for (from, want) in [
        (0, 5),
        (5, 5),
        (6, 512),
        (512, 512),
        (513, 262_144),
        (262_145, 134_217_728),
        (134_217_729, LAST),
        (LAST, LAST),
    ] {
        is_next(&rt, &tree, from, Some(want))?;
    }
    is_set(&rt, &mut tree, LAST, None)?;
    is_next(&rt, &tree, 134_217_729, None)
}

// Takes the lowest table of page 5's path out, which has this number, and gives it back. The one above led to it.
fn is_detached(rt: &impl Abort, tree: &mut Tree, pool: &mut Pool, number: u64) -> Result<(), Fail>
    requires own { number < (pool_of pool.old).tables }
    requires used { (pool_of pool.old).free number ≡ false }
    ensures { IfOk result (λ _. pool_of pool.new ≡ with_free number true (pool_of pool.old)) }
{
    assert!(rt; 0 < number && number < 4);
    assert_eq!(rt; word(rt, tree, number - 1, 0)?, 3 + 4_096 * number);
    let table = tree.detach(page_no(5)?).ok_or("no table")?;
    assert!(rt; table.number().get() == number);
    assert_eq!(rt; word(rt, tree, number - 1, 0)?, 0);
    pool.give_back(table);
    Ok(())
}

#[test]
fn empty_tables_are_detached(rt: HostRuntime) -> Result<(), Fail> {
    let mut pool = Pool::new(rt.alloc(), 4)?;
    let mut tree = Tree::new(rt.alloc(), MOST)?;
    is_added(&rt, &mut tree, &mut pool, 5, 4, (0, 4, 0))?;
    is_added(&rt, &mut tree, &mut pool, 5, 3, (1, 3, 0))?;
    is_added(&rt, &mut tree, &mut pool, 5, 2, (2, 2, 0))?;
    is_added(&rt, &mut tree, &mut pool, 5, 1, (3, 1, 0))?;
    is_set(&rt, &mut tree, 511, Some((9, false)))?;
    assert!(rt; tree.detach(page_no(5)?).is_none() && tree.tables() == 4);
    is_set(&rt, &mut tree, 511, None)?;
    is_detached(&rt, &mut tree, &mut pool, 3)?;
    is_detached(&rt, &mut tree, &mut pool, 2)?;
    is_detached(&rt, &mut tree, &mut pool, 1)?;
    assert!(rt; tree.detach(page_no(5)?).is_none() && tree.tables() == 1);
    assert_eq!(rt; pool.free(), 3);
    Ok(())
}
