ghost use Rattle.std.specs.Prelude.{IfOk};
ghost use Rattle.gup_tables.specs.Pool.{pool_of};
ghost use Rattle.gup_page_tables.specs.PageTables.{both, IsOf};

use super::*;
use gup_base::{Entry, FrameNo, PageNo};
use gup_tables::Pool;
use std::alloc::Global;
use std::process::Abort;
use std::test::Fail;

// A process without tables, and a pool of so many.
fn start(rt: &impl Abort, alloc: Global, tables: u32) -> Result<(PageTables, Pool), Fail>
    ensures { IfOk result (λ r. IsOf (both r.0 (pool_of r.1))) }
{
    assert!(rt; tables <= 8_192);
    let pool = Pool::new(alloc, tables)?;
    let process = PageTables::new(alloc, tables)?;
    Ok((process, pool))
}

fn page_no(number: u64) -> Result<PageNo, Fail> {
    let page = PageNo::new(number).ok_or("no page")?;
    Ok(page)
}

// Growing for the page goes well, or doesn't, and then so many tables are free.
fn grows(
    rt: &impl Abort,
    process: &mut PageTables,
    pool: &mut Pool,
    page: u64,
    want: (bool, u32),
) -> Result<(), Fail>
    requires { IsOf (both process.old (pool_of pool.old)) }
    ensures { IsOf (both process.new (pool_of pool.new)) }
{
    let page = page_no(page)?;
    let grown = process.grow(pool, page);
    assert_eq!(rt; (grown.is_ok(), pool.free()), want);
    Ok(())
}

// The page's tables are taken out, and then so many are free and so many wait.
fn retires(
    rt: &impl Abort,
    process: &mut PageTables,
    pool: &mut Pool,
    page: u64,
    want: (u32, usize),
) -> Result<(), Fail>
    requires { IsOf (both process.old (pool_of pool.old)) }
    ensures { IsOf (both process.new (pool_of pool.new)) }
{
    let page = page_no(page)?;
    process.retire(pool, page);
    assert_eq!(rt; (pool.free(), process.retired().len()), want);
    Ok(())
}

// A walk more runs, and then so many do.
fn enters(rt: &impl Abort, process: &mut PageTables, pool: &Pool, want: u64) -> Result<(), Fail>
    requires { IsOf (both process.old (pool_of pool.now)) }
    ensures { IsOf (both process.new (pool_of pool.now)) }
{
    assert!(rt; process.walks() < 10);
    process.enter();
    assert_eq!(rt; process.walks(), want);
    Ok(())
}

// A walk is over, and then so many run.
fn leaves(rt: &impl Abort, process: &mut PageTables, pool: &Pool, want: u64) -> Result<(), Fail>
    requires { IsOf (both process.old (pool_of pool.now)) }
    ensures { IsOf (both process.new (pool_of pool.now)) }
{
    assert!(rt; process.walks() > 0);
    process.leave();
    assert_eq!(rt; process.walks(), want);
    Ok(())
}

// The page gets an entry, or loses it.
fn touches(
    rt: &impl Abort,
    process: &mut PageTables,
    pool: &Pool,
    page: u64,
    on: bool,
) -> Result<(), Fail>
    requires { IsOf (both process.old (pool_of pool.now)) }
    ensures { IsOf (both process.new (pool_of pool.now)) }
{
    let page = page_no(page)?;
    let frame = FrameNo::new(9).ok_or("no frame")?;
    let entry = if on {
        Some(Entry {
            frame,
            writable: true,
        })
    } else {
        None
    };
    assert!(rt; process.lacks(page) == 0);
    process.set_entry(page, entry);
    assert_eq!(rt; process.entry(page), entry);
    Ok(())
}

#[test]
fn a_page_gets_what_it_lacks_or_nothing(rt: HostRuntime) -> Result<(), Fail> {
    let (mut process, mut pool) = start(&rt, rt.alloc(), 6)?;
    grows(&rt, &mut process, &mut pool, 5, (true, 2))?;
    grows(&rt, &mut process, &mut pool, 511, (true, 2))?;
    grows(&rt, &mut process, &mut pool, 1 << 27, (false, 2))?;
    grows(&rt, &mut process, &mut pool, 1 << 18, (true, 0))?;
    grows(&rt, &mut process, &mut pool, 512, (false, 0))?;
    grows(&rt, &mut process, &mut pool, 5, (true, 0))
}

#[test]
fn what_is_taken_out_waits_for_walks(rt: HostRuntime) -> Result<(), Fail> {
    let (mut process, mut pool) = start(&rt, rt.alloc(), 5)?;
    grows(&rt, &mut process, &mut pool, 5, (true, 1))?;
    touches(&rt, &mut process, &pool, 5, true)?;
    enters(&rt, &mut process, &pool, 1)?;
    enters(&rt, &mut process, &pool, 2)?;
    retires(&rt, &mut process, &mut pool, 5, (1, 0))?;
    touches(&rt, &mut process, &pool, 5, false)?;
    retires(&rt, &mut process, &mut pool, 5, (1, 3))?;
    grows(&rt, &mut process, &mut pool, 5, (false, 1))?;
    leaves(&rt, &mut process, &pool, 1)?;
    retires(&rt, &mut process, &mut pool, 5, (1, 3))?;
    leaves(&rt, &mut process, &pool, 0)?;
    grows(&rt, &mut process, &mut pool, 512, (true, 1))?;
    retires(&rt, &mut process, &mut pool, 512, (4, 0))
}
