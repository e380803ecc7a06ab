ghost use Rattle.std.specs.Prelude.{◌≡◌, IfOk};
ghost use Rattle.gup_tables.specs.Pool.{pool_of};
ghost use Rattle.gup_space.specs.Space.{space_of, lacking, OwnsTables};

use gup_base::PageNo;
use gup_space::Space;
use gup_tables::Pool;
use std::alloc::Global;
use std::process::Abort;
use std::test::Fail;

// A process without mappings, and the pool of which its page tables are.
fn start(alloc: Global) -> Result<(Space, Pool), Fail>
    ensures { IfOk result (λ r. OwnsTables (space_of r.0) (pool_of r.1)) }
{
    let space = Space::new(alloc)?;
    let pool = Pool::new(alloc, 64)?;
    Ok((space, pool))
}

// Gives the page the tables that it lacks.
fn grown(rt: &impl Abort, space: &mut Space, pool: &mut Pool, page: PageNo)
    requires { OwnsTables (space_of space.old) (pool_of pool.old) }
    ensures own { OwnsTables (space_of space.new) (pool_of pool.new) }
    ensures path { lacking (space_of space.new) page ≡ 0 }
{
    assert!(rt; space.grow(pool, page).is_ok());
}

// A process without mappings, in which page 5 has its four page tables, and so has each of the pages up to 511.
pub(crate) fn with_tables(rt: &impl Abort, alloc: Global) -> Result<Space, Fail> {
    let page = PageNo::new(5).ok_or("a page")?;
    let (mut space, mut pool) = start(alloc)?;
    grown(rt, &mut space, &mut pool, page);
    Ok(space)
}
