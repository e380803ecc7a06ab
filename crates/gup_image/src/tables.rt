//! The facts of page tables.
ghost use Rattle.std.specs.Prelude.{◌≡◌, ◌++◌, ◌<◌, ◌≤◌, Option, OnOk};
ghost use Rattle.gup_space.specs.Space.{space_of};
ghost use Rattle.gup_spec_tables.specs.declared.place.Place.{Place as PlaceValue};
ghost use Rattle.gup_tables.specs.Pool.{pool_of};
ghost use Rattle.gup_image.specs.Gathered.{gathered, along};
ghost use Rattle.gup_image.specs.Image.{used_fact, used, place_fact, places, retired_fact};

use crate::fact::{Fact, KeptFact, put};
use gup_base::{NoMemory, ProcNo};
use gup_space::Space;
use gup_tables::{Place, Pool, TableNo};

fn table_no(t: u32) -> TableNo
    requires { t < 8192 }
    ensures { result ≡ t }
{
    TableNo::new(u64::from(t)).unwrap()
}

/// Those that aren't free.
pub(crate) fn push_used(facts: &mut Vec<KeptFact>, pool: &Pool) -> Result<(), NoMemory>
    requires { (pool_of pool.now).tables ≤ 8192 }
    ensures { OnOk result (facts.new.items ≡ facts.old.items ++ gathered (used (pool_of pool.now)) (pool_of pool.now).tables) }
{
    for t in 0..pool.tables() {
        let table = table_no(t);
        push_one(facts, pool.is_free(table), table)?;
    }
    Ok(())
}

#[inline]
fn push_one(facts: &mut Vec<KeptFact>, is_free: bool, table: TableNo) -> Result<(), NoMemory>
    ensures { OnOk result (facts.new.items ≡ facts.old.items ++ used_fact is_free table) }
{
    if !is_free {
        put(facts, Fact::Used { table })?;
    }
    Ok(())
}

/// Where those of a process stand, of the numbers below `tables`.
pub(crate) fn push_places(
    facts: &mut Vec<KeptFact>,
    proc: ProcNo,
    space: &Space,
    tables: u32,
) -> Result<(), NoMemory>
    requires { tables ≤ 8192 }
    ensures { OnOk result (facts.new.items ≡ facts.old.items ++ gathered (places proc (space_of space.now)) tables) }
{
    for t in 0..tables {
        let table = table_no(t);
        push_place(facts, proc, space.place(table), table)?;
    }
    Ok(())
}

#[inline]
fn push_place(
    facts: &mut Vec<KeptFact>,
    proc: ProcNo,
    place: Option<Place>,
    table: TableNo,
) -> Result<(), NoMemory>
    ensures { OnOk result (facts.new.items ≡ facts.old.items ++ place_fact proc table place) }
{
    if let Some(place) = place {
        put(
            facts,
            Fact::Table {
                proc,
                level: place.level,
                span: place.span,
                table,
            },
        )?;
    }
    Ok(())
}

/// Those that a process has taken out, the longest ago first.
pub(crate) fn push_retired(
    facts: &mut Vec<KeptFact>,
    proc: ProcNo,
    space: &Space,
) -> Result<(), NoMemory>
    ensures { OnOk result (facts.new.items ≡ facts.old.items ++ along (retired_fact proc) (space_of space.now).retired) }
{
    space.few_wait();
    let mut place = 0;
    for table in space.retired() {
        push_waiting(facts, proc, place, table.number())?;
        place += 1;
    }
    Ok(())
}

fn push_waiting(
    facts: &mut Vec<KeptFact>,
    proc: ProcNo,
    place: u16,
    table: TableNo,
) -> Result<(), NoMemory>
    ensures { OnOk result (facts.new.items ≡ facts.old.items ++ retired_fact proc place table) }
{
    put(facts, Fact::Retired { proc, place, table })?;
    Ok(())
}
