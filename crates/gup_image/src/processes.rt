//! The facts of processes.
ghost use Rattle.std.specs.Prelude.{◌≡◌, ◌++◌, ◌≤◌, ◌<◌, length, slice_get, OnOk, MatchOption};
ghost use Rattle.gup_plain.specs.Event.{page_numbers};
ghost use Rattle.gup_maps.specs.Table.{IsNextPage, IsLastPage};
ghost use Rattle.gup_space.specs.Space.{space_of};
ghost use Rattle.gup_op_base.specs.Tidy.{AreNumbered};
ghost use Rattle.gup_op_waits.specs.Parts.{EachSpace};
ghost use Rattle.gup_image.specs.Gathered.{gathered, along};
ghost use Rattle.gup_image.specs.Image.{pages, process_facts, born_facts};

use crate::fact::{Fact, KeptFact, put};
use crate::tables::{push_places, push_retired};
use gup_base::{NoMemory, PageNo, ProcNo};
use gup_op_waits::{Birth, Parts};
use gup_space::Space;

/// Those of all processes, whose page tables have numbers below `tables`.
pub(crate) fn push_processes(
    facts: &mut Vec<KeptFact>,
    parts: &Parts,
    tables: u32,
) -> Result<(), NoMemory>
    requires few { length parts.now.spaces.items ≤ 16 }
    requires births { length parts.now.births.items ≡ length parts.now.spaces.items }
    requires numbered { EachSpace AreNumbered parts.now.spaces.items }
    requires tables { tables ≤ 8192 }
    ensures { OnOk result (facts.new.items ≡ facts.old.items
        ++ along (λ p space. born_facts tables p (slice_get parts.now.births.items p) space) parts.now.spaces.items) }
{
    for p in 0..parts.spaces.len() {
        push_process(facts, proc_no(p), parts.births[p], &parts.spaces[p], tables)?;
    }
    Ok(())
}

fn proc_no(p: usize) -> ProcNo
    requires { p < 16 }
    ensures { result ≡ p }
{
    ProcNo::new(p as u64).unwrap()
}

fn push_process(
    facts: &mut Vec<KeptFact>,
    proc: ProcNo,
    birth: Birth,
    space: &Space,
    tables: u32,
) -> Result<(), NoMemory>
    requires numbered { AreNumbered (space_of space.now) }
    requires tables { tables ≤ 8192 }
    ensures { OnOk result (facts.new.items ≡ facts.old.items ++ process_facts tables proc birth (space_of space.now)) }
{
    put(
        facts,
        Fact::Process {
            proc,
            birth,
            has_pinned: space.has_pinned(),
            structure: space.structure(),
            table: space.table(),
            pages: space.len(),
            sequence: space.sequence(),
            walks: space.walks(),
        },
    )?;
    push_pages(facts, proc, space)?;
    push_places(facts, proc, space, tables)?;
    push_retired(facts, proc, space)
}

fn push_pages(facts: &mut Vec<KeptFact>, proc: ProcNo, space: &Space) -> Result<(), NoMemory>
    requires { AreNumbered (space_of space.now) }
    ensures { OnOk result (facts.new.items ≡ facts.old.items
        ++ gathered (pages proc (space_of space.now)) page_numbers) }
{
    let mut from = 0;
    while let Some(page) = next_page(space, from) {
        push_page(facts, proc, space, page)?;
        from = page.get() + 1;
    }
    Ok(())
}

// The lowest mapped page at or above this number.
fn next_page(space: &Space, from: u64) -> Option<PageNo>
    requires { AreNumbered (space_of space.now) }
    ensures { MatchOption result (IsLastPage (space_of space.now).right from) (IsNextPage (space_of space.now).right from) }
{
    let first = PageNo::new(from)?;
    space.next_page(first)
}

fn push_page(
    facts: &mut Vec<KeptFact>,
    proc: ProcNo,
    space: &Space,
    page: PageNo,
) -> Result<(), NoMemory>
    ensures { OnOk result (facts.new.items ≡ facts.old.items ++ pages proc (space_of space.now) page) }
{
    if let Some(rights) = space.rights_at(page) {
        let entry = space.entry(page);
        put(
            facts,
            Fact::Page {
                proc,
                rights,
                entry,
                page,
            },
        )?;
    }
    Ok(())
}
