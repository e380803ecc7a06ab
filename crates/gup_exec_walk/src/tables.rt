//! The events of page tables.
ghost use Rattle.gup_spec_events.specs.Event as core;
ghost use Rattle.gup_exec_core.specs.State.{state_of};
ghost use Rattle.gup_exec_core.specs.Tried.{Tried};

use crate::parts::is_table;
use crate::tree::{detachable, lacks, may_shape};
use gup_base::{ActorNo, PageNo, ProcNo};
use gup_exec_core::Trial;
use gup_exec_jobs::needs::need;
use gup_exec_jobs::refused::Refused;
use gup_exec_rows::tables::{TableList, let_go, number, on_path, with_one_more};
use gup_tables::TableNo;

/// A free table goes to the highest place that the page lacks.
#[tactic(auto, unfolding(gup_plain::specs::Event::page_numbers))]
pub fn add_table(
    trial: &mut Trial,
    a: ActorNo,
    p: ProcNo,
    page: PageNo,
    table: TableNo,
) -> Result<(), Refused>
    ensures { Tried (state_of trial.old) (state_of trial.new) (core.add_table a p page table) result }
{
    need(may_shape(trial, a, p))?;
    need(trial.right.get(p, page).is_some())?;
    need(*trial.free_table.get(table))?;
    let lacks = lacks(trial, p, page);
    need(lacks > 0)?;
    let place = on_path(lacks, page);
    let key = number(table);
    let row = trial.place.with(p, key, place)?;
    trial.place.put_at(p, key, Some(place), row);
    trial.free_table.put(table, false);
    Ok(())
}

/// The lowest table of the page's path is taken out of the tree: it is empty, and not the root.
pub fn take_out(
    trial: &mut Trial,
    a: ActorNo,
    p: ProcNo,
    page: PageNo,
    table: TableNo,
) -> Result<(), Refused>
    ensures { Tried (state_of trial.old) (state_of trial.new) (core.take_out a p page table) result }
{
    need(may_shape(trial, a, p))?;
    need(is_table(detachable(trial, p, page), table))?;
    let key = number(table);
    let row = trial.place.without(p, key)?;
    let out = with_one_more(trial.alloc, trial.retired.get(p).as_slice(), table)?;
    trial.place.put_at(p, key, None, row);
    trial.retired.put(p, TableList::new(out));
    Ok(())
}

/// No walk of the process runs: all tables that it has taken out come free.
pub fn reclaim(trial: &mut Trial, a: ActorNo, p: ProcNo) -> Result<(), Refused>
    ensures { Tried (state_of trial.old) (state_of trial.new) (core.reclaim a p) result }
{
    need(may_shape(trial, a, p))?;
    need(*trial.walks.get(p) == 0)?;
    let_go(&mut trial.free_table, trial.retired.get(p).as_slice());
    trial.retired.put(p, TableList::new(Vec::new(trial.alloc)));
    Ok(())
}
