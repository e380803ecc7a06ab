//! Page tables: which are free, where those of each process stand, and which ones a process has taken out of its tree.
ghost use Rattle.std.specs.Prelude.{◌≡◌, ℕ, ◌≤◌, ◌<◌, ◌/◌, ◌^◌, ◌||◌, nat_lt, IfOk, [], ◌∷◌, ◌++◌};
ghost use Rattle.gup_spec_tables.specs.Tables.{is_among, is_at, on_path, table_at};
ghost use Rattle.gup_exec_rows.specs.Grid.{found};
ghost use Rattle.gup_exec_rows.specs.Row.{at};

use crate::grid::Grid;
use crate::row::Row;
use gup_base::{NoMemory, PageNo, ProcNo};
use gup_tables::{Place, TableNo};
use std::alloc::Global;
use std::marker::Model;

/// The table's number, by which a grid of places has it.
pub fn number(table: TableNo) -> PageNo
    ensures { result ≡ table }
{
    PageNo::new(table.get()).unwrap()
}

// The number of the span of 512^level pages that has the page.
fn span(page: PageNo, level: u8) -> u64
    requires { level ≤ 4 }
    ensures { result ≡ page / 512 ^ level }
{
    match level {
        0 => page.get(),
        1 => page.get() / 512,
        2 => page.get() / 262_144,
        3 => page.get() / 134_217_728,
        _ => 0,
    }
}

/// The place of this level on the page's path.
pub fn on_path(level: u8, page: PageNo) -> Place
    requires { level ≤ 4 }
    ensures { result ≡ on_path level page }
{
    Place {
        level,
        span: span(page, level),
    }
}

/// Whether it is this place.
pub fn is_at(place: &Place, found: Option<Place>) -> bool
    ensures { result ≡ is_at place.now found }
{
    match found {
        None => false,
        Some(other) => other.level == place.level && other.span == place.span,
    }
}

// The table with this number.
fn table(k: u16) -> TableNo
    requires { k < 8192 }
    ensures { result ≡ k }
{
    TableNo::new(u64::from(k)).unwrap()
}

/// The table of the process that stands at the place, if one does.
pub fn table_at(places: &Grid<Place>, p: ProcNo, place: Place) -> Option<TableNo>
    ensures { result ≡ table_at (found places.now p) place }
{
    for k in 0..8192 {
        let stands = is_at(&place, places.get(p, number(table(k))));
        if stands {
            return Some(table(k));
        }
    }
    None
}

/// So many tables are free.
pub fn free_below(alloc: Global, tables: u16) -> Result<Row<bool, 8192>, NoMemory>
    requires { tables ≤ 8192 }
    ensures { IfOk result (λ free. at free ≡ (λ table. nat_lt table tables)) }
{
    let mut free: Row<bool, 8192> = Row::new(alloc, false)?;
    for k in 0..tables {
        free.put(table(k), true);
    }
    Ok(free)
}

/// These tables come free.
pub fn let_go(free: &mut Row<bool, 8192>, tables: &[TableNo])
    ensures { at free.new ≡ (λ table. at free.old table || is_among tables.now table) }
{
    for k in 0..tables.len() {
        free.put(tables[k], true);
    }
}

/// The tables, and one more, the last.
pub fn with_one_more(
    alloc: Global,
    tables: &[TableNo],
    more: TableNo,
) -> Result<Vec<TableNo>, NoMemory>
    ensures { IfOk result (λ all. all.items ≡ tables.now ++ more ∷ []) }
{
    let mut all: Vec<TableNo> = tables.iter().copied().collect(alloc)?;
    all.push(more)?;
    Ok(all)
}

/// Tables in a row. Contracts see the list of them.
#[derive(Drop)]
pub struct TableList {
    items: Vec<TableNo>,
}

impl Model for TableList {
    ghost use Rattle.std.specs.Prelude.{ℕ, List};

    ghost Value = { List ℕ };

    ghost view = { λ t. t.items.items };
}

impl TableList {
    /// These tables.
    pub fn new(items: Vec<TableNo>) -> TableList
        ensures { result ≡ items.items }
    {
        TableList { items }
    }

    /// The tables.
    pub fn as_slice(&self) -> &[TableNo]
        ensures { result.now ≡ self.now }
    {
        self.items.as_slice()
    }
}
