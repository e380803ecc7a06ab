//! Page tables: what a walk reads of them, and the events that change them.
ghost use Rattle.std.specs.Prelude.{◌≡◌, ◌≤◌};
ghost use Rattle.gup_exec_core.specs.State.{state_of};
ghost use Rattle.gup_exec_jobs.specs.Trail.{trail_of};
ghost use Rattle.gup_exec_rows.specs.Grid.{found};
ghost use Rattle.gup_spec_events.specs.Event.{tree_in};
ghost use Rattle.gup_spec_tables.specs.Paths.{entry_at, is_there, is_this, leads_still, link_at};
ghost use Rattle.gup_spec_tables.specs.Tables.{is_at, on_path, table_at};

use crate::trial::Trial;
use gup_base::{Entry, PageNo, ProcNo};
use gup_exec_jobs::trail::Trail;
use gup_exec_rows::tables::{is_at, number, on_path, table_at};
use gup_tables::TableNo;

// Whether the word leads to this table.
fn is_this(table: TableNo, found: Option<TableNo>) -> bool
    ensures { result ≡ is_this table found }
{
    match found {
        None => false,
        Some(other) => table == other,
    }
}

impl Trial {
    // Whether the table stands at the place of this level on the page's path.
    fn stands(&self, p: ProcNo, table: TableNo, level: u8, page: PageNo) -> bool
        requires { level ≤ 4 }
        ensures { result ≡ is_at (on_path level page) (found self.now.place p table) }
    {
        is_at(&on_path(level, page), self.place.get(p, number(table)))
    }

    // The table that stands at the place of this level on the page's path, if one does.
    fn table_on(&self, p: ProcNo, level: u8, page: PageNo) -> Option<TableNo>
        requires { level ≤ 4 }
        ensures { result ≡ table_at (found self.now.place p) (on_path level page) }
    {
        table_at(&self.place, p, on_path(level, page))
    }

    // Whether the last table of the path still stands where it stood.
    fn is_there(&self, p: ProcNo, path: &Trail, page: PageNo) -> bool
        ensures { result ≡ is_there (tree_in (state_of self.now) p) (trail_of path.now) page }
    {
        match *path {
            Trail::Root => true,
            Trail::Third(third) => self.stands(p, third, 3, page),
            Trail::Second(second, _) => self.stands(p, second, 2, page),
            Trail::Last(last, _, _) => self.stands(p, last, 1, page),
        }
    }

    /// The table to which the word leads that is read at the end of the path, if it leads to one.
    pub fn link_at(&self, p: ProcNo, path: &Trail, page: PageNo) -> Option<TableNo>
        ensures { result ≡ link_at (tree_in (state_of self.now) p) (trail_of path.now) page }
    {
        if !self.is_there(p, path, page) {
            return None;
        }
        match *path {
            Trail::Root => self.table_on(p, 3, page),
            Trail::Third(_) => self.table_on(p, 2, page),
            Trail::Second(_, _) => self.table_on(p, 1, page),
            Trail::Last(_, _, _) => None,
        }
    }

    /// The entry in the word that is read at the end of a whole path.
    pub fn entry_at(&self, p: ProcNo, path: &Trail, page: PageNo) -> Option<Entry>
        ensures { result ≡ entry_at (tree_in (state_of self.now) p) (trail_of path.now) page }
    {
        if !self.is_there(p, path, page) {
            return None;
        }
        match *path {
            Trail::Last(_, _, _) => self.entry.get(p, page),
            _ => None,
        }
    }

    /// Whether the word above still leads to the table that comes last.
    pub fn leads_still(&self, p: ProcNo, path: &Trail, page: PageNo) -> bool
        ensures { result ≡ leads_still (tree_in (state_of self.now) p) (trail_of path.now) page }
    {
        match *path {
            Trail::Root => true,
            Trail::Third(third) => is_this(third, self.link_at(p, &Trail::Root, page)),
            Trail::Second(second, third) => {
                is_this(second, self.link_at(p, &Trail::Third(third), page))
            }
            Trail::Last(last, second, third) => {
                is_this(last, self.link_at(p, &Trail::Second(second, third), page))
            }
        }
    }
}
