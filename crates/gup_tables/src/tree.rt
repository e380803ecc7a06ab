//! The tree of a process's page tables.
ghost use Rattle.std.specs.Prelude.{◌≡◌, ℕ, Option, ◌+◌, ◌-◌, ◌*◌, ◌/◌, ◌^◌, ◌<◌, ◌≤◌, is_some, None, Some, IsSome, IfOk, IfNone, IfSome, MatchOption, OnSome};
ghost use Rattle.gup_base.specs.declared.entry.Entry.{Entry as EntryValue};
ghost use Rattle.gup_maps.specs.Table.{IsNextPage, IsLastPage};
ghost use Rattle.gup_base.specs.Packing.{pack_of};
ghost use Rattle.gup_spec_tables.specs.Tables.{placed_tables, read_on, no_tree, table_at, on_path, lacks, with_table, with_entry, without_table, detachable, word_of};
ghost use Rattle.gup_spec_tables.specs.Paths.{path_to};
ghost use Rattle.gup_tables.specs.Path.{tables_on};
ghost use Rattle.gup_tables.specs.Tree.{tree_of};
ghost use Rattle.gup_tables.specs.Kept.{IsLowest, IsUntouchedUntil};

use crate::number::TableNo;
use crate::path::Path;
use crate::rows::Rows;
use crate::table::Table;
use crate::word::{index, link, linked, span};
use gup_base::{Entry, NoMemory, PageNo, pack, unpack};
use gup_spec_tables::Place;
use std::alloc::Global;
use std::marker::Model;

// The level of the root, and how many pages there are.
const ROOT: u8 = 4;

const PAGES: u64 = 1 << 35;

/// The page tables of a process in a tree of four levels. Each word of a table of level 1 holds the entry of a page, each word
/// of one above leads to a table below it, and a word that is 0 to nothing: 9 bits of the page's number say which word it is, at
/// each level.
#[derive(Drop)]
pub struct Tree {
    rows: Rows,
    root: Option<TableNo>,
}

impl Model for Tree {
    ghost use Rattle.gup_tables.specs.Rows.{RowLists, place_in, word_in};
    ghost use Rattle.gup_tables.specs.Kept.{IsTree};

    ghost Value = { RowLists };

    ghost view = { λ t. t.rows };

    ghost invariant = { λ t. IsTree (place_in t.rows) (word_in t.rows) t.root };
}

/// A table on the path of a page, and its level.
#[derive(Clone, Copy)]
struct Step {
    table: TableNo,
    level: u8,
}

// The first page behind the span of 512^level pages that has the page.
fn behind(page: PageNo, level: u8) -> u64
    requires { level < 4 }
    ensures { result ≡ (page / 512 ^ level + 1) * 512 ^ level }
{
    let next = span(page, level) + 1;
    match level {
        0 => next,
        1 => next * 512,
        2 => next * 262_144,
        _ => next * 134_217_728,
    }
}

impl Tree {
    /// No tables, so no entries. There is the memory for `room` tables, at most 8,192, of which none is touched before a table
    /// needs it: no other call takes any.
    pub fn new(alloc: Global, room: u32) -> Result<Tree, NoMemory>
        requires { room ≤ 8192 }
        ensures { IfOk result (λ tree. tree_of tree ≡ no_tree room) }
    {
        let rows = Rows::new(alloc, room)?;
        Ok(Tree { rows, root: None })
    }

    // The table below this one, of this level, on the page's path, if there is one: a word of this one leads to it.
    #[inline(always)]
    fn next(&self, table: TableNo, level: u8, page: PageNo) -> Option<TableNo>
        requires there { (tree_of self.now).place table ≡ Some (on_path level page) }
        requires upper { (1 < level) × (level ≤ 4) }
        ensures next { result ≡ table_at (tree_of self.now).place (on_path (level - 1) page) }
        ensures there { IfSome result (λ under. (tree_of self.now).place under ≡ Some (on_path (level - 1) page)) }
    {
        linked(self.rows.word(table, index(page, level)))
    }

    // The lowest table of the page's path whose level isn't below `bottom`.
    #[inline(always)]
    fn descend(&self, page: PageNo, bottom: u8) -> Option<Step>
        requires { (0 < bottom) × (bottom ≤ 4) }
        ensures { MatchOption result (table_at (tree_of self.now).place (on_path 4 page) ≡ None) (IsLowest (tree_of self.now) page bottom) }
    {
        let Some(root) = self.root else {
            return None;
        };
        let mut table = root;
        let mut level = ROOT;
        while level > bottom {
            let Some(next) = self.next(table, level, page) else {
                return Some(Step { table, level });
            };
            table = next;
            level -= 1;
        }
        Some(Step { table, level })
    }

    /// The page's entry, if it has one (of Linux's `follow_page_mask`, `mm/gup.c`): a read at each level.
    #[inline]
    pub fn look(&self, page: PageNo) -> Option<Entry>
        ensures { result ≡ (tree_of self.now).entry page }
    {
        let rows = &self.rows;
        let Some(last) = self.descend(page, 1) else {
            return None;
        };
        if last.level > 1 {
            return None;
        }
        unpack(rows.word(last.table, index(page, 1)))
    }

    /// The tables of the page's path, read one level after another (of Linux's `gup_fast_pgd_range` .. `gup_fast_pte_range`,
    /// `mm/gup.c`): `None` exactly where one is missing.
    #[inline]
    pub fn path(&self, page: PageNo) -> Option<Path>
        ensures path { MatchOption result (0 < lacks (tree_of self.now) page) (λ path. path_to (tree_of self.now) page ≡ tables_on path) }
        ensures whole { OnSome result (lacks (tree_of self.now) page ≡ 0) }
    {
        let third = self.next(self.root?, 4, page)?;
        let second = self.next(third, 3, page)?;
        let last = self.next(second, 2, page)?;
        Some(Path {
            third,
            second,
            last,
        })
    }

    /// How many of the four tables of the page's path are missing.
    pub fn lacks(&self, page: PageNo) -> u8
        ensures { result ≡ lacks (tree_of self.now) page }
    {
        let _rows = &self.rows;
        match self.descend(page, 1) {
            Some(last) => last.level - 1,
            None => ROOT,
        }
    }

    /// Puts the table in at the highest place that is missing on the page's path (of Linux's `__pud_alloc`, `__pmd_alloc` and
    /// `__pte_alloc`, `mm/memory.c`). One is missing, there is room for it, and it isn't in the tree.
    pub fn add(&mut self, page: PageNo, table: Table)
        requires missing { 0 < lacks (tree_of self.old) page }
        requires room { (tree_of self.old).tables < (tree_of self.old).room }
        requires other { (tree_of self.old).place table ≡ None }
        ensures tree { tree_of self.new ≡ with_table table page (tree_of self.old) }
        ensures lacks { lacks (tree_of self.new) page + 1 ≡ lacks (tree_of self.old) page }
    {
        let number = table.number();
        let Some(over) = self.descend(page, 1) else {
            self.root = Some(number);
            self.rows.insert(
                number,
                Place {
                    level: ROOT,
                    span: 0,
                },
            );
            return;
        };
        self.rows
            .set_word(over.table, index(page, over.level), link(number));
        let place = Place {
            level: over.level - 1,
            span: span(page, over.level - 1),
        };
        self.rows.insert(number, place);
    }

    /// Gives the page this entry, or none. No table of its path is missing.
    pub fn set(&mut self, page: PageNo, entry: Option<Entry>)
        requires { lacks (tree_of self.old) page ≡ 0 }
        ensures { tree_of self.new ≡ with_entry page entry (tree_of self.old) }
    {
        if let Some(last) = self.descend(page, 1) {
            self.rows.set_word(last.table, index(page, 1), pack(entry));
        }
    }

    /// Takes out the lowest table of the page's path: `None` exactly where it is the root, or has a word that isn't 0, or there
    /// is none, and nothing changes then. No entry does (of Linux's `free_pgd_range`, `mm/memory.c`; that a table is taken out
    /// once it is empty is this project's own: Linux waits until no area is left in its span).
    pub fn detach(&mut self, page: PageNo) -> Option<Table>
        ensures table { result ≡ detachable (tree_of self.old) page }
        ensures tree { MatchOption result (tree_of self.new ≡ tree_of self.old)
            (λ table. tree_of self.new ≡ without_table table (tree_of self.old)) }
    {
        let Some(last) = self.descend(page, 1) else {
            return None;
        };
        if last.level == ROOT {
            return None;
        }
        if !self.rows.is_empty(last.table, index(page, last.level)) {
            return None;
        }
        let Some(over) = self.descend(page, last.level + 1) else {
            return None;
        };
        self.rows
            .set_word(over.table, index(page, last.level + 1), 0);
        self.rows.remove(last.table);
        Some(Table::of(last.table))
    }

    /// The least page at or above `from` that has an entry, if one has (of Linux's `walk_page_range`, `mm/pagewalk.c`).
    pub fn next_touched(&self, from: PageNo) -> Option<PageNo>
        ensures { MatchOption result (IsLastPage (tree_of self.now).entry from) (IsNextPage (tree_of self.now).entry from) }
    {
        let _rows = &self.rows;
        let mut next = from.get();
        while next < PAGES {
            let page = PageNo::new(next).unwrap();
            let Some(behind) = self.untouched_until(page) else {
                return Some(page);
            };
            next = behind;
        }
        None
    }

    // A page behind this one before which none has an entry, nor has this one. `None` if this one has.
    fn untouched_until(&self, page: PageNo) -> Option<u64>
        ensures { MatchOption result (IsSome ((tree_of self.now).entry page)) (IsUntouchedUntil (tree_of self.now) page) }
    {
        let rows = &self.rows;
        let Some(last) = self.descend(page, 1) else {
            return Some(PAGES);
        };
        if last.level > 1 {
            return Some(behind(page, last.level - 1));
        }
        if rows.word(last.table, index(page, 1)) == 0 {
            return Some(behind(page, 0));
        }
        None
    }

    /// The number of the root, if the tree has a table.
    #[inline]
    pub fn root(&self) -> Option<TableNo>
        ensures root { result ≡ table_at (tree_of self.now).place (on_path 4 0) }
        ensures none { IfNone result ((table : ℕ) → (tree_of self.now).place table ≡ None) }
    {
        self.root
    }

    /// Where the table stands, if it is in the tree.
    #[inline]
    pub fn place(&self, table: TableNo) -> Option<Place>
        ensures { result ≡ (tree_of self.now).place table }
    {
        self.rows.place(table)
    }

    /// A law: the words that are read on a page's path, from the root on, end with that of its entry.
    pub fn path_is_read(&self, page: PageNo)
        ensures { IfSome (table_at (tree_of self.now).place (on_path 4 0))
            (λ root. read_on (word_of (tree_of self.now)) 4 root page ≡ pack_of ((tree_of self.now).entry page)) }
    {
        let _rows = &self.rows;
    }

    /// A law: a page with an entry lacks no table of its path.
    pub fn has_path(&self, page: PageNo)
        ensures { IsSome ((tree_of self.now).entry page) → lacks (tree_of self.now) page ≡ 0 }
    {
        let _rows = &self.rows;
    }

    /// A law: so many tables stand somewhere as the tree has.
    pub fn is_counted(&self)
        ensures { placed_tables (tree_of self.now).place ≡ (tree_of self.now).tables }
    {
        self.rows.is_counted();
    }

    /// How many tables the tree has.
    #[inline]
    pub fn tables(&self) -> u32
        ensures { result ≡ (tree_of self.now).tables }
    {
        self.rows.len()
    }

    /// How many tables it may have.
    #[inline]
    pub fn room(&self) -> u32
        ensures { result ≡ (tree_of self.now).room }
    {
        self.rows.room()
    }

    /// Word `i` of a table of the tree, of the 512 from 0 on.
    #[inline]
    pub fn word_at(&self, table: TableNo, i: u16) -> u64
        requires table { IsSome ((tree_of self.now).place table) }
        requires within { i < 512 }
        ensures { result ≡ word_of (tree_of self.now) table i }
    {
        self.rows.word(table, usize::from(i))
    }
}
