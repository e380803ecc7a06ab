//! The page tables of one process.
ghost use Rattle.std.specs.Prelude.{◌≡◌, ℕ, ◌+◌, ◌-◌, ◌/◌, ◌<◌, ◌≤◌, ◌^◌, ◌↔◌, IsTrue, ◌==◌, nat_lt, if◌then◌else◌, [], length, true, false, is_err, is_some, None, Some, IfOk, IfSome, IsSome, OnOk, OnErr, MatchOption, OnSome};
ghost use Rattle.std.specs.VecDeque.Iter.{deque_iter_rest};
ghost use Rattle.gup_base.specs.Packing.{pack_of};
ghost use Rattle.gup_limbo.specs.Limbo.{LimboValue};
ghost use Rattle.gup_maps.specs.Table.{IsNextPage, IsLastPage};
ghost use Rattle.gup_tables.specs.Pool.{pool_of, free_tables};
ghost use Rattle.gup_spec_tables.specs.Tables.{table_at, on_path, lacks, detachable, with_entry, word_of, read_on, is_among, AreApart};
ghost use Rattle.gup_spec_tables.specs.Paths.{path_to, entry_at, leads_still, KeepsPath};
ghost use Rattle.gup_tables.specs.Path.{tables_on};
ghost use Rattle.gup_tables.specs.Tree.{tree_of};
ghost use Rattle.gup_page_tables.specs.PageTables.{tables_of, no_tables, both, some_of, all_of, has_table, IsOf, IsBare, freed_by, cleared, reclaims, grows, retires, shrinks};
ghost use Rattle.gup_page_tables.specs.Kept.{IsKept, LacksNone};

use gup_base::{Entry, NoMemory, PageNo, unpack};
use gup_limbo::{Limbo, Reclaim};
use gup_tables::{Path, Place, Pool, Table, TableNo, Tree, index, link};
use std::alloc::Global;
use std::collections::vec_deque::Iter;
use std::error::Error;
use std::fmt;
use std::marker::Model;

/// Fewer tables are free than a page lacks.
#[derive(Clone, Copy, Debug, PartialEq, Eq)]
pub struct NoTable;

impl fmt::Display for NoTable {
    fn fmt<W: fmt::Write>(&self, f: &mut fmt::Formatter<W>) -> fmt::Result {
        f.write_str("too few page tables are free")
    }
}

impl Error for NoTable {}

/// The page tables of one process: the tree of those that hold its entries, and those that were taken out of it and wait until no
/// lockless walk runs. It has the tables of one pool, which are the process's own until they are free there again.
#[derive(Drop)]
pub struct PageTables {
    tree: Tree,
    limbo: Limbo<Table>,
    // The page that was given its tables last, while none has been taken out since: it lacks none, so no page beside it does.
    whole: Option<PageNo>,
}

impl Model for PageTables {
    ghost use Rattle.gup_page_tables.specs.PageTables.{TablesParts, tables_of};
    ghost use Rattle.gup_page_tables.specs.Kept.{IsKept, LacksNone};
    ghost use Rattle.gup_tables.specs.Tree.{tree_of};

    ghost Value = { TablesParts };

    ghost view = { λ t. record { rows = t.tree; limbo = t.limbo } };

    ghost invariant = { λ t. IsKept (tables_of record { rows = t.tree; limbo = t.limbo }) × LacksNone (tree_of t.tree) t.whole };
}

// Gives all that waits back to the pool, unless a walk runs.
fn reclaim_all(limbo: &mut Limbo<Table>, pool: &mut Pool)
    requires apart { AreApart limbo.old.retired }
    requires own { (table : ℕ) → is_among limbo.old.retired table ≡ true
        → (table < (pool_of pool.old).tables) × ((pool_of pool.old).free table ≡ false) }
    ensures limbo { limbo.new ≡ cleared limbo.old }
    ensures pool { pool_of pool.new ≡ freed_by limbo.old (pool_of pool.old) }
{
    while let Reclaim::Free(table) = limbo.reclaim() {
        pool.give_back(table);
    }
}

// Gives the page the tables that it lacks, which are so many. So many are free.
fn take_all(tree: &mut Tree, limbo: &Limbo<Table>, pool: &mut Pool, page: PageNo, lacking: u8)
    requires lacking { lacking ≡ lacks (tree_of tree.old) page }
    requires own { IsOf (all_of tree.old limbo.now (pool_of pool.old)) }
    requires kept { IsKept (some_of tree.old limbo.now) }
    requires enough { lacks (tree_of tree.old) page ≤ free_tables (pool_of pool.old) }
    ensures grown { all_of tree.new limbo.now (pool_of pool.new)
        ≡ grows page (lacks (tree_of tree.old) page) (all_of tree.old limbo.now (pool_of pool.old)) }
    ensures complete { lacks (tree_of tree.new) page ≡ 0 }
    ensures entries { (tree_of tree.new).entry ≡ (tree_of tree.old).entry }
    ensures room { (tree_of tree.new).room ≡ (tree_of tree.old).room }
    ensures full { (g : ℕ) → lacks (tree_of tree.old) g ≡ 0 → lacks (tree_of tree.new) g ≡ 0 }
    ensures own { IsOf (all_of tree.new limbo.now (pool_of pool.new)) }
    ensures kept { IsKept (some_of tree.new limbo.now) }
{
    for k in 0..lacking {
        tree.is_counted();
        let table = pool.take().unwrap();
        tree.add(page, table);
    }
}

// Takes the lowest table of the page's path out, if it is empty and isn't the root, and answers whether it did.
fn take_out(tree: &mut Tree, limbo: &mut Limbo<Table>, page: PageNo) -> bool
    requires kept { IsKept (some_of tree.old limbo.old) }
    ensures out { result ≡ is_some (detachable (tree_of tree.old) page) }
    ensures shrunk { some_of tree.new limbo.new ≡ retires (detachable (tree_of tree.old) page) (some_of tree.old limbo.old) }
    ensures entries { (tree_of tree.new).entry ≡ (tree_of tree.old).entry }
    ensures same { (table : ℕ) → has_table (some_of tree.new limbo.new) table ≡ has_table (some_of tree.old limbo.old) table }
    ensures room { (tree_of tree.new).room ≡ (tree_of tree.old).room }
    ensures kept { IsKept (some_of tree.new limbo.new) }
{
    tree.is_counted();
    let Some(table) = tree.detach(page) else {
        return false;
    };
    limbo.retire(table);
    true
}

// Takes the empty tables of the page's path out, from the lowest one up, but never the root.
fn take_out_all(tree: &mut Tree, limbo: &mut Limbo<Table>, page: PageNo)
    requires kept { IsKept (some_of tree.old limbo.old) }
    ensures shrunk { some_of tree.new limbo.new ≡ shrinks page 3 (some_of tree.old limbo.old) }
    ensures entries { (tree_of tree.new).entry ≡ (tree_of tree.old).entry }
    ensures same { (table : ℕ) → has_table (some_of tree.new limbo.new) table ≡ has_table (some_of tree.old limbo.old) table }
    ensures room { (tree_of tree.new).room ≡ (tree_of tree.old).room }
    ensures kept { IsKept (some_of tree.new limbo.new) }
{
    if !take_out(tree, limbo, page) {
        return;
    }
    if !take_out(tree, limbo, page) {
        return;
    }
    take_out(tree, limbo, page);
}

// How many tables of the page's path are missing: none where those of a page beside it are all there.
#[inline]
fn lacking(tree: &Tree, whole: Option<PageNo>, page: PageNo) -> u8
    requires { LacksNone (tree_of tree.now) whole }
    ensures { result ≡ lacks (tree_of tree.now) page }
{
    match whole {
        Some(whole) if are_beside(whole, page) => 0,
        _ => tree.lacks(page),
    }
}

// Whether both pages have their entries in one table.
#[inline]
fn are_beside(one: PageNo, other: PageNo) -> bool
    ensures { IsTrue result ↔ (one / 512 ≡ other / 512) }
{
    one.get() / 512 == other.get() / 512
}

impl PageTables {
    /// No tables, and no walk. There is the memory for `room` tables, at most 8,192, in the tree, and for as many that wait; none of
    /// it is touched before a table needs it. No other call takes any.
    pub fn new(alloc: Global, room: u32) -> Result<PageTables, NoMemory>
        requires { room ≤ 8192 }
        ensures { IfOk result (λ tables. tables_of tables ≡ no_tables room) }
    {
        let tree = Tree::new(alloc, room)?;
        let limbo = Limbo::new(alloc, room)?;
        Ok(PageTables {
            tree,
            limbo,
            whole: None,
        })
    }

    /// The page's entry, if it has one.
    #[inline]
    pub fn entry(&self, page: PageNo) -> Option<Entry>
        ensures { result ≡ (tables_of self.now).tree.entry page }
    {
        self.tree.look(page)
    }

    /// Gives the page this entry, or none. No table of its path is missing.
    #[inline]
    pub fn set_entry(&mut self, page: PageNo, entry: Option<Entry>)
        requires { lacks (tables_of self.old).tree page ≡ 0 }
        ensures { tables_of self.new ≡ record (tables_of self.old) { tree = with_entry page entry (tables_of self.old).tree } }
    {
        self.tree.set(page, entry);
    }

    /// The least page at or above `from` that has an entry, if one has.
    pub fn next_touched(&self, from: PageNo) -> Option<PageNo>
        ensures { MatchOption result (IsLastPage (tables_of self.now).tree.entry from) (IsNextPage (tables_of self.now).tree.entry from) }
    {
        self.tree.next_touched(from)
    }

    /// How many of the four tables of the page's path are missing.
    #[inline]
    pub fn lacks(&self, page: PageNo) -> u8
        ensures { result ≡ lacks (tables_of self.now).tree page }
    {
        lacking(&self.tree, self.whole, page)
    }

    /// The number of the root, if there is a table.
    #[inline]
    pub fn root(&self) -> Option<TableNo>
        ensures { result ≡ table_at (tables_of self.now).tree.place (on_path 4 0) }
    {
        self.tree.root()
    }

    /// Whether there is no table, neither in the tree nor taken out of it.
    #[inline]
    pub fn is_bare(&self) -> bool
        ensures { IsTrue result ↔ IsBare (tables_of self.now).tree.place (tables_of self.now).limbo.retired }
    {
        self.tree.root().is_none() && self.limbo.items().len() == 0
    }

    /// Where the table stands, if it is in the tree.
    #[inline]
    pub fn place(&self, table: TableNo) -> Option<Place>
        ensures { result ≡ (tables_of self.now).tree.place table }
    {
        self.tree.place(table)
    }

    /// Word `i` of the table, of the 512 from 0 on. Of one that isn't in the tree it is 0, so also of one that was taken out.
    #[inline]
    pub fn word_at(&self, table: TableNo, i: u16) -> u64
        requires { i < 512 }
        ensures { result ≡ word_of (tables_of self.now).tree table i }
    {
        if self.tree.place(table).is_none() {
            return 0;
        }
        self.tree.word_at(table, i)
    }

    /// The tables of the page's path, as [`Tree::path`] reads them: `None` exactly where one is missing.
    #[inline]
    pub fn path(&self, page: PageNo) -> Option<Path>
        ensures path { MatchOption result (0 < lacks (tables_of self.now).tree page)
            (λ path. path_to (tables_of self.now).tree page ≡ tables_on path) }
        ensures whole { OnSome result (lacks (tables_of self.now).tree page ≡ 0) }
    {
        self.tree.path(page)
    }

    /// The entry in the word of the path's last table, if it has one (of Linux's `gup_fast_pte_range`, `mm/gup.c`). Each table of
    /// the path stands where it stood, or isn't in the tree any more: one that was taken out has no entries.
    #[inline]
    pub fn entry_by(&self, path: &Path, page: PageNo) -> Option<Entry>
        requires { KeepsPath (tables_of self.now).tree (tables_on path.now) page }
        ensures { result ≡ entry_at (tables_of self.now).tree (tables_on path.now) page }
    {
        unpack(self.word_at(path.last, index(page, 1) as u16))
    }

    /// Whether the word above still leads to the path's last table (Linux looks again at `pmd_val(pmd) != pmd_val(*pmdp)`, in
    /// `gup_fast_pte_range`, `mm/gup.c`). Each table of the path stands where it stood, or isn't in the tree any more.
    #[inline]
    pub fn leads(&self, path: &Path, page: PageNo) -> bool
        requires { KeepsPath (tables_of self.now).tree (tables_on path.now) page }
        ensures { result ≡ leads_still (tables_of self.now).tree (tables_on path.now) page }
    {
        self.word_at(path.second, index(page, 2) as u16) == link(path.last)
    }

    /// A law: a page with an entry lacks no table of its path.
    pub fn has_path(&self, page: PageNo)
        ensures { IsSome ((tables_of self.now).tree.entry page) → lacks (tables_of self.now).tree page ≡ 0 }
    {
        self.tree.has_path(page);
    }

    /// A law: the words that are read on a page's path, from the root on, end with that of its entry.
    pub fn path_is_read(&self, page: PageNo)
        ensures { IfSome (table_at (tables_of self.now).tree.place (on_path 4 0))
            (λ root. read_on (word_of (tables_of self.now).tree) 4 root page ≡ pack_of ((tables_of self.now).tree.entry page)) }
    {
        self.tree.path_is_read(page);
    }

    /// The tables that were taken out and wait, the longest first.
    #[inline]
    pub fn retired(&self) -> Iter<'_, Table>
        ensures { deque_iter_rest result ≡ (tables_of self.now).limbo.retired }
    {
        self.limbo.items()
    }

    /// A law: there is room in the tree for all tables that wait.
    pub fn few_wait(&self)
        ensures { length (tables_of self.now).limbo.retired ≤ (tables_of self.now).tree.room }
    {
        let _limbo = &self.limbo;
    }

    /// How many walks run.
    #[inline]
    pub fn walks(&self) -> u64
        ensures { result ≡ (tables_of self.now).limbo.walks }
    {
        self.limbo.walks()
    }

    /// One walk more runs. Fewer than 2^40 run before.
    #[inline]
    pub fn enter(&mut self)
        requires { (tables_of self.old).limbo.walks < 2 ^ 40 }
        ensures { tables_of self.new ≡ record (tables_of self.old) {
          limbo = record ((tables_of self.old).limbo) { walks = (tables_of self.old).limbo.walks + 1 };
        } }
    {
        self.limbo.enter();
    }

    /// One of the walks is over.
    #[inline]
    pub fn leave(&mut self)
        requires { 0 < (tables_of self.old).limbo.walks }
        ensures { tables_of self.new ≡ record (tables_of self.old) {
          limbo = record ((tables_of self.old).limbo) { walks = (tables_of self.old).limbo.walks - 1 };
        } }
    {
        self.limbo.leave();
    }

    /// First, unless a walk runs, all tables that were taken out come free. Then the page gets the tables that it lacks, the lowest
    /// free one at the highest missing place first.
    ///
    /// `NoTable` comes exactly where fewer are free than it lacks, and then it gets none.
    pub fn grow(&mut self, pool: &mut Pool, page: PageNo) -> Result<(), NoTable>
        requires { IsOf (both self.old (pool_of pool.old)) }
        ensures refused { is_err result ≡ nat_lt (free_tables (reclaims (both self.old (pool_of pool.old))).pool) (lacks (tables_of self.old).tree page) }
        ensures grown { OnOk result (both self.new (pool_of pool.new)
            ≡ grows page (lacks (tables_of self.old).tree page) (reclaims (both self.old (pool_of pool.old)))) }
        ensures err { OnErr result (both self.new (pool_of pool.new) ≡ reclaims (both self.old (pool_of pool.old))) }
        ensures complete { OnOk result (lacks (tables_of self.new).tree page ≡ 0) }
        ensures full { (g : ℕ) → lacks (tables_of self.old).tree g ≡ 0 → lacks (tables_of self.new).tree g ≡ 0 }
        ensures entries { (tables_of self.new).tree.entry ≡ (tables_of self.old).tree.entry }
        ensures room { (tables_of self.new).tree.room ≡ (tables_of self.old).tree.room }
        ensures own { IsOf (both self.new (pool_of pool.new)) }
    {
        reclaim_all(&mut self.limbo, pool);
        let lacking = lacking(&self.tree, self.whole, page);
        if pool.free() < u32::from(lacking) {
            return Err(NoTable);
        }
        take_all(&mut self.tree, &self.limbo, pool, page, lacking);
        self.whole = Some(page);
        Ok(())
    }

    /// Takes the empty tables of the page's path out, from the lowest one up, but never the root. Then, unless a walk runs, all
    /// tables that were taken out come free.
    pub fn retire(&mut self, pool: &mut Pool, page: PageNo)
        requires { IsOf (both self.old (pool_of pool.old)) }
        ensures tables { both self.new (pool_of pool.new)
            ≡ reclaims record { tables = shrinks page 3 (tables_of self.old); pool = pool_of pool.old } }
        ensures entries { (tables_of self.new).tree.entry ≡ (tables_of self.old).tree.entry }
        ensures room { (tables_of self.new).tree.room ≡ (tables_of self.old).tree.room }
        ensures own { IsOf (both self.new (pool_of pool.new)) }
    {
        self.whole = None;
        take_out_all(&mut self.tree, &mut self.limbo, page);
        reclaim_all(&mut self.limbo, pool);
    }
}
