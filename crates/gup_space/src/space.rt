//! One process of the machine.
ghost use Rattle.std.specs.Prelude.{◌≡◌, ℕ, ◌+◌, ◌-◌, ◌<◌, ◌≤◌, ◌^◌, ◌↔◌, IsTrue, not, true, false, is_some, is_err, is_ok, None, Some, Err, IfOk, IfSome, IfNone, OnOk, OnErr, IsSome, MatchOption, OnSome, length};
ghost use Rattle.std.specs.VecDeque.Iter.{deque_iter_rest};
ghost use Rattle.gup_base.specs.Packing.{pack_of};
ghost use Rattle.gup_plain.specs.Denial.{any_mapped, any_unmapped};
ghost use Rattle.gup_plain.specs.Pages.{mapped_pages};
ghost use Rattle.gup_spec_events.specs.State.{CoreState};
ghost use Rattle.gup_spec_events.specs.Event.{entry_of, run};
ghost use Rattle.gup_spec_events.specs.Growth.{grows, has_enough, reclaims, retires};
ghost use Rattle.gup_spec_tables.specs.Tables.{table_at, on_path, word_of, read_on};
ghost use Rattle.gup_spec_tables.specs.Paths.{path_to, entry_at, leads_still, KeepsPath};
ghost use Rattle.gup_tables.specs.Path.{tables_on};
ghost use Rattle.gup_tables.specs.Pool.{pool_of};
ghost use Rattle.gup_page_tables.specs.PageTables.{tables_of, IsBare};
ghost use Rattle.gup_maps.specs.Maps.{IsNextPage, IsLastPage};
ghost use Rattle.gup_space.specs.Space.{no_space, space_of, with_entry, with_rights, with_pages, without_page, tables_in, lacking, OwnsTables};
ghost use Rattle.gup_space.specs.Shows.{ShowsSpace, ShowsPool};

use crate::law::{growth_is_events, shrinking_is_events};
use gup_base::{ActorNo, Entry, NoMemory, PageNo, Rights};
use gup_maps::{Hole, MapRefusal, Maps};
use gup_page_tables::{NoTable, PageTables};
use gup_tables::{Path, Place, Pool, Table, TableNo};
use std::alloc::Global;
use std::collections::vec_deque::Iter;
use std::marker::Model;

// How many page tables a process can have: as many as there are numbers of tables.
const TABLES: u32 = 8192;

/// One process: its mappings, and its page tables with their entries (of Linux's `mm_struct`). At most 1,024 pages are mapped.
#[derive(Drop)]
pub struct Space {
    maps: Maps,
    tables: PageTables,
    sequence: u64,
    has_pinned: bool,
    structure: Option<ActorNo>,
    table: Option<ActorNo>,
}

impl Model for Space {
    ghost use Rattle.std.specs.Prelude.{◌≡◌};
    ghost use Rattle.gup_page_tables.specs.PageTables.{tables_of};
    ghost use Rattle.gup_space.specs.Space.{SpaceParts};

    ghost Value = { SpaceParts };

    ghost view = { λ s. record {
      rights = s.maps;
      tables = s.tables;
      sequence = s.sequence;
      has_pinned = s.has_pinned;
      structure = s.structure;
      table = s.table;
    } };

    ghost invariant = { λ s. (tables_of s.tables).tree.room ≡ 8192 };
}

impl Space {
    /// A process without mappings, entries and page tables, which has never forked or pinned, whose locks are free and in which
    /// no walk runs, with the memory for all that it will have: no other call takes any. That of a page table is touched only
    /// once the process has the table.
    pub fn new(alloc: Global) -> Result<Space, NoMemory>
        ensures { IfOk result (λ space. space_of space ≡ no_space) }
    {
        let maps = Maps::new(alloc)?;
        let tables = PageTables::new(alloc, TABLES)?;
        Ok(Space {
            maps,
            tables,
            sequence: 0,
            has_pinned: false,
            structure: None,
            table: None,
        })
    }

    /// The page's entry, where it has one.
    #[inline]
    pub fn entry(&self, page: PageNo) -> Option<Entry>
        ensures { result ≡ (space_of self.now).entry page }
    {
        self.tables.entry(page)
    }

    /// Gives the page this entry, or takes away the one that it has. A page that gets one is mapped, and lacks no table.
    #[inline]
    pub fn set_entry(&mut self, page: PageNo, entry: Option<Entry>)
        requires mapped { IsSome entry → IsSome ((space_of self.old).right page) }
        requires path { IsSome entry → lacking (space_of self.old) page ≡ 0 }
        ensures { space_of self.new ≡ with_entry page entry (space_of self.old) }
    {
        match entry {
            Some(entry) => self.tables.set_entry(page, Some(entry)),
            None => {
                let _old = self.take_entry(page);
            }
        }
    }

    /// Takes the page's entry away, and answers it, where it has one.
    #[inline]
    pub fn take_entry(&mut self, page: PageNo) -> Option<Entry>
        ensures entry { result ≡ (space_of self.old).entry page }
        ensures taken { space_of self.new ≡ with_entry page None (space_of self.old) }
        ensures kept { IfNone result (self.new ≡ self.old) }
    {
        let entry = self.tables.entry(page);
        if entry.is_some() {
            self.tables.has_path(page);
            self.tables.set_entry(page, None);
        }
        entry
    }

    /// Makes the page's entry read-only, and answers it as it was, where it has one (Linux's `ptep_set_wrprotect`).
    #[inline]
    pub fn lower_entry(&mut self, page: PageNo) -> Option<Entry>
        ensures entry { result ≡ (space_of self.old).entry page }
        ensures lowered { IfSome result (λ e. space_of self.new ≡ with_entry page (Some (entry_of e.frame false)) (space_of self.old)) }
        ensures kept { IfNone result (self.new ≡ self.old) }
    {
        let entry = self.tables.entry(page)?;
        let lower = Entry {
            frame: entry.frame,
            writable: false,
        };
        self.tables.has_path(page);
        self.tables.set_entry(page, Some(lower));
        Some(entry)
    }

    /// A law: a page with an entry lacks no table.
    pub fn has_path(&self, page: PageNo)
        ensures { IsSome ((space_of self.now).entry page) → lacking (space_of self.now) page ≡ 0 }
    {
        self.tables.has_path(page);
    }

    /// How many of the four page tables of the page's path are missing.
    #[inline]
    pub fn lacks(&self, page: PageNo) -> u8
        ensures { result ≡ lacking (space_of self.now) page }
    {
        self.tables.lacks(page)
    }

    /// The number of the table at the top, if the process has a table (of Linux's `mm->pgd`).
    #[inline]
    pub fn root(&self) -> Option<TableNo>
        ensures { result ≡ table_at (space_of self.now).place (on_path 4 0) }
    {
        self.tables.root()
    }

    /// Whether the process has no page table, neither in the tree nor taken out of it.
    #[inline]
    pub fn is_bare(&self) -> bool
        ensures { IsTrue result ↔ IsBare (space_of self.now).place (space_of self.now).retired }
    {
        self.tables.is_bare()
    }

    /// Where the table stands, if it is in the tree.
    #[inline]
    pub fn place(&self, table: TableNo) -> Option<Place>
        ensures { result ≡ (space_of self.now).place table }
    {
        self.tables.place(table)
    }

    /// Word `i` of the table, of the 512 from 0 on. Of one that isn't in the tree it is 0, so also of one that was taken out.
    #[inline]
    pub fn word_at(&self, table: TableNo, i: u16) -> u64
        requires { i < 512 }
        ensures { result ≡ word_of (tables_of self.now.tables).tree table i }
    {
        self.tables.word_at(table, i)
    }

    /// The tables of the page's path below the root, read one level after another (of Linux's `gup_fast_pgd_range` ..
    /// `gup_fast_pte_range`, `mm/gup.c`): `None` exactly where the page lacks a table.
    #[inline]
    pub fn path(&self, page: PageNo) -> Option<Path>
        ensures path { MatchOption result (0 < lacking (space_of self.now) page)
            (λ path. path_to (tables_in (space_of self.now)) page ≡ tables_on path) }
        ensures whole { OnSome result (lacking (space_of self.now) page ≡ 0) }
    {
        self.tables.path(page)
    }

    /// The entry in the word of the path's last table, if it has one (of Linux's `gup_fast_pte_range`, `mm/gup.c`). Each table of
    /// the path stands where it stood, or isn't in the tree any more: one that was taken out has no entries.
    #[inline]
    pub fn entry_by(&self, path: &Path, page: PageNo) -> Option<Entry>
        requires { KeepsPath (tables_in (space_of self.now)) (tables_on path.now) page }
        ensures { result ≡ entry_at (tables_in (space_of self.now)) (tables_on path.now) page }
    {
        self.tables.entry_by(path, page)
    }

    /// Whether the word above still leads to the path's last table (Linux looks again at `pmd_val(pmd) != pmd_val(*pmdp)`, in
    /// `gup_fast_pte_range`, `mm/gup.c`). Each table of the path stands where it stood, or isn't in the tree any more.
    #[inline]
    pub fn leads(&self, path: &Path, page: PageNo) -> bool
        requires { KeepsPath (tables_in (space_of self.now)) (tables_on path.now) page }
        ensures { result ≡ leads_still (tables_in (space_of self.now)) (tables_on path.now) page }
    {
        self.tables.leads(path, page)
    }

    /// A law: the words that are read on a page's path, from the root on, end with that of its entry.
    pub fn path_is_read(&self, page: PageNo)
        ensures { IfSome (table_at (space_of self.now).place (on_path 4 0))
            (λ root. read_on (word_of (tables_of self.now.tables).tree) 4 root page ≡ pack_of ((space_of self.now).entry page)) }
    {
        self.tables.path_is_read(page);
    }

    /// The tables that were taken out and wait until no lockless walk runs, the longest first.
    #[inline]
    pub fn retired(&self) -> Iter<'_, Table>
        ensures { deque_iter_rest result ≡ (space_of self.now).retired }
    {
        self.tables.retired()
    }

    /// A law: at most 8,192 tables were taken out and wait.
    pub fn few_wait(&self)
        ensures { length (space_of self.now).retired ≤ 8192 }
    {
        self.tables.few_wait();
    }

    /// Gives the page the tables that it lacks (of Linux's `__pud_alloc`, `__pmd_alloc` and `__pte_alloc`, `mm/memory.c`). Before
    /// that, unless a lockless walk runs in the process, all tables that were taken out come free. In whatever state shows the
    /// process and the free tables, it is the events of growth that lead to what is now.
    ///
    /// `NoTable` comes exactly where fewer are free then than the page lacks, and then it gets none.
    pub fn grow(&mut self, pool: &mut Pool, page: PageNo) -> Result<(), NoTable>
        requires { OwnsTables (space_of self.old) (pool_of pool.old) }
        ensures refused { (s : CoreState) (a p : ℕ) → ShowsPool (pool_of pool.old) s → ShowsSpace p (space_of self.old) s
            → is_err result ≡ not (has_enough (run s (reclaims s a p)) p page) }
        ensures leads { (s : CoreState) (a p : ℕ) → ShowsPool (pool_of pool.old) s → ShowsSpace p (space_of self.old) s
            → ShowsPool (pool_of pool.new) (run s (grows s a p page)) × ShowsSpace p (space_of self.new) (run s (grows s a p page)) }
        ensures complete { OnOk result (lacking (space_of self.new) page ≡ 0) }
        ensures full { (g : ℕ) → lacking (space_of self.old) g ≡ 0 → lacking (space_of self.new) g ≡ 0 }
        ensures own { OwnsTables (space_of self.new) (pool_of pool.new) }
        ensures pool { (pool_of pool.new).tables ≡ (pool_of pool.old).tables }
        ensures rest { space_of self.new ≡ record (space_of self.old) { place = (space_of self.new).place; retired = (space_of self.new).retired } }
    {
        growth_is_events();
        pool.is_within();
        self.tables.grow(pool, page)
    }

    /// Takes the empty tables of the page's path out, from the lowest one up, but never the root (of Linux's `free_pgd_range`,
    /// `mm/memory.c`; that a table is taken out once it is empty is this project's own). Then, unless a lockless walk runs in the
    /// process, all tables that were taken out come free. In whatever state shows the process and the free tables, it is the
    /// events of shrinking that lead to what is now.
    pub fn retire(&mut self, pool: &mut Pool, page: PageNo)
        requires { OwnsTables (space_of self.old) (pool_of pool.old) }
        ensures leads { (s : CoreState) (a p : ℕ) → ShowsPool (pool_of pool.old) s → ShowsSpace p (space_of self.old) s
            → ShowsPool (pool_of pool.new) (run s (retires s a p page)) × ShowsSpace p (space_of self.new) (run s (retires s a p page)) }
        ensures own { OwnsTables (space_of self.new) (pool_of pool.new) }
        ensures pool { (pool_of pool.new).tables ≡ (pool_of pool.old).tables }
        ensures rest { space_of self.new ≡ record (space_of self.old) { place = (space_of self.new).place; retired = (space_of self.new).retired } }
    {
        shrinking_is_events();
        pool.is_within();
        self.tables.retire(pool, page)
    }

    /// How many pages are mapped, at most 1,024.
    #[inline]
    pub fn len(&self) -> u16
        ensures len { result ≡ (space_of self.now).pages }
        ensures within { result ≤ 1024 }
    {
        self.maps.len()
    }

    /// A law: as many pages are mapped as have rights.
    pub fn is_counted(&self)
        ensures { mapped_pages (space_of self.now).right ≡ (space_of self.now).pages }
    {
        self.maps.is_counted();
    }

    /// The rights of the page, where it is mapped.
    #[inline]
    pub fn rights_at(&self, page: PageNo) -> Option<Rights>
        ensures { result ≡ (space_of self.now).right page }
    {
        self.maps.rights_at(page)
    }

    /// The least mapped page at or above `from`, where there is one.
    #[inline]
    pub fn next_page(&self, from: PageNo) -> Option<PageNo>
        ensures { MatchOption result (IsLastPage (space_of self.now).right from) (IsNextPage (space_of self.now).right from) }
    {
        self.maps.next_page(from)
    }

    /// Maps the `n` pages from `page` on with these rights, as [`Maps::map`] does: they end below 2^35.
    ///
    /// A refusal changes nothing: `Overlap` exactly where one of the pages is mapped, else `Full` exactly where more
    /// than 1,024 pages would be.
    #[inline]
    pub fn map(&mut self, page: PageNo, n: u16, rights: Rights) -> Result<(), MapRefusal>
        requires { page + n ≤ 2 ^ 35 }
        ensures overlap { (result ≡ Err MapRefusal.Overlap) ↔ (any_mapped (space_of self.old).right page n ≡ true) }
        ensures full { (result ≡ Err MapRefusal.Full)
            ↔ ((any_mapped (space_of self.old).right page n ≡ false) × (1024 < (space_of self.old).pages + n)) }
        ensures mapped { OnOk result (space_of self.new ≡ with_pages page n rights (space_of self.old)) }
        ensures err { OnErr result (space_of self.new ≡ space_of self.old) }
    {
        self.maps.map(page, n, rights)
    }

    /// Gives the process the mappings of its parent, in place of its own (of Linux's `dup_mmap`). Its entries stay.
    #[inline]
    pub fn copy_maps(&mut self, parent: &Space)
        ensures { space_of self.new ≡ record (space_of self.old) { right = (space_of parent.now).right; pages = (space_of parent.now).pages } }
    {
        self.maps.copy_from(&parent.maps);
    }

    /// Unmaps the page, and answers whether it was mapped. Its entry stays, if it has one.
    #[inline]
    pub fn unmap_page(&mut self, page: PageNo) -> bool
        ensures was { result ≡ is_some ((space_of self.old).right page) }
        ensures unmapped { space_of self.new ≡ without_page page (space_of self.old) }
    {
        self.maps.unmap_page(page)
    }

    /// Gives the `n` pages from `page` on these rights, as [`Maps::protect`] does.
    ///
    /// `Hole` comes exactly where one of the pages isn't mapped, and then nothing changes.
    #[inline]
    pub fn protect(&mut self, page: PageNo, n: u16, rights: Rights) -> Result<(), Hole>
        ensures hole { is_err result ≡ any_unmapped (space_of self.old).right page n }
        ensures protected { OnOk result (space_of self.new ≡ with_rights page n rights (space_of self.old)) }
        ensures err { OnErr result (space_of self.new ≡ space_of self.old) }
    {
        self.maps.protect(page, n, rights)
    }

    /// The number that the beginning and the end of each fork raise (Linux's `write_protect_seq`).
    #[inline]
    pub fn sequence(&self) -> u64
        ensures { result ≡ (space_of self.now).sequence }
    {
        self.sequence
    }

    /// Raises that number by one.
    #[inline]
    pub fn raise(&mut self)
        requires { (space_of self.old).sequence < 2 ^ 40 }
        ensures { space_of self.new ≡ record (space_of self.old) { sequence = (space_of self.old).sequence + 1 } }
    {
        self.sequence += 1;
    }

    /// Whether the process has ever pinned (Linux's `MMF_HAS_PINNED`).
    #[inline]
    pub fn has_pinned(&self) -> bool
        ensures { result ≡ (space_of self.now).has_pinned }
    {
        self.has_pinned
    }

    /// From now on the process has pinned. No call takes this back.
    #[inline]
    pub fn set_pinned(&mut self)
        ensures { space_of self.new ≡ record (space_of self.old) { has_pinned = true } }
    {
        self.has_pinned = true;
    }

    /// The actor that holds the lock of the process's structure (Linux's `mmap_lock` for writing), where one does.
    #[inline]
    pub fn structure(&self) -> Option<ActorNo>
        ensures { result ≡ (space_of self.now).structure }
    {
        self.structure
    }

    /// Gives that lock to this actor, or frees it.
    #[inline]
    pub fn set_structure(&mut self, holder: Option<ActorNo>)
        ensures { space_of self.new ≡ record (space_of self.old) { structure = holder } }
    {
        self.structure = holder;
    }

    /// The actor that holds the lock of the process's page tables (Linux's page table lock), where one does.
    #[inline]
    pub fn table(&self) -> Option<ActorNo>
        ensures { result ≡ (space_of self.now).table }
    {
        self.table
    }

    /// Gives that lock to this actor, or frees it.
    #[inline]
    pub fn set_table(&mut self, holder: Option<ActorNo>)
        ensures { space_of self.new ≡ record (space_of self.old) { table = holder } }
    {
        self.table = holder;
    }

    /// How many lockless walks run in the process.
    #[inline]
    pub fn walks(&self) -> u64
        ensures { result ≡ (space_of self.now).walks }
    {
        self.tables.walks()
    }

    /// One lockless walk more runs in the process. While one does, no page table that was taken out is used again (of
    /// Linux's `local_irq_save` in `gup_fast`).
    #[inline]
    pub fn enter(&mut self)
        requires { (space_of self.old).walks < 2 ^ 40 }
        ensures { space_of self.new ≡ record (space_of self.old) { walks = (space_of self.old).walks + 1 } }
    {
        self.tables.enter();
    }

    /// One of these walks is over (of Linux's `local_irq_restore` in `gup_fast`).
    #[inline]
    pub fn leave(&mut self)
        requires { 0 < (space_of self.old).walks }
        ensures { space_of self.new ≡ record (space_of self.old) { walks = (space_of self.old).walks - 1 } }
    {
        self.tables.leave();
    }
}
