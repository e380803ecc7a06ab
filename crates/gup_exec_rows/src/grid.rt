//! What processes have at their pages.
ghost use Rattle.std.specs.Prelude.{◌≡◌, ℕ, ◌+◌, ◌<◌, ◌≤◌, ◌^◌, ◌↔◌, IsTrue, IsSome, Some, None, All, Contains, Option, IfOk, is_some, if◌then◌else◌, length, nat_lt};
ghost use Rattle.std.specs.BTreeMap.{get, keys, IsOrdered};
ghost use Rattle.std.specs.List.{filter};
ghost use Rattle.std.specs.Ordering.{nat_cmp};
ghost use Rattle.gup_spec_events.specs.Event.{AreGone};
ghost use Rattle.gup_plain.specs.Pages.{page_numbers, sum_below};
ghost use Rattle.gup_plain.specs.Put.{put, put2, spread};
ghost use Rattle.gup_exec_rows.specs.Grid.{found};
ghost use Rattle.gup_exec_rows.specs.Lists.{IsOneOf};

use crate::row::Row;
use gup_base::{Entry, NoMemory, PageNo, ProcNo};
use gup_exec_parts::space::PAGE_NUMBERS;
use std::alloc::Global;
use std::collections::BTreeMap;

/// Values at some of the pages of each process.
#[derive(Drop)]
pub struct Grid<V> {
    rows: Row<BTreeMap<PageNo, V>, 16>,
    alloc: Global,
}

/// The page that is `k` after the first.
pub fn nth(first: PageNo, k: u16) -> PageNo
    requires { first + k < 2 ^ 35 }
    ensures { result ≡ first + k }
{
    PageNo::new(first.get() + u64::from(k)).unwrap()
}

/// Whether the page is one of these.
#[tactic(auto, unfolding(crate::specs::Lists::IsOneOf))]
pub fn has_page(pages: &[PageNo], page: PageNo) -> bool
    ensures { IsTrue result ↔ IsOneOf pages.now page }
{
    pages.contains(&page)
}

// Whether each page that has a value is one of these.
fn all_among<V>(row: &BTreeMap<PageNo, V>, pages: &[PageNo]) -> bool
    ensures { IsTrue result ↔ All (λ page. IsOneOf pages.now page) (keys row.now) }
{
    row.keys().all(|page| has_page(pages, *page))
}

// How many pages have a value, of those that a number can name, which is each.
fn count_numbers<V>(row: &BTreeMap<PageNo, V>) -> u64
    ensures count { result ≡ length (filter (λ page. nat_lt page (2 ^ 35)) (keys row.now)) }
    ensures ordered { IsOrdered nat_cmp row.now }
{
    row.keys().filter(|page| page.get() < PAGE_NUMBERS).count() as u64
}

// How many numbers of pages have a value.
fn count<V>(row: &BTreeMap<PageNo, V>) -> u64
    ensures { result ≡ sum_below page_numbers (λ page. if is_some (get nat_cmp row.now page) then 1 else 0) }
{
    count_numbers(row)
}

// Whether it is so that no page of the row has an entry, or that one has.
fn is_gone(row: &BTreeMap<PageNo, Entry>, gone: bool) -> bool
    ensures { IsTrue result ↔ AreGone (get nat_cmp row.now) gone }
{
    row.is_empty() == gone
}

/// Whether it is so that no page of the process has an entry, or that one has.
pub fn are_gone(entries: &Grid<Entry>, p: ProcNo, gone: bool) -> bool
    ensures { IsTrue result ↔ AreGone (found entries.now p) gone }
{
    is_gone(entries.row(p), gone)
}

/// Whether it is so that no other page of the process has an entry, or that one has. The row is that of the others.
pub fn are_others_gone(
    entries: &Grid<Entry>,
    p: ProcNo,
    page: PageNo,
    row: &BTreeMap<PageNo, Entry>,
    gone: bool,
) -> bool
    requires { get nat_cmp row.now ≡ put page None (found entries.now p) }
    ensures { IsTrue result ↔ AreGone (put page None (found entries.now p)) gone }
{
    let _page = page;
    let _p = p;
    let _entries = entries;
    is_gone(row, gone)
}

impl<V: Copy + Drop> Grid<V> {
    /// No values.
    #[tactic(auto, unfolding(crate::specs::Grid::found))]
    pub fn new(alloc: Global) -> Result<Grid<V>, NoMemory>
        ensures { IfOk result (λ grid. found grid ≡ (λ _ _. None)) }
    {
        Ok(Grid {
            rows: Row::new(alloc, BTreeMap::new(alloc))?,
            alloc,
        })
    }

    /// The value at the page, where there is one.
    #[tactic(auto, unfolding(crate::specs::Grid::found))]
    pub fn get(&self, p: ProcNo, page: PageNo) -> Option<V>
        ensures { result ≡ found self.now p page }
    {
        self.rows.get(p).get(&page).copied()
    }

    /// The pages that have a value, and their values.
    #[tactic(auto, unfolding(crate::specs::Grid::found))]
    pub fn row(&self, p: ProcNo) -> &BTreeMap<PageNo, V>
        ensures { get nat_cmp result.now ≡ found self.now p }
    {
        self.rows.get(p)
    }

    /// How many pages of the process have a value.
    pub fn count(&self, p: ProcNo) -> u64
        ensures { result ≡ sum_below page_numbers (λ page. if is_some (found self.now p page) then 1 else 0) }
    {
        count(self.row(p))
    }

    /// Whether each page that has a value is one of these.
    pub fn is_within(&self, p: ProcNo, pages: &[PageNo]) -> bool
        ensures { IsTrue result ↔ ((page : ℕ) → IsSome (found self.now p page) → Contains pages.now page) }
    {
        all_among(self.row(p), pages)
    }

    /// The row of the process once more.
    pub fn copy_of(&self, p: ProcNo) -> Result<BTreeMap<PageNo, V>, NoMemory>
        ensures { IfOk result (λ row. get nat_cmp row ≡ found self.now p) }
    {
        let row = self
            .row(p)
            .iter()
            .map(|(page, v)| (*page, *v))
            .collect(self.alloc)?;
        Ok(row)
    }

    /// The row of the process, but with this value at the page.
    pub fn with(&self, p: ProcNo, page: PageNo, value: V) -> Result<BTreeMap<PageNo, V>, NoMemory>
        ensures { IfOk result (λ row. get nat_cmp row ≡ put page (Some value) (found self.now p)) }
    {
        let mut row = self.copy_of(p)?;
        row.insert(page, value)?;
        Ok(row)
    }

    /// The row of the process, but without a value at the page.
    pub fn without(&self, p: ProcNo, page: PageNo) -> Result<BTreeMap<PageNo, V>, NoMemory>
        ensures { IfOk result (λ row. get nat_cmp row ≡ put page None (found self.now p)) }
    {
        let mut row = self.copy_of(p)?;
        row.remove(&page);
        Ok(row)
    }

    /// The row of the process, but with this value at the `n` pages from `first` on.
    pub fn with_range(
        &self,
        p: ProcNo,
        first: PageNo,
        n: u16,
        value: V,
    ) -> Result<BTreeMap<PageNo, V>, NoMemory>
        requires { first + n ≤ 2 ^ 35 }
        ensures { IfOk result (λ row. get nat_cmp row ≡ spread first n (λ _. Some value) (found self.now p)) }
    {
        let mut row = self.copy_of(p)?;
        for k in 0..n {
            row.insert(nth(first, k), value)?;
        }
        Ok(row)
    }

    /// Gives the process this row.
    #[tactic(auto, unfolding(crate::specs::Grid::found))]
    pub fn put(&mut self, p: ProcNo, row: BTreeMap<PageNo, V>)
        ensures { found self.new ≡ put p (get nat_cmp row) (found self.old) }
    {
        self.rows.put(p, row);
    }

    /// Gives the process this row, which differs at the page alone.
    pub fn put_at(&mut self, p: ProcNo, page: PageNo, value: Option<V>, row: BTreeMap<PageNo, V>)
        requires { get nat_cmp row ≡ put page value (found self.old p) }
        ensures { found self.new ≡ put2 p page value (found self.old) }
    {
        let _value = value;
        let _page = page;
        self.rows.put(p, row);
    }

    /// Takes all values of the process.
    #[tactic(auto, unfolding(crate::specs::Grid::found))]
    pub fn clear(&mut self, p: ProcNo)
        ensures { found self.new ≡ put p (λ _. None) (found self.old) }
    {
        self.rows.put(p, BTreeMap::new(self.alloc));
    }
}
