//! Values at pages.
ghost use Rattle.std.specs.Prelude.{◌≡◌, ℕ, ◌+◌, ◌<◌, ◌≤◌, ◌^◌, ◌↔◌, nat_lt, if◌then◌else◌, true, false, not, is_some, length, None, Some, IfOk, IfNone, IsSome, MatchOption};
ghost use Rattle.std.specs.Bool.{MatchBool, OnTrue, OnFalse};
ghost use Rattle.gup_plain.specs.Pages.{page_numbers, sum_below};
ghost use Rattle.gup_plain.specs.Put.{put, spread};
ghost use Rattle.gup_maps.specs.Table.{at, pages_of, any_present, any_absent, IsNextPage, IsLastPage, IsOrdered, IsPlace, IsThere, IsGap, IsRun};

use crate::rows::Rows;
use gup_base::{NoMemory, PageNo};
use std::alloc::Global;
use std::marker::Model;

/// A value at some of the pages, at most 1,024 of them.
#[derive(Drop)]
pub struct Table<V> {
    rows: Rows<V>,
}

impl<V> Model for Table<V> {
    ghost use Rattle.std.specs.Prelude.{ℕ, List};
    ghost use Rattle.gup_maps.specs.Table.{IsKept};

    ghost Value = { List (ℕ × V) };

    ghost view = { λ t. t.rows };

    ghost invariant = { λ t. IsKept t.rows };
}

// 1 where the page is below the other, and else 0, without a branch.
fn is_below(page: PageNo, other: PageNo) -> usize
    ensures { result ≡ (if nat_lt page other then 1 else 0) }
{
    (page.get().wrapping_sub(other.get()) >> 63) as usize
}

// Whether the page's row stands at this place.
#[inline(always)]
fn stands_at<V>(rows: &[(PageNo, V)], place: usize, page: PageNo) -> bool
    ensures { MatchBool result (IsThere (pages_of rows.now) page place) (IsThere (pages_of rows.now) page place → ⊥) }
{
    place < rows.len() && rows[place].0 == page
}

// The place of the page among the rows: that of the first row that isn't below it. Pages mostly stand next to each other,
// so it is tried first whether none is missing between the page and the first row, or the page and the last one.
#[inline]
fn place_of<V>(rows: &[(PageNo, V)], page: PageNo) -> usize
    requires { IsOrdered (pages_of rows.now) }
    ensures { IsPlace (pages_of rows.now) page result }
{
    let len = rows.len();
    if len == 0 {
        return 0;
    }
    let first = rows[0].0.get();
    if page.get() <= first {
        return 0;
    }
    let after_first = (page.get() - first) as usize;
    if stands_at(rows, after_first, page) {
        return after_first;
    }
    let last = rows[len - 1].0.get();
    if last < page.get() {
        return len;
    }
    let from_end = (last - page.get()) as usize + 1;
    if from_end <= len && stands_at(rows, len - from_end, page) {
        return len - from_end;
    }
    search(rows, page)
}

// The same, wherever the page stands.
#[inline(never)]
fn search<V>(rows: &[(PageNo, V)], page: PageNo) -> usize
    requires { IsOrdered (pages_of rows.now) }
    ensures { IsPlace (pages_of rows.now) page result }
{
    let mut low = 0;
    let mut size = rows.len();
    while size > 0 {
        let rest = size / 2;
        let half = size - rest;
        low += half * is_below(rows[low + half - 1].0, page);
        size = rest;
    }
    low
}

// Whether the page has a row, which then stands at its place.
#[inline(always)]
fn has_row<V>(rows: &[(PageNo, V)], place: usize, page: PageNo) -> bool
    requires ordered { IsOrdered (pages_of rows.now) }
    requires place { IsPlace (pages_of rows.now) page place }
    ensures { MatchBool result (IsThere (pages_of rows.now) page place) (at rows.now page ≡ None) }
{
    stands_at(rows, place, page)
}

// Whether each of the `n` pages from `page` on has a row. They are then next to each other.
fn has_run<V>(rows: &[(PageNo, V)], place: usize, page: PageNo, n: u16) -> bool
    requires ordered { IsOrdered (pages_of rows.now) }
    requires place { IsPlace (pages_of rows.now) page place }
    ensures { MatchBool result (IsRun (pages_of rows.now) page n place × (any_absent (at rows.now) page n ≡ false))
        (any_absent (at rows.now) page n ≡ true) }
{
    if n == 0 {
        return true;
    }
    let count = usize::from(n);
    if rows.len() - place < count {
        return false;
    }
    rows[place + (count - 1)].0.get() == page.get() + u64::from(n - 1)
}

impl<V: Copy> Table<V> {
    /// A table without values, and with the memory for all that it will have.
    pub fn new(alloc: Global) -> Result<Table<V>, NoMemory>
        ensures at { IfOk result (λ table. at table ≡ (λ _. None)) }
        ensures len { IfOk result (λ table. length table ≡ 0) }
    {
        let rows = Rows::new(alloc)?;
        Ok(Table { rows })
    }

    /// Gives exactly the pages of this other table its values. Those that were there go, and no memory is taken.
    pub fn copy_from(&mut self, from: &Table<V>)
        ensures { self.new ≡ from.now }
    {
        self.rows.copy_from(&from.rows);
    }

    /// How many pages have a value.
    #[inline]
    pub fn len(&self) -> u16
        ensures len { result ≡ length self.now }
        ensures within { result ≤ 1024 }
    {
        self.rows.len() as u16
    }

    /// A law: the rows stand in the order of their pages, so no page has two.
    pub fn is_ordered(&self)
        ensures { IsOrdered (pages_of self.now) }
    {
        let _rows = &self.rows;
    }

    /// A law: there are as many values as numbers of pages that have one.
    pub fn is_counted(&self)
        ensures { sum_below page_numbers (λ page. if is_some (at self.now page) then 1 else 0) ≡ length self.now }
    {
        let _rows = &self.rows;
    }

    /// The place of the page's value, where it has one, for [`Table::value_at`] and [`Table::set_at`]. It stays so until
    /// a page gets its first value, or loses its value.
    #[inline]
    pub fn find(&self, page: PageNo) -> Option<usize>
        ensures { MatchOption result (at self.now page ≡ None) (IsThere (pages_of self.now) page) }
    {
        let rows = self.rows.as_slice();
        let place = place_of(rows, page);
        if has_row(rows, place, page) {
            Some(place)
        } else {
            None
        }
    }

    /// The value of the page whose place this is.
    #[inline(always)]
    pub fn value_at(&self, place: usize) -> V
        requires { place < length self.now }
        ensures { (page : ℕ) → IsThere (pages_of self.now) page place → at self.now page ≡ Some result }
    {
        self.rows.as_slice()[place].1
    }

    /// Gives the page whose place this is the value, in place of its own.
    #[inline(always)]
    pub fn set_at(&mut self, place: usize, value: V)
        requires { place < length self.old }
        ensures at { (page : ℕ) → IsThere (pages_of self.old) page place → at self.new ≡ put page (Some value) (at self.old) }
        ensures len { length self.new ≡ length self.old }
    {
        self.rows.fill(place, 1, value);
    }

    /// The value at the page, where there is one.
    #[inline]
    pub fn get(&self, page: PageNo) -> Option<V>
        ensures { result ≡ at self.now page }
    {
        let Some(place) = self.find(page) else {
            return None;
        };
        Some(self.value_at(place))
    }

    /// The least page with a value at or above this one, where there is one.
    #[inline]
    pub fn next(&self, from: PageNo) -> Option<PageNo>
        ensures { MatchOption result (IsLastPage (at self.now) from) (IsNextPage (at self.now) from) }
    {
        let rows = self.rows.as_slice();
        let place = place_of(rows, from);
        if place < rows.len() {
            Some(rows[place].0)
        } else {
            None
        }
    }

    /// Gives the page this value, whether or not it has one.
    #[inline]
    pub fn set(&mut self, page: PageNo, value: V)
        requires { at self.old page ≡ None → length self.old < 1024 }
        ensures at { at self.new ≡ put page (Some value) (at self.old) }
        ensures len { length self.new ≡ length self.old + (if is_some (at self.old page) then 0 else 1) }
    {
        let rows = self.rows.as_slice();
        let place = place_of(rows, page);
        if has_row(rows, place, page) {
            self.set_at(place, value);
        } else {
            self.rows.insert(place, page, value);
        }
    }

    /// Takes out the value at the page, and answers it, where there is one.
    #[inline]
    pub fn remove(&mut self, page: PageNo) -> Option<V>
        ensures value { result ≡ at self.old page }
        ensures at { at self.new ≡ put page None (at self.old) }
        ensures len { length self.new + (if is_some result then 1 else 0) ≡ length self.old }
        ensures kept { IfNone result (self.new ≡ self.old) }
    {
        let rows = self.rows.as_slice();
        let place = place_of(rows, page);
        if has_row(rows, place, page) {
            Some(self.rows.remove(place).1)
        } else {
            None
        }
    }

    /// Gives `n` pages from `page` on, none of which has a value, this one.
    pub fn insert(&mut self, page: PageNo, n: u16, value: V)
        requires below { page + n ≤ 2 ^ 35 }
        requires absent { any_present (at self.old) page n ≡ false }
        requires room { length self.old + n ≤ 1024 }
        ensures at { at self.new ≡ spread page n (λ _. Some value) (at self.old) }
        ensures len { length self.new ≡ length self.old + n }
    {
        let place = place_of(self.rows.as_slice(), page);
        self.insert_at(place, page, n, value);
    }

    /// The place at which `n` pages from `page` on can be inserted, where none of them has a value.
    pub(crate) fn gap(&self, page: PageNo, n: u16) -> Option<usize>
        ensures { MatchOption result (any_present (at self.now) page n ≡ true)
            (λ place. (any_present (at self.now) page n ≡ false) × IsGap (pages_of self.now) page n place) }
    {
        let rows = self.rows.as_slice();
        let place = place_of(rows, page);
        if place < rows.len() && rows[place].0.get() < page.get() + u64::from(n) {
            None
        } else {
            Some(place)
        }
    }

    /// Gives `n` pages from `page` on, whose place this is, the value.
    pub(crate) fn insert_at(&mut self, place: usize, page: PageNo, n: u16, value: V)
        requires below { page + n ≤ 2 ^ 35 }
        requires gap { IsGap (pages_of self.old) page n place }
        requires room { length self.old + n ≤ 1024 }
        ensures at { at self.new ≡ spread page n (λ _. Some value) (at self.old) }
        ensures len { length self.new ≡ length self.old + n }
    {
        self.rows.insert_run(place, page, n, value);
    }

    /// Gives `n` pages from `page` on this value, where each of them has one, and answers whether. Else nothing
    /// changes.
    pub fn replace(&mut self, page: PageNo, n: u16, value: V) -> bool
        ensures all { result ≡ not (any_absent (at self.old) page n) }
        ensures at { OnTrue result (at self.new ≡ spread page n (λ _. Some value) (at self.old)) }
        ensures unchanged { OnFalse result (self.new ≡ self.old) }
        ensures len { length self.new ≡ length self.old }
    {
        let rows = self.rows.as_slice();
        let place = place_of(rows, page);
        if !has_run(rows, place, page, n) {
            return false;
        }
        self.rows.fill(place, n, value);
        true
    }
}
