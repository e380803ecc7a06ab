//! The rows of a table.
ghost use Rattle.std.specs.Prelude.{◌≡◌, ℕ, ◌+◌, ◌<◌, ◌≤◌, ◌^◌, ◌++◌, [], take, drop, length, vec_len, vec_capacity, slice_index_or, Some, IfOk};
ghost use Rattle.std.specs.List.{remove};
ghost use Rattle.gup_plain.specs.Put.{spread};
ghost use Rattle.gup_maps.specs.Table.{at, pages_of, run, IsOrdered, IsRun};

use gup_base::{NoMemory, PageNo};
use std::alloc::Global;
use std::marker::Model;

// How many rows there are at most.
const MOST: usize = 1024;

/// Rows of a page and its value, at most 1,024 of them. The first is taken out without moving the others.
#[derive(Drop)]
pub(crate) struct Rows<V> {
    items: Vec<(PageNo, V)>,
    // The place of the first row. What stands before it was taken out, and is never read.
    start: usize,
}

impl<V> Model for Rows<V> {
    ghost use Rattle.std.specs.Prelude.{ℕ, List, drop, vec_len, vec_capacity};
    ghost use Rattle.gup_maps.specs.Table.{HasRoom};

    ghost Value = { List (ℕ × V) };

    ghost view = { λ r. drop r.start r.items.items };

    ghost invariant = { λ r. HasRoom r.start (vec_len r.items) (vec_capacity r.items) };
}

// Makes room for `n` more rows after the last, and answers where the first then stands. It moves the rows down to the
// front only where there is none.
#[inline]
fn make_room<V: Copy>(items: &mut Vec<(PageNo, V)>, start: usize, n: u16) -> usize
    requires within { start ≤ vec_len items.old }
    requires few { vec_len items.old ≤ 1024 }
    requires room { length (drop start items.old.items) + n ≤ 1024 }
    ensures rows { drop result items.new.items ≡ drop start items.old.items }
    ensures within { result ≤ vec_len items.new }
    ensures room { vec_len items.new + n ≤ 1024 }
    ensures capacity { vec_capacity items.new ≡ vec_capacity items.old }
{
    let len = items.len();
    if len + usize::from(n) <= MOST {
        return start;
    }
    items.copy_within(start.., 0);
    items.truncate(len - start);
    0
}

// Puts the rows of the `n` pages from `page` on at this place.
fn insert_run<V: Copy>(rows: &mut Vec<(PageNo, V)>, place: usize, page: PageNo, n: u16, value: V)
    requires place { place ≤ vec_len rows.old }
    requires room { vec_len rows.old + n ≤ vec_capacity rows.old }
    requires below { page + n ≤ 2 ^ 35 }
    ensures rows { rows.new.items ≡ take place rows.old.items ++ (run page n value ++ drop place rows.old.items) }
    ensures len { vec_len rows.new ≡ vec_len rows.old + n }
    ensures room { vec_capacity rows.old ≤ vec_capacity rows.new }
{
    for k in 0..n {
        let next = PageNo::new(page.get() + u64::from(k)).unwrap();
        rows.push_reserved((next, value));
    }
    rows[place..].rotate_right(usize::from(n));
}

impl<V: Copy> Rows<V> {
    /// No rows, and the memory for all that there will be.
    pub(crate) fn new(alloc: Global) -> Result<Rows<V>, NoMemory>
        ensures { IfOk result (λ rows. rows ≡ []) }
    {
        let items = Vec::with_capacity(alloc, MOST)?;
        Ok(Rows { items, start: 0 })
    }

    /// Makes these the rows of another table. Those that were there go.
    pub(crate) fn copy_from(&mut self, from: &Rows<V>)
        ensures { self.new ≡ from.now }
    {
        self.items.clear();
        self.items
            .extend_from_slice(&from.items[from.start..])
            .unwrap();
        self.start = 0;
    }

    #[inline]
    pub(crate) fn as_slice(&self) -> &[(PageNo, V)]
        ensures value { result.now ≡ self.now }
    {
        &self.items[self.start..]
    }

    #[inline]
    pub(crate) fn len(&self) -> usize
        ensures { result ≡ length self.now }
    {
        self.items.len() - self.start
    }

    /// Puts the rows of the `n` pages from `page` on at this place.
    pub(crate) fn insert_run(&mut self, place: usize, page: PageNo, n: u16, value: V)
        requires place { place ≤ length self.old }
        requires room { length self.old + n ≤ 1024 }
        requires below { page + n ≤ 2 ^ 35 }
        ensures rows { self.new ≡ take place self.old ++ (run page n value ++ drop place self.old) }
    {
        self.start = make_room(&mut self.items, self.start, n);
        insert_run(&mut self.items, self.start + place, page, n, value);
    }

    /// Puts the page's row at this place. No other row moves where it is the last, but to make room.
    #[inline]
    pub(crate) fn insert(&mut self, place: usize, page: PageNo, value: V)
        requires place { place ≤ length self.old }
        requires room { length self.old < 1024 }
        ensures rows { self.new ≡ take place self.old ++ (run page 1 value ++ drop place self.old) }
    {
        self.start = make_room(&mut self.items, self.start, 1);
        let at = self.start + place;
        if at == self.items.len() {
            self.items.push_reserved((page, value));
        } else {
            self.items.insert(at, (page, value)).unwrap();
        }
    }

    /// Gives the `n` rows from this place on this value.
    #[inline]
    pub(crate) fn fill(&mut self, place: usize, n: u16, value: V)
        requires ordered { IsOrdered (pages_of self.old) }
        requires within { place + n ≤ length self.old }
        ensures pages { pages_of self.new ≡ pages_of self.old }
        ensures at { (page : ℕ) → IsRun (pages_of self.old) page n place
            → at self.new ≡ spread page n (λ _. Some value) (at self.old) }
    {
        let first = self.start + place;
        for k in 0..n {
            self.items[first + usize::from(k)].1 = value;
        }
    }

    /// Takes out the row at this place, and answers it. No other row moves where it is the first.
    #[inline]
    pub(crate) fn remove(&mut self, place: usize) -> (PageNo, V)
        requires { place < length self.old }
        ensures value { result ≡ slice_index_or self.old place result }
        ensures rows { self.new ≡ remove self.old place }
    {
        let row = self.items[self.start + place];
        if place > 0 {
            self.items.remove(self.start + place);
            return row;
        }
        self.start += 1;
        if self.start == self.items.len() {
            self.items.clear();
            self.start = 0;
        }
        row
    }
}
