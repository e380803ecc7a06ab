//! The objects that processes' pages name.
ghost use Rattle.std.specs.Prelude.{◌≡◌, ℕ, ◌+◌, ◌-◌, ◌<◌, ◌≤◌, ◌^◌, Some, IfOk};
ghost use Rattle.std.specs.BTreeMap.{get};
ghost use Rattle.std.specs.Ordering.{nat_cmp};
ghost use Rattle.gup_plain.specs.Put.{put, put2, spread};
ghost use Rattle.gup_plain.specs.State.{named_or_zero};
ghost use Rattle.gup_exec_rows.specs.Grid.{found};
ghost use Rattle.gup_exec_rows.specs.Objects.{objects_in, numbers, object_of};

use crate::grid::{Grid, nth};
use gup_base::{NoMemory, PageNo, ProcNo, Rights};
use std::alloc::Global;
use std::collections::BTreeMap;

/// Objects, which are numbers, by page.
pub type Row = BTreeMap<PageNo, u64>;

/// The object that each page of a process names, which is 0 where there is no other.
#[derive(Drop)]
pub struct Objects {
    grid: Grid<u64>,
    alloc: Global,
}

impl Objects {
    /// The object 0 at each page.
    #[tactic(auto, unfolding(crate::specs::Objects::objects_in))]
    pub fn new(alloc: Global) -> Result<Objects, NoMemory>
        ensures { IfOk result (λ objects. objects_in objects ≡ (λ _ _. 0)) }
    {
        Ok(Objects {
            grid: Grid::new(alloc)?,
            alloc,
        })
    }

    /// The object of the page.
    #[tactic(auto, unfolding(crate::specs::Objects::objects_in))]
    pub fn get(&self, p: ProcNo, page: PageNo) -> u64
        ensures { result ≡ objects_in self.now p page }
    {
        match self.grid.get(p, page) {
            None => 0,
            Some(object) => object,
        }
    }

    /// The row of the process, but with this object at the page.
    pub fn with(&self, p: ProcNo, page: PageNo, object: u64) -> Result<Row, NoMemory>
        ensures { IfOk result (λ row. numbers row ≡ put page object (objects_in self.now p)) }
    {
        let row = self.grid.with(p, page, object)?;
        Ok(row)
    }

    /// The row of the process, but with the objects from `object` on at the `n` pages from `first` on.
    pub fn with_range(&self, p: ProcNo, first: PageNo, n: u16, object: u64) -> Result<Row, NoMemory>
        requires below { first + n ≤ 2 ^ 35 }
        requires objects { object + n < 2 ^ 64 }
        ensures { IfOk result (λ row. numbers row ≡ spread first n (λ page. object + (page - first)) (objects_in self.now p)) }
    {
        let mut row = self.grid.copy_of(p)?;
        for k in 0..n {
            row.insert(nth(first, k), object + u64::from(k))?;
        }
        Ok(row)
    }

    /// A row with an object of its own for each page that has rights: that of page q is `objects` + q.
    pub fn own(&self, right: &Grid<Rights>, p: ProcNo, objects: u64) -> Result<Row, NoMemory>
        requires { objects + 2 ^ 35 < 2 ^ 64 }
        ensures { IfOk result (λ row. numbers row ≡ (λ page. named_or_zero (found right.now p page) (objects + page))) }
    {
        let row = right
            .row(p)
            .iter()
            .map(|(page, _)| (*page, objects + page.get()))
            .collect(self.alloc)?;
        Ok(row)
    }

    /// Gives the process this row.
    pub fn put(&mut self, p: ProcNo, row: Row)
        ensures { objects_in self.new ≡ put p (numbers row) (objects_in self.old) }
    {
        self.grid.put(p, row);
    }

    /// Gives the process this row, which differs at the page alone.
    pub fn put_at(&mut self, p: ProcNo, page: PageNo, object: u64, row: Row)
        requires { numbers row ≡ put page object (objects_in self.old p) }
        ensures { objects_in self.new ≡ put2 p page object (objects_in self.old) }
    {
        let _object = object;
        let _page = page;
        self.grid.put(p, row);
    }
}
