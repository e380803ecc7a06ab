//! The tables that nobody has.
ghost use Rattle.std.specs.Prelude.{◌≡◌, ℕ, ◌<◌, ◌≤◌, nat_lt, true, false, IfOk, MatchOption};
ghost use Rattle.gup_plain.specs.Put.{lowest, put};
ghost use Rattle.gup_tables.specs.Pool.{pool_of, all_free, free_tables, with_free};

use crate::number::TableNo;
use crate::table::Table;
use gup_base::NoMemory;
use gup_bits::Bitmap;
use std::alloc::Global;
use std::marker::Model;

/// The page tables of the table zone, at most 8,192, and which of them are free.
#[derive(Drop)]
pub struct Pool {
    set: Bitmap,
    tables: u32,
    free: u32,
}

impl Model for Pool {
    ghost use Rattle.gup_tables.specs.Pool.{PoolParts, IsKept};

    ghost Value = { PoolParts };

    ghost view = { λ p. record { set = p.set; tables = p.tables } };

    ghost invariant = { λ p. IsKept p.set p.tables p.free };
}

impl Pool {
    /// So many tables, all free, and the memory to tell which are: no other call takes any.
    pub fn new(alloc: Global, tables: u32) -> Result<Pool, NoMemory>
        requires { tables ≤ 8192 }
        ensures { IfOk result (λ pool. pool_of pool ≡ all_free tables) }
    {
        let set = Bitmap::below(alloc, tables as usize)?;
        Ok(Pool {
            set,
            tables,
            free: tables,
        })
    }

    /// How many tables the pool is of, free or not.
    #[inline]
    pub fn tables(&self) -> u32
        ensures { result ≡ (pool_of self.now).tables }
    {
        self.tables
    }

    /// How many of them are free.
    #[inline]
    pub fn free(&self) -> u32
        ensures { result ≡ free_tables (pool_of self.now) }
    {
        self.free
    }

    /// Whether the table is free. One that isn't the pool's is not.
    #[inline]
    pub fn is_free(&self, table: TableNo) -> bool
        ensures { result ≡ (pool_of self.now).free table }
    {
        self.set.contains(table.get() as usize)
    }

    /// A law: the pool is of at most 8,192 tables, and no others are free.
    pub fn is_within(&self)
        ensures few { (pool_of self.now).tables ≤ 8192 }
        ensures no_others { (table : ℕ) → (pool_of self.now).tables ≤ table → (pool_of self.now).free table ≡ false }
    {
        let _set = &self.set;
    }

    /// Takes the lowest free table out (of Linux's `pagetable_alloc`; that it is the lowest is this project's own). `None`
    /// exactly where none is free, and nothing changes then.
    pub fn take(&mut self) -> Option<Table>
        ensures table { result ≡ lowest 0 (pool_of self.old).tables (pool_of self.old).free }
        ensures taken { MatchOption result (pool_of self.new ≡ pool_of self.old)
            (λ table. pool_of self.new ≡ with_free table false (pool_of self.old)) }
    {
        let Some(number) = self.set.lowest(0, self.tables as usize) else {
            return None;
        };
        self.set.remove(number);
        self.free -= 1;
        let number = TableNo::new(number as u64).unwrap();
        Some(Table::of(number))
    }

    /// Makes a table free that is the pool's, and wasn't (of Linux's `pagetable_free`).
    pub fn give_back(&mut self, table: Table)
        requires own { table < (pool_of self.old).tables }
        requires used { (pool_of self.old).free table ≡ false }
        ensures { pool_of self.new ≡ with_free table true (pool_of self.old) }
    {
        self.set.insert(table.number().get() as usize);
        self.free += 1;
    }
}
