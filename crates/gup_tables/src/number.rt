//! The numbers of page tables.
ghost use Rattle.std.specs.Prelude.{◌≡◌, ◌<◌, IsSome, IfSome, ◌↔◌};

use std::marker::Model;

/// The number of a page table, below 8,192.
#[derive(Clone, Copy, Debug, PartialEq, Eq, PartialOrd, Ord, Hash)]
pub struct TableNo {
    number: u16,
}

impl Model for TableNo {
    ghost use Rattle.std.specs.Prelude.{ℕ, ◌<◌};

    ghost Value = { ℕ };

    ghost view = { λ n. n.number };

    ghost invariant = { λ n. n.number < 8192 };

    ghost inverse = { λ v. record { number = v } };
}

impl TableNo {
    /// The number as this type; `None` exactly from the bound on.
    pub const fn new(v: u64) -> Option<Self>
        ensures some { IsSome result ↔ (v < 8192) }
        ensures value { IfSome result (λ n. n ≡ v) }
    {
        if v < 8192 {
            Some(TableNo { number: v as u16 })
        } else {
            None
        }
    }

    /// The number, which is below the bound.
    pub fn get(self) -> u64
        ensures value { result ≡ self }
        ensures below { result < 8192 }
    {
        u64::from(self.number)
    }
}
