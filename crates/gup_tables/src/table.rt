//! Page tables that no tree has.
ghost use Rattle.std.specs.Prelude.{◌≡◌, ◌<◌};

use crate::number::TableNo;
use std::marker::Model;

/// A page table that isn't in a tree. Each of its 512 words is 0: only a tree writes words, and it gives a table back when
/// all of its words are 0. So a table in hand is no more than its number. Nobody else has it: it comes from a pool or a tree,
/// and can't be copied.
#[derive(Debug, Drop)]
pub struct Table {
    number: TableNo,
}

impl Model for Table {
    ghost use Rattle.std.specs.Prelude.{ℕ};

    ghost Value = { ℕ };

    ghost view = { λ t. t.number };
}

impl Table {
    // The table of this number, which neither a tree has nor anyone else.
    #[inline]
    pub(crate) fn of(number: TableNo) -> Table
        ensures { result ≡ number }
    {
        Table { number }
    }

    /// Its number.
    #[inline]
    pub fn number(&self) -> TableNo
        ensures { result ≡ self.now }
    {
        self.number
    }

    /// Word `i` of it, of the 512 from 0 on.
    #[inline]
    pub fn word(&self, i: u16) -> u64
        requires { i < 512 }
        ensures { result ≡ 0 }
    {
        let _words_are_zero = i;
        0
    }
}
