//! When pages were mapped.
ghost use Rattle.std.specs.Prelude.{◌≡◌, ◌+◌, ◌≤◌, ◌^◌, IfOk, OnOk};
ghost use Rattle.gup_plain.specs.Put.{put, spread};
ghost use Rattle.gup_check_pages.specs.Mapped.{mapped_of};

use crate::numbers::Numbers;
use gup_base::{NoMemory, PageNo, ProcNo};
use std::alloc::Global;
use std::marker::Model;

/// When pages were mapped last, by processes and pages: the numbers of the notes that mapped them.
///
/// Contracts see it as `mapped_of` it, a function of processes and pages, which is 0 where no note mapped the page.
#[derive(Drop)]
pub struct Mapped {
    numbers: Numbers,
}

impl Model for Mapped {
    ghost use Rattle.std.specs.Prelude.{◌≡◌, vec_len};
    ghost use Rattle.gup_check_pages.specs.declared.numbers.Numbers.{Numbers};

    ghost Value = { Numbers };

    ghost use Rattle.gup_check_pages.specs.contracts.numbers.Numbers as row_of_numbers;

    ghost coded = { row_of_numbers.the_row.coded };

    ghost view = { λ m. m.numbers };

    ghost invariant = { λ m. vec_len m.numbers.spaces ≡ 16 };
}

impl Mapped {
    /// No page has been mapped.
    pub fn new(alloc: Global) -> Result<Mapped, NoMemory>
        ensures { IfOk result (λ mapped. mapped_of mapped ≡ (λ _ _. 0)) }
    {
        Ok(Mapped {
            numbers: Numbers::none(alloc)?,
        })
    }

    /// When the process's page was mapped last, and 0 if it wasn't. This takes logarithmic time.
    pub fn get(&self, p: ProcNo, page: PageNo) -> u64
        ensures { result ≡ mapped_of self.now p page }
    {
        self.numbers.get(p, page)
    }

    /// The `n` pages of the process from `page` on are mapped at `at`. After `NoMemory` nothing is known of when pages
    /// were mapped.
    pub fn set(&mut self, p: ProcNo, page: PageNo, n: u16, at: u64) -> Result<(), NoMemory>
        requires { page + n ≤ 2 ^ 35 }
        ensures { OnOk result (mapped_of self.new ≡ put p (spread page n (λ _. at) (mapped_of self.old p)) (mapped_of self.old)) }
    {
        self.numbers.set(p, page, n, at)
    }
}
