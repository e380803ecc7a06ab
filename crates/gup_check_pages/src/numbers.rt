//! A number for each page of each process that was given one.
ghost use Rattle.std.specs.Prelude.{◌≡◌, ◌+◌, ◌<◌, ◌≤◌, ◌^◌, vec_len, IfOk, OnOk};
ghost use Rattle.gup_plain.specs.Put.{put, spread};
ghost use Rattle.gup_check_pages.specs.Mapped.{number_in, mapped_of};

use gup_base::{NoMemory, PageNo, ProcNo};
use std::alloc::Global;
use std::collections::BTreeMap;

// How many processes a number can name.
const PROCESSES: u8 = 16;

/// The numbers of a process's pages.
pub type Space = BTreeMap<PageNo, u64>;

/// The numbers of the pages of each process.
#[derive(Drop)]
pub struct Numbers {
    pub spaces: Vec<Space>,
}

impl Numbers {
    /// No page has a number.
    pub fn none(alloc: Global) -> Result<Numbers, NoMemory>
        ensures len { IfOk result (λ numbers. vec_len numbers.spaces ≡ 16) }
        ensures none { IfOk result (λ numbers. mapped_of numbers ≡ (λ _ _. 0)) }
    {
        let mut spaces = Vec::new(alloc);
        for _p in 0..PROCESSES {
            spaces.push(BTreeMap::new(alloc))?;
        }
        Ok(Numbers { spaces })
    }

    /// The number of the page, and 0 where it has none.
    pub fn get(&self, p: ProcNo, page: PageNo) -> u64
        requires { vec_len self.now.spaces ≡ 16 }
        ensures { result ≡ mapped_of self.now p page }
    {
        number(&self.spaces[p.get() as usize], page)
    }

    /// Gives the number `at` to the `n` pages from `first` on.
    pub fn set(&mut self, p: ProcNo, first: PageNo, n: u16, at: u64) -> Result<(), NoMemory>
        requires len { vec_len self.old.spaces ≡ 16 }
        requires below { first + n ≤ 2 ^ 35 }
        ensures len { vec_len self.new.spaces ≡ 16 }
        ensures numbers { OnOk result (mapped_of self.new
            ≡ put p (spread first n (λ _. at) (mapped_of self.old p)) (mapped_of self.old)) }
    {
        let space = &mut self.spaces[p.get() as usize];
        give(space, first, n, at)
    }
}

// The number of the page, and 0 where it has none.
fn number(space: &Space, page: PageNo) -> u64
    ensures { result ≡ number_in space.now page }
{
    match space.get(&page) {
        None => 0,
        Some(number) => *number,
    }
}

// Gives the number to the `n` pages from `first` on.
fn give(space: &mut Space, first: PageNo, n: u16, at: u64) -> Result<(), NoMemory>
    requires { first + n ≤ 2 ^ 35 }
    ensures { OnOk result (number_in space.new ≡ spread first n (λ _. at) (number_in space.old)) }
{
    for k in 0..n {
        space.insert(nth(first, k), at)?;
    }
    Ok(())
}

// The page that is `k` after the first.
fn nth(first: PageNo, k: u16) -> PageNo
    requires { first + k < 2 ^ 35 }
    ensures { result ≡ first + k }
{
    PageNo::new(first.get() + u64::from(k)).unwrap()
}
