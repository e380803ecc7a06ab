//! The mappings of a process.
ghost use Rattle.std.specs.Prelude.{◌≡◌, ℕ, ◌+◌, ◌<◌, ◌≤◌, ◌^◌, ◌↔◌, if◌then◌else◌, true, false, is_some, is_err, None, Some, Err, IfOk, OnOk, OnErr, IsTrue, MatchOption, MatchResult};
ghost use Rattle.gup_plain.specs.Denial.{any_mapped, any_unmapped};
ghost use Rattle.gup_plain.specs.Pages.{mapped_pages};
ghost use Rattle.gup_plain.specs.Put.{put, spread};
ghost use Rattle.gup_maps.specs.Maps.{no_maps, maps_of, IsNextPage, IsLastPage};

use crate::table::Table;
use gup_base::{NoMemory, PageNo, Rights};
use std::alloc::Global;
use std::error::Error;
use std::fmt;
use std::marker::Model;

// How many pages of a process are mapped at most.
const MOST: u16 = 1024;

/// Why pages weren't mapped. Both are this project's own: Linux maps over what is there, and counts areas, not pages.
#[derive(Clone, Copy, Debug, PartialEq, Eq)]
pub enum MapRefusal {
    /// One of the pages is mapped already.
    Overlap,
    /// None is, but more than 1,024 pages would be mapped.
    Full,
}

impl fmt::Display for MapRefusal {
    fn fmt<W: fmt::Write>(&self, f: &mut fmt::Formatter<W>) -> fmt::Result {
        f.write_str(match self {
            MapRefusal::Overlap => "a page is mapped already",
            MapRefusal::Full => "more than 1,024 pages would be mapped",
        })
    }
}

impl Error for MapRefusal {}

/// One of the pages isn't mapped: `ENOMEM` of Linux's `mprotect`.
#[derive(Clone, Copy, Debug, PartialEq, Eq)]
pub struct Hole;

impl fmt::Display for Hole {
    fn fmt<W: fmt::Write>(&self, f: &mut fmt::Formatter<W>) -> fmt::Result {
        f.write_str("a page isn't mapped")
    }
}

impl Error for Hole {}

/// The mappings of a process: the rights of each page that is mapped, of which there are at most 1,024.
#[derive(Drop)]
pub struct Maps {
    rights: Table<Rights>,
}

impl Model for Maps {
    ghost use Rattle.std.specs.Prelude.{ℕ, List};
    ghost use Rattle.gup_base.specs.declared.entry.Rights.{Rights};

    ghost Value = { List (ℕ × Rights) };

    ghost view = { λ m. m.rights };
}

impl Maps {
    /// No mappings, and the memory for all that there will be: no other call takes any.
    pub fn new(alloc: Global) -> Result<Maps, NoMemory>
        ensures { IfOk result (λ maps. maps_of maps ≡ no_maps) }
    {
        let rights = Table::new(alloc)?;
        Ok(Maps { rights })
    }

    /// Makes these the mappings of another process (of Linux's `dup_mmap`, which copies the areas of a parent to its
    /// child). What was mapped before goes, and no memory is taken.
    pub fn copy_from(&mut self, from: &Maps)
        ensures { maps_of self.new ≡ maps_of from.now }
    {
        self.rights.copy_from(&from.rights);
    }

    /// How many pages are mapped, at most 1,024.
    #[inline]
    pub fn len(&self) -> u16
        ensures len { result ≡ (maps_of self.now).pages }
        ensures within { result ≤ 1024 }
    {
        self.rights.len()
    }

    /// A law: as many pages are mapped as have rights.
    pub fn is_counted(&self)
        ensures { mapped_pages (maps_of self.now).right ≡ (maps_of self.now).pages }
    {
        self.rights.is_counted();
    }

    /// The rights of the page, where it is mapped.
    #[inline]
    pub fn rights_at(&self, page: PageNo) -> Option<Rights>
        ensures { result ≡ (maps_of self.now).right page }
    {
        self.rights.get(page)
    }

    /// The least mapped page at or above `from`, where there is one.
    #[inline]
    pub fn next_page(&self, from: PageNo) -> Option<PageNo>
        ensures { MatchOption result (IsLastPage (maps_of self.now).right from) (IsNextPage (maps_of self.now).right from) }
    {
        self.rights.next(from)
    }

    /// Maps the `n` pages from `page` on with these rights (of Linux's `mmap`, with `MAP_FIXED_NOREPLACE`). They end
    /// below 2^35.
    ///
    /// A refusal changes nothing: `Overlap` exactly where one of the pages is mapped, else `Full` exactly where more
    /// than 1,024 pages would be.
    pub fn map(&mut self, page: PageNo, n: u16, rights: Rights) -> Result<(), MapRefusal>
        requires { page + n ≤ 2 ^ 35 }
        ensures overlap { (result ≡ Err MapRefusal.Overlap) ↔ (any_mapped (maps_of self.old).right page n ≡ true) }
        ensures full { (result ≡ Err MapRefusal.Full)
            ↔ ((any_mapped (maps_of self.old).right page n ≡ false) × (1024 < (maps_of self.old).pages + n)) }
        ensures right { OnOk result ((maps_of self.new).right ≡ spread page n (λ _. Some rights) (maps_of self.old).right) }
        ensures pages { OnOk result ((maps_of self.new).pages ≡ (maps_of self.old).pages + n) }
        ensures err { OnErr result (maps_of self.new ≡ maps_of self.old) }
    {
        let Some(place) = self.rights.gap(page, n) else {
            return Err(MapRefusal::Overlap);
        };
        if n > MOST - self.rights.len() {
            return Err(MapRefusal::Full);
        }
        self.rights.insert_at(place, page, n, rights);
        Ok(())
    }

    /// Unmaps the page, and answers whether it was mapped (Linux's `munmap` passes over pages that aren't).
    #[inline]
    pub fn unmap_page(&mut self, page: PageNo) -> bool
        ensures mapped { result ≡ is_some ((maps_of self.old).right page) }
        ensures right { (maps_of self.new).right ≡ put page None (maps_of self.old).right }
        ensures pages { (maps_of self.new).pages + (if result then 1 else 0) ≡ (maps_of self.old).pages }
    {
        self.rights.remove(page).is_some()
    }

    /// Gives the `n` pages from `page` on these rights (of Linux's `mprotect`).
    ///
    /// `Hole` comes exactly where one of the pages isn't mapped, and then nothing changes (Linux changes those before
    /// it).
    pub fn protect(&mut self, page: PageNo, n: u16, rights: Rights) -> Result<(), Hole>
        ensures hole { is_err result ≡ any_unmapped (maps_of self.old).right page n }
        ensures right { OnOk result ((maps_of self.new).right ≡ spread page n (λ _. Some rights) (maps_of self.old).right) }
        ensures pages { (maps_of self.new).pages ≡ (maps_of self.old).pages }
        ensures err { OnErr result (maps_of self.new ≡ maps_of self.old) }
    {
        if !self.rights.replace(page, n, rights) {
            return Err(Hole);
        }
        Ok(())
    }
}
