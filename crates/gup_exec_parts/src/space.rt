//! One process: its birth, its pages, and, while it grows, which words of which pages are copied.
ghost use Rattle.std.specs.Prelude.{◌≡◌, ℕ, ◌+◌, ◌^◌, ◌<◌, ◌≤◌, ◌↔◌, true, false, Some, IsSome, IsTrue, All, OnOk, OnErr, IfOk, vec_len};
ghost use Rattle.std.specs.BTreeMap.{get, keys, btree_map_len};
ghost use Rattle.std.specs.Ordering.{nat_cmp};
ghost use Rattle.gup_plain.specs.Put.{put, spread};
ghost use Rattle.gup_plain.specs.Event.{IsUnbornOrGrowing};
ghost use Rattle.gup_plain.specs.State.{born, unborn, growing, failed};
ghost use Rattle.gup_exec_parts.specs.Space.{birth_of, copied_of, seen, blank, CanMap, CanProtect, HasNumbers};
ghost use Rattle.gup_exec_parts.specs.Flags.{flag_of};
ghost use Rattle.gup_exec_parts.specs.Tables.{at_place};

use crate::flags::Flags;
use crate::pages::{self, Pages};
use gup_base::{NoMemory, PageNo, ProcNo, WordNo};
use std::alloc::Global;
use std::collections::BTreeMap;

/// How many page numbers there are.
pub const PAGE_NUMBERS: u64 = 1 << 35;

// How many processes a number can name.
const PROCESSES: u8 = 16;

// How many pages a process may have mapped.
const MOST_PAGES: usize = 1024;

/// Whether a process has come into being.
#[derive(Clone, Copy, Debug, PartialEq, Eq)]
pub enum Birth {
    /// It hasn't, yet.
    Unborn,
    /// It is being forked from this parent.
    Growing(ProcNo),
    /// It has.
    Born,
    /// The fork that was to bring it failed.
    Failed,
}

/// A process.
#[derive(Drop)]
pub struct Space {
    pub birth: Birth,
    pub pages: Pages,
    pub copied: BTreeMap<PageNo, Flags>,
}

impl Space {
    /// An unborn process.
    pub fn new(alloc: Global) -> Space
        ensures { seen result ≡ blank }
    {
        Space {
            birth: Birth::Unborn,
            pages: BTreeMap::new(alloc),
            copied: BTreeMap::new(alloc),
        }
    }

    /// Whether the process is born.
    pub fn is_born(&self) -> bool
        ensures { IsTrue result ↔ (birth_of self.now.birth ≡ born) }
    {
        match self.birth {
            Birth::Born => true,
            Birth::Unborn | Birth::Growing(_) | Birth::Failed => false,
        }
    }

    /// Whether the process is unborn.
    pub fn is_unborn(&self) -> bool
        ensures { IsTrue result ↔ (birth_of self.now.birth ≡ unborn) }
    {
        match self.birth {
            Birth::Unborn => true,
            Birth::Born | Birth::Growing(_) | Birth::Failed => false,
        }
    }

    /// Whether the process is being forked from this parent.
    pub fn grows_from(&self, parent: ProcNo) -> bool
        ensures { IsTrue result ↔ (birth_of self.now.birth ≡ growing parent) }
    {
        match self.birth {
            Birth::Growing(from) => from == parent,
            Birth::Unborn | Birth::Born | Birth::Failed => false,
        }
    }

    /// Whether the word of the page is copied.
    pub fn has_copied(&self, page: PageNo, word: WordNo) -> bool
        ensures { result ≡ copied_of self.now page word }
    {
        match self.copied.get(&page) {
            None => false,
            Some(flags) => flags.get(word),
        }
    }

    /// Whether no word of the page is copied.
    pub fn has_copied_none(&self, page: PageNo) -> bool
        ensures { IsTrue result ↔ ((word : ℕ) → word < 512 → copied_of self.now page word ≡ false) }
    {
        match self.copied.get(&page) {
            None => true,
            Some(flags) => flags.is_empty(),
        }
    }

    /// Whether all words of the page are copied.
    fn has_copied_page(&self, page: PageNo) -> bool
        ensures { IsTrue result ↔ ((word : ℕ) → word < 512 → copied_of self.now page word ≡ true) }
    {
        match self.copied.get(&page) {
            None => false,
            Some(flags) => flags.is_full(),
        }
    }

    /// Whether all words of all pages are copied.
    pub fn has_copied_all(&self) -> bool
        ensures { IsTrue result ↔ All (λ page. (word : ℕ) → word < 512 → copied_of self.now page word ≡ true) (keys self.now.pages) }
    {
        self.pages.keys().all(|page| self.has_copied_page(*page))
    }

    /// Makes room for the flags of the page. Nothing is copied by that.
    pub fn touch(&mut self, alloc: Global, page: PageNo) -> Result<(), NoMemory>
        ensures room { OnOk result (IsSome (get nat_cmp self.new.copied page)) }
        ensures copied { copied_of self.new ≡ copied_of self.old }
        ensures birth { self.new.birth ≡ self.old.birth }
        ensures pages { self.new.pages ≡ self.old.pages }
    {
        if !self.copied.contains_key(&page) {
            self.copied.insert(page, Flags::unset(alloc)?)?;
        }
        Ok(())
    }

    /// Says that the word of the page is copied.
    pub fn copy_word(&mut self, page: PageNo, word: WordNo)
        requires { IsSome (get nat_cmp self.old.copied page) }
        ensures copied { copied_of self.new ≡ put page (put word true (copied_of self.old page)) (copied_of self.old) }
        ensures birth { self.new.birth ≡ self.old.birth }
        ensures pages { self.new.pages ≡ self.old.pages }
    {
        if let Some(flags) = self.copied.get_mut(&page) {
            flags.set(word);
        }
    }

    /// Says that all words of the page are copied.
    pub fn copy_page(&mut self, page: PageNo)
        requires { IsSome (get nat_cmp self.old.copied page) }
        ensures copied { copied_of self.new
            ≡ put page (spread 0 512 (λ _. true) (copied_of self.old page)) (copied_of self.old) }
        ensures birth { self.new.birth ≡ self.old.birth }
        ensures pages { self.new.pages ≡ self.old.pages }
    {
        if let Some(flags) = self.copied.get_mut(&page) {
            flags.set_all();
        }
    }

    /// Begins to grow from a parent, with these pages.
    pub fn grow(&mut self, parent: ProcNo, pages: Pages)
        ensures { seen self.new ≡ record { birth = growing parent; page = get nat_cmp pages; pages = btree_map_len pages; copied = λ _ _. false } }
    {
        self.birth = Birth::Growing(parent);
        self.pages = pages;
        self.copied.clear();
    }

    /// Is born.
    pub fn be_born(&mut self)
        ensures { seen self.new ≡ record (seen self.old) { birth = born; copied = λ _ _. false } }
    {
        self.birth = Birth::Born;
        self.copied.clear();
    }

    /// Has failed, and has no pages.
    pub fn fail(&mut self)
        ensures { seen self.new ≡ record blank { birth = failed } }
    {
        self.birth = Birth::Failed;
        self.pages.clear();
        self.copied.clear();
    }

    /// Whether the process is unborn or grows.
    pub fn may_fail(&self) -> bool
        ensures { IsTrue result ↔ IsUnbornOrGrowing (birth_of self.now.birth) }
    {
        match self.birth {
            Birth::Unborn | Birth::Growing(_) => true,
            Birth::Born => false,
            Birth::Failed => false,
        }
    }

    /// Whether the process is born, none of the pages is mapped, and there are not too many with them.
    pub fn can_map(&self, page: PageNo, n: u16) -> bool
        ensures { IsTrue result ↔ CanMap (seen self.now) page n }
    {
        if !self.is_born() {
            return false;
        }
        if page.get() + u64::from(n) > PAGE_NUMBERS {
            return false;
        }
        if self.pages.len() + usize::from(n) > MOST_PAGES {
            return false;
        }
        pages::are_free(&self.pages, page, n)
    }

    /// Whether the process is born, and each of the pages is mapped.
    pub fn can_protect(&self, page: PageNo, n: u16) -> bool
        requires { HasNumbers (seen self.now) }
        ensures can { IsTrue result ↔ CanProtect (seen self.now) page n }
        ensures below { IsTrue result → page + n ≤ 2 ^ 35 }
    {
        if !self.is_born() {
            return false;
        }
        if page.get() + u64::from(n) > PAGE_NUMBERS {
            return false;
        }
        pages::are_mapped(&self.pages, page, n)
    }
}

/// As many unborn processes as a number can name.
pub fn spaces(alloc: Global) -> Result<Vec<Space>, NoMemory>
    ensures len { IfOk result (λ spaces. vec_len spaces ≡ 16) }
    ensures blank { IfOk result (λ spaces. at_place seen blank spaces.items ≡ (λ _. blank)) }
{
    let mut spaces = Vec::new(alloc);
    for _p in 0..PROCESSES {
        spaces.push(Space::new(alloc))?;
    }
    Ok(spaces)
}
