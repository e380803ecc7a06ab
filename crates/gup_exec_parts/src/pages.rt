//! The pages that a process has mapped.
ghost use Rattle.std.specs.Prelude.{◌≡◌, ℕ, ◌+◌, ◌-◌, ◌^◌, ◌<◌, ◌≤◌, ◌↔◌, Option, Some, None, IsSome, IsTrue, IfOk, OnOk, OnErr};
ghost use Rattle.std.specs.BTreeMap.{get, btree_map_len};
ghost use Rattle.std.specs.Ordering.{nat_cmp};
ghost use Rattle.gup_plain.specs.Pages.{mapped_pages};
ghost use Rattle.gup_plain.specs.Put.{put, spread};
ghost use Rattle.gup_exec_parts.specs.Pages.{page_with, pages_from, right_in, with_object, with_rights, own_objects, AreFree, AreFreeBetween, AreMapped, AreNumbered};

use gup_base::{NoMemory, PageNo, Rights};
use std::alloc::Global;
use std::collections::BTreeMap;

/// A mapped page: its rights, and the object that it names.
#[derive(Clone, Copy, Debug)]
pub struct Page {
    pub rights: Rights,
    pub object: u64,
}

/// The mapped pages of a process.
pub type Pages = BTreeMap<PageNo, Page>;

/// The page that is `k` after the first.
fn nth(first: PageNo, k: u16) -> PageNo
    requires { first + k < 2 ^ 35 }
    ensures { result ≡ first + k }
{
    PageNo::new(first.get() + u64::from(k)).unwrap()
}

/// Whether none of the `n` pages from `first` on is mapped.
pub fn are_free(pages: &Pages, first: PageNo, n: u16) -> bool
    requires { first + n ≤ 2 ^ 35 }
    ensures { IsTrue result ↔ AreFree (get nat_cmp pages.now) first n }
{
    for k in 0..n {
        if pages.contains_key(&nth(first, k)) {
            return false;
        }
    }
    true
}

/// Whether each of the `n` pages from `first` on is mapped. The pages may run past the last that there is.
pub fn are_mapped(pages: &Pages, first: PageNo, n: u16) -> bool
    requires { first + n ≤ 2 ^ 35 }
    ensures { IsTrue result ↔ AreMapped (get nat_cmp pages.now) first n }
{
    for k in 0..n {
        if !pages.contains_key(&nth(first, k)) {
            return false;
        }
    }
    true
}

/// Whether none of the pages from `from` on, below `below`, is mapped. This takes logarithmic time, however many they
/// are.
pub fn none_between(pages: &Pages, from: PageNo, below: PageNo) -> bool
    ensures { IsTrue result ↔ AreFreeBetween (get nat_cmp pages.now) from below }
{
    from >= below || pages.range(from..below).next().is_none()
}

/// Maps a page that isn't mapped.
fn insert(pages: &mut Pages, page: PageNo, entry: Page) -> Result<(), NoMemory>
    requires { get nat_cmp pages.old page ≡ None }
    ensures pages { OnOk result (get nat_cmp pages.new ≡ put page (Some entry) (get nat_cmp pages.old)) }
    ensures len { OnOk result (btree_map_len pages.new ≡ btree_map_len pages.old + 1) }
    ensures err { OnErr result (pages.new.entries ≡ pages.old.entries) }
{
    pages.insert(page, entry)?;
    Ok(())
}

/// Maps the `n` pages from `first` on with these rights and the objects from `object` on.
pub fn map(
    pages: &mut Pages,
    first: PageNo,
    n: u16,
    rights: Rights,
    object: u64,
) -> Result<(), NoMemory>
    requires free { AreFree (get nat_cmp pages.old) first n }
    requires below { first + n ≤ 2 ^ 35 }
    requires objects { object + n < 2 ^ 64 }
    ensures pages { OnOk result (get nat_cmp pages.new ≡ spread first n (pages_from first rights object) (get nat_cmp pages.old)) }
    ensures len { OnOk result (btree_map_len pages.new ≡ btree_map_len pages.old + n) }
    ensures err { OnErr result ((get nat_cmp pages.new ≡ get nat_cmp pages.old) × (btree_map_len pages.new ≡ btree_map_len pages.old)) }
{
    for k in 0..n {
        let entry = Page {
            rights,
            object: object + u64::from(k),
        };
        if insert(pages, nth(first, k), entry).is_err() {
            unmap(pages, first, k);
            return Err(NoMemory);
        }
    }
    Ok(())
}

/// Takes out the `n` pages from `first` on, which are mapped.
fn unmap(pages: &mut Pages, first: PageNo, n: u16)
    requires mapped { AreMapped (get nat_cmp pages.old) first n }
    requires below { first + n ≤ 2 ^ 35 }
    ensures pages { get nat_cmp pages.new ≡ spread first n (λ _. None) (get nat_cmp pages.old) }
    ensures len { btree_map_len pages.new + n ≡ btree_map_len pages.old }
{
    for k in 0..n {
        remove(pages, nth(first, k));
    }
}

/// Takes a page out, which is mapped.
pub fn remove(pages: &mut Pages, page: PageNo)
    requires { IsSome (get nat_cmp pages.old page) }
    ensures pages { get nat_cmp pages.new ≡ put page None (get nat_cmp pages.old) }
    ensures len { btree_map_len pages.new + 1 ≡ btree_map_len pages.old }
{
    pages.remove(&page);
}

/// Has the page, where it is mapped, name the object.
pub fn set_object(pages: &mut Pages, page: PageNo, object: u64)
    requires { IsSome (get nat_cmp pages.old page) }
    ensures pages { get nat_cmp pages.new ≡ put page (with_object object (get nat_cmp pages.old page)) (get nat_cmp pages.old) }
    ensures len { btree_map_len pages.new ≡ btree_map_len pages.old }
{
    if let Some(entry) = pages.get_mut(&page) {
        entry.object = object;
    }
}

/// Gives the page, where it is mapped, these rights.
fn set_rights(pages: &mut Pages, page: PageNo, rights: Rights)
    requires { IsSome (get nat_cmp pages.old page) }
    ensures pages { get nat_cmp pages.new ≡ put page (with_rights rights (get nat_cmp pages.old page)) (get nat_cmp pages.old) }
    ensures len { btree_map_len pages.new ≡ btree_map_len pages.old }
{
    if let Some(entry) = pages.get_mut(&page) {
        entry.rights = rights;
    }
}

/// Gives the `n` pages from `first` on, which are mapped, these rights.
pub fn protect(pages: &mut Pages, first: PageNo, n: u16, rights: Rights)
    requires mapped { AreMapped (get nat_cmp pages.old) first n }
    requires below { first + n ≤ 2 ^ 35 }
    ensures pages { get nat_cmp pages.new
        ≡ spread first n (λ page. with_rights rights (get nat_cmp pages.old page)) (get nat_cmp pages.old) }
    ensures len { btree_map_len pages.new ≡ btree_map_len pages.old }
{
    for k in 0..n {
        set_rights(pages, nth(first, k), rights);
    }
}

/// The same pages with the same rights, each with an object of its own: that of page p is `objects` + p. There are as many
/// as numbers of pages are mapped.
pub fn with_own_objects(alloc: Global, pages: &Pages, objects: u64) -> Result<Pages, NoMemory>
    requires { objects + 2 ^ 35 < 2 ^ 64 }
    ensures pages { IfOk result (λ own. get nat_cmp own ≡ own_objects objects (get nat_cmp pages.now)) }
    ensures len { IfOk result (λ own. btree_map_len own ≡ btree_map_len pages.now) }
    ensures counted { IfOk result (λ own. AreNumbered (get nat_cmp pages.now)
        → btree_map_len own ≡ mapped_pages (λ page. right_in (get nat_cmp pages.now page))) }
{
    let own = pages
        .iter()
        .map(|(page, entry)| (*page, entry.with_object(objects + page.get())))
        .collect(alloc)?;
    Ok(own)
}

impl Page {
    // The page with another object.
    fn with_object(self, object: u64) -> Page
        ensures { result ≡ page_with self.rights object }
    {
        Page {
            rights: self.rights,
            object,
        }
    }
}
