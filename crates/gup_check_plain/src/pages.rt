//! Denials by the pages of a process.
ghost use Rattle.std.specs.Prelude.{◌≡◌, ◌+◌, ◌<◌, ◌≤◌, ◌^◌, nat_lt, MatchOption};
ghost use Rattle.gup_plain.specs.Denial.{any_mapped, any_unmapped, load_denial, store_denial, pin_denial, map_denial, protect_denial};
ghost use Rattle.gup_plain.specs.Event.{most_pages};
ghost use Rattle.gup_exec_plain.specs.Parts.{state_of};

use gup_base::{PageNo, ProcNo, Rights};
use gup_exec_plain::Plain;
use gup_plain::Answer;

// How many pages a process may have mapped.
const MOST_PAGES: usize = 1024;

// What denies a mapping of so many pages.
pub(crate) fn map_denial(plain: &Plain, p: ProcNo, page: PageNo, n: u16) -> Option<Answer>
    requires { page + n ≤ 2 ^ 35 }
    ensures { result ≡ map_denial (any_mapped ((state_of plain.now).right p) page n) ((state_of plain.now).pages p) n }
{
    if any_mapped(plain, p, page, n) {
        return Some(Answer::Overlap);
    }
    if exceeds(plain.page_count(p), n) {
        return Some(Answer::Full);
    }
    None
}

// Whether there would be too many pages with so many more.
fn exceeds(pages: usize, n: u16) -> bool
    ensures { result ≡ nat_lt most_pages (pages + n) }
{
    pages > MOST_PAGES || pages + usize::from(n) > MOST_PAGES
}

// What denies a change of rights of so many pages.
pub(crate) fn protect_denial(plain: &Plain, p: ProcNo, page: PageNo, n: u16) -> Option<Answer>
    requires { page + n ≤ 2 ^ 35 }
    ensures { result ≡ protect_denial (any_unmapped ((state_of plain.now).right p) page n) }
{
    if any_unmapped(plain, p, page, n) {
        return Some(Answer::Missing);
    }
    None
}

// What denies a read of the page.
pub(crate) fn load_denial(plain: &Plain, p: ProcNo, page: PageNo) -> Option<Answer>
    ensures { result ≡ load_denial ((state_of plain.now).right p page) }
{
    to_read(plain.rights(p, page))
}

// What denies a write of the page.
pub(crate) fn store_denial(plain: &Plain, p: ProcNo, page: PageNo) -> Option<Answer>
    ensures { result ≡ store_denial ((state_of plain.now).right p page) }
{
    to_write(plain.rights(p, page))
}

// What denies a pin its page after so many.
pub(crate) fn pin_denial(
    plain: &Plain,
    p: ProcNo,
    page: PageNo,
    got: usize,
    write: bool,
) -> Option<Answer>
    ensures { result ≡ pin_denial write ((state_of plain.now).right p (page + got)) }
{
    let rights = rights_behind(plain, p, page, got);
    if write {
        to_write(rights)
    } else {
        to_read(rights)
    }
}

// What denies a read under these rights.
fn to_read(rights: Option<Rights>) -> Option<Answer>
    ensures { result ≡ load_denial rights }
{
    match rights {
        None => Some(Answer::Missing),
        Some(_) => None,
    }
}

// What denies a write under these rights.
fn to_write(rights: Option<Rights>) -> Option<Answer>
    ensures { result ≡ store_denial rights }
{
    match rights {
        None => Some(Answer::Missing),
        Some(Rights::R) => Some(Answer::Forbidden),
        Some(Rights::RW) => None,
    }
}

// The rights of the page after so many. Past the last page number there are none: that only pages with a number have
// rights is known of all pages where those of one are read.
fn rights_behind(plain: &Plain, p: ProcNo, page: PageNo, got: usize) -> Option<Rights>
    ensures { result ≡ (state_of plain.now).right p (page + got) }
{
    let first = plain.rights(p, page);
    if got == 0 {
        return first;
    }
    match page_behind(page, got) {
        None => None,
        Some(page) => plain.rights(p, page),
    }
}

// The page after so many, if there is one.
fn page_behind(page: PageNo, got: usize) -> Option<PageNo>
    ensures { MatchOption result (2 ^ 35 ≤ page + got) (λ behind. behind ≡ page + got) }
{
    PageNo::new(page.get().checked_add(got as u64)?)
}

// The page that is `k` after the first.
fn nth(first: PageNo, k: u16) -> PageNo
    requires { first + k < 2 ^ 35 }
    ensures { result ≡ first + k }
{
    PageNo::new(first.get() + u64::from(k)).unwrap()
}

// Whether one of the pages is mapped.
fn any_mapped(plain: &Plain, p: ProcNo, page: PageNo, n: u16) -> bool
    requires { page + n ≤ 2 ^ 35 }
    ensures { result ≡ any_mapped ((state_of plain.now).right p) page n }
{
    for k in 0..n {
        if plain.rights(p, nth(page, k)).is_some() {
            return true;
        }
    }
    false
}

// Whether one of the pages isn't mapped.
fn any_unmapped(plain: &Plain, p: ProcNo, page: PageNo, n: u16) -> bool
    requires { page + n ≤ 2 ^ 35 }
    ensures { result ≡ any_unmapped ((state_of plain.now).right p) page n }
{
    for k in 0..n {
        if plain.rights(p, nth(page, k)).is_none() {
            return true;
        }
    }
    false
}
