//! The words of page tables: through which ones a page's path goes, and to which table a word leads.
ghost use Rattle.std.specs.Prelude.{◌≡◌, ℕ, Option, ◌-◌, ◌/◌, ◌%◌, ◌^◌, ◌<◌, ◌≤◌, Some, IfSome};
ghost use Rattle.gup_spec_tables.specs.Tables.{link_to};

use crate::number::TableNo;
use gup_base::{Entry, FrameNo, PageNo, pack, unpack};

/// The number of the span of 512^level pages that has the page.
#[inline(always)]
pub(crate) fn span(page: PageNo, level: u8) -> u64
    requires { level ≤ 4 }
    ensures { result ≡ page / 512 ^ level }
{
    match level {
        0 => page.get(),
        1 => page.get() / 512,
        2 => page.get() / 262_144,
        3 => page.get() / 134_217_728,
        _ => 0,
    }
}

/// Through which word of a table of this level the page's path goes (Linux's `pte_index`, `pmd_index`, `pud_index` and
/// `pgd_index`, `include/linux/pgtable.h`).
#[inline(always)]
pub fn index(page: PageNo, level: u8) -> usize
    requires { (0 < level) × (level ≤ 4) }
    ensures { result ≡ page / 512 ^ (level - 1) % 512 }
{
    (span(page, level - 1) % 512) as usize
}

/// The word that leads to the table (of Linux's `pmd_populate`, `arch/x86/include/asm/pgalloc.h`).
#[inline]
pub fn link(table: TableNo) -> u64
    ensures { result ≡ link_to (Some table) }
{
    pack(Some(Entry {
        frame: FrameNo::new(table.get()).unwrap(),
        writable: true,
    }))
}

/// The table to which the word leads, if it leads to one.
#[inline]
pub(crate) fn linked(word: u64) -> Option<TableNo>
    ensures { (table : Option ℕ) → IfSome table (λ t. t < 8192) → word ≡ link_to table → result ≡ table }
{
    let Some(entry) = unpack(word) else {
        return None;
    };
    TableNo::new(entry.frame.get())
}
