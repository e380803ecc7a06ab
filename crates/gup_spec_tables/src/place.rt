//! Where a table stands in a tree.

/// Where a table stands in its tree. A table of level 1 holds entries of pages, one of level 2, 3 or 4 leads to tables of the
/// level below, and the root is of level 4 (Linux's `pte`, `pmd`, `pud` and `pgd`). A table of level k covers a span of 512^k
/// pages: span s begins with page s * 512^k.
#[derive(Clone, Copy, Debug, PartialEq, Eq)]
pub struct Place {
    pub level: u8,
    pub span: u64,
}
