//! The tables of a page's path.

use crate::number::TableNo;

/// The tables of a page's path below the root, of level 3, 2 and 1: each is the one to which a word of the table before leads. As
/// a lockless walk remembers them, they may have been taken out since.
#[derive(Clone, Copy, Debug, PartialEq, Eq, Hash)]
pub struct Path {
    pub third: TableNo,
    pub second: TableNo,
    pub last: TableNo,
}
