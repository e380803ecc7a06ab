//! The tables that a walk comes down on a page's path.
ghost use Rattle.std.specs.Prelude.{◌≡◌, ◌↔◌, ◌<◌, IsTrue, length};
ghost use Rattle.gup_exec_jobs.specs.Trail.{trail_of};

use gup_tables::TableNo;

/// The tables below the root to which words of a page's path have led, the last one first.
#[derive(Clone, Copy, Debug, PartialEq, Eq)]
pub enum Trail {
    /// None: the path begins at the root.
    Root,
    /// The table of level 3.
    Third(TableNo),
    /// The tables of levels 2 and 3.
    Second(TableNo, TableNo),
    /// The tables of levels 1, 2 and 3.
    Last(TableNo, TableNo, TableNo),
}

/// Whether a word of the last one leads to a further table.
pub fn is_short(path: &Trail) -> bool
    ensures { IsTrue result ↔ (length (trail_of path.now) < 3) }
{
    match *path {
        Trail::Last(_, _, _) => false,
        _ => true,
    }
}

/// Whether a word of the last one has the page's entry.
pub fn is_whole(path: &Trail) -> bool
    ensures { IsTrue result ↔ (length (trail_of path.now) ≡ 3) }
{
    match *path {
        Trail::Last(_, _, _) => true,
        _ => false,
    }
}
