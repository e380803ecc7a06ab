//! What the events of page tables ask of a process's tree.
ghost use Rattle.std.specs.Prelude.{◌≡◌, ℕ, ◌+◌, ◌*◌, ◌/◌, ◌^◌, ◌<◌, ◌≤◌, ◌==◌, ◌↔◌, not, None, Some, IsTrue};
ghost use Rattle.gup_plain.specs.Denial.{any_below};
ghost use Rattle.gup_plain.specs.State.{born};
ghost use Rattle.gup_exec_rows.specs.Procs.{births};
ghost use Rattle.gup_spec_events.specs.Event.{AreUnlocked, MayShape, child_of, tree_in};
ghost use Rattle.gup_spec_tables.specs.Tables.{detachable, lacks, missing, on_path, table_at, table_words, word_here};
ghost use Rattle.gup_exec_core.specs.State.{state_of};
ghost use Rattle.gup_exec_rows.specs.Grid.{found};
ghost use Rattle.gup_exec_rows.specs.Row.{at};

use gup_base::{ActorNo, PageNo, ProcNo};
use gup_exec_core::Trial;
use gup_exec_rows::tables::{on_path, table_at};
use gup_tables::{Place, TableNo};

// Whether the process is born, and neither its structure nor its page tables are locked.
fn is_open(trial: &Trial, p: ProcNo) -> bool
    ensures { IsTrue result ↔ ((births trial.now.procs p ≡ born) × AreUnlocked (state_of trial.now) p) }
{
    if !trial.procs.is_born(p) {
        return false;
    }
    trial.structure.get(p).is_none() && trial.table.get(p).is_none()
}

// Whether the actor's fork makes this process.
fn makes(trial: &Trial, a: ActorNo, p: ProcNo) -> bool
    ensures { IsTrue result ↔ (child_of (at trial.now.job a) ≡ Some p) }
{
    match trial.job.get(a).child() {
        None => false,
        Some(child) => child == p,
    }
}

/// Whether the actor may change the page tables of the process.
pub fn may_shape(trial: &Trial, a: ActorNo, p: ProcNo) -> bool
    ensures { IsTrue result ↔ MayShape (state_of trial.now) a p }
{
    let open = is_open(trial, p);
    let failed = trial.procs.has_failed(p);
    let child = makes(trial, a, p);
    open || failed || child
}

// The table that stands at the place of this level on the page's path, if one does.
fn table_on(trial: &Trial, p: ProcNo, level: u8, page: PageNo) -> Option<TableNo>
    requires { level ≤ 4 }
    ensures { result ≡ table_at (found trial.now.place p) (on_path level page) }
{
    table_at(&trial.place, p, on_path(level, page))
}

// How many tables of this level the page's path lacks.
fn missing(trial: &Trial, p: ProcNo, level: u8, page: PageNo) -> u8
    requires { level ≤ 4 }
    ensures value { result ≡ missing (tree_in (state_of trial.now) p) level page }
    ensures below { result ≤ 1 }
{
    match table_on(trial, p, level, page) {
        None => 1,
        Some(_) => 0,
    }
}

/// How many of the four tables of the page's path are missing.
pub fn lacks(trial: &Trial, p: ProcNo, page: PageNo) -> u8
    ensures value { result ≡ lacks (tree_in (state_of trial.now) p) page }
    ensures below { result ≤ 4 }
{
    missing(trial, p, 1, page)
        + missing(trial, p, 2, page)
        + missing(trial, p, 3, page)
        + missing(trial, p, 4, page)
}

// The first span of the level below, or page, that a table of this level on the page's path leads to.
fn first_below(level: u8, page: PageNo) -> u64
    requires { (0 < level) × (level ≤ 4) }
    ensures value { result ≡ 512 * (page / 512 ^ level) }
    ensures below { result + 512 ≤ 2 ^ 35 }
{
    match level {
        1 => page.get() / 512 * 512,
        2 => page.get() / 262_144 * 512,
        3 => page.get() / 134_217_728 * 512,
        _ => 0,
    }
}

// Whether word i of a table of this level on the page's path is 0.
fn is_zero(trial: &Trial, p: ProcNo, level: u8, page: PageNo, i: u16) -> bool
    requires level { (0 < level) × (level ≤ 4) }
    requires within { i < 512 }
    ensures { result ≡ (word_here (tree_in (state_of trial.now) p) (on_path level page) i == 0) }
{
    let n = first_below(level, page) + u64::from(i);
    if level == 1 {
        trial.entry.get(p, PageNo::new(n).unwrap()).is_none()
    } else {
        let under = Place {
            level: level - 1,
            span: n,
        };
        table_at(&trial.place, p, under).is_none()
    }
}

// Whether each word of a table of this level on the page's path is 0.
fn is_empty(trial: &Trial, p: ProcNo, level: u8, page: PageNo) -> bool
    requires { (0 < level) × (level ≤ 4) }
    ensures { result ≡ not (any_below table_words (λ i. not (word_here (tree_in (state_of trial.now) p) (on_path level page) i == 0))) }
{
    for i in 0..512 {
        if !is_zero(trial, p, level, page, i) {
            return false;
        }
    }
    true
}

/// The lowest table of the page's path, unless it is the root or has a word that isn't 0.
pub fn detachable(trial: &Trial, p: ProcNo, page: PageNo) -> Option<TableNo>
    ensures { result ≡ detachable (tree_in (state_of trial.now) p) page }
{
    let lacks = lacks(trial, p, page);
    if lacks >= 3 {
        return None;
    }
    let Some(table) = table_on(trial, p, lacks + 1, page) else {
        return None;
    };
    if is_empty(trial, p, lacks + 1, page) {
        Some(table)
    } else {
        None
    }
}
