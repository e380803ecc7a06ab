//! The law of page tables: whatever the order of events, a table has one owner, and none that a walk may be inside of is used again.
//! A page gets all the tables that it lacks, or none; and no empty table is left on the path of one that is retired, but for the root.
#![tactic(auto)]

ghost use Rattle.std.specs.Prelude.{◌≡◌, ℕ, ◌<◌, ◌≤◌, ◌==◌, true, false, Bool, List, [], Some, None, IsSome};
ghost use Rattle.gup_base.specs.declared.entry.Entry.{Entry};
ghost use Rattle.gup_plain.specs.Event.{page_numbers};
ghost use Rattle.gup_spec_tables.specs.Tables.{TreeValue, table_numbers, lacks, detachable, is_among};
ghost use Rattle.gup_spec_tables.specs.Paths.{path_to};
ghost use Rattle.gup_spec_events.specs.State.{CoreState, core_start};
ghost use Rattle.gup_spec_events.specs.Event.{CoreEvent, Can, happens, run, tree_in, MayShape};
ghost use Rattle.gup_spec_events.specs.Growth.{grows, has_enough, reclaims, retires};
ghost use Rattle.gup_spec_events.specs.Invariant.{AllCan};
ghost use Rattle.gup_law_base.specs.Sound.{IsSound};
ghost use Rattle.gup_law_tables.specs.Standing.{IsTree, TablesStand, has_table, IsSomewhere, IsButForTables, EntriesStand};
ghost use Rattle.gup_law_tables.specs.Down.{IsDown};
ghost use Rattle.gup_law_tables.specs.Inside.{step_path, WalksStand};
ghost use Rattle.gup_plain.specs.Put.{put};
ghost use Rattle.gup_spec_events.specs.State.{WalkStep, walking, ready};
ghost use Rattle.gup_spec_events.specs.Event.{IsUntaken};
ghost use Rattle.gup_spec_events.specs.Descent.{reads_down, step_down};

/// Each process has a tree of tables, and each table is free or of one process, which has it in its tree or has taken it out of
/// that. An event leaves it so, and from the start on it is so after whatever events, each when it can happen.
pub fn tables_stand()
    ensures event { (s : CoreState) (e : CoreEvent) → TablesStand s → Can s e → TablesStand (happens s e) }
    ensures run { (movable normal tables : ℕ) (needs_tables : Bool) (is_born : ℕ → Bool) (es : List CoreEvent) → tables ≤ table_numbers → AllCan (core_start movable normal tables needs_tables is_born) es → TablesStand (run (core_start movable normal tables needs_tables is_born) es) }
{}

/// While a walk of a process runs, the process keeps each table that it has: such a table may leave the tree, and is then kept
/// back. So no table that the walk may be inside of is free.
pub fn walks_keep_tables()
    ensures { (s : CoreState) (e : CoreEvent) (p table : ℕ) → Can s e → (s.walks p ≡ 0 → ⊥) → has_table s p table ≡ true → has_table (happens s e) p table ≡ true }
{}

/// A page of a process whose tables an actor may change gets the tables that it lacks exactly where as many are free, after those
/// that the process has taken out have come free, unless a walk of it runs. Where none runs, no table of it waits afterwards.
/// Nothing but tables changes.
pub fn tables_grow()
    ensures can { (s : CoreState) (a p page : ℕ) → TablesStand s → MayShape s a p → IsSome (s.right p page) → page < page_numbers → AllCan s (grows s a p page) }
    ensures complete { (s : CoreState) (a p page : ℕ) → TablesStand s → MayShape s a p → IsSome (s.right p page) → page < page_numbers → (lacks (tree_in (run s (grows s a p page)) p) page == 0) ≡ has_enough (run s (reclaims s a p)) p page }
    ensures others { (s : CoreState) (a p page : ℕ) → IsButForTables s (run s (grows s a p page)) }
    ensures freed { (s : CoreState) (a p page : ℕ) → s.walks p ≡ 0 → (run s (grows s a p page)).retired p ≡ [] }
{}

/// The empty tables of a page's path are taken out of the tree, all but the root, and come free unless a walk of the process runs.
/// Where none runs, no table of it waits afterwards. Nothing but tables changes.
pub fn tables_shrink()
    ensures can { (s : CoreState) (a p page : ℕ) → MayShape s a p → AllCan s (retires s a p page) }
    ensures all { (s : CoreState) (a p page : ℕ) → TablesStand s → MayShape s a p → detachable (tree_in (run s (retires s a p page)) p) page ≡ None }
    ensures others { (s : CoreState) (a p page : ℕ) → IsButForTables s (run s (retires s a p page)) }
    ensures freed { (s : CoreState) (a p page : ℕ) → s.walks p ≡ 0 → (run s (retires s a p page)).retired p ≡ [] }
{}

/// No table is lost: one that is free, or that a process has, is so after whatever event, and from the start on each is.
pub fn no_table_is_lost()
    ensures event { (s : CoreState) (e : CoreEvent) (table : ℕ) → Can s e → IsSomewhere s table → IsSomewhere (happens s e) table }
    ensures run { (movable normal tables : ℕ) (needs_tables : Bool) (is_born : ℕ → Bool) (es : List CoreEvent) (table : ℕ) → AllCan (core_start movable normal tables needs_tables is_born) es → table < tables → IsSomewhere (run (core_start movable normal tables needs_tables is_born) es) table }
{}

/// No table comes from nowhere: one that is free after an event, or that a process has, was so before it. So from the start on there
/// is none but those that were free then.
pub fn no_table_is_made()
    ensures event { (s : CoreState) (e : CoreEvent) (table : ℕ) → Can s e → IsSomewhere (happens s e) table → IsSomewhere s table }
    ensures run { (movable normal tables : ℕ) (needs_tables : Bool) (is_born : ℕ → Bool) (es : List CoreEvent) (table : ℕ) → AllCan (core_start movable normal tables needs_tables is_born) es → IsSomewhere (run (core_start movable normal tables needs_tables is_born) es) table → table < tables }
{}

/// A page with an entry that lacks no table lacks none after whatever event: only empty tables are taken out.
pub fn entries_keep_tables()
    ensures { (s : CoreState) (e : CoreEvent) (p page : ℕ) (entry : Entry) → TablesStand s → Can s e → s.entry p page ≡ Some entry → lacks (tree_in s p) page ≡ 0 → lacks (tree_in (happens s e) p) page ≡ 0 }
{}

/// Where entries need tables, a page with an entry lacks none, and neither does one whose entry is cleared to be moved: at the
/// start, and after each event of a sound state in which it is so.
pub fn entries_stand()
    ensures start { (movable normal tables : ℕ) (needs_tables : Bool) (is_born : ℕ → Bool) → EntriesStand (core_start movable normal tables needs_tables is_born) }
    ensures event { (s : CoreState) (e : CoreEvent) → IsSound s → TablesStand s → EntriesStand s → Can s e → EntriesStand (happens s e) }
{}

/// A walk that is in the middle of a page may be inside of the tables of its path. The process has kept each of them: it stands
/// where it stood, or was taken out, whatever others did. So none of them is free, and none has become another page's.
pub fn walks_stand_in_tables()
    ensures start { (movable normal tables : ℕ) (needs_tables : Bool) (is_born : ℕ → Bool) → WalksStand (core_start movable normal tables needs_tables is_born) }
    ensures event { (s : CoreState) (e : CoreEvent) → IsSound s → TablesStand s → WalksStand s → Can s e → WalksStand (happens s e) }
    ensures used { (s : CoreState) (a p sequence table : ℕ) (write long : Bool) (step : WalkStep) → TablesStand s → WalksStand s → s.job a ≡ walking p write long sequence step → is_among (step_path step) table ≡ true → s.free_table table ≡ false }
{}

/// A walk that stands before a page can read down its path, one word after another, whatever page tables there are: it comes to the
/// end of the path with the entry there, or stops.
pub fn walks_read_down()
    ensures can { (s : CoreState) (a p sequence page : ℕ) (write long : Bool) → s.job a ≡ walking p write long sequence ready → IsUntaken (s.taken a) page → AllCan s (reads_down s a p write long sequence page) }
    ensures leads { (s : CoreState) (a p sequence page : ℕ) (write long : Bool) → run s (reads_down s a p write long sequence page) ≡ record s { job = put a (walking p write long sequence (step_down s p write long page)) s.job } }
{}

/// Down a page's path words lead from the root to each table that is there, one after another, and no further. Where a page with an entry
/// lacks no table, the entry that is read at the end is the page's. So a walk beside which nothing happens reads what the page has.
pub fn paths_lead_to_entries()
    ensures { (v : TreeValue) (page : ℕ) → IsTree v.place → IsDown v page (path_to v page) }
{}
