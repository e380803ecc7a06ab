//! The law of the page tables that a process keeps: in each state that shows them, what growing and shrinking make of them and of the
//! pool is what the core events do.

ghost use Rattle.std.specs.Prelude.{◌≡◌, ℕ, not};
ghost use Rattle.gup_page_tables.specs.PageTables.{Both, IsOf};
ghost use Rattle.gup_spec_tables.specs.Tables.{lacks};
ghost use Rattle.gup_spec_events.specs.State.{CoreState};
ghost use Rattle.gup_spec_events.specs.Event.{run, tree_in};
ghost use Rattle.gup_spec_events.specs.Growth.{grows, has_enough, reclaims as reclaims_all, retires};
ghost use Rattle.gup_space.specs.ShownTables.{ShowsTables, IsPool, KeepsOthers, wants_tables, grown, shrunk};

/// A page that gets the tables that it lacks gets those that the events of growth give it, and finds too few exactly where these do.
/// What it lacks is what it lacks in the state. Other processes keep what they have.
pub fn growth_is_events()
    ensures grown { (b : Both) (s : CoreState) (a p page : ℕ) → IsPool b.pool → IsOf b → ShowsTables p b s → ShowsTables p (grown page b) (run s (grows s a p page)) }
    ensures enough { (b : Both) (s : CoreState) (a p page : ℕ) → IsPool b.pool → IsOf b → ShowsTables p b s → has_enough (run s (reclaims_all s a p)) p page ≡ not (wants_tables page b) }
    ensures lacks { (b : Both) (s : CoreState) (p page : ℕ) → ShowsTables p b s → lacks (tree_in s p) page ≡ lacks b.tables.tree page }
    ensures others { (s : CoreState) (a p page : ℕ) → KeepsOthers p s (run s (grows s a p page)) }
{}

/// The tables of a page that go are those that the events of shrinking take out, and they come free where these do. Other processes
/// keep what they have.
pub fn shrinking_is_events()
    ensures shrunk { (b : Both) (s : CoreState) (a p page : ℕ) → ShowsTables p b s → ShowsTables p (shrunk page b) (run s (retires s a p page)) }
    ensures others { (s : CoreState) (a p page : ℕ) → KeepsOthers p s (run s (retires s a p page)) }
{}
