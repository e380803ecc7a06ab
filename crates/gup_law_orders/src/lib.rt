//! The laws of orders: each is a run of written turns, and what is told behind it are lines that this run prints.
#![tactic(auto)]

ghost use Rattle.std.specs.Prelude.{◌≡◌, ℕ, ◌≤◌, Bool, List, ◌++◌, length, filter, Some};
ghost use Rattle.gup_plain.specs.declared.note.Waiting.{Waiting};
ghost use Rattle.gup_script.specs.Limits.{most_turns};
ghost use Rattle.gup_script.specs.Script.{ScriptValue};
ghost use Rattle.gup_script.specs.Valid.{IsScript};
ghost use Rattle.gup_spec_turns.specs.Cause.{WaitsForBirthOrPin};
ghost use Rattle.gup_spec_turns.specs.Run.{RunState, run_start, turned, waiting_in};
ghost use Rattle.gup_lines.specs.Text.{outcomes_of};
ghost use Rattle.gup_spec_orders.specs.declared.told.Named.{Named};
ghost use Rattle.gup_spec_orders.specs.declared.told.Outcome.{Outcome};
ghost use Rattle.gup_spec_orders.specs.Orders.{setup, journal_in, IsOrder, IsOutcome};
ghost use Rattle.gup_spec_orders.specs.Printed.{is_line_of, lines_in, lines_told, with_turns, IsRunInOrder};

/// Written as the turns of its script, behind those that are written there if it is an order behind them, an order is a run: the
/// script's core run takes just these turns, and each actor waits at its end for what it waits for behind the order. Where they
/// aren't more than a script may have, that is a script. Whoever waits behind an order, waits for a process of the script to be
/// born or for a pin of the script to be given to it.
pub fn orders_are_runs()
    ensures run { (script : ScriptValue) (behind : Bool) (order : List ℕ) → IsScript script → IsOrder script behind order → (end : RunState) × IsRunInOrder script (setup script behind ++ order) end }
    ensures written { (script : ScriptValue) (behind : Bool) (order : List ℕ) → IsScript script → IsOrder script behind order → length (setup script behind ++ order) ≤ most_turns → IsScript (with_turns (setup script behind ++ order) script) }
    ensures waits { (script : ScriptValue) (behind : Bool) (order : List ℕ) → IsScript script → IsOrder script behind order → (a : ℕ) (waiting : Waiting) → waiting_in script (turned script (run_start script) (setup script behind ++ order)) a ≡ Some waiting → WaitsForBirthOrPin script waiting }
{
    gup_law_turns::reached_states_stand();
}

/// What an outcome tells of the named operations are the lines of them that a run in its order prints, operation by operation.
pub fn tells_are_lines()
    ensures { (script : ScriptValue) (named : List Named) (order : List ℕ) (outcome : Outcome) → IsScript script → IsOutcome script named order outcome → lines_told named outcome.tells.items ≡ lines_in named (journal_in script order) }
{
    gup_law_events::simulates();
    gup_law_events::starts_sound();
}

/// Whichever actors take turns, and in whatever order, each operation has at most one line.
pub fn one_line_each()
    ensures { (script : ScriptValue) (order : List ℕ) (name : Named) → IsScript script → length (filter (is_line_of name) (outcomes_of (journal_in script order))) ≤ 1 }
{
    gup_law_events::simulates();
    gup_law_events::starts_sound();
}
