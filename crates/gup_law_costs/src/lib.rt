//! The laws of how many turns there are: each takes of a cost that a script has, so a run ends.
#![tactic(auto)]

ghost use Rattle.std.specs.Prelude.{◌≡◌, ℕ, ◌+◌, ◌-◌, ◌<◌, ◌≤◌, ◌*◌, ◌^◌, true, false, List, length, None, Some};
ghost use Rattle.gup_script.specs.declared.op.Op.{Op};
ghost use Rattle.gup_script.specs.Script.{ScriptValue};
ghost use Rattle.gup_script.specs.Valid.{IsScript};
ghost use Rattle.gup_spec_turns.specs.Run.{RunState, run_start, run_after, op_in, waiting_in, can_go};
ghost use Rattle.gup_spec_turns.specs.Cost.{cost, operations, forks, most_turns_of, IsBoundedTurn};
ghost use Rattle.gup_spec_turns.specs.Run.{turned};
ghost use Rattle.gup_law_turns.specs.Standing.{IsStanding};

/// The turn of an actor that can go takes of the cost, and that of one that waits or has finished leaves it. At the
/// start the cost is at most 1,025 for each operation of the script, and 527,361 more for each fork; and there are no more
/// forks than processes, since each brings a child of its own. So a run ends.
pub fn turns_are_spent()
    ensures spent { (script : ScriptValue) (r : RunState) (a : ℕ) → IsScript script → IsStanding script r → can_go script r a ≡ true → cost script (run_after script r a) < cost script r }
    ensures kept { (script : ScriptValue) (r : RunState) (a : ℕ) → can_go script r a ≡ false → cost script (run_after script r a) ≡ cost script r }
    ensures start { (script : ScriptValue) → IsScript script → cost script (run_start script) ≤ 1025 * operations script + 527361 * forks script }
    ensures few_forks { (script : ScriptValue) → IsScript script → forks script ≤ length script.processes }
{}

/// The written turns of a script and what its start costs are few together: the number of a run's turn, and one more, fits
/// 32 bits.
pub fn costs_are_few()
    ensures { (script : ScriptValue) → IsScript script → length script.turns + cost script (run_start script) < 2 ^ 32 - 1 }
{}

/// How many turns an operation has at most: a mapping, a protection, a load, a store, a give and a take one, what goes over
/// n pages or words n, an unpin of n pages n, a fork 527,362; each turn of an exit but the one that answers it takes a page of
/// its process. Whichever actors take turns, an operation has fewer notes, one for each of its turns that are over, than it
/// may have turns; for an exit these are 1,025 more than the pages of all the script's mappings.
pub fn turns_are_bounded()
    ensures turn { (script : ScriptValue) (r : RunState) (a : ℕ) (op : Op) → IsScript script → IsStanding script r → op_in script r a ≡ Some op → waiting_in script r a ≡ None → IsBoundedTurn script r a op }
    ensures within { (script : ScriptValue) (actors : List ℕ) (a : ℕ) (op : Op) → IsScript script → let r = turned script (run_start script) actors in op_in script r a ≡ Some op → (r.places a).far < most_turns_of script op }
{
    gup_law_events::simulates();
    gup_law_events::starts_sound();
    gup_law_events::sound_states_hold();
    gup_law_tables::walks_stand_in_tables();
}
