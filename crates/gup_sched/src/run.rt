//! The run of a machine.
ghost use Rattle.std.specs.Prelude.{◌≡◌, ℕ, ◌+◌, ◌*◌, ◌<◌, ◌≤◌, length, slice_get, Some, IfOk, OnOk};
ghost use Rattle.gup_spec_turns.specs.Cost.{operations, forks};
ghost use Rattle.gup_spec_turns.specs.Run.{RunState, IsCoreRun};
ghost use Rattle.gup_core.specs.Machine.{Shows, IsNew};
ghost use Rattle.gup_core.specs.Going.{WritesTurn};
ghost use Rattle.gup_sched.specs.Ran.{SaysStuck};

use crate::awake::Awake;
use crate::order::{actor_no, behind, is_stuck, next_to_go};
use gup_base::{ActorNo, NoMemory};
use gup_core::Machine;
use gup_law_costs::{costs_are_few, turns_are_spent};
use gup_law_turns::reached_states_stand;
use gup_plain::Journal;
use gup_script::Script;
use std::alloc::Global;

/// What a run leaves: its journal, whether it is stuck, which it is where an actor has operations left, and the
/// machine as it is then.
#[derive(Drop)]
pub struct Run {
    pub journal: Journal,
    pub stuck: bool,
    pub machine: Machine,
}

/// Runs the machine to the end of the script: first the written turns, then those that the pointer gives, the first
/// actor at or after it, in a circle, that has operations left and doesn't wait, until there is none. The journal is
/// that of the script's core run, and the machine shows its end. Every run ends: after its written turns it has at
/// most 1,025 turns for each operation of the script, and 527,361 more for each fork. The journal may want memory.
pub fn run_all(alloc: Global, machine: Machine, script: &Script) -> Result<Run, NoMemory>
    requires { IsNew script.now machine }
    ensures core { IfOk result (λ run. (end : RunState) × IsCoreRun script.now run.journal.notes end
        × Shows run.machine end × SaysStuck run.stuck script.now end
        × (end.turns ≤ length script.now.turns + (1025 * operations script.now + 527361 * forks script.now))
        × (run.machine.turns ≡ end.turns)) }
    ensures script { IfOk result (λ run. run.machine.script ≡ script.now) }
{
    let _script = script;
    run_machine(alloc, machine)
}

/// Runs the machine to the end of its own script, as `run_all` does.
pub fn run_machine(alloc: Global, machine: Machine) -> Result<Run, NoMemory>
    requires { IsNew machine.script machine }
    ensures core { IfOk result (λ run. (end : RunState) × IsCoreRun machine.script run.journal.notes end
        × Shows run.machine end × SaysStuck run.stuck machine.script end
        × (end.turns ≤ length machine.script.turns + (1025 * operations machine.script + 527361 * forks machine.script))
        × (run.machine.turns ≡ end.turns)) }
    ensures script { IfOk result (λ run. run.machine.script ≡ machine.script) }
{
    reached_states_stand();
    turns_are_spent();
    costs_are_few();
    let mut machine = machine;
    let mut journal = Journal::new(alloc);
    let actors = machine.script().actors();
    let written = machine.script().turns().len();
    for k in 0..written {
        write_kth(&mut machine, &mut journal, k)?;
    }
    let mut awake = Awake::all(actors);
    let mut pointer = actor_no(0);
    while let Some(actor) = next_to_go(&mut machine, &mut journal, &mut awake, pointer)? {
        pointer = behind(actors, actor);
    }
    Ok(Run {
        journal,
        stuck: is_stuck(&machine, actors),
        machine,
    })
}

// Takes the written turn with this number, from 0.
fn write_kth(machine: &mut Machine, journal: &mut Journal, k: usize) -> Result<(), NoMemory>
    requires { k < length machine.old.script.turns }
    ensures turn { OnOk result ((actor : ℕ) × (slice_get machine.old.script.turns k ≡ Some actor)
        × WritesTurn machine.old machine.new journal.old journal.new actor) }
    ensures script { machine.new.script ≡ machine.old.script }
{
    let _actors = machine.script().actors();
    let actor = machine.script().turns()[k];
    machine.write_turn(actor, journal)
}
