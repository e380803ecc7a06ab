//! Machines that have taken the turns of an order.
ghost use Rattle.std.specs.Prelude.{◌≡◌, ℕ, ◌<◌, ◌++◌, List, length, IfOk, OnOk};
ghost use Rattle.std.specs.List.{All};
ghost use Rattle.gup_script.specs.Script.{ScriptValue};
ghost use Rattle.gup_spec_turns.specs.Run.{RunState, turned, run_start, can_go};
ghost use Rattle.gup_core.specs.Machine.{Shows};
ghost use Rattle.gup_spec_orders.specs.Orders.{setup};
ghost use Rattle.gup_search.specs.Search.{Stands, TakesToldTurn, AreReady, AreWaits};

use crate::tells::tell_notes;
use gup_base::{ActorNo, NoMemory};
use gup_core::Machine;
use gup_plain::Waiting;
use gup_script::Script;
use gup_spec_orders::{Named, Tell};
use std::alloc::Global;

/// A machine of the script that has taken the written turns, if `behind`, and then those of the path.
pub(crate) fn replayed(
    alloc: Global,
    script: &Script,
    behind: bool,
    path: &[ActorNo],
) -> Result<Machine, NoMemory>
    requires { All (λ (a : ℕ). a < length script.now.actors) path.now }
    ensures script { IfOk result (λ machine. machine.script ≡ script.now) }
    ensures shows { IfOk result (λ machine. Shows machine (turned script.now (run_start script.now) (setup script.now behind ++ path.now))) }
{
    let mut machine = Machine::new(alloc, script)?;
    take_turns(&mut machine, setup(script, behind));
    take_turns(&mut machine, path);
    Ok(machine)
}

/// The turns before any order: the written ones, if `behind`.
pub(crate) fn setup(script: &Script, behind: bool) -> &[ActorNo]
    ensures turns { result.now ≡ setup script.now behind }
    ensures within { All (λ (a : ℕ). a < length script.now.actors) result.now }
{
    let _actors = script.actors();
    if behind { script.turns() } else { &[] }
}

fn take_turns(machine: &mut Machine, actors: &[ActorNo])
    requires { All (λ (a : ℕ). a < length machine.old.script.actors) actors.now }
    ensures script { machine.new.script ≡ machine.old.script }
    ensures shows { (r : RunState) → Shows machine.old r → Shows machine.new (turned machine.old.script r actors.now) }
{
    for actor in actors {
        machine.turn(*actor);
    }
}

/// Takes the turns of these actors, and puts in what they tell of the named operations.
pub(crate) fn tell_turns(
    machine: &mut Machine,
    named: &[Named],
    actors: &[ActorNo],
    tells: &mut Vec<Tell>,
) -> Result<(), NoMemory>
    requires { All (λ (a : ℕ). a < length machine.old.script.actors) actors.now }
    ensures script { machine.new.script ≡ machine.old.script }
    ensures stands { OnOk result ((script : ScriptValue) (order : List ℕ) → Stands script named.now order machine.old tells.old.items
        → Stands script named.now (order ++ actors.now) machine.new tells.new.items) }
{
    for actor in actors {
        tell_turn(machine, named, *actor, tells)?;
    }
    Ok(())
}

/// Takes the actor's turn, and puts in what it tells of the named operations.
pub(crate) fn tell_turn(
    machine: &mut Machine,
    named: &[Named],
    actor: ActorNo,
    tells: &mut Vec<Tell>,
) -> Result<(), NoMemory>
    requires { actor < length machine.old.script.actors }
    ensures script { machine.new.script ≡ machine.old.script }
    ensures turn { OnOk result (TakesToldTurn named.now machine.old machine.new actor tells.old.items tells.new.items) }
{
    let turn = machine.turn(actor);
    tell_notes(tells, named, turn.notes())
}

/// The actors that can go.
pub(crate) fn ready(alloc: Global, machine: &Machine) -> Result<Vec<ActorNo>, NoMemory>
    ensures { IfOk result (λ ready. AreReady machine.now ready.items) }
{
    let mut ready = Vec::new(alloc);
    for k in 0..machine.script().actors() {
        let actor = actor_no(k);
        if can_go(machine, actor) {
            ready.push(actor)?;
        }
    }
    Ok(ready)
}

fn can_go(machine: &Machine, actor: ActorNo) -> bool
    requires { actor < length machine.now.script.actors }
    ensures { (r : RunState) → Shows machine.now r → result ≡ can_go machine.now.script r actor }
{
    !machine.finished(actor) && machine.waits(actor).is_none()
}

/// What each actor waits for.
pub(crate) fn waits(alloc: Global, machine: &Machine) -> Result<Vec<Option<Waiting>>, NoMemory>
    ensures { IfOk result (λ waits. AreWaits machine.now waits.items) }
{
    let mut waits = Vec::new(alloc);
    for k in 0..machine.script().actors() {
        waits.push(machine.waits(actor_no(k)))?;
    }
    Ok(waits)
}

fn actor_no(k: u8) -> ActorNo
    requires { k < 81 }
    ensures { result ≡ k }
{
    ActorNo::new(u64::from(k)).unwrap()
}
