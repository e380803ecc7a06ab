//! The turns that can be taken in a state.
ghost use Rattle.std.specs.Prelude.{◌≡◌, ℕ, [], ◌∷◌, ◌<◌, ◌+◌, length, slice_get, Some, IfOk, OnOk};
ghost use Rattle.gup_search.specs.Search.{AreReady};
ghost use Rattle.gup_search.specs.Graph.{IsGraph, IsAt, CanGoAt, IsSteppedBy};
ghost use Rattle.gup_search.specs.Explored.{IsSearch, AreFound, Keeps, EndsIn};
ghost use Rattle.gup_search.specs.States.{State};

use crate::ends::Ends;
use crate::graph::{Graph, Step};
use crate::replay::{ready, replayed, setup, tell_turn, tell_turns, waits};
use gup_base::{ActorNo, NoMemory};
use gup_core::{Machine, images_are_exact, images_are_of_states};
use gup_script::Script;
use gup_spec_orders::{Named, Outcome};
use std::alloc::Global;

/// What is explored: the orders of this script, from the start or behind the written turns, up to so many states.
#[derive(Clone, Copy)]
pub(crate) struct Task<'a> {
    pub(crate) script: &'a Script,
    pub(crate) behind: bool,
    pub(crate) named: &'a [Named],
    pub(crate) limit: usize,
}

/// The graph of the one state where all orders begin.
pub(crate) fn begin(alloc: Global, task: &Task) -> Result<Graph, NoMemory>
    ensures { IfOk result (IsGraph task.now.script.now task.now.behind task.now.named.now task.now.limit) }
{
    let mut machine = Machine::new(alloc, task.script)?;
    let mut tells = Vec::new(alloc);
    let written = setup(task.script, task.behind);
    tell_turns(&mut machine, task.named, written, &mut tells)?;
    let facts = machine.image(alloc)?;
    let mut graph = Graph::new(alloc);
    graph.add(alloc, facts.as_slice(), tells.as_slice(), None, task.limit)?;
    Ok(graph)
}

/// Adds the state that each turn leads to from the state with this number, or its outcome where no actor can go.
pub(crate) fn expand(
    alloc: Global,
    task: &Task,
    graph: &mut Graph,
    ends: &mut Ends,
    i: usize,
) -> Result<(), NoMemory>
    requires search { IsSearch task.now.script.now task.now.behind task.now.named.now task.now.limit graph.old ends.old i }
    requires there { i < length graph.old.states }
    ensures { OnOk result (IsSearch task.now.script.now task.now.behind task.now.named.now task.now.limit graph.new ends.new (i + 1)) }
{
    images_are_exact();
    let machine = machine_at(alloc, task, graph, i)?;
    let ready = ready(alloc, &machine)?;
    match ready.as_slice().split_first() {
        None => end(alloc, task, graph, ends, i, &machine),
        Some((first, others)) => {
            step(alloc, task, graph, i, machine, *first)?;
            step_each(alloc, task, graph, i, others)
        }
    }
}

// A machine with the image of the state with this number: it has taken the turns of the path to it.
fn machine_at(alloc: Global, task: &Task, graph: &Graph, i: usize) -> Result<Machine, NoMemory>
    requires graph { IsGraph task.now.script.now task.now.behind task.now.named.now task.now.limit graph.now }
    requires there { i < length graph.now.states }
    ensures { IfOk result (IsAt task.now.script.now graph.now.states i) }
{
    images_are_of_states();
    let _actors = task.script.actors();
    let path = graph.path_to(alloc, i)?;
    let machine = replayed(alloc, task.script, task.behind, path.as_slice())?;
    machine.has_image();
    Ok(machine)
}

// Adds the state that the actor's turn leads to, which a machine with the image of the state with this number takes.
fn step(
    alloc: Global,
    task: &Task,
    graph: &mut Graph,
    i: usize,
    mut machine: Machine,
    actor: ActorNo,
) -> Result<(), NoMemory>
    requires graph { IsGraph task.now.script.now task.now.behind task.now.named.now task.now.limit graph.old }
    requires there { i < length graph.old.states }
    requires at { IsAt task.now.script.now graph.old.states i machine }
    requires can { CanGoAt task.now.script.now graph.old.states i actor }
    ensures { OnOk result (IsSteppedBy task.now.script.now task.now.behind task.now.named.now task.now.limit i graph.old graph.new (actor ∷ [])) }
{
    images_are_exact();
    let mut tells = graph.tells(alloc, i)?;
    tell_turn(&mut machine, task.named, actor, &mut tells)?;
    let facts = machine.image(alloc)?;
    let step = Step::new(i, actor)?;
    graph.add(
        alloc,
        facts.as_slice(),
        tells.as_slice(),
        Some(step),
        task.limit,
    )
}

// Adds the states that the turns of these actors lead to, each taken by a machine of its own.
fn step_each(
    alloc: Global,
    task: &Task,
    graph: &mut Graph,
    i: usize,
    actors: &[ActorNo],
) -> Result<(), NoMemory>
    requires graph { IsGraph task.now.script.now task.now.behind task.now.named.now task.now.limit graph.old }
    requires there { i < length graph.old.states }
    requires can { (k a : ℕ) → slice_get actors.now k ≡ Some a → CanGoAt task.now.script.now graph.old.states i a }
    ensures { OnOk result (IsSteppedBy task.now.script.now task.now.behind task.now.named.now task.now.limit i graph.old graph.new actors.now) }
{
    for actor in actors {
        let machine = machine_at(alloc, task, graph, i)?;
        step(alloc, task, graph, i, machine, *actor)?;
    }
    Ok(())
}

// Adds the outcome of the state with this number, which is the machine's.
fn end(
    alloc: Global,
    task: &Task,
    graph: &Graph,
    ends: &mut Ends,
    i: usize,
    machine: &Machine,
) -> Result<(), NoMemory>
    requires graph { IsGraph task.now.script.now task.now.behind task.now.named.now task.now.limit graph.now }
    requires there { i < length graph.now.states }
    requires found { AreFound task.now.script.now task.now.behind task.now.named.now ends.old }
    requires at { IsAt task.now.script.now graph.now.states i machine.now }
    requires over { AreReady machine.now [] }
    ensures found { OnOk result (AreFound task.now.script.now task.now.behind task.now.named.now ends.new) }
    ensures keeps { OnOk result (Keeps ends.old.outcomes.items ends.new.outcomes.items) }
    ensures ends { OnOk result ((state : State) → slice_get graph.now.states i ≡ Some state
        → EndsIn task.now.script.now task.now.named.now ends.new.outcomes.items state) }
{
    images_are_exact();
    let _task = task;
    let tells = graph.tells(alloc, i)?;
    let waits = waits(alloc, machine)?;
    let path = graph.path_to(alloc, i)?;
    ends.add(alloc, Outcome { tells, waits, path })
}
