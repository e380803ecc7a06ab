//! The search.
ghost use Rattle.std.specs.Prelude.{◌≡◌, ◌≤◌, ◌+◌, true, false, if◌then◌else◌, IfOk};
ghost use Rattle.gup_spec_orders.specs.Orders.{AreOfOrders, AreOfAllOrders};
ghost use Rattle.gup_search.specs.Reach.{ReachesStates, ReachesAllStates};

use crate::ends::Ends;
use crate::expand::{Task, begin, expand};
use gup_base::NoMemory;
use gup_script::Script;
use gup_spec_orders::{Named, Outcome};
use std::alloc::Global;

/// What a search has found: the outcomes, each once, in the order in which they were found; over how many states it has gone; and
/// whether it is open, which it is exactly where orders lead to more different states than the limit.
#[derive(Debug, Drop)]
pub struct Explored {
    pub outcomes: Vec<Outcome>,
    pub states: usize,
    pub is_open: bool,
}

/// Explores every order of the turns of the script's actors, from the start, or behind the written turns, of which each is taken as in a
/// run. It goes over at most `limit` states, breadth first, and tells outcomes apart by what the named operations tell, and by who waits
/// at the end, and for what.
pub fn explore(
    alloc: Global,
    script: &Script,
    behind: bool,
    named: &[Named],
    limit: usize,
) -> Result<Explored, NoMemory>
    ensures happen { IfOk result (λ found. AreOfOrders script.now behind named.now found.outcomes.items) }
    ensures all { IfOk result (λ found. found.is_open ≡ false → AreOfAllOrders script.now behind named.now found.outcomes.items) }
    ensures full { IfOk result (λ found. found.is_open ≡ true → found.states ≡ limit) }
    ensures states { IfOk result (λ found. ReachesStates script.now behind named.now (if found.is_open then limit + 1 else found.states)) }
    ensures few { IfOk result (λ found. found.is_open ≡ false → found.states ≤ limit) }
    ensures no_others { IfOk result (λ found. found.is_open ≡ false → ReachesAllStates script.now behind named.now found.states) }
{
    let task = Task {
        script,
        behind,
        named,
        limit,
    };
    let mut graph = begin(alloc, &task)?;
    let mut ends = Ends::new(alloc);
    let mut i = 0;
    while i < graph.len() {
        expand(alloc, &task, &mut graph, &mut ends, i)?;
        i += 1;
    }
    Ok(Explored {
        outcomes: ends.into_outcomes(),
        states: graph.len(),
        is_open: graph.is_open(),
    })
}
