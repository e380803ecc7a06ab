//! The states that orders lead to, and the turns that lead to them.
ghost use Rattle.std.specs.Prelude.{◌≡◌, ℕ, ◌<◌, Bool, false, List, [], IfOk, OnOk, length, slice_get, Some, reverse};
ghost use Rattle.gup_search.specs.States.{State};
ghost use Rattle.gup_search.specs.Graph.{IsBack, Adds};

use crate::pools::small;
use crate::states::States;
use gup_base::{ActorNo, NoMemory};
use gup_image::KeptFact;
use gup_spec_orders::Tell;
use std::alloc::Global;

/// A turn that leads to a state: the number of the state that it is taken in, and its actor.
#[derive(Clone, Copy, Debug)]
pub(crate) struct Step {
    parent: u32,
    actor: ActorNo,
}

impl Step {
    /// The actor's turn in the state with this number.
    pub(crate) fn new(parent: usize, actor: ActorNo) -> Result<Step, NoMemory>
        ensures { IfOk result (λ step. step ≡ record { parent = parent; actor = actor }) }
    {
        let parent = small(parent)?;
        Ok(Step { parent, actor })
    }
}

/// States, each once, with the turns that led to them first. The first state is the one where all orders begin, and no turn leads there.
#[derive(Drop)]
pub(crate) struct Graph {
    states: States,
    steps: Vec<Option<Step>>,
    left_out: bool,
}

impl Graph {
    /// No states.
    pub(crate) fn new(alloc: Global) -> Graph
        ensures states { result.states ≡ [] }
        ensures steps { result.steps.items ≡ [] }
        ensures left_out { result.left_out ≡ false }
    {
        Graph {
            states: States::new(alloc),
            steps: Vec::new(alloc),
            left_out: false,
        }
    }

    /// How many states there are.
    pub(crate) fn len(&self) -> usize
        ensures { result ≡ length self.now.states }
    {
        self.states.len()
    }

    /// Whether a state was left out.
    pub(crate) fn is_open(&self) -> bool
        ensures { result ≡ self.now.left_out }
    {
        self.left_out
    }

    /// What the named operations have told on the way to the state with this number.
    pub(crate) fn tells(&self, alloc: Global, i: usize) -> Result<Vec<Tell>, NoMemory>
        requires { i < length self.now.states }
        ensures { IfOk result (λ tells. (state : State) → slice_get self.now.states i ≡ Some state → tells.items ≡ state.tells) }
    {
        self.states.tells(alloc, i)
    }

    /// Adds the state with these facts and tells, if it isn't there yet, and the turn that led to it. Where there are `limit` states
    /// already, it is left out.
    pub(crate) fn add(
        &mut self,
        alloc: Global,
        facts: &[KeptFact],
        tells: &[Tell],
        step: Option<Step>,
        limit: usize,
    ) -> Result<(), NoMemory>
        ensures { OnOk result (Adds limit self.old self.new (record { facts = facts.now; tells = tells.now }) step) }
    {
        if self.states.len() < limit {
            if self.states.insert(alloc, facts, tells)? {
                self.steps.push(step)?;
            }
        } else if !self.states.contains(alloc, facts, tells)? {
            self.left_out = true;
        }
        Ok(())
    }

    /// The actors of the turns that led to the state with this number first.
    pub(crate) fn path_to(&self, alloc: Global, i: usize) -> Result<Vec<ActorNo>, NoMemory>
        requires { (back : List ℕ) × IsBack self.now.steps.items i back }
        ensures { IfOk result (λ path. (back : List ℕ) → IsBack self.now.steps.items i back → path.items ≡ reverse back) }
    {
        let mut path = Vec::new(alloc);
        let mut at = i;
        while let Some(step) = self.steps[at] {
            path.push(step.actor)?;
            at = step.parent as usize;
        }
        path.reverse();
        Ok(path)
    }
}
