//! The outcomes of the orders that have come to their end.
ghost use Rattle.std.specs.Prelude.{◌≡◌, [], IfOk, OnOk};
ghost use Rattle.gup_search.specs.Ends.{IsEnds, AddsOutcome};

use gup_base::{ActorNo, NoMemory};
use gup_plain::Waiting;
use gup_spec_orders::{Outcome, Tell};
use indexmap::IndexSet;
use std::alloc::Global;

/// What orders come to that are the same outcome.
#[derive(Debug, PartialEq, Eq, Hash, Drop)]
struct End {
    tells: Vec<Tell>,
    waits: Vec<Option<Waiting>>,
}

/// Outcomes, each once.
#[derive(Drop)]
pub(crate) struct Ends {
    known: IndexSet<End>,
    outcomes: Vec<Outcome>,
}

impl Ends {
    /// No outcomes.
    pub(crate) fn new(alloc: Global) -> Ends
        ensures known { IsEnds result }
        ensures outcomes { result.outcomes.items ≡ [] }
    {
        Ends {
            known: IndexSet::new(alloc),
            outcomes: Vec::new(alloc),
        }
    }

    /// Adds an outcome, unless there is one that tells the same and waits for the same.
    pub(crate) fn add(&mut self, alloc: Global, outcome: Outcome) -> Result<(), NoMemory>
        requires { IsEnds self.old }
        ensures known { OnOk result (IsEnds self.new) }
        ensures adds { OnOk result (AddsOutcome self.old.outcomes.items self.new.outcomes.items outcome) }
    {
        let end = End {
            tells: outcome.tells.clone()?,
            waits: copy_of(alloc, outcome.waits.as_slice())?,
        };
        let (_, is_new) = self.known.insert_full(end)?;
        if is_new {
            self.outcomes.push(outcome)?;
        }
        Ok(())
    }

    /// The outcomes, in the order in which they were found.
    pub(crate) fn into_outcomes(self) -> Vec<Outcome>
        ensures { result.items ≡ self.outcomes.items }
    {
        self.outcomes
    }
}

fn copy_of(alloc: Global, waits: &[Option<Waiting>]) -> Result<Vec<Option<Waiting>>, NoMemory>
    ensures { IfOk result (λ copy. copy.items ≡ waits.now) }
{
    let copy = waits.iter().copied().collect(alloc)?;
    Ok(copy)
}
