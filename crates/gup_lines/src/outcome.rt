//! The answers of a run.
ghost use Rattle.std.specs.Prelude.{◌≡◌, OnOk, OnErr};
ghost use Rattle.std.specs.List.Sorted.{IsNonDecreasingBy, IsStableByKey};
ghost use Rattle.std.specs.Ordering.{nat_cmp};

use gup_base::{ActorNo, NoMemory, Words};
use gup_plain::Answer;
use std::marker::Model;

/// An answer: whose, of which operation, and the words that a transfer moved.
#[derive(Debug, Drop)]
pub struct Outcome {
    pub actor: ActorNo,
    pub op: u32,
    pub answer: Answer,
    pub words: Words,
}

/// The answers of a journal, in order.
#[derive(Debug, Drop)]
pub struct Outcomes {
    outcomes: Vec<Outcome>,
}

impl Model for Outcomes {
    ghost use Rattle.std.specs.Prelude.{List};
    ghost use Rattle.gup_lines.specs.declared.outcome.Outcome.{Outcome};

    ghost Value = { List Outcome };

    ghost view = { λ o. o.outcomes.items };
}

impl Outcomes {
    pub(crate) fn of(outcomes: Vec<Outcome>) -> Self
        ensures { result ≡ outcomes.items }
    {
        Outcomes { outcomes }
    }

    pub fn all(&self) -> &[Outcome]
        ensures { result.now ≡ self.now }
    {
        self.outcomes.as_slice()
    }

    /// Sorts the answers by actor; those of one actor stay in their order. If allocation fails all stay where they were.
    pub fn sort_by_actor(&mut self) -> Result<(), NoMemory>
        ensures sorted { OnOk result (IsNonDecreasingBy (λ outcome. outcome.actor) self.new) }
        ensures stable { IsStableByKey (λ outcome. outcome.actor) nat_cmp self.old self.new }
        ensures err { OnErr result (self.new ≡ self.old) }
    {
        self.outcomes.sort_by_key(|outcome| outcome.actor.get())?;
        Ok(())
    }
}
