//! What threads have come to.
ghost use Rattle.std.specs.Prelude.{◌≡◌};

use gup_base::ActorNo;
use gup_lines::{Outcome, Outcomes};
use gup_plain::{Journal, Note};
use std::marker::Model;

/// What the actors of a script have come to on threads of their own: who took turns, in order, what happened, and the answers, actor by
/// actor.
#[derive(Debug, Drop)]
pub struct Live {
    turns: Vec<ActorNo>,
    journal: Journal,
    outcomes: Outcomes,
}

impl Model for Live {
    ghost use Rattle.gup_live.specs.Live.{LiveValue};

    ghost Value = { LiveValue };

    ghost view = { λ l. record { order = l.turns.items; notes = l.journal.notes; answers = l.outcomes } };
}

impl Live {
    pub(crate) fn of(turns: Vec<ActorNo>, journal: Journal, outcomes: Outcomes) -> Self
        ensures { result ≡ record { order = turns.items; notes = journal.notes; answers = outcomes } }
    {
        Live {
            turns,
            journal,
            outcomes,
        }
    }

    /// Who took turns, in order. Written as the turns of the script they give the same run.
    pub fn order(&self) -> &[ActorNo]
        ensures { result.now ≡ self.now.order }
    {
        self.turns.as_slice()
    }

    /// The notes of these turns, which are numbered from 1.
    pub fn notes(&self) -> &[Note]
        ensures { result.now ≡ self.now.notes }
    {
        self.journal.notes()
    }

    /// The answers, actor by actor, each actor's in order.
    pub fn outcomes(&self) -> &[Outcome]
        ensures { result.now ≡ self.now.answers }
    {
        self.outcomes.all()
    }
}
