//! Conditions.
ghost use Rattle.std.specs.Prelude.{◌≡◌};

use crate::line::Line;
use std::marker::Model;

/// How often runs are to print all lines of a condition: in no order of the turns, in one at least, or in each.
#[derive(Clone, Copy, Debug, PartialEq, Eq)]
pub enum Often {
    Never,
    Sometimes,
    Always,
}

/// A condition: some lines, and how often runs are to print all of them.
#[derive(Debug, Drop)]
pub struct Condition {
    often: Often,
    lines: Vec<Line>,
}

impl Model for Condition {
    ghost use Rattle.gup_conditions.specs.Condition.{ConditionValue};

    ghost Value = { ConditionValue };

    ghost view = { λ c. record { often = c.often; lines = c.lines.items } };
}

impl Condition {
    pub(crate) fn new(often: Often, lines: Vec<Line>) -> Condition
        ensures { result ≡ record { often = often; lines = lines.items } }
    {
        Condition { often, lines }
    }

    /// How often its lines are to be printed.
    pub fn often(&self) -> Often
        ensures { result ≡ self.now.often }
    {
        self.often
    }

    /// The lines.
    pub fn lines(&self) -> &[Line]
        ensures { result.now ≡ self.now.lines }
    {
        self.lines.as_slice()
    }
}
