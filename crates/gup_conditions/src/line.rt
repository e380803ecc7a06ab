//! Lines that a run prints.
ghost use Rattle.std.specs.Prelude.{◌≡◌, List, ℕ, IfOk};
ghost use Rattle.gup_lines.specs.Text.{answer_text};
ghost use Rattle.gup_conditions.specs.Line.{is_same, has_line, has_all};

use gup_base::{ActorNo, NoMemory};
use gup_lines::push_answer;
use gup_plain::Answer;
use std::alloc::Global;
use std::marker::Model;

/// A line that a run prints: the actor and the number of its operation, from 1, and the text of the answer, which is what `gup run`
/// prints behind the two, without a line feed.
#[derive(Debug, Drop)]
pub struct Line {
    actor: ActorNo,
    op: u32,
    text: Vec<u8>,
}

impl Model for Line {
    ghost use Rattle.gup_conditions.specs.Line.{LineValue};

    ghost Value = { LineValue };

    ghost view = { λ l. record { actor = l.actor; op = l.op; text = l.text.items } };
}

impl Line {
    /// The line of this operation of the actor with this text.
    pub fn new(alloc: Global, actor: ActorNo, op: u32, text: &str) -> Result<Line, NoMemory>
        ensures { IfOk result (λ line. line ≡ record { actor = actor; op = op; text = text.now }) }
    {
        let mut copy = Vec::new(alloc);
        copy.extend_from_slice(text.as_bytes())?;
        Ok(Line {
            actor,
            op,
            text: copy,
        })
    }

    /// The line of an answer; the words are those that a transfer has moved.
    pub fn of_answer(
        alloc: Global,
        actor: ActorNo,
        op: u32,
        answer: Answer,
        words: &[u64],
    ) -> Result<Line, NoMemory>
        ensures { IfOk result (λ line. line ≡ record { actor = actor; op = op; text = answer_text answer words.now }) }
    {
        let mut text = Vec::new(alloc);
        push_answer(&mut text, answer, words)?;
        Ok(Line { actor, op, text })
    }

    /// The actor.
    pub fn actor(&self) -> ActorNo
        ensures { result ≡ self.now.actor }
    {
        self.actor
    }

    /// The number of its operation, from 1.
    pub fn op(&self) -> u32
        ensures { result ≡ self.now.op }
    {
        self.op
    }

    /// The text of the answer.
    pub fn text(&self) -> &[u8]
        ensures { result.now ≡ self.now.text }
    {
        self.text.as_slice()
    }

    /// An equal line, in memory of its own.
    pub fn copy(&self, alloc: Global) -> Result<Line, NoMemory>
        ensures { IfOk result (λ line. line ≡ self.now) }
    {
        let mut text = Vec::new(alloc);
        text.extend_from_slice(self.text.as_slice())?;
        Ok(Line {
            actor: self.actor,
            op: self.op,
            text,
        })
    }

    /// Whether they are the same.
    pub fn is(&self, other: &Line) -> bool
        ensures { result ≡ is_same self.now other.now }
    {
        self.actor.get() == other.actor.get()
            && self.op == other.op
            && self.text.as_slice() == other.text.as_slice()
    }
}

/// Whether the line is among these.
pub fn has_line(lines: &[Line], line: &Line) -> bool
    ensures { result ≡ has_line lines.now line.now }
{
    lines.iter().any(|other| line.is(other))
}

/// Whether all that are wanted are among these.
pub(crate) fn has_all(lines: &[Line], wanted: &[Line]) -> bool
    ensures { result ≡ has_all lines.now wanted.now }
{
    wanted.iter().all(|line| has_line(lines, line))
}
