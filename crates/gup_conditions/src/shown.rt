//! Outcomes as they are printed.
ghost use Rattle.std.specs.Prelude.{◌≡◌, ◌++◌, ◌∷◌, [], List, map, IfOk, OnOk};
ghost use Rattle.gup_spec_orders.specs.Orders.{tells_of};
ghost use Rattle.gup_spec_orders.specs.Printed.{lines_from, lines_told};
ghost use Rattle.gup_conditions.specs.Line.{line_of_answer};

use crate::line::Line;
use gup_base::{ActorNo, NoMemory};
use gup_plain::Waiting;
use gup_spec_orders::{Named, Outcome, Tell, Told};
use std::alloc::Global;

/// An outcome as it is printed: the lines of the named operations, operation by operation; what each actor waits for at the end; and an
/// order that comes to it.
#[derive(Debug, Drop)]
pub struct Shown {
    pub lines: Vec<Line>,
    pub waits: Vec<Option<Waiting>>,
    pub path: Vec<ActorNo>,
}

impl Shown {
    /// What an outcome shows of the named operations that it tells of.
    pub fn of(alloc: Global, named: &[Named], outcome: Outcome) -> Result<Shown, NoMemory>
        ensures lines { IfOk result (λ shown. shown.lines.items ≡ map line_of_answer (lines_told named.now outcome.tells.items)) }
        ensures waits { IfOk result (λ shown. shown.waits ≡ outcome.waits) }
        ensures path { IfOk result (λ shown. shown.path ≡ outcome.path) }
    {
        let mut lines = Vec::new(alloc);
        for (k, operation) in named.iter().enumerate() {
            push_lines_of(alloc, operation, k, outcome.tells.as_slice(), &mut lines)?;
        }
        Ok(Shown {
            lines,
            waits: outcome.waits,
            path: outcome.path,
        })
    }
}

// Puts on the lines of the operation at this place among those that are named.
fn push_lines_of(
    alloc: Global,
    operation: &Named,
    name: usize,
    tells: &[Tell],
    lines: &mut Vec<Line>,
) -> Result<(), NoMemory>
    ensures { OnOk result (lines.new.items ≡ lines.old.items ++ map line_of_answer (lines_from operation.now [] (tells_of tells.now name))) }
{
    let mut words = Vec::new(alloc);
    for tell in tells {
        if tell.name == name {
            push_told(alloc, operation, tell.told, &mut words, lines)?;
        }
    }
    Ok(())
}

// Puts on the line that an answer ends; a word is kept for it.
fn push_told(
    alloc: Global,
    operation: &Named,
    told: Told,
    words: &mut Vec<u64>,
    lines: &mut Vec<Line>,
) -> Result<(), NoMemory>
    ensures { OnOk result ((rest : List Told) → lines.old.items ++ map line_of_answer (lines_from operation.now words.old.items (told ∷ rest))
        ≡ lines.new.items ++ map line_of_answer (lines_from operation.now words.new.items rest)) }
{
    match told {
        Told::Word(word) => words.push(word)?,
        Told::Answer(answer) => {
            let line = Line::of_answer(
                alloc,
                operation.actor,
                operation.op,
                answer,
                words.as_slice(),
            )?;
            lines.push(line)?;
            words.clear();
        }
    }
    Ok(())
}
