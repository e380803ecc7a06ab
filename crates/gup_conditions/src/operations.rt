//! The operations whose lines tell outcomes apart.
ghost use Rattle.std.specs.Prelude.{◌≡◌, ◌≤◌, ◌++◌, ◌∷◌, [], length, IfOk, OnOk};
ghost use Rattle.std.specs.List.{All, list_any};
ghost use Rattle.gup_conditions.specs.Condition.{ConditionValue};
ghost use Rattle.gup_conditions.specs.Reading.{AllPrint};
ghost use Rattle.gup_conditions.specs.Named.{named_of, wanted_of, ops_named, is_wanted, is_wanted_by, AreNamed};

use crate::condition::Condition;
use crate::line::Line;
use gup_base::{ActorNo, NoMemory};
use gup_script::{Op, Script};
use gup_spec_orders::Named;
use std::alloc::Global;

/// The operations of which the conditions want lines, actor by actor in the order of the script; all its operations where there are no
/// conditions.
pub fn named(
    alloc: Global,
    script: &Script,
    conditions: &[Condition],
) -> Result<Vec<Named>, NoMemory>
    ensures named { IfOk result (λ named. named.items ≡ named_of script.now conditions.now) }
    ensures wanted { IfOk result (λ named. All (λ (c : ConditionValue). AllPrint script.now c.lines → AreNamed named.items c.lines) conditions.now) }
{
    let mut named = Vec::new(alloc);
    for k in 0..script.actors() {
        let actor = ActorNo::new(u64::from(k)).unwrap();
        push_operations(actor, script.ops(actor), conditions, &mut named)?;
    }
    Ok(named)
}

// Puts on those of the actor, of which there are no more than a script has.
fn push_operations(
    actor: ActorNo,
    ops: &[Op],
    conditions: &[Condition],
    named: &mut Vec<Named>,
) -> Result<(), NoMemory>
    requires { length ops.now ≤ 16384 }
    ensures { OnOk result (named.new.items ≡ named.old.items ++ wanted_of conditions.now (ops_named actor 1 ops.now)) }
{
    let count = ops.len() as u32;
    for k in 0..count {
        push_operation(actor, k + 1, conditions, named)?;
    }
    Ok(())
}

// Puts it on, where a line of it is wanted, or where there are no conditions.
fn push_operation(
    actor: ActorNo,
    op: u32,
    conditions: &[Condition],
    named: &mut Vec<Named>,
) -> Result<(), NoMemory>
    ensures { OnOk result (named.new.items ≡ named.old.items ++ wanted_of conditions.now (record { actor = actor; op = op } ∷ [])) }
{
    if conditions.is_empty() || is_wanted(conditions, actor, op) {
        named.push(Named { actor, op })?;
    }
    Ok(())
}

fn is_wanted(conditions: &[Condition], actor: ActorNo, op: u32) -> bool
    ensures { result ≡ is_wanted conditions.now (record { actor = actor; op = op }) }
{
    conditions
        .iter()
        .any(|condition| has_line_of(condition.lines(), actor, op))
}

fn has_line_of(lines: &[Line], actor: ActorNo, op: u32) -> bool
    ensures { result ≡ list_any (is_wanted_by (record { actor = actor; op = op })) lines.now }
{
    lines.iter().any(|line| line.actor().get() == actor.get() && line.op() == op)
}
