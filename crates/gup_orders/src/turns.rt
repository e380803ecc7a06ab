//! Orders as the words of a `turns` line.
ghost use Rattle.std.specs.Prelude.{◌≡◌, ◌++◌, ◌<◌, ◌≤◌, ◌+◌, ◌^◌, List, IfOk, OnOk, reverse};
ghost use Rattle.std.specs.List.{All};
ghost use Rattle.gup_script.specs.Script.{actor_at};
ghost use Rattle.gup_lines.specs.Text.{name_in};
ghost use Rattle.gup_orders.specs.declared.turns.Repeat.{Repeat as RepeatValue};
ghost use Rattle.gup_orders.specs.Turns.{repeats, before_all, repeat_text, times_text, turns_text};

use gup_base::{ActorNo, NoMemory};
use gup_lines::push_text;
use gup_script::Script;
use itoa::Buffer;
use std::alloc::Global;

/// So many turns of an actor, one after another.
#[derive(Clone, Copy, Debug)]
pub struct Repeat {
    pub actor: ActorNo,
    pub times: usize,
}

/// Appends the order as a `turns` line without its line feed: its actors' names, each with how often it has a turn, if more than once.
pub fn push_turns(
    alloc: Global,
    script: &Script,
    order: &[ActorNo],
    text: &mut Vec<u8>,
) -> Result<(), NoMemory>
    ensures { OnOk result (text.new.items ≡ text.old.items ++ turns_text script.now order.now) }
{
    let back = repeats_back(alloc, order)?;
    push_text(text, "turns")?;
    for k in 0..back.len() {
        push_repeat(script, &back[back.len() - 1 - k], text)?;
    }
    Ok(())
}

// The turns of an order, those of one actor one after another taken together, from the last to the first.
fn repeats_back(alloc: Global, order: &[ActorNo]) -> Result<Vec<Repeat>, NoMemory>
    ensures { IfOk result (λ back. back.items ≡ reverse (repeats order.now)) }
{
    let mut back = Vec::new(alloc);
    for k in 0..order.len() {
        put_before(order[order.len() - 1 - k], k, &mut back)?;
    }
    Ok(back)
}

// Puts a turn of the actor before these, of which none is had more often than so many times.
fn put_before(actor: ActorNo, most: usize, back: &mut Vec<Repeat>) -> Result<(), NoMemory>
    requires few { most < 2 ^ 63 }
    requires most { All (λ (r : RepeatValue). r.times ≤ most) back.old.items }
    ensures most { OnOk result (All (λ (r : RepeatValue). r.times ≤ most + 1) back.new.items) }
    ensures put { OnOk result ((these : List RepeatValue) → back.old.items ≡ reverse these → back.new.items ≡ reverse (before_all actor these)) }
{
    let count = back.len();
    if count > 0 && back[count - 1].actor.get() == actor.get() {
        back[count - 1].times += 1;
    } else {
        back.push(Repeat { actor, times: 1 })?;
    }
    Ok(())
}

fn push_repeat(script: &Script, repeat: &Repeat, text: &mut Vec<u8>) -> Result<(), NoMemory>
    ensures { OnOk result (text.new.items ≡ text.old.items ++ repeat_text script.now repeat.now) }
{
    push_text(text, " ")?;
    push_text(text, name_of(script, repeat.actor))?;
    push_times(repeat.times, text)
}

fn push_times(times: usize, text: &mut Vec<u8>) -> Result<(), NoMemory>
    ensures { OnOk result (text.new.items ≡ text.old.items ++ times_text times) }
{
    if times == 1 {
        return Ok(());
    }
    let mut number = Buffer::new();
    push_text(text, "*")?;
    push_text(text, number.format(times as u64))
}

/// The actor's name; nothing where no such actor is declared.
pub fn name_of(script: &Script, actor: ActorNo) -> &str
    ensures { result.now ≡ name_in (actor_at script.now actor) }
{
    if actor.get() < u64::from(script.actors()) {
        script.name_of(actor)
    } else {
        ""
    }
}
