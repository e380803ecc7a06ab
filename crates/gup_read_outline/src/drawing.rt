//! Written turns of one actor in a row, and of actors that a generator draws.
ghost use Rattle.std.specs.Prelude.{◌≡◌, ◌<◌, ◌≤◌, ◌++◌, replicate, OnOk};
ghost use Rattle.gup_spec_grammar.specs.Outline.{next_state, drawn, draws};

use gup_base::ActorNo;
use std::alloc::AllocError;

const MULTIPLIER: u64 = 6_364_136_223_846_793_005;

const INCREMENT: u64 = 1_442_695_040_888_963_407;

/// So many more turns of the actor.
pub fn push_times(turns: &mut Vec<ActorNo>, actor: ActorNo, times: u32) -> Result<(), AllocError>
    ensures { OnOk result (turns.new.items ≡ turns.old.items ++ replicate times actor) }
{
    turns.reserve(times as usize)?;
    for _ in 0..times {
        turns.push_reserved(actor);
    }
    Ok(())
}

/// The generator's state after this one.
fn next_state(x: u64) -> u64
    ensures { result ≡ next_state x }
{
    x.wrapping_mul(MULTIPLIER).wrapping_add(INCREMENT)
}

/// The number below `below` that is drawn from the state's high bits.
fn drawn(below: u64, x: u64) -> u64
    requires { 0 < below }
    ensures number { result ≡ drawn below x }
    ensures below { result < below }
{
    (x >> 33) % below
}

/// So many more turns of actors with numbers below `below`, drawn from this start on.
pub fn push_drawn(
    turns: &mut Vec<ActorNo>,
    below: u64,
    start: u64,
    count: u64,
) -> Result<(), AllocError>
    requires some { 0 < count → 0 < below }
    requires few { below ≤ 81 }
    ensures { OnOk result (turns.new.items ≡ turns.old.items ++ draws count below start) }
{
    turns.reserve(count as usize)?;
    let mut x = start;
    for _ in 0..count {
        x = next_state(x);
        let actor = ActorNo::new(drawn(below, x)).unwrap();
        turns.push_reserved(actor);
    }
    Ok(())
}
