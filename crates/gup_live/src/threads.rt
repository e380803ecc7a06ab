//! The threads, and what they leave.
ghost use Rattle.std.specs.Prelude.{◌≡◌, ◌<◌, length, IfOk, OnOk};
ghost use Rattle.gup_spec_turns.specs.Cause.{HaveFinished};
ghost use Rattle.gup_spec_turns.specs.Run.{run_start, turned};
ghost use Rattle.gup_live.specs.Live.{IsLive};

use crate::bus::{Bus, Naming, Stepped, actor_no};
use crate::outcome::Live;
use crossbeam_utils::Backoff;
use gup_base::{ActorNo, NoMemory};
use gup_io::Pace;
use gup_lines::outcomes;
use gup_script::Script;
use std::alloc::Global;
use std::marker::{Brand, Send, Sync};
use std::sync::{Mutex, Wait};
use std::thread;
use std::thread::Threads;

/// The most actors that a script has.
const MOST_ACTORS: usize = 81;

/// Runs the actors of the script side by side, each on a thread of its own, as far as threads can be made. Each takes its own turns of
/// one machine, under one lock; one that waits leaves the lock, and tries again. `pace` is called by an actor's thread before the
/// first turn of each of its operations, without the lock. Which actor goes first is nobody's choice: the written turns of the script
/// are not read.
///
/// The answer is what the actors have come to, once all have answered their operations. A script that can get stuck may never return,
/// nor may one whose actors wait for each other where no thread can be made. If memory runs out for the turns or their notes, no
/// actor takes a turn any more.
pub fn live<R: Threads + Wait + Sync, P: Pace + Sync>(
    rt: &R,
    alloc: Global,
    script: &Script,
    pace: &P,
) -> Result<Live, NoMemory>
    ensures { IfOk result (IsLive script.now) }
{
    live_as::<Brand, R, P>(rt, alloc, script, pace)
}

// The same of a script that has a name.
fn live_as<J: Naming + Send + Sync, R: Threads + Wait + Sync, P: Pace + Sync>(
    rt: &R,
    alloc: Global,
    script: &Script,
    pace: &P,
) -> Result<Live, NoMemory>
    requires { script.now ≡ J.script }
    ensures { IfOk result (IsLive J.script) }
{
    let bus = Mutex::new(Bus::<J>::new(alloc, script)?);
    run_actors(rt, &bus, script, pace);
    let mut bus = bus.into_inner();
    finish(rt, &mut bus)?;
    tell(alloc, bus, script)
}

// Runs each actor on a thread of its own.
fn run_actors<J: Naming + Send + Sync, R: Threads + Wait + Sync, P: Pace + Sync>(
    rt: &R,
    bus: &Mutex<Bus<J>>,
    script: &Script,
    pace: &P,
)
    requires { script.now ≡ J.script }
{
    let actors = script.actors() as usize;
    let mut seats = [false; MOST_ACTORS];
    thread::for_each_mut(
        rt,
        &mut seats[..actors],
        MOST_ACTORS,
        &|k, _seat|
            requires { (script.now ≡ J.script) × (k < length script.now.actors) × (k < 81) }
        { run_actor(rt, bus, script, actor_no(k as u8), pace) },
    );
}

// Takes the actor's turns until it has answered its operations, or memory is wanted.
fn run_actor<J: Naming, R: Wait, P: Pace>(
    rt: &R,
    bus: &Mutex<Bus<J>>,
    script: &Script,
    actor: ActorNo,
    pace: &P,
)
    requires script { script.now ≡ J.script }
    requires actor { actor < length script.now.actors }
{
    let _actors = script.actors();
    let operations = script.ops(actor).len() as u32;
    for op in 0..operations {
        pace.before(actor, op + 1);
        if !run_operation(rt, bus, actor) {
            break;
        }
    }
}

// Takes the actor's turns until its operation is answered. Else it has finished, or memory is wanted.
fn run_operation<J: Naming, R: Wait>(rt: &R, bus: &Mutex<Bus<J>>, actor: ActorNo) -> bool
    requires { actor < length J.script.actors }
{
    let backoff = Backoff::new();
    for _ in rt.forever() {
        let stepped = bus.lock(rt).step(actor);
        match stepped {
            Stepped::Answered => return true,
            Stepped::Moved => backoff.reset(),
            Stepped::Waits => backoff.snooze(),
            Stepped::Finished | Stepped::NoRoom => return false,
        }
    }
    unreachable!()
}

// Does what the threads have left undone: each actor that can go takes a turn, one after another, until all have finished.
fn finish<J: Naming, R: Wait>(rt: &R, bus: &mut Bus<J>) -> Result<(), NoMemory>
    ensures { OnOk result (HaveFinished J.script (turned J.script (run_start J.script) bus.new.order)) }
{
    for _ in rt.forever() {
        if bus.no_room() {
            return Err(NoMemory);
        }
        if bus.have_finished() {
            return Ok(());
        }
        for k in 0..bus.machine().script().actors() {
            bus.step(actor_no(k));
        }
    }
    unreachable!()
}

// What the actors have come to.
fn tell<J: Naming>(alloc: Global, bus: Bus<J>, script: &Script) -> Result<Live, NoMemory>
    requires finished { HaveFinished J.script (turned J.script (run_start J.script) bus.order) }
    ensures { IfOk result (IsLive J.script) }
{
    let (turns, journal) = bus.into_turns();
    let mut told = outcomes(alloc, script, &journal)?;
    told.sort_by_actor()?;
    Ok(Live::of(turns, journal, told))
}
