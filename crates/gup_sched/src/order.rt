//! Whose turn the pointer gives.
ghost use Rattle.std.specs.Prelude.{◌≡◌, ℕ, ◌<◌, ◌≤◌, true, IfOk, OnErr, IfSome, length};
ghost use Rattle.gup_spec_journal.specs.Order.{behind};
ghost use Rattle.gup_spec_turns.specs.Run.{RunState, pointed};
ghost use Rattle.gup_core.specs.Machine.{Shows};
ghost use Rattle.gup_core.specs.Waking.{woken_of};
ghost use Rattle.gup_plain.specs.Put.{put};
ghost use Rattle.gup_sched.specs.Awake.{is_awake, AreAsleep, AreAsleepAfter, awake_behind};
ghost use Rattle.gup_sched.specs.Ran.{SaysStuck, FoundTakes};

use crate::awake::Awake;
use gup_base::{ActorNo, NoMemory};
use gup_core::{Advanced, Machine, Woken};
use gup_law_waits::turns_wake_no_others;
use gup_plain::Journal;

/// The actor with this number.
pub(crate) fn actor_no(k: u8) -> ActorNo
    requires { k < 81 }
    ensures { result ≡ k }
{
    ActorNo::new(u64::from(k)).unwrap()
}

/// The actor after this one, in a circle.
pub(crate) fn behind(actors: u8, actor: ActorNo) -> ActorNo
    requires few { actors ≤ 81 }
    requires there { actor < actors }
    ensures next { result ≡ behind actors actor }
    ensures below { result < actors }
{
    let next = actor.get() as u8 + 1;
    if next == actors {
        actor_no(0)
    } else {
        actor_no(next)
    }
}

/// The first actor from the pointer on, in a circle, that can go takes its turn, and its notes are put on at the end. Asked are
/// those that are awake, where those that are asleep can't go. Whoever can't go falls asleep; whom the turn may have woken
/// is awake.
pub(crate) fn next_to_go(
    machine: &mut Machine,
    journal: &mut Journal,
    awake: &mut Awake,
    pointer: ActorNo,
) -> Result<Option<ActorNo>, NoMemory>
    requires all { awake.old.actors ≡ length machine.old.script.actors }
    requires there { 0 < awake.old.actors → pointer < awake.old.actors }
    ensures next { IfOk result (λ found. (r : RunState) → Shows machine.old r
        → AreAsleep machine.old.script r awake.old.actors (is_awake awake.old)
        → found ≡ pointed machine.old.script r awake.old.actors pointer) }
    ensures asleep { IfOk result (λ found. (r : RunState) → Shows machine.old r
        → AreAsleep machine.old.script r awake.old.actors (is_awake awake.old)
        → AreAsleepAfter machine.old.script r awake.old.actors (is_awake awake.new) found) }
    ensures actors { awake.new.actors ≡ awake.old.actors }
    ensures below { IfOk result (λ found. IfSome found (λ actor. actor < awake.old.actors)) }
    ensures turn { IfOk result (FoundTakes machine.old machine.new journal.old journal.new) }
    ensures script { machine.new.script ≡ machine.old.script }
    ensures err { OnErr result (journal.old.room < 3) }
{
    turns_wake_no_others();
    let _actors = machine.script().actors();
    while let Some(actor) = awake.next(pointer) {
        match machine.advance(actor, journal)? {
            Advanced::Moved(woken) => {
                wake(awake, woken);
                return Ok(Some(actor));
            }
            Advanced::Waits(_waiting) => awake.remove(actor),
            Advanced::Finished => awake.remove(actor),
        }
    }
    Ok(None)
}

// Wakes these.
fn wake(awake: &mut Awake, woken: Woken)
    ensures awake { (k : ℕ) → k < awake.old.actors
        → is_awake awake.new k ≡ awake_behind (woken_of woken) awake.old.actors (is_awake awake.old) k }
    ensures actors { awake.new.actors ≡ awake.old.actors }
{
    match woken {
        Woken::Nobody => {}
        Woken::One(actor) => wake_one(awake, actor),
        Woken::Everybody => awake.wake_all(),
    }
}

fn wake_one(awake: &mut Awake, actor: ActorNo)
    ensures awake { (k : ℕ) → k < awake.old.actors → is_awake awake.new k ≡ put actor true (is_awake awake.old) k }
    ensures actors { awake.new.actors ≡ awake.old.actors }
{
    if actor.get() < u64::from(awake.actors()) {
        awake.wake(actor);
    }
}

/// Has an actor operations left?
pub(crate) fn is_stuck(machine: &Machine, actors: u8) -> bool
    requires few { actors ≤ 81 }
    requires all { actors ≡ length machine.now.script.actors }
    ensures { (r : RunState) → Shows machine.now r → SaysStuck result machine.now.script r }
{
    for k in 0..actors {
        if !machine.finished(actor_no(k)) {
            return true;
        }
    }
    false
}
