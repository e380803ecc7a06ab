//! Who does an operation.
ghost use Rattle.std.specs.Prelude.{◌≡◌, ℕ, ◌<◌, Bool, true, false, length, MatchOption};
ghost use Rattle.std.specs.Option.{option_copied};
ghost use Rattle.gup_spec_journal.specs.Place.{doer, doer_of, is_of_process, process_of_op};
ghost use Rattle.gup_script.specs.Limits.{most_processes};

use gup_base::{ActorNo, ProcNo};
use gup_script::{Kind, Op, Script};
use std::marker::Model;

/// Who does an operation: an actor; the process that the operation is of, if it is of one; and how many slots the
/// actor's store has.
#[derive(Debug, Drop)]
pub struct Doer {
    actor: ActorNo,
    process: Option<ProcNo>,
    slots: u16,
}

impl Model for Doer {
    ghost use Rattle.std.specs.Prelude.{is_some, unwrap_or};
    ghost use Rattle.gup_spec_journal.specs.Place.{Doer as Who};
    ghost use Rattle.gup_script.specs.Limits.{most_processes};

    ghost Value = { Who };

    ghost view = { λ d. record { actor = d.actor; of_process = is_some d.process; proc = unwrap_or d.process most_processes; slots = d.slots } };
}

impl Doer {
    /// Who does this operation of the actor, or who the actor is by itself, if there is none. A move and a mirror are of
    /// the process that they name, and any other operation of a thread is of the thread's own. The rest are of none.
    pub fn of(script: &Script, actor: ActorNo, op: Option<&Op>) -> Doer
        requires { actor < length script.now.actors }
        ensures { result ≡ doer_of script.now actor (option_copied op.entry) }
    {
        Doer {
            actor,
            process: named_by(op).or(own_process(script, actor)),
            slots: slots_of(script, actor),
        }
    }

    /// The actor.
    pub fn actor(&self) -> ActorNo
        ensures { result ≡ self.now.actor }
    {
        self.actor
    }

    /// The process that the operation is of. Where it is of none, contracts have the number after the last in its place.
    pub fn process(&self) -> Option<ProcNo>
        ensures { MatchOption result ((self.now.of_process ≡ false) × (self.now.proc ≡ most_processes))
            (λ p. (self.now.of_process ≡ true) × (self.now.proc ≡ p)) }
    {
        self.process
    }

    /// How many slots the actor's store has: none, if it isn't a device.
    pub fn slots(&self) -> u16
        ensures { result ≡ self.now.slots }
    {
        self.slots
    }
}

// The process that the operation names, if it is of that.
fn named_by(op: Option<&Op>) -> Option<ProcNo>
    ensures { MatchOption result ((own : Bool) (n : ℕ) → (is_of_process own (option_copied op.entry) ≡ own) × (process_of_op n (option_copied op.entry) ≡ n))
        (λ p. (own : Bool) (n : ℕ) → (is_of_process own (option_copied op.entry) ≡ true) × (process_of_op n (option_copied op.entry) ≡ p)) }
{
    match op {
        Some(Op::Move { proc, .. } | Op::Mirror { proc, .. }) => Some(*proc),
        _ => None,
    }
}

// The process of the actor, if it is a thread.
fn own_process(script: &Script, actor: ActorNo) -> Option<ProcNo>
    requires { actor < length script.now.actors }
    ensures { MatchOption result (((doer script.now actor).of_process ≡ false) × ((doer script.now actor).proc ≡ most_processes))
        (λ p. ((doer script.now actor).of_process ≡ true) × ((doer script.now actor).proc ≡ p)) }
{
    match script.kind(actor) {
        Kind::Thread(proc) => Some(proc),
        Kind::Device(_) | Kind::Mover => None,
    }
}

// How many slots the actor's store has.
fn slots_of(script: &Script, actor: ActorNo) -> u16
    requires { actor < length script.now.actors }
    ensures { result ≡ (doer script.now actor).slots }
{
    match script.kind(actor) {
        Kind::Device(slots) => slots,
        Kind::Thread(_) | Kind::Mover => 0,
    }
}
