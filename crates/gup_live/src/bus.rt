//! What the threads share under one lock: the machine, and which turns it has taken.
ghost use Rattle.std.specs.Prelude.{◌≡◌, ◌<◌, ◌↔◌, [], false, length, IfOk, IsTrue};
ghost use Rattle.gup_script.specs.Script.{ScriptValue};
ghost use Rattle.gup_spec_orders.specs.Orders.{Goes, journal_in};
ghost use Rattle.gup_spec_turns.specs.Cause.{HaveFinished};
ghost use Rattle.gup_spec_turns.specs.Run.{run_start, turned};
ghost use Rattle.gup_core.specs.Machine.{Shows};
ghost use Rattle.gup_live.specs.Bus.{ends_in_answer};
ghost use Rattle.gup_live.specs.Steps.{Steps};

use gup_base::{ActorNo, NoMemory};
use gup_core::{Advanced, Machine};
use gup_law_costs::{costs_are_few, turns_are_spent};
use gup_law_turns::reached_states_stand;
use gup_plain::{Journal, Note, What};
use gup_script::Script;
use std::alloc::Global;
use std::marker::{Brand, Model, PhantomData};

/// Names the script of a bus, in the type of the bus: so what a lock gives back is known to be of that script.
pub trait Naming {
    ghost script: { ScriptValue };
}

impl Naming for Brand {
    ghost use Rattle.gup_live.specs.Bus.{no_script};

    ghost script = { no_script };
}

/// What came of asking an actor for its turn.
#[derive(Clone, Copy, Debug, PartialEq, Eq)]
pub enum Stepped {
    /// It has taken its turn, and its operation goes on.
    Moved,
    /// It has taken its turn, which has answered its operation.
    Answered,
    /// It waits, and nothing has changed.
    Waits,
    /// It has answered all its operations, and nothing has changed.
    Finished,
    /// There is no memory for the notes of a turn: nothing has changed, and nobody takes a turn any more.
    NoRoom,
}

/// A machine, the actors that have taken its turns, in order, and the notes of these turns. Whoever holds the lock of a bus finds
/// all three agree: the machine shows where these turns lead from the start of the script that `J` names, each actor could go when it
/// was its turn, and the notes are theirs.
#[derive(Drop)]
pub struct Bus<J: Naming> {
    machine: Machine,
    turns: Vec<ActorNo>,
    journal: Journal,
    no_room: bool,
    of: PhantomData<J>,
}

impl<J: Naming> Model for Bus<J> {
    ghost use Rattle.gup_live.specs.Bus.{BusValue, IsBus};

    ghost Value = { BusValue };

    ghost view = { λ b. record { machine = b.machine; order = b.turns.items; notes = b.journal.notes; no_room = b.no_room } };

    ghost invariant = { λ b. IsBus J.script b.machine b.turns.items b.journal.notes };
}

impl<J: Naming> Bus<J> {
    /// A bus at the start of the script. It has the memory for all but its turns and their notes.
    pub fn new(alloc: Global, script: &Script) -> Result<Self, NoMemory>
        requires { script.now ≡ J.script }
        ensures order { IfOk result (λ bus. bus.order ≡ []) }
        ensures room { IfOk result (λ bus. bus.no_room ≡ false) }
    {
        let _actors = script.actors();
        Ok(Bus {
            machine: Machine::new(alloc, script)?,
            turns: Vec::new(alloc),
            journal: Journal::new(alloc),
            no_room: false,
            of: PhantomData,
        })
    }

    /// The actor takes its turn, if it can go. Room for the turn and its notes is made first; where there is no memory for it, this and
    /// all later calls answer [`Stepped::NoRoom`].
    pub fn step(&mut self, actor: ActorNo) -> Stepped
        requires { actor < length J.script.actors }
        ensures { Steps J.script self.old self.new actor result }
    {
        turns_are_spent();
        costs_are_few();
        reached_states_stand();
        if self.no_room || self.turns.reserve(1).is_err() {
            self.no_room = true;
            return Stepped::NoRoom;
        }
        match self.machine.advance(actor, &mut self.journal) {
            Ok(Advanced::Moved(_woken)) => {
                self.turns.push_reserved(actor);
                if ends_in_answer(self.journal.notes()) {
                    Stepped::Answered
                } else {
                    Stepped::Moved
                }
            }
            Ok(Advanced::Waits(_waiting)) => Stepped::Waits,
            Ok(Advanced::Finished) => Stepped::Finished,
            Err(NoMemory) => {
                self.no_room = true;
                Stepped::NoRoom
            }
        }
    }

    /// Whether memory was wanted for a turn.
    pub fn no_room(&self) -> bool
        ensures { result ≡ self.now.no_room }
    {
        self.no_room
    }

    /// The machine, which shows where the turns lead.
    pub fn machine(&self) -> &Machine
        ensures machine { result.now ≡ self.now.machine }
        ensures script { self.now.machine.script ≡ J.script }
        ensures shown { Shows self.now.machine (turned J.script (run_start J.script) self.now.order) }
    {
        &self.machine
    }

    /// Who has taken turns, in order: each could go when it was its turn.
    pub fn order(&self) -> &[ActorNo]
        ensures order { result.now ≡ self.now.order }
        ensures goes { Goes J.script (run_start J.script) self.now.order }
    {
        self.turns.as_slice()
    }

    /// The notes of the turns, which are numbered from 1.
    pub fn notes(&self) -> &[Note]
        ensures notes { result.now ≡ self.now.notes }
        ensures told { self.now.notes ≡ journal_in J.script self.now.order }
    {
        self.journal.notes()
    }

    /// Whether each actor has answered all its operations.
    pub fn have_finished(&self) -> bool
        ensures { IsTrue result ↔ HaveFinished J.script (turned J.script (run_start J.script) self.now.order) }
    {
        for k in 0..self.machine.script().actors() {
            if !self.machine.finished(actor_no(k)) {
                return false;
            }
        }
        true
    }

    /// Lets the machine go, and gives the turns and their notes.
    pub(crate) fn into_turns(self) -> (Vec<ActorNo>, Journal)
        ensures order { result.0.items ≡ self.order }
        ensures notes { result.1.notes ≡ self.notes }
        ensures goes { Goes J.script (run_start J.script) self.order }
        ensures told { self.notes ≡ journal_in J.script self.order }
    {
        let Bus { turns, journal, .. } = self;
        (turns, journal)
    }
}

/// The actor with this number.
pub(crate) fn actor_no(k: u8) -> ActorNo
    requires { k < 81 }
    ensures { result ≡ k }
{
    ActorNo::new(u64::from(k)).unwrap()
}

// Whether the last note answers an operation.
fn ends_in_answer(notes: &[Note]) -> bool
    ensures { result ≡ ends_in_answer notes.now }
{
    match notes.last() {
        Some(note) => matches!(note.what(), What::Done(_)),
        None => false,
    }
}
