//! The machine of a script, for many processes and actors.
ghost use Rattle.std.specs.Prelude.{◌≡◌, ℕ, ◌<◌, List, [], length, IfOk, OnOk, OnErr};
ghost use Rattle.gup_space.specs.Space.{space_of};
ghost use Rattle.gup_space.specs.Shows.{ShowsSpace};
ghost use Rattle.gup_spec_events.specs.Growth.{free_tables};
ghost use Rattle.gup_spec_journal.specs.Place.{has_finished};
ghost use Rattle.gup_spec_turns.specs.Run.{RunState, waiting_in};
ghost use Rattle.gup_core.specs.Machine.{MachineValue, Shows, TakesTurns, IsNew, free_frames_in};
ghost use Rattle.gup_core.specs.Images.{IsImage, imaged};
ghost use Rattle.gup_image.specs.Alike.{image_in};
ghost use Rattle.gup_image.specs.declared.fact.Fact.{Fact as FactValue};
ghost use Rattle.gup_script.specs.Valid.{IsScript};
ghost use Rattle.gup_core.specs.Going.{Advances, WritesTurn};

use crate::inner::Inner;
use crate::outcome::Advanced;
use crate::turn::Turn;
use gup_base::{ActorNo, NoMemory, ProcNo, Zone};
use gup_image::{
    KeptFact, images_are_exact as facts_are_exact, images_are_of_states as facts_are_of_states,
};
use gup_law_turns::reached_states_stand;
use gup_plain::{Journal, Waiting};
use gup_script::Script;
use gup_space::Space;
use std::alloc::Global;
use std::marker::Model;

/// The machine of a script between two turns: frames, processes, pins, stores and mirror slots, and where each actor stands.
#[derive(Drop)]
pub struct Machine {
    inner: Inner,
    // The notes of the turn that `turn` answered last, and room for those of one.
    told: Journal,
}

impl Model for Machine {
    ghost use Rattle.std.specs.Prelude.{◌≤◌, ◌+◌, length};
    ghost use Rattle.gup_core.specs.Machine.{MachineValue};

    ghost Value = { MachineValue };

    ghost view = { λ m. m.inner };

    ghost invariant = { λ m. 3 ≤ length m.told.notes + m.told.room };
}

impl Machine {
    /// A machine at the start of the script: all frames are free, and nothing is mapped. It has the memory for all that
    /// comes, and a copy of the script: later calls take no memory but for the notes of a journal.
    pub fn new(alloc: Global, script: &Script) -> Result<Machine, NoMemory>
        ensures { IfOk result (IsNew script.now) }
    {
        let script = script.copy()?;
        Machine::of(alloc, script)
    }

    /// The same machine of a script that it keeps.
    pub fn of(alloc: Global, script: Script) -> Result<Machine, NoMemory>
        ensures { IfOk result (IsNew script) }
    {
        let inner = Inner::of(alloc, script)?;
        let mut told = Journal::new(alloc);
        told.reserve(3)?;
        Ok(Machine { inner, told })
    }

    /// The script.
    pub fn script(&self) -> &Script
        ensures { result.now ≡ self.now.script }
    {
        self.inner.script()
    }

    /// Takes the actor's turn, and answers its notes: one to three. The turn of an actor that has finished is idle, and
    /// one that waits says for what; neither changes anything. An operation of a thread of a failed process is refused
    /// at once, and the child of a fork fails too. The number of the turn stays at 2^32 - 1 once it is there.
    pub fn turn(&mut self, actor: ActorNo) -> Turn
        requires { actor < length self.old.script.actors }
        ensures turn { TakesTurns self.old self.new actor result }
        ensures script { self.new.script ≡ self.old.script }
    {
        self.told.clear();
        self.inner.take_turn(actor, &mut self.told);
        Turn::of(self.told.notes())
    }

    /// Takes the actor's turn if it can go, and puts its one to three notes on at the journal's end. Where the actor waits
    /// or has finished, this says so, and nothing changes. Room for three notes is made first: if there is no memory for
    /// it, the machine and the notes stay as they were.
    pub fn advance(&mut self, actor: ActorNo, journal: &mut Journal) -> Result<Advanced, NoMemory>
        requires { actor < length self.old.script.actors }
        ensures advances { IfOk result (Advances self.old self.new journal.old journal.new actor) }
        ensures script { self.new.script ≡ self.old.script }
        ensures err { OnErr result ((self.new ≡ self.old) × (journal.new.notes ≡ journal.old.notes) × (journal.old.room < 3)) }
    {
        journal.reserve(3)?;
        Ok(self.inner.go(actor, journal))
    }

    /// Takes the actor's turn also where it waits or has finished, as `turn` does, and puts its notes on at the journal's
    /// end. If there is no memory for them, the machine and the notes stay as they were.
    pub fn write_turn(&mut self, actor: ActorNo, journal: &mut Journal) -> Result<(), NoMemory>
        requires { actor < length self.old.script.actors }
        ensures turn { OnOk result (WritesTurn self.old self.new journal.old journal.new actor) }
        ensures script { self.new.script ≡ self.old.script }
        ensures err { OnErr result ((self.new ≡ self.old) × (journal.new.notes ≡ journal.old.notes) × (journal.old.room < 3)) }
    {
        journal.reserve(3)?;
        self.inner.take_turn(actor, journal);
        Ok(())
    }

    /// What the actor waits for before its next turn, if it waits: that its process is born, or else that the pin is given
    /// to it which it is to take, or else for another actor that holds a lock of the process which the turn needs, first
    /// the structure lock, then the table lock. A thread of a failed process waits for nothing.
    pub fn waits(&self, actor: ActorNo) -> Option<Waiting>
        requires { actor < length self.now.script.actors }
        ensures { (r : RunState) → Shows self.now r → result ≡ waiting_in self.now.script r actor }
    {
        self.inner.waits(actor)
    }

    /// Whether the actor has answered all its operations.
    pub fn finished(&self, actor: ActorNo) -> bool
        requires { actor < length self.now.script.actors }
        ensures { (r : RunState) → Shows self.now r → result ≡ has_finished self.now.script actor (r.places actor) }
    {
        self.inner.finished(actor)
    }

    /// How many turns are over. The count stays at the last value of a `u32`; the turns of a script's run are fewer.
    pub fn turns(&self) -> u32
        ensures { result ≡ self.now.turns }
    {
        self.inner.turns()
    }

    /// The image of the machine: the facts of all that its next turns rest on, but not how many turns are over. Machines of one
    /// script have the same image exactly where they show the same states ([`images_are_exact`], [`images_are_of_states`]).
    pub fn image(&self, alloc: Global) -> Result<Vec<KeptFact>, NoMemory>
        ensures { IfOk result (λ facts. IsImage self.now facts.items) }
    {
        self.inner.image(alloc)
    }

    /// A law: the machine has an image, whether it is made or not.
    pub fn has_image(&self)
        ensures { (facts : List FactValue) → facts ≡ image_in (imaged self.now) → IsImage self.now facts }
    {
        self.inner.has_image();
    }

    /// The declared process, with its mappings, page tables, entries, locks and walks, as the states that the machine shows have it.
    pub fn space(&self, proc: ProcNo) -> &Space
        requires { proc < length self.now.script.processes }
        ensures { (r : RunState) → Shows self.now r → ShowsSpace proc (space_of result.now) r.core }
    {
        self.inner.space(proc)
    }

    /// How many frames of the zone are free.
    pub fn free_frames(&self, zone: Zone) -> u32
        ensures { (r : RunState) → Shows self.now r → result ≡ free_frames_in r.core zone }
    {
        self.inner.free_frames(zone)
    }

    /// How many page tables are free. One that a process has taken out is not, while a lockless walk of the process that may be
    /// inside of it keeps it back.
    pub fn free_tables(&self) -> u32
        ensures { (r : RunState) → Shows self.now r → result ≡ free_tables r.core }
    {
        self.inner.free_tables()
    }
}

/// A law: machines of one script that have the same image show the same states. So a turn leads both to the same states
/// ([`Machine::turn`]).
pub fn images_are_exact()
    ensures { (m n : MachineValue) (facts : List FactValue) (r : RunState) → m.script ≡ n.script → IsImage m facts → IsImage n facts → Shows n r → Shows m r }
{
    facts_are_exact();
}

/// A law: machines of one script that show the same state have the same image.
pub fn images_are_of_states()
    ensures { (m n : MachineValue) (a b : List FactValue) (r : RunState) → IsScript m.script → m.script ≡ n.script → IsImage m a → IsImage n b
        → Shows m r → Shows n r → a ≡ b }
{
    facts_are_of_states();
    reached_states_stand();
}
