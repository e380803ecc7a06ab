//! The machine but for what it keeps of notes: its script and parts, the mirror slots, and where each actor stands.
ghost use Rattle.std.specs.Prelude.{◌≡◌, ℕ, ◌+◌, ◌<◌, ◌≤◌, List, [], ◌∷◌, length, slice_get, Some, IfOk, IsTrue, false};
ghost use Rattle.gup_space.specs.Space.{space_of};
ghost use Rattle.gup_space.specs.Shows.{ShowsSpace};
ghost use Rattle.gup_spec_journal.specs.Place.{has_finished};
ghost use Rattle.gup_spec_events.specs.Growth.{free_tables};
ghost use Rattle.gup_spec_turns.specs.Run.{RunState, waiting_in};
ghost use Rattle.gup_core.specs.Machine.{Shows, IsNew, counted, free_frames_in};
ghost use Rattle.gup_core.specs.declared.outcome.Advanced.TheVariants.{Moved};
ghost use Rattle.gup_core.specs.declared.outcome.Woken.TheVariants.{Nobody};
ghost use Rattle.gup_op_waits.specs.declared.seats.Seat.{Seat as SeatValue};
ghost use Rattle.gup_op_turns.specs.Copies.{is_copying};
ghost use Rattle.gup_core.specs.Going.{Advances, WritesTurn, HasMore, IsMoved, IsStill, KeepsRoom};
ghost use Rattle.gup_core.specs.Rest.{IsAtRest};
ghost use Rattle.gup_image.specs.declared.fact.Fact.{Fact as FactValue};
ghost use Rattle.gup_image.specs.Alike.{image_in};
ghost use Rattle.gup_core.specs.Images.{IsImage, imaged};

use crate::outcome::{Advanced, Woken, woken_by};
use crate::turns::{next_turn, op_at, ops, process};
use gup_base::{ActorNo, NoMemory, ProcNo, Zone};
use gup_image::{KeptFact, image, is_whole};
use gup_notify::Mirrors;
use gup_op_base::{Head, JobPlace};
use gup_op_turns::{copy_at, seat_after, take_copy, take_turn, waits_at};
use gup_op_waits::parts::{self, Parts};
use gup_op_waits::seats::{self, Seat, seat_of, set_seat};
use gup_plain::{Journal, Waiting, What};
use gup_script::Script;
use gup_space::Space;
use gup_tables::Pool;
use std::alloc::Global;
use std::marker::Model;

/// What a machine is, but for the notes of its last turn.
#[derive(Drop)]
pub(crate) struct Inner {
    script: Script,
    parts: Parts,
    mirrors: Mirrors,
    seats: Vec<Seat>,
    pool: Pool,
    turns: u32,
}

impl Model for Inner {
    ghost use Rattle.gup_core.specs.Machine.{MachineValue, IsMachine};

    ghost Value = { MachineValue };

    ghost view = { λ m. record {
      script = m.script;
      parts = m.parts;
      mirrors = m.mirrors;
      seats = m.seats.items;
      pool = m.pool;
      turns = m.turns;
    } };

    ghost invariant = { λ m. IsMachine (record {
      script = m.script;
      parts = m.parts;
      mirrors = m.mirrors;
      seats = m.seats.items;
      pool = m.pool;
      turns = m.turns;
    }) };
}

impl Inner {
    /// That of a machine at the start of the script.
    pub(crate) fn of(alloc: Global, script: Script) -> Result<Inner, NoMemory>
        ensures { IfOk result (IsNew script) }
    {
        let parts = parts::first(alloc, &script)?;
        let mirrors = Mirrors::new(alloc)?;
        let seats = seats::first(alloc, script.actors())?;
        let (_movable, _normal, tables) = script.frames();
        let pool = Pool::new(alloc, tables)?;
        Ok(Inner {
            script,
            parts,
            mirrors,
            seats,
            pool,
            turns: 0,
        })
    }

    pub(crate) fn script(&self) -> &Script
        ensures { result.now ≡ self.now.script }
    {
        &self.script
    }

    pub(crate) fn turns(&self) -> u32
        ensures { result ≡ self.now.turns }
    {
        self.turns
    }

    /// Takes the actor's turn if it can go, and puts its notes on. Where it waits or has finished, nothing changes.
    #[inline(always)]
    pub(crate) fn go(&mut self, actor: ActorNo, journal: &mut Journal) -> Advanced
        requires actor { actor < length self.old.script.actors }
        requires room { 3 ≤ journal.old.room }
        ensures advances { Advances self.old self.new journal.old journal.new actor result }
        ensures more { IsMoved result → HasMore journal.old journal.new }
        ensures kept { KeepsRoom journal.old journal.new }
        ensures script { self.new.script ≡ self.old.script }
    {
        // A fork that copies a page has 512 turns for its words.
        if self.stands_copying(actor) {
            if self.copies_word(actor, journal) {
                return Advanced::Moved(Woken::Nobody);
            }
        }
        self.go_any(actor, journal)
    }

    // Whether the actor's job is a fork that copies a page.
    #[inline(always)]
    fn stands_copying(&self, actor: ActorNo) -> bool
        requires { actor < length self.now.script.actors }
        ensures { (seat : SeatValue) → slice_get self.now.seats actor ≡ Some seat → result ≡ is_copying seat.job }
    {
        matches!(self.seat(actor).job, JobPlace::Copying { .. })
    }

    // Takes the actor's turn if it copies a word of a page, and says whether it does. If not, nothing changes.
    #[inline(never)]
    fn copies_word(&mut self, actor: ActorNo, journal: &mut Journal) -> bool
        requires actor { actor < length self.old.script.actors }
        requires room { 3 ≤ journal.old.room }
        ensures advances { IsTrue result → Advances self.old self.new journal.old journal.new actor (Moved Nobody) }
        ensures more { IsTrue result → HasMore journal.old journal.new }
        ensures kept { KeepsRoom journal.old journal.new }
        ensures script { self.new.script ≡ self.old.script }
        ensures stays { result ≡ false → (self.new ≡ self.old) × (journal.new ≡ journal.old) }
    {
        self.rests();
        gup_law_turns::reached_states_stand();
        gup_law_turns::turns_empty_slots();
        let seat = self.seat(actor);
        let Some(op) = op_at(ops(&self.script, actor), seat.answered) else {
            return false;
        };
        let proc = process(&self.script, actor, op);
        let Some(copy) = copy_at(&self.parts.births, proc, &seat, op) else {
            return false;
        };
        let turn = next_turn(self.turns);
        let head = Head {
            turn,
            actor,
            op: seat.answered + 1,
        };
        take_copy(&mut self.parts, journal, &head, &copy);
        let next = seat_after(&seat, &copy);
        set_seat(&mut self.seats, actor, &next);
        self.turns = turn;
        true
    }

    // The same as `go`, whatever the turn is.
    #[inline(never)]
    fn go_any(&mut self, actor: ActorNo, journal: &mut Journal) -> Advanced
        requires actor { actor < length self.old.script.actors }
        requires room { 3 ≤ journal.old.room }
        ensures advances { Advances self.old self.new journal.old journal.new actor result }
        ensures more { IsMoved result → HasMore journal.old journal.new }
        ensures kept { KeepsRoom journal.old journal.new }
        ensures script { self.new.script ≡ self.old.script }
    {
        self.rests();
        gup_law_turns::reached_states_stand();
        gup_law_turns::turns_can_happen();
        gup_law_turns::turns_empty_slots();
        let seat = self.seat(actor);
        let Some(op) = op_at(ops(&self.script, actor), seat.answered) else {
            return Advanced::Finished;
        };
        let proc = process(&self.script, actor, op);
        if let Some(waiting) = waits_at(
            &self.parts,
            actor,
            process(&self.script, actor, op),
            &seat,
            op,
        ) {
            return Advanced::Waits(waiting);
        }
        let turn = next_turn(self.turns);
        let head = Head {
            turn,
            actor,
            op: seat.answered + 1,
        };
        let here = &mut self.seats[actor.get() as usize];
        let over = take_turn(
            &mut self.parts,
            &mut self.mirrors,
            &mut self.pool,
            journal,
            &head,
            proc,
            seat.far,
            &mut here.job,
            op,
        );
        let woken = woken_by(op, &here.job);
        seats::go_on(here, op, over);
        self.turns = turn;
        Advanced::Moved(woken)
    }

    /// Takes the actor's turn, and puts its notes on, also where it waits or has finished.
    #[inline]
    pub(crate) fn take_turn(&mut self, actor: ActorNo, journal: &mut Journal)
        requires actor { actor < length self.old.script.actors }
        requires room { 3 ≤ journal.old.room }
        ensures turn { WritesTurn self.old self.new journal.old journal.new actor }
        ensures more { HasMore journal.old journal.new }
        ensures kept { KeepsRoom journal.old journal.new }
        ensures script { self.new.script ≡ self.old.script }
    {
        // The turn of an actor that has finished costs little.
        if self.finished(actor) {
            return self.still(actor, What::Idle, journal);
        }
        match self.go(actor, journal) {
            Advanced::Moved(_woken) => {}
            Advanced::Waits(waiting) => self.still(actor, What::Wait(waiting), journal),
            Advanced::Finished => self.still(actor, What::Idle, journal),
        }
    }

    // A turn that changes nothing.
    #[inline(always)]
    fn still(&mut self, actor: ActorNo, what: What, journal: &mut Journal)
        requires actor { actor < length self.old.script.actors }
        requires still { IsStill self.old actor what }
        requires room { 1 ≤ journal.old.room }
        ensures turn { WritesTurn self.old self.new journal.old journal.new actor }
        ensures more { HasMore journal.old journal.new }
        ensures kept { KeepsRoom journal.old journal.new }
        ensures script { self.new.script ≡ self.old.script }
    {
        self.rests();
        let seat = self.seat(actor);
        let turn = next_turn(self.turns);
        let head = Head {
            turn,
            actor,
            op: seat.answered + 1,
        };
        head.tell(journal, what);
        self.turns = turn;
    }

    pub(crate) fn waits(&self, actor: ActorNo) -> Option<Waiting>
        requires { actor < length self.now.script.actors }
        ensures { (r : RunState) → Shows self.now r → result ≡ waiting_in self.now.script r actor }
    {
        self.rests();
        gup_law_turns::reached_states_stand();
        let seat = self.seat(actor);
        let Some(op) = op_at(ops(&self.script, actor), seat.answered) else {
            return None;
        };
        let proc = process(&self.script, actor, op);
        waits_at(&self.parts, actor, proc, &seat, op)
    }

    pub(crate) fn finished(&self, actor: ActorNo) -> bool
        requires { actor < length self.now.script.actors }
        ensures { (r : RunState) → Shows self.now r → result ≡ has_finished self.now.script actor (r.places actor) }
    {
        ops(&self.script, actor).len() <= self.seat(actor).answered as usize
    }

    pub(crate) fn space(&self, proc: ProcNo) -> &Space
        requires { proc < length self.now.script.processes }
        ensures { (r : RunState) → Shows self.now r → ShowsSpace proc (space_of result.now) r.core }
    {
        &self.parts.spaces[proc.get() as usize]
    }

    pub(crate) fn free_frames(&self, zone: Zone) -> u32
        ensures { (r : RunState) → Shows self.now r → result ≡ free_frames_in r.core zone }
    {
        self.parts.frames.free(zone)
    }

    pub(crate) fn free_tables(&self) -> u32
        ensures { (r : RunState) → Shows self.now r → result ≡ free_tables r.core }
    {
        self.pool.is_within();
        self.pool.free()
    }

    pub(crate) fn image(&self, alloc: Global) -> Result<Vec<KeptFact>, NoMemory>
        ensures { IfOk result (λ facts. IsImage self.now facts.items) }
    {
        self.has_image();
        self.rests();
        let _actors = self.script.actors();
        image(alloc, &self.parts, &self.mirrors, &self.seats, &self.pool)
    }

    pub(crate) fn has_image(&self)
        ensures { (facts : List FactValue) → facts ≡ image_in (imaged self.now) → IsImage self.now facts }
    {
        self.rests();
        gup_law_turns::reached_states_stand();
        is_whole(&self.parts, &self.mirrors, &self.pool);
    }

    // Where the actor stands.
    fn seat(&self, actor: ActorNo) -> Seat
        requires { actor < length self.now.script.actors }
        ensures { slice_get self.now.seats actor ≡ Some result }
    {
        seat_of(&self.seats, actor)
    }

    // What is true of a machine between two turns.
    fn rests(&self)
        ensures { IsAtRest self.now }
    {
        let _actors = self.script.actors();
        self.parts.frames.are_there();
        gup_law_turns::reached_states_stand();
    }
}
