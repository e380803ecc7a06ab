//! The plain model as a program.
ghost use Rattle.std.specs.Prelude.{◌≡◌, ℕ, ◌<◌, ◌≤◌, ◌↔◌, length, None, IsTrue, MatchOption, false, OnOk, OnErr, IfOk, IsErrOf};
ghost use Rattle.gup_plain.specs.Event.{CanHappen, happened};
ghost use Rattle.gup_plain.specs.Put.{put};
ghost use Rattle.gup_plain.specs.State.{plain_start, unborn, born};
ghost use Rattle.gup_exec_plain.specs.Parts.{state_of, processes_of, actors_of, HasActor, AreNumbered, WantsMemory};
ghost use Rattle.gup_exec_parts.specs.Space.{birth_of};

use crate::parts::Parts;
use crate::refusal::PlainRefusal;
use gup_base::{ActorNo, HandleNo, NoMemory, PageNo, ProcNo, Rights};
use gup_exec_parts::pages;
use gup_exec_parts::pin::Pin;
use gup_exec_parts::space::Birth;
use gup_plain::PlainEvent;
use std::alloc::Global;
use std::marker::Model;

/// The plain model's state, for a number of processes and of actors.
///
/// Contracts see it as `state_of` it, beside the two numbers. An event costs time logarithmic in what the state has:
/// one over n pages n times that, a fork's begin and failure as many pages as there are, a whole page of a fork 512
/// words, and a fork's end what was copied.
#[derive(Drop)]
pub struct Plain {
    parts: Parts,
}

impl Model for Plain {
    ghost use Rattle.gup_exec_plain.specs.declared.parts.Parts.{Parts};

    ghost Value = { Parts };

    ghost use Rattle.gup_exec_plain.specs.contracts.parts.Parts as row_of_parts;

    ghost coded = { row_of_parts.the_row.coded };

    ghost use Rattle.gup_exec_plain.specs.Parts.{IsSound};

    ghost view = { λ p. p.parts };

    ghost invariant = { λ p. IsSound p.parts };
}

impl Plain {
    /// The start, with these numbers of processes and of actors: no process is born, nothing is mapped, no handle is
    /// made, no mirror slot filled, and each actor's store has 4,096 zeros.
    pub fn new(alloc: Global, processes: u8, actors: u8) -> Result<Plain, NoMemory>
        requires processes { processes ≤ 16 }
        requires actors { actors ≤ 81 }
        ensures state { IfOk result (λ plain. state_of plain ≡ plain_start (λ _. false)) }
        ensures processes { IfOk result (λ plain. processes_of plain ≡ processes) }
        ensures actors { IfOk result (λ plain. actors_of plain ≡ actors) }
    {
        Ok(Plain {
            parts: Parts::new(alloc, processes, actors)?,
        })
    }

    /// Process `p` is born, without pages. It is one of the processes and unborn. This takes no memory.
    pub fn birth(&mut self, p: ProcNo)
        requires within { p < processes_of self.old }
        requires unborn { (state_of self.old).birth p ≡ unborn }
        ensures state { state_of self.new
            ≡ record (state_of self.old) { birth = put p born (state_of self.old).birth } }
        ensures processes { processes_of self.new ≡ processes_of self.old }
        ensures actors { actors_of self.new ≡ actors_of self.old }
    {
        self.parts.birth(p);
    }

    /// Whether the process has come into being.
    pub fn birth_of(&self, p: ProcNo) -> Birth
        ensures { birth_of result ≡ (state_of self.now).birth p }
    {
        self.parts.space(p).birth
    }

    /// The rights of the process's page, if it has it: a process that isn't born yet may have pages, too.
    pub fn rights(&self, p: ProcNo, page: PageNo) -> Option<Rights>
        ensures rights { result ≡ (state_of self.now).right p page }
        ensures numbered { AreNumbered (state_of self.now) }
    {
        self.parts
            .space(p)
            .pages
            .get(&page)
            .map(|found| found.rights)
    }

    /// How many pages the process has.
    pub fn page_count(&self, p: ProcNo) -> usize
        ensures { result ≡ (state_of self.now).pages p }
    {
        self.parts.space(p).pages.len()
    }

    /// Whether the process has none of the pages from `from` on, below `below`. This takes logarithmic time, however many
    /// they are.
    pub fn lacks_pages(&self, p: ProcNo, from: PageNo, below: PageNo) -> bool
        ensures { IsTrue result ↔ ((page : ℕ) → from ≤ page → page < below → (state_of self.now).right p page ≡ None) }
    {
        pages::none_between(&self.parts.space(p).pages, from, below)
    }

    /// Whether the process has no page at all.
    pub fn has_no_page(&self, p: ProcNo) -> bool
        ensures { IsTrue result ↔ ((page : ℕ) → (state_of self.now).right p page ≡ None) }
    {
        self.parts.space(p).pages.first_key_value().is_none()
    }

    /// The handle, which may not be made yet, or gone.
    pub fn handle(&self, h: HandleNo) -> &Pin
        ensures { result.now ≡ (state_of self.now).handle h }
    {
        &self.parts.pins[h.get() as usize]
    }

    /// How many pages the actor's running pin has taken and not dropped.
    pub fn pages_pending(&self, actor: ActorNo) -> usize
        ensures { result ≡ length ((state_of self.now).pending actor) }
    {
        match self.parts.actors.get(actor.get() as usize) {
            None => 0,
            Some(by) => by.taken.len(),
        }
    }

    /// Whether the event's actor, where it has one, is one of the actors.
    pub fn has_actor(&self, e: &PlainEvent) -> bool
        ensures { IsTrue result ↔ HasActor (actors_of self.now) e.now }
    {
        match actor_of(e) {
            None => true,
            Some(actor) => (actor.get() as usize) < self.parts.actors.len(),
        }
    }

    /// Lets the event happen. Its actor, where it has one, is one of the actors.
    ///
    /// `Broken` comes only where the event can't happen, and where it can't, no event is let happen: memory may be
    /// wanted before that is known. `NoMemory` comes only for an event that wants memory, where the program's own ran
    /// out, and where the objects made, a fork taking 2^35 numbers, would be more than a `u64` counts. Either leaves all
    /// as it was.
    pub fn apply(&mut self, e: &PlainEvent) -> Result<(), PlainRefusal>
        requires { HasActor (actors_of self.old) e.now }
        ensures can { OnOk result (CanHappen (state_of self.old) e.now) }
        ensures changed { OnOk result (state_of self.new ≡ happened (state_of self.old) e.now) }
        ensures broken { IsErrOf result PlainRefusal.Broken → CanHappen (state_of self.old) e.now → ⊥ }
        ensures memory { IsErrOf result PlainRefusal.NoMemory → WantsMemory e.now }
        ensures unchanged { OnErr result (state_of self.new ≡ state_of self.old) }
        ensures processes { processes_of self.new ≡ processes_of self.old }
        ensures actors { actors_of self.new ≡ actors_of self.old }
    {
        self.parts.apply(e)
    }
}

// The event's actor.
fn actor_of(e: &PlainEvent) -> Option<ActorNo>
    ensures { (n : ℕ) → MatchOption result (HasActor n e.now) (λ actor. HasActor n e.now ↔ (actor < n)) }
{
    match *e {
        PlainEvent::Map { actor, .. }
        | PlainEvent::Unmap { actor, .. }
        | PlainEvent::Discard { actor, .. }
        | PlainEvent::Protect { actor, .. }
        | PlainEvent::Load { actor, .. }
        | PlainEvent::Store { actor, .. }
        | PlainEvent::PinTry { actor, .. }
        | PlainEvent::PinDrop { actor, .. }
        | PlainEvent::PinOk { actor, .. }
        | PlainEvent::Unpin { actor, .. }
        | PlainEvent::Give { actor, .. }
        | PlainEvent::Take { actor, .. }
        | PlainEvent::MoveOut { actor, .. }
        | PlainEvent::MoveIn { actor, .. }
        | PlainEvent::MirrorFill { actor, .. }
        | PlainEvent::Look { actor, .. } => Some(actor),
        PlainEvent::ForkBegin { .. }
        | PlainEvent::ForkPage { .. }
        | PlainEvent::ForkWord { .. }
        | PlainEvent::ForkEnd { .. }
        | PlainEvent::ForkFail { .. } => None,
    }
}
