//! The machine beside the turns that are told.
ghost use Rattle.std.specs.Prelude.{◌≡◌, ◌+◌, ◌^◌, ◌<◌, ◌++◌, ◌∷◌, [], ◌↔◌, List, length, IsTrue, IfOk, option_map};
ghost use Rattle.gup_plain.specs.Note.{NoteValue};
ghost use Rattle.gup_script.specs.Script.{ScriptValue};
ghost use Rattle.gup_replay.specs.Turns.{taker};
ghost use Rattle.gup_replay.specs.Beside.{IsReplay, IsShown};

use crate::events::is_same_event;
use gup_base::NoMemory;
use gup_core::Machine;
use gup_image::KeptFact;
use gup_plain::{Note, What};
use gup_script::Script;
use std::alloc::Global;
use std::marker::Model;

/// The machine of a script beside turns that are told. It takes each of them, and is beside them as long as it tells the same.
#[derive(Drop)]
pub struct Replay {
    machine: Machine,
    is_beside: bool,
}

impl Model for Replay {
    ghost use Rattle.gup_replay.specs.Beside.{ReplayValue};

    ghost Value = { ReplayValue };

    ghost view = { λ r. record { machine = r.machine; is_beside = r.is_beside } };
}

impl Replay {
    /// The machine at the start of the script, beside no turns.
    pub fn new(alloc: Global, script: &Script) -> Result<Replay, NoMemory>
        ensures { IfOk result (IsReplay script.now []) }
    {
        Ok(Replay {
            machine: Machine::new(alloc, script)?,
            is_beside: true,
        })
    }

    /// Takes the turn that these notes tell. If it doesn't tell just this, the machine isn't beside the turns that are told, and never is again.
    pub fn follow(&mut self, notes: &[Note])
        requires some { 0 < length notes.now }
        requires there { taker notes.now < length self.old.machine.script.actors }
        ensures { (script : ScriptValue) (turns : List (List NoteValue)) → length turns + 1 < 2 ^ 32
            → IsReplay script turns self.old → IsReplay script (turns ++ notes.now ∷ []) self.new }
    {
        if self.is_beside {
            let turn = self.machine.turn(notes[0].actor());
            self.is_beside = are_same(turn.notes(), notes);
        }
    }

    /// Whether the machine is beside the turns that are told.
    pub fn is_beside(&self) -> bool
        ensures { result ≡ self.now.is_beside }
    {
        self.is_beside
    }

    /// The facts of the machine behind the turns that are told, if it is beside them.
    pub fn state(&self, alloc: Global) -> Result<Option<Vec<KeptFact>>, NoMemory>
        ensures { IfOk result (λ state. (script : ScriptValue) (turns : List (List NoteValue))
            → IsReplay script turns self.now → IsShown script turns (option_map (λ facts. facts.items) state)) }
    {
        if !self.is_beside {
            return Ok(None);
        }
        Ok(Some(self.machine.image(alloc)?))
    }
}

// Whether these notes are the same as those.
fn are_same(these: &[Note], those: &[Note]) -> bool
    ensures { IsTrue result ↔ (these.now ≡ those.now) }
{
    if these.len() != those.len() {
        return false;
    }
    for k in 0..these.len() {
        if !is_same(&these[k], &those[k]) {
            return false;
        }
    }
    true
}

fn is_same(this: &Note, that: &Note) -> bool
    ensures { IsTrue result ↔ (this.now ≡ that.now) }
{
    is_headed_so(this, that) && is_said_so(this.what(), that.what())
}

fn is_headed_so(this: &Note, that: &Note) -> bool
    ensures { IsTrue result ↔ ((this.now.turn ≡ that.now.turn) × (this.now.actor ≡ that.now.actor) × (this.now.op ≡ that.now.op)) }
{
    this.turn() == that.turn() && this.actor().get() == that.actor().get() && this.op() == that.op()
}

fn is_said_so(this: What, that: What) -> bool
    ensures { IsTrue result ↔ (this ≡ that) }
{
    match (this, that) {
        (What::Silent, What::Silent) | (What::Idle, What::Idle) => true,
        (What::Wait(this), What::Wait(that)) => this == that,
        (What::Event(this), What::Event(that)) => is_same_event(this, that),
        (What::Done(this), What::Done(that)) => this == that,
        _ => false,
    }
}
