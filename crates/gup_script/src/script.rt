ghost use Rattle.std.specs.Prelude.{◌≡◌, ℕ, ◌<◌, List, length, Some, IfOk};
ghost use Rattle.gup_script.specs.Script.{Process as ProcessValue, Actor as ActorValue, process_at, actor_at, handle_at, mirror_at};
ghost use Rattle.gup_script.specs.Valid.{IsScript};

use crate::op::{Kind, Op};
use gup_base::{ActorNo, HandleNo, MirrorNo, NoMemory, ProcNo};
use std::marker::Model;

/// A process as its line declares it: born at the start, or brought by a fork.
#[derive(Clone, Debug, Drop)]
pub struct Process {
    pub name: String,
    pub born: bool,
}

/// An actor with its operations in order.
#[derive(Clone, Debug, Drop)]
pub struct Actor {
    pub name: String,
    pub kind: Kind,
    pub ops: Vec<Op>,
}

/// All that a script says, or its lines so far, with nothing promised of it.
#[derive(Clone, Debug, Drop)]
pub struct Contents {
    pub movable: u32,
    pub normal: u32,
    pub tables: u32,
    pub processes: Vec<Process>,
    pub actors: Vec<Actor>,
    /// The names of the handles.
    pub handles: Vec<String>,
    /// The names of the mirror slots.
    pub mirrors: Vec<String>,
    pub turns: Vec<ActorNo>,
    pub seed: u64,
}

/// A script: its frames, processes, actors with their operations, written turns and seed.
#[derive(Debug, Drop)]
pub struct Script {
    contents: Contents,
}

impl Model for Script {
    ghost use Rattle.gup_script.specs.Script.{ScriptValue};

    ghost Value = { ScriptValue };

    ghost use Rattle.gup_script.specs.Views.{value_of};

    ghost view = { value_of };

    ghost use Rattle.gup_script.specs.Views.{IsValid};

    ghost invariant = { IsValid };
}

impl Script {
    ghost use Rattle.gup_script.specs.Views.{script_value};

    /// The script with these contents, which are those of one.
    pub fn new(contents: Contents) -> Script
        requires { IsScript (script_value contents) }
        ensures { result ≡ script_value contents }
    {
        Script { contents }
    }

    pub(crate) fn contents(&self) -> &Contents
        ensures { script_value result.now ≡ self.now }
    {
        &self.contents
    }

    /// How many frames the movable and the normal zone have, at most 1,024 together, and how many tables there are,
    /// at most 8,192.
    pub fn frames(&self) -> (u32, u32, u32)
        ensures counts { result ≡ (self.now.frames.movable, self.now.frames.normal, self.now.frames.tables) }
        ensures valid { IsScript self.now }
    {
        (
            self.contents.movable,
            self.contents.normal,
            self.contents.tables,
        )
    }

    /// How many processes the script declares, at most 16.
    pub fn processes(&self) -> u8
        ensures { result ≡ length self.now.processes }
    {
        self.contents.processes.len() as u8
    }

    /// How many actors the script declares, at most 81.
    pub fn actors(&self) -> u8
        ensures count { result ≡ length self.now.actors }
        ensures valid { IsScript self.now }
    {
        self.contents.actors.len() as u8
    }

    /// The actor's operations in order.
    pub fn ops(&self, actor: ActorNo) -> &[Op]
        requires { actor < length self.now.actors }
        ensures { (a : ActorValue) → actor_at self.now actor ≡ Some a → result.now ≡ a.ops }
    {
        self.contents.actors[actor.get() as usize].ops.as_slice()
    }

    /// What the actor is: a thread with its process, a device with the words of its store, or the mover.
    pub fn kind(&self, actor: ActorNo) -> Kind
        requires { actor < length self.now.actors }
        ensures { (a : ActorValue) → actor_at self.now actor ≡ Some a → result ≡ a.kind }
    {
        self.contents.actors[actor.get() as usize].kind
    }

    /// The actor's name.
    pub fn name_of(&self, actor: ActorNo) -> &str
        requires { actor < length self.now.actors }
        ensures { (a : ActorValue) → actor_at self.now actor ≡ Some a → result.now ≡ a.name }
    {
        self.contents.actors[actor.get() as usize].name.as_str()
    }

    /// The process's name.
    pub fn process_name(&self, p: ProcNo) -> &str
        requires { p < length self.now.processes }
        ensures { (process : ProcessValue) → process_at self.now p ≡ Some process → result.now ≡ process.name }
    {
        self.contents.processes[p.get() as usize].name.as_str()
    }

    /// How many handles the script declares, at most 1,024.
    pub fn handles(&self) -> u16
        ensures count { result ≡ length self.now.handles }
        ensures valid { IsScript self.now }
    {
        self.contents.handles.len() as u16
    }

    /// The handle's name.
    pub fn handle_name(&self, h: HandleNo) -> &str
        requires { h < length self.now.handles }
        ensures { (name : List ℕ) → handle_at self.now h ≡ Some name → result.now ≡ name }
    {
        self.contents.handles[h.get() as usize].as_str()
    }

    /// How many mirror slots the script declares, at most 64.
    pub fn mirrors(&self) -> u8
        ensures count { result ≡ length self.now.mirrors }
        ensures valid { IsScript self.now }
    {
        self.contents.mirrors.len() as u8
    }

    /// The mirror slot's name.
    pub fn mirror_name(&self, m: MirrorNo) -> &str
        requires { m < length self.now.mirrors }
        ensures { (name : List ℕ) → mirror_at self.now m ≡ Some name → result.now ≡ name }
    {
        self.contents.mirrors[m.get() as usize].as_str()
    }

    /// Whether the process is born at the start. Others are brought by a fork.
    pub fn starts_born(&self, p: ProcNo) -> bool
        requires { p < length self.now.processes }
        ensures { (process : ProcessValue) → process_at self.now p ≡ Some process → result ≡ process.born }
    {
        self.contents.processes[p.get() as usize].born
    }

    /// The actors of the written turns in order.
    pub fn turns(&self) -> &[ActorNo]
        ensures { result.now ≡ self.now.turns }
    {
        self.contents.turns.as_slice()
    }

    /// The seed of the fine run: that of the `seed` line, or 0 where there is none.
    pub fn seed(&self) -> u64
        ensures { result ≡ self.now.seed }
    {
        self.contents.seed
    }

    /// An equal script, in memory of its own.
    pub fn copy(&self) -> Result<Script, NoMemory>
        ensures equal { IfOk result (λ script. script ≡ self.now) }
        ensures valid { IsScript self.now }
    {
        Ok(Script {
            contents: self.contents.clone()?,
        })
    }
}
