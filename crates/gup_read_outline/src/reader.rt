//! What the lines of a script so far have made, and how each adds to it.
ghost use Rattle.std.specs.Prelude.{◌≡◌, ◌↔◌, ◌<◌, ◌≤◌, ◌+◌, true, false, nat_lt, length, replicate, option_map, OnOk, IsTrue};
ghost use Rattle.std.specs.List.{list_any};
ghost use Rattle.gup_spec_grammar.specs.Names.{find, is_unused};
ghost use Rattle.gup_script.specs.Script.{actor_at, process_at};
ghost use Rattle.gup_spec_grammar.specs.Outline.{frame_counts, empty_outline, with_process, with_actor, with_handle, with_reference, with_mirror, with_operation, with_turns, with_seed, draws, is_device, is_mover, how_many, has_mover, is_child, forks_child, is_forked, next_handle, slot_of, is_receiver};
ghost use Rattle.gup_script.specs.Script.{is_thread};
ghost use Rattle.gup_read_outline.specs.Room.{HasRoomFor};
ghost use Rattle.gup_read_outline.specs.Named.{process_of, actor_of, pin_of, got_of, mirror_of, is_mirror_of, may_mirror};

use crate::drawing::{push_drawn, push_times};
use gup_base::{ActorNo, HandleNo, MirrorNo, ProcNo};
use gup_read_names::Names;
use gup_read_words::is_name;
use gup_script::{Actor, Contents, Kind, Op, Process};
use gup_spec_grammar::Named;
use std::alloc::{AllocError, Global};
use std::marker::Model;

/// How many operations a script may have.
const MAX_OPERATIONS: u32 = 16_384;

/// The script up to some line, its names, and what counts and comes once.
#[derive(Drop)]
pub struct Reader {
    contents: Contents,
    names: Names,
    operations: u32,
    seeded: bool,
}

impl Model for Reader {
    ghost use Rattle.gup_spec_grammar.specs.Outline.{Outline};

    ghost Value = { Outline };

    ghost use Rattle.gup_read_outline.specs.ReaderViews.{outline_value};

    ghost view = { outline_value };

    ghost use Rattle.gup_read_outline.specs.ReaderViews.{IsWithinLimits};

    ghost invariant = { IsWithinLimits };
}

/// Whether one of the operations is a fork that brings this process.
fn forks(ops: &[Op], p: ProcNo) -> bool
    ensures { result ≡ list_any (forks_child p) ops.now }
{
    ops.iter()
        .any(|op| matches!(op, Op::Fork { child } if *child == p))
}

impl Reader {
    ghost use Rattle.gup_script.specs.Views.{script_value};

    /// Nothing after a `frames` line with these counts.
    pub fn new(alloc: Global, frames: (u32, u32, u32)) -> Reader
        ensures { result ≡ empty_outline (frame_counts frames) }
    {
        let (movable, normal, tables) = frames;
        Reader {
            contents: Contents {
                movable,
                normal,
                tables,
                processes: Vec::new(alloc),
                actors: Vec::new(alloc),
                handles: Vec::new(alloc),
                mirrors: Vec::new(alloc),
                turns: Vec::new(alloc),
                seed: 0,
            },
            names: Names::new(alloc),
            operations: 0,
            seeded: false,
        }
    }

    /// What the lines say.
    pub fn into_contents(self) -> Contents
        ensures { script_value result ≡ self.script }
    {
        let Reader {
            contents,
            names: _,
            operations: _,
            seeded: _,
        } = self;
        contents
    }

    pub fn is_unused(&self, name: &str) -> bool
        ensures { result ≡ is_unused self.now.names name.now }
    {
        self.names.find(name).is_none()
    }

    /// The process that the word names.
    pub fn process(&self, word: &str) -> Option<ProcNo>
        ensures { result ≡ process_of (find self.now.names word.now) }
    {
        let named = self.names.find(word)?;
        match named {
            Named::Process(p) => Some(p),
            _ => None,
        }
    }

    /// The actor that the word names.
    pub fn actor(&self, word: &str) -> Option<ActorNo>
        ensures { result ≡ actor_of (find self.now.names word.now) }
    {
        let named = self.names.find(word)?;
        match named {
            Named::Actor(a) => Some(a),
            _ => None,
        }
    }

    /// The handle of a pin that the word names.
    pub fn pin(&self, word: &str) -> Option<HandleNo>
        ensures { result ≡ pin_of (find self.now.names word.now) }
    {
        let named = self.names.find(word)?;
        match named {
            Named::Pin(h) => Some(h),
            _ => None,
        }
    }

    /// The handle of a got reference that the word names.
    pub fn got(&self, word: &str) -> Option<HandleNo>
        ensures { result ≡ got_of (find self.now.names word.now) }
    {
        let named = self.names.find(word)?;
        match named {
            Named::Got(h) => Some(h),
            _ => None,
        }
    }

    /// The mirror slot that the word names, of whichever device.
    pub fn mirror(&self, word: &str) -> Option<MirrorNo>
        ensures { result ≡ mirror_of (find self.now.names word.now) }
    {
        let named = self.names.find(word)?;
        match named {
            Named::Mirror(m, _) => Some(m),
            _ => None,
        }
    }

    /// Whether the word names a mirror slot of this device.
    pub fn is_mirror(&self, device: ActorNo, word: &str) -> bool
        ensures { result ≡ is_mirror_of device (find self.now.names word.now) }
    {
        let Some(named) = self.names.find(word) else {
            return false;
        };
        match named {
            Named::Mirror(_, owner) => owner == device,
            _ => false,
        }
    }

    /// Whether a mirror line of this device may have the word as its slot: it is one of the device's, or can be.
    pub fn may_be_mirror(&self, device: ActorNo, word: &str) -> bool
        ensures { result ≡ may_mirror device word.now (find self.now.names word.now) }
    {
        if self.is_unused(word) {
            is_name(word)
        } else {
            self.is_mirror(device, word)
        }
    }

    /// What the actor is; `None` where there is none with this number.
    pub fn kind(&self, actor: ActorNo) -> Option<Kind>
        ensures { result ≡ option_map (λ a. a.kind) (actor_at self.now.script actor) }
    {
        let actor = self.contents.actors.get(actor.get() as usize)?;
        Some(actor.kind)
    }

    /// Whether the process is one that a fork is to bring.
    pub fn is_child(&self, p: ProcNo) -> bool
        ensures { result ≡ is_child self.now p }
    {
        match self.contents.processes.get(p.get() as usize) {
            Some(process) => !process.born,
            None => false,
        }
    }

    /// Whether an earlier `fork` line brings the process: a look at all operations, of which a script has few forks.
    pub fn is_forked(&self, p: ProcNo) -> bool
        ensures { result ≡ is_forked self.now p }
    {
        self.contents
            .actors
            .iter()
            .any(|actor| forks(actor.ops.as_slice(), p))
    }

    /// The number of the next handle; `None` where there may be no more.
    pub fn next_handle(&self) -> Option<HandleNo>
        ensures { result ≡ next_handle self.now }
    {
        HandleNo::new(self.contents.handles.len() as u64)
    }

    /// The number of the mirror slot that the name names, or of the next one where it names nothing; `None` where there may be
    /// no more.
    pub fn slot(&self, name: &str) -> Option<MirrorNo>
        ensures { result ≡ slot_of self.now (find self.now.names name.now) }
    {
        let Some(named) = self.names.find(name) else {
            return MirrorNo::new(self.contents.mirrors.len() as u64);
        };
        match named {
            Named::Mirror(m, _) => Some(m),
            _ => None,
        }
    }

    /// Whether a handle can be given to the actor: a thread or a device.
    pub fn is_receiver(&self, actor: ActorNo) -> bool
        ensures { result ≡ is_receiver self.now actor }
    {
        match self.kind(actor) {
            Some(Kind::Thread(_)) | Some(Kind::Device(_)) => true,
            Some(Kind::Mover) | None => false,
        }
    }

    pub fn processes(&self) -> usize
        ensures { result ≡ length self.now.script.processes }
    {
        self.contents.processes.len()
    }

    pub fn actors(&self) -> usize
        ensures count { result ≡ length self.now.script.actors }
        ensures few { result ≤ 81 }
    {
        self.contents.actors.len()
    }

    pub fn threads(&self) -> usize
        ensures { result ≡ how_many is_thread self.now }
    {
        self.contents
            .actors
            .iter()
            .filter(|actor| matches!(actor.kind, Kind::Thread(_)))
            .count()
    }

    pub fn devices(&self) -> usize
        ensures { result ≡ how_many is_device self.now }
    {
        self.contents
            .actors
            .iter()
            .filter(|actor| matches!(actor.kind, Kind::Device(_)))
            .count()
    }

    pub fn has_mover(&self) -> bool
        ensures { result ≡ has_mover self.now }
    {
        self.contents
            .actors
            .iter()
            .any(|actor| matches!(actor.kind, Kind::Mover))
    }

    pub fn turns(&self) -> usize
        ensures { result ≡ length self.now.script.turns }
    {
        self.contents.turns.len()
    }

    /// Whether there may be one more operation.
    pub fn has_room(&self) -> bool
        ensures { result ≡ nat_lt self.now.operations 16384 }
    {
        self.operations < MAX_OPERATIONS
    }

    pub fn is_seeded(&self) -> bool
        ensures { result ≡ self.now.seeded }
    {
        self.seeded
    }

    /// One more process.
    pub fn add_process(&mut self, name: &str, born: bool) -> Result<(), AllocError>
        requires unused { is_unused self.old.names name.now ≡ true }
        requires room { length self.old.script.processes < 16 }
        ensures { OnOk result (self.new ≡ with_process name.now born self.old) }
    {
        let alloc = *self.contents.processes.allocator();
        let number = ProcNo::new(self.contents.processes.len() as u64).unwrap();
        let process = Process {
            name: String::from_str(alloc, name)?,
            born,
        };
        self.contents.processes.push(process)?;
        self.names.declare(name, Named::Process(number))
    }

    /// One more actor, with no operation so far.
    pub fn add_actor(&mut self, name: &str, kind: Kind) -> Result<(), AllocError>
        requires unused { is_unused self.old.names name.now ≡ true }
        requires room { HasRoomFor kind self.old }
        ensures { OnOk result (self.new ≡ with_actor name.now kind self.old) }
    {
        let alloc = *self.contents.actors.allocator();
        let number = ActorNo::new(self.contents.actors.len() as u64).unwrap();
        let actor = Actor {
            name: String::from_str(alloc, name)?,
            kind,
            ops: Vec::new(alloc),
        };
        self.contents.actors.push(actor)?;
        self.names.declare(name, Named::Actor(number))
    }

    /// One more handle, of a pin.
    pub fn add_handle(&mut self, name: &str) -> Result<(), AllocError>
        requires unused { is_unused self.old.names name.now ≡ true }
        requires room { length self.old.script.handles < 1024 }
        ensures { OnOk result (self.new ≡ with_handle name.now self.old) }
    {
        let alloc = *self.contents.handles.allocator();
        let number = HandleNo::new(self.contents.handles.len() as u64).unwrap();
        self.contents.handles.push(String::from_str(alloc, name)?)?;
        self.names.declare(name, Named::Pin(number))
    }

    /// One more handle, of a got reference.
    pub fn add_reference(&mut self, name: &str) -> Result<(), AllocError>
        requires unused { is_unused self.old.names name.now ≡ true }
        requires room { length self.old.script.handles < 1024 }
        ensures { OnOk result (self.new ≡ with_reference name.now self.old) }
    {
        let alloc = *self.contents.handles.allocator();
        let number = HandleNo::new(self.contents.handles.len() as u64).unwrap();
        self.contents.handles.push(String::from_str(alloc, name)?)?;
        self.names.declare(name, Named::Got(number))
    }

    /// One more mirror slot, of this device.
    pub fn add_mirror(&mut self, device: ActorNo, name: &str) -> Result<(), AllocError>
        requires unused { is_unused self.old.names name.now ≡ true }
        requires room { length self.old.script.mirrors < 64 }
        ensures { OnOk result (self.new ≡ with_mirror device name.now self.old) }
    {
        let alloc = *self.contents.mirrors.allocator();
        let number = MirrorNo::new(self.contents.mirrors.len() as u64).unwrap();
        self.contents.mirrors.push(String::from_str(alloc, name)?)?;
        self.names.declare(name, Named::Mirror(number, device))
    }

    /// One more operation of the actor.
    pub fn add_operation(&mut self, actor: ActorNo, op: Op) -> Result<(), AllocError>
        requires there { actor < length self.old.script.actors }
        requires room { self.old.operations < 16384 }
        ensures { OnOk result (self.new ≡ with_operation actor op self.old) }
    {
        let actor = &mut self.contents.actors[actor.get() as usize];
        actor.ops.push(op)?;
        self.operations += 1;
        Ok(())
    }

    /// So many more written turns of the actor.
    pub fn add_turns(&mut self, actor: ActorNo, times: u32) -> Result<(), AllocError>
        ensures { OnOk result (self.new ≡ with_turns (replicate times actor) self.old) }
    {
        push_times(&mut self.contents.turns, actor, times)
    }

    /// So many more written turns of actors that are drawn, from this start of the generator.
    pub fn add_drawn_turns(&mut self, start: u64, count: u64) -> Result<(), AllocError>
        requires { 0 < count → 0 < length self.old.script.actors }
        ensures { OnOk result (self.new ≡ with_turns (draws count (length self.old.script.actors) start) self.old) }
    {
        let actors = self.actors() as u64;
        push_drawn(&mut self.contents.turns, actors, start, count)
    }

    pub fn set_seed(&mut self, seed: u64)
        ensures { self.new ≡ with_seed seed self.old }
    {
        self.contents.seed = seed;
        self.seeded = true;
    }
}
