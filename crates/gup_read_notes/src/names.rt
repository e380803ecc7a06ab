//! The names that a script declares.
ghost use Rattle.std.specs.Prelude.{◌≡◌, ◌≤◌, length, IfOk};
ghost use Rattle.gup_spec_trace.specs.Names.{AreNames};
ghost use Rattle.gup_read_notes.specs.Names.{actor_names, process_names, actor_in, process_in, handle_in, slot_in};

use crate::table::Table;
use gup_base::{ActorNo, HandleNo, MirrorNo, NoMemory, ProcNo};
use gup_script::Script;
use std::alloc::Global;
use std::marker::Model;

/// The names of a script, to be found by their spelling.
#[derive(Debug, Drop)]
pub struct Names {
    script: Script,
    actors: Table,
    processes: Table,
    handles: Table,
    slots: Table,
}

impl Model for Names {
    ghost use Rattle.gup_script.specs.Script.{ScriptValue};

    ghost Value = { ScriptValue };

    ghost use Rattle.gup_read_notes.specs.Views.{script_of};

    ghost view = { script_of };

    ghost use Rattle.gup_read_notes.specs.Views.{HasNames};

    ghost invariant = { HasNames };
}

impl Names {
    /// The names of this script. They take memory of their own, for a copy of the script, too.
    pub fn of(alloc: Global, script: &Script) -> Result<Names, NoMemory>
        requires names { AreNames script.now }
        ensures { IfOk result (λ names. names ≡ script.now) }
    {
        let copy = script.copy()?;
        let actors = actors_of(alloc, script)?;
        let processes = processes_of(alloc, script)?;
        let handles = handles_of(alloc, script)?;
        let slots = slots_of(alloc, script)?;
        Ok(Names {
            script: copy,
            actors,
            processes,
            handles,
            slots,
        })
    }

    /// The actor with this name.
    pub(crate) fn actor(&self, name: &str) -> Option<ActorNo>
        ensures { result ≡ actor_in self.now name.now }
    {
        ActorNo::new(self.actors.find(name)?)
    }

    /// The process with this name.
    pub(crate) fn process(&self, name: &str) -> Option<ProcNo>
        ensures { result ≡ process_in self.now name.now }
    {
        ProcNo::new(self.processes.find(name)?)
    }

    /// The handle with this name.
    pub(crate) fn handle(&self, name: &str) -> Option<HandleNo>
        ensures { result ≡ handle_in self.now name.now }
    {
        HandleNo::new(self.handles.find(name)?)
    }

    /// The mirror slot with this name.
    pub(crate) fn slot(&self, name: &str) -> Option<MirrorNo>
        ensures { result ≡ slot_in self.now name.now }
    {
        MirrorNo::new(self.slots.find(name)?)
    }
}

fn actors_of(alloc: Global, script: &Script) -> Result<Table, NoMemory>
    requires { AreNames script.now }
    ensures { IfOk result (λ table. table ≡ actor_names script.now) }
{
    let mut table = Table::new(alloc);
    for a in 0..script.actors() {
        let actor = ActorNo::new(u64::from(a)).unwrap();
        table.push(script.name_of(actor))?;
    }
    Ok(table)
}

fn processes_of(alloc: Global, script: &Script) -> Result<Table, NoMemory>
    requires names { AreNames script.now }
    requires few { length script.now.processes ≤ 16 }
    ensures { IfOk result (λ table. table ≡ process_names script.now) }
{
    let mut table = Table::new(alloc);
    for p in 0..script.processes() {
        let proc = ProcNo::new(u64::from(p)).unwrap();
        table.push(script.process_name(proc))?;
    }
    Ok(table)
}

fn handles_of(alloc: Global, script: &Script) -> Result<Table, NoMemory>
    requires { AreNames script.now }
    ensures { IfOk result (λ table. table ≡ script.now.handles) }
{
    let mut table = Table::new(alloc);
    for h in 0..script.handles() {
        let handle = HandleNo::new(u64::from(h)).unwrap();
        table.push(script.handle_name(handle))?;
    }
    Ok(table)
}

fn slots_of(alloc: Global, script: &Script) -> Result<Table, NoMemory>
    requires { AreNames script.now }
    ensures { IfOk result (λ table. table ≡ script.now.mirrors) }
{
    let mut table = Table::new(alloc);
    for m in 0..script.mirrors() {
        let slot = MirrorNo::new(u64::from(m)).unwrap();
        table.push(script.mirror_name(slot))?;
    }
    Ok(table)
}
