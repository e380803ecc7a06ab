//! The names that a script declares.
ghost use Rattle.std.specs.Prelude.{◌≡◌};
ghost use Rattle.gup_script.specs.Script.{actor_at, process_at, handle_at, mirror_at};
ghost use Rattle.gup_lines.specs.Text.{name_in, process_name, handle_name};

use gup_base::{ActorNo, HandleNo, MirrorNo, ProcNo};
use gup_script::Script;

/// The actor's name; nothing where no such actor is declared.
pub fn name_of(script: &Script, actor: ActorNo) -> &str
    ensures { result.now ≡ name_in (actor_at script.now actor) }
{
    if actor.get() < u64::from(script.actors()) {
        script.name_of(actor)
    } else {
        ""
    }
}

/// The process's name; nothing where no such process is declared.
pub fn process_name(script: &Script, p: ProcNo) -> &str
    ensures { result.now ≡ process_name (process_at script.now p) }
{
    if p.get() < u64::from(script.processes()) {
        script.process_name(p)
    } else {
        ""
    }
}

/// The handle's name; nothing where no such handle is declared.
pub fn handle_name(script: &Script, h: HandleNo) -> &str
    ensures { result.now ≡ handle_name (handle_at script.now h) }
{
    if h.get() < u64::from(script.handles()) {
        script.handle_name(h)
    } else {
        ""
    }
}

/// The mirror slot's name; nothing where no such slot is declared.
pub fn slot_name(script: &Script, m: MirrorNo) -> &str
    ensures { result.now ≡ handle_name (mirror_at script.now m) }
{
    if m.get() < u64::from(script.mirrors()) {
        script.mirror_name(m)
    } else {
        ""
    }
}
