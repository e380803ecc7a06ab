//! The plain state in which a script begins.
ghost use Rattle.std.specs.Prelude.{◌≡◌, ◌+◌, ◌<◌, length, IfOk};
ghost use Rattle.gup_plain.specs.State.{plain_start};
ghost use Rattle.gup_spec_journal.specs.Place.{starts_born};
ghost use Rattle.gup_exec_plain.specs.Parts.{state_of, processes_of, actors_of};
ghost use Rattle.gup_check_plain.specs.Begun.{born_below};

use gup_base::{NoMemory, ProcNo};
use gup_exec_plain::Plain;
use gup_script::Script;
use std::alloc::Global;

/// The plain state in which the script begins: the processes of its `process` lines are born, and nothing is mapped,
/// pinned or filled. It has as many actors as the script. The only error is that the program's own memory ran out.
pub fn start(alloc: Global, script: &Script) -> Result<Plain, NoMemory>
    ensures state { IfOk result (λ plain. state_of plain ≡ plain_start (starts_born script.now)) }
    ensures actors { IfOk result (λ plain. actors_of plain ≡ length script.now.actors) }
{
    let actors = script.actors();
    let processes = script.processes();
    let mut plain = Plain::new(alloc, processes, actors)?;
    for p in 0..processes {
        begin(&mut plain, script, ProcNo::new(u64::from(p)).unwrap());
    }
    Ok(plain)
}

// The process is born, if it starts so. Those before it have begun.
fn begin(plain: &mut Plain, script: &Script, p: ProcNo)
    requires within { p < processes_of plain.old }
    requires declared { p < length script.now.processes }
    requires before { state_of plain.old ≡ plain_start (born_below script.now p) }
    ensures state { state_of plain.new ≡ plain_start (born_below script.now (p + 1)) }
    ensures processes { processes_of plain.new ≡ processes_of plain.old }
    ensures actors { actors_of plain.new ≡ actors_of plain.old }
{
    if is_born(script, p) {
        plain.birth(p);
    }
}

// Whether the process is born at the start.
fn is_born(script: &Script, p: ProcNo) -> bool
    requires { p < length script.now.processes }
    ensures { result ≡ starts_born script.now p }
{
    script.starts_born(p)
}
