//! The operation that an actor comes to next, and of which process it is.
ghost use Rattle.std.specs.Prelude.{◌≡◌, ◌<◌, is_some, length, slice_get, MatchOption, Some, None};
ghost use Rattle.gup_script.specs.Script.{actor_at, ops_of};
ghost use Rattle.gup_spec_journal.specs.Place.{process_of, thread_in, birth_for};
ghost use Rattle.gup_exec_parts.specs.Space.{birth_of};
ghost use Rattle.gup_exec_plain.specs.Parts.{state_of};
ghost use Rattle.gup_check_pages.specs.Passing.{number_of};

use gup_base::{ActorNo, ProcNo};
use gup_check_plain::Doer;
use gup_exec_parts::space::Birth;
use gup_exec_plain::Plain;
use gup_script::{Op, Script};

// How many processes a number can name.
const PROCESSES: u8 = 16;

/// The actor's operation behind so many.
pub(crate) fn op_behind(script: &Script, actor: ActorNo, answered: usize) -> Option<&Op>
    requires { actor < length script.now.actors }
    ensures { MatchOption result (slice_get (ops_of script.now actor) answered ≡ None)
        (λ op. slice_get (ops_of script.now actor) answered ≡ Some op.now) }
{
    script.ops(actor).get(answered)
}

/// The process of the actor, if it is a thread.
pub(crate) fn process_of(script: &Script, actor: ActorNo) -> Option<ProcNo>
    requires { actor < length script.now.actors }
    ensures number { number_of result ≡ process_of script.now actor }
    ensures thread { is_some result ≡ thread_in (actor_at script.now actor) }
{
    Doer::of(script, actor, None).process()
}

/// The number of the process, and where there is none the one after the last.
pub(crate) fn process_number(process: Option<ProcNo>) -> u8
    ensures { result ≡ number_of process }
{
    match process {
        None => PROCESSES,
        Some(p) => p.get() as u8,
    }
}

/// The birth of the process that the operation is of; one that is of none waits for no birth.
pub(crate) fn birth_for(plain: &Plain, who: &Doer) -> Birth
    ensures { birth_of result ≡ birth_for (state_of plain.now).birth who.now }
{
    match who.process() {
        None => Birth::Born,
        Some(p) => plain.birth_of(p),
    }
}
