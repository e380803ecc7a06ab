//! What an actor waits for, and which operations others may wait for.
ghost use Rattle.std.specs.Prelude.{◌≡◌, ◌↔◌, IsTrue, Some};
ghost use Rattle.std.specs.Option.{option_copied};
ghost use Rattle.gup_spec_journal.specs.Order.{KeepsLock};
ghost use Rattle.gup_exec_parts.specs.Space.{birth_of};
ghost use Rattle.gup_check_answers.specs.Waits.{waits_by, waits_to_take, handle_taken};

use gup_base::{HandleNo, ProcNo};
use gup_exec_parts::space::Birth;
use gup_plain::Waiting;
use gup_script::Op;

/// Whether the operation keeps a lock of its process between two turns: a pin for long, a move and a fork do.
pub fn keeps_lock(op: Option<&Op>) -> bool
    ensures { IsTrue result ↔ KeepsLock (option_copied op.entry) }
{
    match op {
        None => false,
        Some(op) => keeps(op),
    }
}

fn keeps(op: &Op) -> bool
    ensures { IsTrue result ↔ KeepsLock (Some op.now) }
{
    match op {
        Op::Pin { want, .. } => want.long,
        Op::Move { .. } | Op::Fork { .. } => true,
        _ => false,
    }
}

/// The handle that the operation takes. `None` exactly where it isn't a take, or there is none.
pub fn taken_handle(op: Option<&Op>) -> Option<HandleNo>
    ensures { result ≡ handle_taken (option_copied op.entry) }
{
    match op? {
        Op::Take { handle } => Some(*handle),
        _ => None,
    }
}

/// What an actor waits for, if it waits. `process` is that of its operation, or `None` where this is of none. While the process is
/// yet to be born the operation waits for it, and where its birth failed for nothing. Else a take waits for its handle until
/// that is `given` to the actor. `birth` is that of the process, and isn't looked at where there is none.
pub fn waits_for(
    process: Option<ProcNo>,
    birth: Birth,
    given: bool,
    op: Option<&Op>,
) -> Option<Waiting>
    ensures { result ≡ waits_by process (birth_of birth) given (option_copied op.entry) }
{
    let Some(proc) = process else {
        return waits_for_handle(given, op);
    };
    match birth {
        Birth::Born => waits_for_handle(given, op),
        Birth::Failed => None,
        Birth::Unborn | Birth::Growing(_) => Some(Waiting::Process(proc)),
    }
}

// The handle that a take waits for.
fn waits_for_handle(given: bool, op: Option<&Op>) -> Option<Waiting>
    ensures { result ≡ waits_to_take given (option_copied op.entry) }
{
    if given {
        return None;
    }
    Some(Waiting::Handle(taken_handle(op)?))
}

/// Whether `x` is a wait, and for the same as `y`.
pub fn is_same_wait(x: Option<Waiting>, y: Waiting) -> bool
    ensures { IsTrue result ↔ (x ≡ Some y) }
{
    x == Some(y)
}
