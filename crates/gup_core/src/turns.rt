//! What a turn takes: its number, its operation, and the process of its actor.
ghost use Rattle.std.specs.Prelude.{◌≡◌, ◌<◌, false, length, slice_get, Some, None, Option, MatchOption};
ghost use Rattle.gup_script.specs.declared.op.Kind.TheVariants.{Thread};
ghost use Rattle.gup_spec_journal.specs.Place.{ops_of, doer_of};
ghost use Rattle.gup_script.specs.Script.{is_thread};
ghost use Rattle.gup_op_waits.specs.Doers.{IsProcessOf};
ghost use Rattle.gup_core.specs.Machine.{counted};

use gup_base::{ActorNo, ProcNo};
use gup_script::{Kind, Op, Script};

/// The number of the turn after so many. It stays at the last value of 32 bits.
pub fn next_turn(turns: u32) -> u32
    ensures { result ≡ counted turns }
{
    turns.saturating_add(1)
}

/// The operation at this place.
pub fn op_at(ops: &[Op], k: u32) -> Option<&Op>
    ensures { MatchOption result (slice_get ops.now k ≡ None) (λ op. slice_get ops.now k ≡ Some op.now) }
{
    ops.get(k as usize)
}

/// The operations of an actor.
pub fn ops(script: &Script, actor: ActorNo) -> &[Op]
    requires { actor < length script.now.actors }
    ensures { result.now ≡ ops_of script.now actor }
{
    script.ops(actor)
}

/// The process of this operation of the actor: that of a thread, and the one that a move or a mirror names. What a device does
/// by itself is of none.
#[inline(always)]
pub fn process(script: &Script, actor: ActorNo, op: &Op) -> Option<ProcNo>
    requires { actor < length script.now.actors }
    ensures { IsProcessOf (doer_of script.now actor (Some op.now)) result }
{
    match op {
        Op::Move { proc, .. } | Op::Mirror { proc, .. } => Some(*proc),
        _ => process_named(script.kind(actor)),
    }
}

fn process_named(kind: Kind) -> Option<ProcNo>
    ensures { MatchOption result (is_thread kind ≡ false) (λ p. kind ≡ Thread p) }
{
    match kind {
        Kind::Thread(proc) => Some(proc),
        Kind::Device(_) | Kind::Mover => None,
    }
}
