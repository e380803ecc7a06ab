//! Where each actor stands.
ghost use Rattle.std.specs.Prelude.{◌≡◌, ℕ, ◌+◌, ◌<◌, ◌^◌, length, slice_get, Some, IfOk};
ghost use Rattle.gup_script.specs.Valid.{IsOp};
ghost use Rattle.gup_op_base.specs.Far.{HasFar};
ghost use Rattle.gup_op_waits.specs.Seats.{seat_behind, far_behind, first_seats};

use gup_base::{ActorNo, NoMemory};
use gup_op_base::JobPlace;
use gup_script::Op;
use std::alloc::Global;

/// Where an actor stands: how many operations it has answered, over how many pages or words the present one has gone, or how many
/// of its turns are over, if it is a pin, and where its job stands, if it is in the middle of one.
#[derive(Clone, Copy, Debug)]
pub struct Seat {
    pub answered: u32,
    pub far: u16,
    pub job: JobPlace,
}

/// So many actors before their first operation.
pub fn first(alloc: Global, actors: u8) -> Result<Vec<Seat>, NoMemory>
    ensures { IfOk result (λ seats. seats.items ≡ first_seats actors) }
{
    let seat = Seat {
        answered: 0,
        far: 0,
        job: JobPlace::Unbegun,
    };
    let seats = vec![in alloc; seat; actors as usize]?;
    Ok(seats)
}

/// Where the actor stands.
#[inline]
pub fn seat_of(seats: &Vec<Seat>, actor: ActorNo) -> Seat
    requires { actor < length seats.now.items }
    ensures { slice_get seats.now.items actor ≡ Some result }
{
    seats[actor.get() as usize]
}

/// From now on the actor stands there.
#[inline]
pub fn set_seat(seats: &mut Vec<Seat>, actor: ActorNo, seat: &Seat)
    requires { actor < length seats.old.items }
    ensures many { length seats.new.items ≡ length seats.old.items }
    ensures here { slice_get seats.new.items actor ≡ Some seat.now }
    ensures others { (b : ℕ) → (b ≡ actor → ⊥) → slice_get seats.new.items b ≡ slice_get seats.old.items b }
{
    seats[actor.get() as usize] = *seat;
}

/// After a turn of its present operation, which ended it or didn't, an actor stands at the next operation, or at the next page,
/// word or turn. Its job stands there already.
#[inline(always)]
pub fn go_on(seat: &mut Seat, op: &Op, answered: bool)
    requires few { seat.old.answered + 1 < 2 ^ 32 }
    requires op { IsOp op.now }
    requires far { HasFar op.now seat.old.far }
    ensures { seat.new ≡ seat_behind seat.old op.now answered seat.old.job }
{
    if answered {
        seat.answered += 1;
        seat.far = 0;
    } else {
        seat.far = far_of(op, seat.far);
    }
}

// Only an operation that goes over pages or words counts them, but for an unpin, and a pin counts its turns.
fn far_of(op: &Op, far: u16) -> u16
    requires op { IsOp op.now }
    requires far { HasFar op.now far }
    ensures { result ≡ far_behind op.now far }
{
    match op {
        Op::Unmap { .. } | Op::Discard { .. } | Op::Pin { .. } | Op::Transfer { .. } => far + 1,
        Op::Map { .. } | Op::Protect { .. } | Op::Load { .. } | Op::Store { .. } => 0,
        Op::Unpin { .. } | Op::Give { .. } | Op::Take { .. } => 0,
        Op::Get { .. } | Op::Put { .. } | Op::Mirror { .. } | Op::Look { .. } => 0,
        Op::Move { .. } | Op::Fork { .. } | Op::Exit => 0,
    }
}
