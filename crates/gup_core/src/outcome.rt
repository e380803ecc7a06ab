//! What comes of asking an actor for its turn.
ghost use Rattle.std.specs.Prelude.{◌≡◌, ℕ, Bool, Some};
ghost use Rattle.gup_script.specs.declared.op.Op.TheVariants.{Pin, Move, Fork};
ghost use Rattle.gup_base.specs.declared.entry.Want.{Want};
ghost use Rattle.gup_base.specs.declared.entry.Zone.{Zone};
ghost use Rattle.gup_law_waits.specs.Woken.{wakes};
ghost use Rattle.gup_op_base.specs.Jobs.{place_of};
ghost use Rattle.gup_core.specs.Waking.{woken_of};

use gup_base::ActorNo;
use gup_op_base::JobPlace;
use gup_plain::Waiting;
use gup_script::Op;

/// Who may be able to go after a turn, and could not before it. All others who waited or had finished still do.
#[derive(Clone, Copy, Debug)]
pub enum Woken {
    Nobody,
    /// This actor alone, to whom a pin was given.
    One(ActorNo),
    /// Whoever waits: a fork is over, or between two pages, a move is over, or a long pin is in the middle of no page.
    Everybody,
}

/// What came of asking an actor for its turn.
#[derive(Clone, Copy, Debug)]
pub enum Advanced {
    /// It has taken its turn, which may have woken these.
    Moved(Woken),
    /// It waits for this.
    Waits(Waiting),
    /// It has answered all its operations.
    Finished,
}

/// Whom a turn of the operation may have woken, after which its actor's job stands there.
pub(crate) fn woken_by(op: &Op, place: &JobPlace) -> Woken
    ensures { woken_of result ≡ wakes (Some op.now) (place_of place.now) }
{
    match op {
        Op::Give { handle: _, to } => Woken::One(*to),
        Op::Fork { child: _ } => woken_by_fork(place),
        Op::Move { .. } => woken_by_move(place),
        Op::Pin { want, .. } => woken_by_pin(want.long, place),
        _ => Woken::Nobody,
    }
}

fn woken_by_fork(place: &JobPlace) -> Woken
    ensures { (child : ℕ) → woken_of result ≡ wakes (Some (Fork child)) (place_of place.now) }
{
    match place {
        JobPlace::Unbegun | JobPlace::From(_) => Woken::Everybody,
        _ => Woken::Nobody,
    }
}

// A short pin is in the middle of nothing after a turn, and holds no lock before it.
fn woken_by_pin(long: bool, place: &JobPlace) -> Woken
    ensures { (handle page n : ℕ) (want : Want) (fast : Bool) → long ≡ want.long
        → woken_of result ≡ wakes (Some (Pin handle page n want fast)) (place_of place.now) }
{
    match place {
        JobPlace::Unbegun if long => Woken::Everybody,
        _ => Woken::Nobody,
    }
}

fn woken_by_move(place: &JobPlace) -> Woken
    ensures { (proc page : ℕ) (zone : Zone) → woken_of result ≡ wakes (Some (Move proc page zone)) (place_of place.now) }
{
    match place {
        JobPlace::Unbegun => Woken::Everybody,
        _ => Woken::Nobody,
    }
}
