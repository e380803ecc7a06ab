//! Whether a note is of the turn that it may be of.
ghost use Rattle.std.specs.Prelude.{◌≡◌, ◌↔◌, IsTrue, slice_get};
ghost use Rattle.gup_spec_accepted.specs.Turns.{BeginsTurn, IsWrittenFor};
ghost use Rattle.gup_spec_check.specs.Seen.{Seen, FitsTurn};
ghost use Rattle.gup_spec_check.specs.Times.{Times};
ghost use Rattle.gup_check_state.specs.Shows.{Shows};

use gup_base::ActorNo;
use gup_check_state::Kept;
use gup_plain::Note;
use gup_script::Script;

/// Whether the note is of the last note's turn, or begins the next.
pub(crate) fn fits_turn(kept: &Kept, script: &Script, note: &Note) -> bool
    ensures { (seen : Seen) (times : Times) → Shows script.now kept.now seen times
        → IsTrue result ↔ FitsTurn script.now seen.last note.now }
{
    match kept.last {
        None => begins_turn(script, 0, note),
        Some((turn, actor)) => is_of_turn(turn, actor, note) || begins_turn(script, turn, note),
    }
}

fn is_of_turn(turn: u32, actor: ActorNo, note: &Note) -> bool
    ensures { IsTrue result ↔ ((note.now.turn ≡ turn) × (note.now.actor ≡ actor)) }
{
    note.turn() == turn && note.actor() == actor
}

// Whether the note is of the turn after this one. If the script writes that, it is of the written actor.
fn begins_turn(script: &Script, turn: u32, note: &Note) -> bool
    ensures { IsTrue result ↔ BeginsTurn script.now turn note.now }
{
    u64::from(note.turn()) == u64::from(turn) + 1 && is_written_for(script, turn, note.actor())
}

fn is_written_for(script: &Script, turn: u32, actor: ActorNo) -> bool
    ensures { IsTrue result ↔ IsWrittenFor (slice_get script.now.turns turn) actor }
{
    match script.turns().get(turn as usize) {
        None => true,
        Some(written) => *written == actor,
    }
}
