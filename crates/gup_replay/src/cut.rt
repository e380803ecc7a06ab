//! Notes cut into turns.
ghost use Rattle.std.specs.Prelude.{◌≡◌, ◌++◌, ◌↔◌, IsSome, IsTrue, IfSome, length, ◌<◌};
ghost use Rattle.gup_replay.specs.Turns.{IsTurn, IsOfTurn};

use gup_plain::Note;

/// The notes of the first turn, which are all those of one number and one actor, and the rest. There is none where there is no note.
pub fn cut_turn(notes: &[Note]) -> Option<(&[Note], &[Note])>
    ensures cut { IfSome result (λ cut. (notes.now ≡ cut.0.now ++ cut.1.now) × IsTurn cut.0.now cut.1.now) }
    ensures some { 0 < length notes.now → IsSome result }
{
    if notes.is_empty() {
        return None;
    }
    let first = &notes[0];
    for end in 1..notes.len() {
        if !is_of_turn(first, &notes[end]) {
            return Some((&notes[..end], &notes[end..]));
        }
    }
    Some((notes, &notes[notes.len()..]))
}

// Whether the note is of the same turn as the first one.
fn is_of_turn(first: &Note, note: &Note) -> bool
    ensures { IsTrue result ↔ IsOfTurn first.now.turn first.now.actor note.now }
{
    note.turn() == first.turn() && note.actor().get() == first.actor().get()
}
