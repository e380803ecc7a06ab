//! Which turns are one row.
use gup_plain::{Note, PlainEvent, What};
use gup_replay::cut_turn;

/// How many of the notes are the first row: those of the first turn, or of like turns one after another. A note that can't be
/// is in no row with others' turns.
pub(crate) fn row_length(notes: &[Note], at: usize, wrong: Option<usize>) -> usize {
    let first = turn_length(notes);
    if first != 1 {
        return first;
    }
    for k in 1..notes.len() {
        if is_wrong(at, k, wrong)
            || !goes_on(&notes[k - 1], &notes[k])
            || turn_length(&notes[k..]) != 1
        {
            return k;
        }
    }
    notes.len()
}

// Whether the note behind k others from this place on can't be, or the one before it.
fn is_wrong(at: usize, k: usize, wrong: Option<usize>) -> bool {
    match wrong {
        Some(wrong) => {
            let place = at.saturating_add(k);
            wrong == place || wrong.saturating_add(1) == place
        }
        None => false,
    }
}

// Whether one turn goes on with what another did.
fn goes_on(last: &Note, next: &Note) -> bool {
    last.actor().get() == next.actor().get()
        && last.op() == next.op()
        && last.turn() != next.turn()
        && is_like(last.what(), next.what())
}

fn is_like(last: What, next: What) -> bool {
    match (last, next) {
        (What::Event(last), What::Event(next)) => are_of_one_page(copied(last), copied(next)),
        (What::Wait(x), What::Wait(y)) => x == y,
        (What::Idle, What::Idle) => true,
        _ => false,
    }
}

/// A word that a fork copies: its number in the page, the page, and the child.
#[derive(Clone, Copy)]
pub(crate) struct CopiedWord {
    pub(crate) child: u64,
    pub(crate) page: u64,
    pub(crate) word: u64,
}

/// The word that an event copies.
pub(crate) fn copied(event: PlainEvent) -> Option<CopiedWord> {
    match event {
        PlainEvent::ForkWord {
            child,
            page,
            word,
            ..
        } => Some(CopiedWord {
            child: child.get(),
            page: page.get(),
            word: word.get(),
        }),
        _ => None,
    }
}

fn are_of_one_page(last: Option<CopiedWord>, next: Option<CopiedWord>) -> bool {
    match (last, next) {
        (Some(last), Some(next)) => last.child == next.child && last.page == next.page,
        _ => false,
    }
}

fn turn_length(notes: &[Note]) -> usize {
    match cut_turn(notes) {
        Some((turn, _)) => turn.len(),
        None => 0,
    }
}
