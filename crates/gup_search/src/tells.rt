//! What the named operations have told so far: a list in which the tells of each of them stand in order.
ghost use Rattle.std.specs.Prelude.{◌≡◌, ℕ, ◌≤◌, ◌<◌, ◌++◌, [], ◌∷◌, OnOk, length, take, drop};
ghost use Rattle.std.specs.List.{All};
ghost use Rattle.gup_spec_orders.specs.Orders.{told_of, is_of};
ghost use Rattle.gup_search.specs.Search.{GoUp, KeepsOrder, Puts, Tells};
ghost use Rattle.gup_spec_orders.specs.declared.told.Tell.{Tell as TellValue};

use gup_base::NoMemory;
use gup_plain::{Note, PlainEvent, What};
use gup_spec_orders::{Named, Tell, Told};

/// Puts in what the notes tell of the named operations.
pub(crate) fn tell_notes(
    tells: &mut Vec<Tell>,
    named: &[Named],
    notes: &[Note],
) -> Result<(), NoMemory>
    ensures tells { OnOk result (Tells named.now tells.old.items tells.new.items notes.now) }
    ensures in_order { OnOk result (KeepsOrder named.now tells.old.items tells.new.items) }
{
    for note in notes {
        tell_note(tells, named, note)?;
    }
    Ok(())
}

fn tell_note(tells: &mut Vec<Tell>, named: &[Named], note: &Note) -> Result<(), NoMemory>
    ensures tells { OnOk result (Tells named.now tells.old.items tells.new.items (note.now ∷ [])) }
    ensures in_order { OnOk result (KeepsOrder named.now tells.old.items tells.new.items) }
{
    let Some(told) = telling(note.what()) else {
        return Ok(());
    };
    for (name, operation) in named.iter().enumerate() {
        if is_note_of(note, operation) {
            put_tell(tells, Tell { name, told })?;
        }
    }
    Ok(())
}

// What a note tells that says this.
fn telling(what: What) -> Option<Told>
    ensures { result ≡ told_of what }
{
    match what {
        What::Event(PlainEvent::MoveOut { value, .. } | PlainEvent::MoveIn { value, .. }) => {
            Some(Told::Word(value))
        }
        What::Done(answer) => Some(Told::Answer(answer)),
        _ => None,
    }
}

fn is_note_of(note: &Note, operation: &Named) -> bool
    ensures { result ≡ is_of operation.now note.now }
{
    note.actor().get() == operation.actor.get() && note.op() == operation.op
}

// Puts it behind all that is told of operations up to its own. So the tells stay in the order of their operations, and the same tells
// of each operation are the same list.
fn put_tell(tells: &mut Vec<Tell>, tell: Tell) -> Result<(), NoMemory>
    ensures puts { OnOk result (Puts tells.old.items tells.new.items tell) }
    ensures in_order { OnOk result ((end : ℕ) → tell.name < end → GoUp 0 end tells.old.items → GoUp 0 end tells.new.items) }
{
    let at = place_of(tells.as_slice(), tell.name);
    tells.insert(at, tell)?;
    Ok(())
}

// The place behind the last tell of an operation up to this one.
fn place_of(tells: &[Tell], name: usize) -> usize
    ensures within { result ≤ length tells.now }
    ensures behind { All (λ (tell : TellValue). name < tell.name) (drop result tells.now) }
    ensures before { (from end : ℕ) → GoUp from end tells.now → All (λ (tell : TellValue). tell.name ≤ name) (take result tells.now) }
{
    let mut at = tells.len();
    while at > 0 && name < tells[at - 1].name {
        at -= 1;
    }
    at
}
