//! Denials by handles: of who doesn't hold one, and of transfers.
ghost use Rattle.std.specs.Prelude.{◌≡◌, ◌≤◌};
ghost use Rattle.gup_base.specs.Parts.{words_of};
ghost use Rattle.gup_plain.specs.Denial.{is_held_by, holder_denial, has_words, has_slots, transfer_denial};
ghost use Rattle.gup_spec_journal.specs.Denial.{has_reference};
ghost use Rattle.gup_exec_plain.specs.Parts.{state_of};
ghost use Rattle.gup_check_plain.specs.Referring.{references_of};

use crate::references::References;
use gup_base::{ActorNo, HandleNo, Parts};
use gup_exec_parts::pin::Pin;
use gup_exec_plain::Plain;
use gup_plain::Answer;

// The words of a page.
const WORDS: u64 = 512;

// What denies an actor to give a pin away or back.
pub(crate) fn pin_holder_denial(plain: &Plain, handle: HandleNo, actor: ActorNo) -> Option<Answer>
    ensures { result ≡ holder_denial (is_held_by ((state_of plain.now).handle handle) actor) }
{
    holder_denial(is_held_by(plain.handle(handle), actor))
}

// What denies an actor to put a reference back.
pub(crate) fn reference_holder_denial(
    references: &References,
    handle: HandleNo,
    actor: ActorNo,
) -> Option<Answer>
    ensures { result ≡ holder_denial (has_reference (references_of references.now handle) actor) }
{
    holder_denial(has_reference(references, handle, actor))
}

// What denies an actor with so many slots to transfer words.
pub(crate) fn transfer_denial(
    pin: &Pin,
    actor: ActorNo,
    outward: bool,
    slots: u16,
    first: u32,
    parts: &Parts,
) -> Option<Answer>
    requires { words_of parts.now ≤ 64 }
    ensures { result ≡ transfer_denial pin.now actor outward slots first parts.now }
{
    if !is_held_by(pin, actor) {
        return Some(Answer::NotHeld);
    }
    if !outward && !pin.may_write() {
        return Some(Answer::Forbidden);
    }
    if has_words(pin.pages(), parts) && has_slots(slots, first, parts) {
        None
    } else {
        Some(Answer::Range)
    }
}

// Whether the actor holds the pin.
fn is_held_by(pin: &Pin, actor: ActorNo) -> bool
    ensures { result ≡ is_held_by pin.now actor }
{
    pin.is_held_by(actor)
}

// Whether the actor has got the reference.
fn has_reference(references: &References, handle: HandleNo, actor: ActorNo) -> bool
    ensures { result ≡ has_reference (references_of references.now handle) actor }
{
    match references.get(handle) {
        None => false,
        Some(by) => by == actor,
    }
}

fn holder_denial(holds: bool) -> Option<Answer>
    ensures { result ≡ holder_denial holds }
{
    if holds { None } else { Some(Answer::NotHeld) }
}

// Whether the words of the parts are among those of so many pages.
fn has_words(pages: usize, parts: &Parts) -> bool
    ensures { result ≡ has_words pages parts.now }
{
    let words = WORDS.saturating_mul(pages as u64);
    parts
        .as_slice()
        .iter()
        .all(|part| u64::from(part.0) + u64::from(part.1) <= words)
}

// Whether there are slots for the words of the parts, from this one on.
fn has_slots(slots: u16, first: u32, parts: &Parts) -> bool
    requires { words_of parts.now ≤ 64 }
    ensures { result ≡ has_slots slots first parts.now }
{
    u64::from(first) + u64::from(words_of(parts)) <= u64::from(slots)
}

// How many words the parts have.
fn words_of(parts: &Parts) -> u8
    requires { words_of parts.now ≤ 64 }
    ensures { result ≡ words_of parts.now }
{
    let mut words = 0;
    for part in parts.as_slice() {
        words += part.1;
    }
    words
}
