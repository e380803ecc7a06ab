//! Transfers of words between the pages of a pin and the store of a device.
ghost use Rattle.std.specs.Prelude.{◌≡◌, ℕ, ◌+◌, ◌*◌, ◌/◌, ◌%◌, ◌==◌, ◌≤◌, ◌<◌, length, slice_get, IfOk, IfErr, OnOk, Some, None};
ghost use Rattle.gup_base.specs.Parts.{words_of, word_at};
ghost use Rattle.gup_plain.specs.declared.answer.Answer.{Answer as AnswerValue};
ghost use Rattle.gup_frames.specs.Frames.{frames_of, IsFrame};
ghost use Rattle.gup_device.specs.Store.{store_of, IsSlot};
ghost use Rattle.gup_handles.specs.Handles.{handles_of};
ghost use Rattle.gup_spec_journal.specs.Follows.{moves_word};
ghost use Rattle.gup_spec_turns.specs.DeviceTurns.{transfer_turn};
ghost use Rattle.gup_op_base.specs.Said.{Tells, TellsTurn, whats_of, happened_said};
ghost use Rattle.gup_op_base.specs.Turns.{IsTurnOf};
ghost use Rattle.gup_op_pins.specs.Pins.{IsWeighed};
ghost use Rattle.gup_op_devices.specs.Transfers.{IsWhole, HasMoved, IsMoved, IsFound, refusal_in};
ghost use Rattle.gup_op_pins.specs.Held.{ShowsHeld, IsRefused, held_view, slots_in};

use gup_base::{ActorNo, FrameNo, HandleNo, Parts};
use gup_device::Store;
use gup_dio::{Job, Place};
use gup_frames::Frames;
use gup_handles::Handles;
use gup_op_base::Head;
use gup_plain::{Answer, Journal, PlainEvent};

/// One word of a transfer of words in parts, of which `far` are moved: the next word of the parts, out into slot
/// `slot` + `far` of the actor's store, or in from there. A device reads and writes frames and no pages: no fault comes,
/// and no page table is read. Answers whether the operation is over.
///
/// The transfer is refused as a whole, before its first word moves: `NotHeld` where the actor doesn't hold the pin, then
/// `Forbidden` where it would write the pages of a pin to read, then `Range` where a word of a part lies past the pin's
/// pages or a slot past the store.
#[inline(never)]
pub fn transfer(
    frames: &mut Frames,
    handles: &Handles,
    store: &mut Option<Store>,
    journal: &mut Journal,
    head: &Head,
    handle: HandleNo,
    outward: bool,
    slot: u32,
    parts: &Parts,
    far: u16,
) -> bool
    requires weighed { IsWeighed (frames_of frames.old) (handles_of handles.now handle) }
    requires within { far < words_of parts.now }
    requires most { words_of parts.now ≤ 64 }
    requires room { 3 ≤ journal.old.room }
    ensures slots { slots_in store.new ≡ slots_in store.old }
    ensures turn { TellsTurn head.now journal.old journal.new result
        (λ said. IsTurnOf (ShowsHeld head.now.actor) (λ s. IsWhole s head.now.actor handle)
        (held_view frames.old handles.now store.old) (held_view frames.new handles.now store.new)
        (λ s. transfer_turn s head.now.actor (slots_in store.old) handle outward slot parts.now far) (whats_of said)) }
    ensures moved { refusal_in (handles_of handles.now handle) head.now.actor outward (slots_in store.old) slot parts.now ≡ None
        → TellsTurn head.now journal.old journal.new result
        (λ said. IsMoved (held_view frames.old handles.now store.old) (held_view frames.new handles.now store.new)
        head.now.actor handle outward (word_at parts.now far) (slot + far) (far + 1 == words_of parts.now) said) }
    ensures refused { (denied : AnswerValue)
        → refusal_in (handles_of handles.now handle) head.now.actor outward (slots_in store.old) slot parts.now ≡ Some denied
        → TellsTurn head.now journal.old journal.new result
        (λ said. IsRefused (held_view frames.old handles.now store.old) (held_view frames.new handles.now store.new) denied said) }
{
    let slots = slots_of(store);
    let job = Job::new(slot, parts);
    match find(handles, head.actor, handle, outward, slots, &job, far) {
        Err(denied) => {
            head.answered(journal, denied);
            true
        }
        Ok(found) => {
            // What isn't refused has a store.
            let Some(store) = store else {
                head.answered(journal, Answer::Range);
                return true;
            };
            let value = move_word(frames, store, found.frame, found.place, outward);
            tell_moved(journal, head, handle, outward, found.place, value);
            if found.last {
                head.answered(journal, Answer::Words);
            }
            found.last
        }
    }
}

// How many words the store has, if there is one.
#[inline]
fn slots_of(store: &Option<Store>) -> u16
    ensures { result ≡ slots_in store.now }
{
    match store {
        Some(store) => store.words(),
        None => 0,
    }
}

// The next word of a transfer: where it is, the frame that has it, and whether it is the last one.
#[derive(Clone, Copy)]
struct Found {
    place: Place,
    frame: FrameNo,
    last: bool,
}

// Where the next word of a transfer is, or what refuses the transfer.
#[inline]
fn find(
    handles: &Handles,
    actor: ActorNo,
    handle: HandleNo,
    outward: bool,
    slots: u16,
    job: &Job,
    far: u16,
) -> Result<Found, Answer>
    requires within { far < words_of job.now.parts }
    ensures refused { IfErr result
        (λ denied. refusal_in (handles_of handles.now handle) actor outward slots job.now.first_slot job.now.parts ≡ Some denied) }
    ensures unrefused { OnOk result
        (refusal_in (handles_of handles.now handle) actor outward slots job.now.first_slot job.now.parts ≡ None) }
    ensures found { IfOk result
        (λ found. IsFound (handles_of handles.now handle) job.now.first_slot job.now.parts far
        found.place.index found.place.slot found.frame found.last) }
{
    let Ok((pages, may_write)) = handles.pages(handle, actor) else {
        return Err(Answer::NotHeld);
    };
    if !outward && !may_write {
        return Err(Answer::Forbidden);
    }
    if !job.fits(pages.len() as u8, slots) {
        return Err(Answer::Range);
    }
    let place = job.at(far);
    Ok(Found {
        place,
        frame: frame_at(pages, place),
        last: far + 1 == u16::from(job.words()),
    })
}

// The frame that has the word.
#[inline]
fn frame_at(pages: &[FrameNo], place: Place) -> FrameNo
    requires { place.index < 512 * length pages.now }
    ensures { slice_get pages.now (place.index / 512) ≡ Some result }
{
    pages[place.page()]
}

// Moves a word of the frame out into its slot, or in from there.
#[inline]
fn move_word(
    frames: &mut Frames,
    store: &mut Store,
    frame: FrameNo,
    place: Place,
    outward: bool,
) -> u64
    requires slot { IsSlot (store_of store.old) place.slot }
    requires there { IsFrame (frames_of frames.old) frame }
    ensures { HasMoved outward (frames_of frames.old) (frames_of frames.new) store.old store.new frame (place.index % 512) place.slot result }
{
    if outward {
        store.word_out(frames, frame, place.word(), place.slot)
    } else {
        store.word_in(frames, frame, place.word(), place.slot)
    }
}

// Says that a word moved.
#[inline]
fn tell_moved(
    journal: &mut Journal,
    head: &Head,
    handle: HandleNo,
    outward: bool,
    place: Place,
    value: u64,
)
    requires room { 1 ≤ journal.old.room }
    ensures says { Tells head.now journal.old journal.new
        (happened_said (moves_word head.now.actor handle outward place.index place.slot value)) }
    ensures room { journal.old.room ≤ journal.new.room + 1 }
{
    let actor = head.actor;
    let index = place.index;
    let slot = u32::from(place.slot);
    if outward {
        head.happened(
            journal,
            PlainEvent::MoveOut {
                actor,
                handle,
                index,
                slot,
                value,
            },
        );
    } else {
        head.happened(
            journal,
            PlainEvent::MoveIn {
                actor,
                handle,
                index,
                slot,
                value,
            },
        );
    }
}
