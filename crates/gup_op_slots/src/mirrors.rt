//! Mirrors: a slot is filled with a page, and a word is read through it.
ghost use Rattle.std.specs.Prelude.{◌≡◌, ◌≤◌, true, Some, None};
ghost use Rattle.gup_frames.specs.Frames.{frames_of, IsFrame};
ghost use Rattle.gup_space.specs.Space.{space_of};
ghost use Rattle.gup_notify.specs.Mirrors.{Filled, mirrors_of};
ghost use Rattle.gup_spec_turns.specs.MirrorTurns.{mirror_turn, look_turn};
ghost use Rattle.gup_op_base.specs.Tidy.{IsTidy};
ghost use Rattle.gup_op_base.specs.Said.{TellsTurn, whats_of};
ghost use Rattle.gup_op_base.specs.Turns.{IsTurnOf, Anywhere};
ghost use Rattle.gup_op_slots.specs.Mirroring.{ShowsMirroring, mirroring_view, ShowsLooking, looking_view};

use gup_base::{MirrorNo, PageNo, ProcNo, WordNo};
use gup_fault::answer_of;
use gup_frames::Frames;
use gup_notify::Mirrors;
use gup_op_base::Head;
use gup_op_pages::make_present;
use gup_plain::{Answer, Journal, PlainEvent};
use gup_space::Space;

/// Fills the slot with the page of the process, and with the frame that the page has. The page is made present as a load does
/// it, as Linux's `hmm_range_fault` (`mm/hmm.c`) faults a page by `handle_mm_fault` before it hands out its frame; no reference
/// of the frame is taken, and what the slot was filled with before is gone. A page without a mapping is refused with `Missing`,
/// and one that lacks a page table or finds no frame with `NoFrame`, and then the slot stays as it was. With that the operation
/// is over.
#[inline]
pub fn mirror(
    space: &mut Space,
    frames: &mut Frames,
    mirrors: &mut Mirrors,
    journal: &mut Journal,
    head: &Head,
    proc: ProcNo,
    mirror: MirrorNo,
    page: PageNo,
)
    requires tidy { IsTidy (frames_of frames.old) (space_of space.old) }
    requires table { (space_of space.old).table ≡ None }
    requires room { 3 ≤ journal.old.room }
    ensures turn { TellsTurn head.now journal.old journal.new true
        (λ said. IsTurnOf (ShowsMirroring proc) Anywhere
        (mirroring_view frames.old space.old mirrors.old)
        (mirroring_view frames.new space.new mirrors.new)
        (λ s. mirror_turn s head.now.actor proc mirror page (s.entry proc page)) (whats_of said)) }
{
    match make_present(space, frames, page) {
        Ok(()) => {
            mirrors.fill(mirror, proc, page, space);
            let event = PlainEvent::MirrorFill {
                actor: head.actor,
                mirror,
                proc,
                page,
            };
            head.done(journal, event, Answer::Plain);
        }
        Err(denied) => head.answered(journal, answer_of(denied)),
    }
}

/// Reads this word through the slot, from the frame that it was filled with and without a look at the process, as
/// `dmirror_do_read` of Linux's `lib/test_hmm.c` reads through the device's own table. An empty slot answers `Stale`, and a new
/// `mirror` fills it again. That is this project's own: Linux's test device faults there and fills its table by itself. Either
/// way the operation is over.
#[inline]
pub fn look(
    frames: &Frames,
    mirrors: &Mirrors,
    journal: &mut Journal,
    head: &Head,
    mirror: MirrorNo,
    word: WordNo,
)
    requires there { (filled : Filled) → mirrors_of mirrors.now mirror ≡ Some filled
        → IsFrame (frames_of frames.now) filled.frame }
    requires room { 3 ≤ journal.old.room }
    ensures turn { TellsTurn head.now journal.old journal.new true
        (λ said. IsTurnOf ShowsLooking Anywhere
        (looking_view frames.now mirrors.now) (looking_view frames.now mirrors.now)
        (λ s. look_turn s head.now.actor mirror word (s.mirrored mirror)) (whats_of said)) }
{
    match mirrors.look(mirror, frames, word) {
        Some(value) => {
            let event = PlainEvent::Look {
                actor: head.actor,
                mirror,
                word,
                value,
            };
            head.done(journal, event, Answer::Value(value));
        }
        None => head.answered(journal, Answer::Stale),
    }
}
