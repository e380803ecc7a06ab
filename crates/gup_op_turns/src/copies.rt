//! The turn of a fork that copies a word. Most turns of a fork that copies pages are such, and they touch no more than the
//! parent's page and the two frames.
ghost use Rattle.std.specs.Prelude.{◌≡◌, ℕ, ◌<◌, ◌≤◌, false, length, IfSome, List};
ghost use Rattle.gup_spec_events.specs.State.{Taken};
ghost use Rattle.gup_script.specs.declared.op.Op.TheVariants.{Fork};
ghost use Rattle.gup_frames.specs.Frames.{frames_of};
ghost use Rattle.gup_spec_turns.specs.Turn.{op_turn};
ghost use Rattle.gup_spec_turns.specs.JobPlace.{JobPlace as Place};
ghost use Rattle.gup_op_base.specs.Said.{TellsTurn, whats_of};
ghost use Rattle.gup_op_base.specs.Turns.{IsTurnOf};
ghost use Rattle.gup_op_base.specs.Tidy.{IsTidy};
ghost use Rattle.gup_op_waits.specs.Parts.{EachSpace};
ghost use Rattle.gup_op_waits.specs.Stands.{StandsAt};
ghost use Rattle.gup_op_turns.specs.Copies.{IsCopyAt, copying, copied};
ghost use Rattle.gup_op_turns.specs.Goes.{ShowsAll, all_view, IsForkReady};
ghost use Rattle.gup_op_waits.specs.Seats.{seat_behind};

use gup_base::{FrameNo, PageNo, ProcNo, WordNo};
use gup_op_base::{Head, JobPlace};
use gup_op_fork::word_turn;
use gup_op_waits::seats::Seat;
use gup_op_waits::{Birth, Parts, birth_of, set_birth};
use gup_plain::Journal;
use gup_script::Op;

/// A word that a fork of `proc` into `child` copies, of this page into that frame.
#[derive(Clone, Copy, Debug)]
pub struct WordCopy {
    pub proc: ProcNo,
    pub child: ProcNo,
    pub page: PageNo,
    pub word: WordNo,
    pub to: FrameNo,
}

/// The word that the next turn of the operation copies, before which its actor stands there, if that is a turn of a born
/// process's fork that copies one. Such a turn waits for nobody.
#[inline(always)]
pub fn copy_at(births: &Vec<Birth>, proc: Option<ProcNo>, seat: &Seat, op: &Op) -> Option<WordCopy>
    requires { IfSome proc (λ p. p < length births.now.items) }
    ensures { IfSome result (IsCopyAt births.now.items proc seat.now.job op.now) }
{
    let proc = proc?;
    let JobPlace::Copying { page, word, to } = seat.job else {
        return None;
    };
    let Op::Fork { child } = op else {
        return None;
    };
    let word = WordNo::new(u64::from(word))?;
    if !matches!(birth_of(births, proc), Birth::Born) {
        return None;
    }
    Some(WordCopy {
        proc,
        child: *child,
        page,
        word,
        to,
    })
}

/// Takes the turn that copies this word, and puts its note on. The fork goes on.
#[inline(always)]
pub fn take_copy(parts: &mut Parts, journal: &mut Journal, head: &Head, copy: &WordCopy)
    requires there { copy.now.proc < length parts.old.spaces.items }
    requires tidy { EachSpace (IsTidy (frames_of parts.old.frames)) parts.old.spaces.items }
    requires fork { IsForkReady (frames_of parts.old.frames) parts.old.spaces.items parts.old.births.items
        head.now.actor copy.now.proc copy.now.child (copying copy.now) }
    requires room { 1 ≤ journal.old.room }
    ensures spaces { parts.new.spaces ≡ parts.old.spaces }
    ensures births { length parts.new.births.items ≡ length parts.old.births.items }
    ensures taken { parts.new.taken ≡ parts.old.taken }
    ensures stores { parts.new.stores ≡ parts.old.stores }
    ensures turn { TellsTurn head.now journal.old journal.new false
        (λ said. (slots k : ℕ) (others : ℕ → Place) (left : ℕ → List Taken)
        → IsTurnOf (ShowsAll head.now.actor (Fork copy.now.child)) (λ s. StandsAt s head.now.actor copy.now.proc k (Fork copy.now.child))
        (all_view parts.old (copying copy.now) others left) (all_view parts.new (copied copy.now) others left)
        (λ s. op_turn s head.now.actor copy.now.proc slots k (Fork copy.now.child)) (whats_of said)) }
{
    word_turn(
        &parts.spaces[copy.proc.get() as usize],
        &mut parts.frames,
        journal,
        head,
        copy.proc,
        copy.child,
        copy.page,
        copy.word,
        copy.to,
    );
    set_birth(&mut parts.births, copy.child, Birth::Growing);
}

/// Where the actor stands after it.
#[inline(always)]
pub fn seat_after(seat: &Seat, copy: &WordCopy) -> Seat
    ensures { result ≡ seat_behind seat.now (Fork copy.now.child) false (copied copy.now) }
{
    Seat {
        answered: seat.answered,
        far: 0,
        job: JobPlace::Copying {
            page: copy.page,
            word: copy.word.get() as u16 + 1,
            to: copy.to,
        },
    }
}
