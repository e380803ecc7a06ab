//! A turn of an operation.
ghost use Rattle.std.specs.Prelude.{◌≡◌, ℕ, ◌≤◌, true, Some, None};
ghost use Rattle.gup_script.specs.Valid.{IsOp};
ghost use Rattle.gup_frames.specs.Frames.{frames_of};
ghost use Rattle.gup_space.specs.Space.{space_of};
ghost use Rattle.gup_spec_turns.specs.Turn.{op_turn};
ghost use Rattle.gup_op_base.specs.Tidy.{IsTidy, needs_table as table_needed};
ghost use Rattle.gup_op_base.specs.Said.{TellsTurn, whats_of};
ghost use Rattle.gup_op_base.specs.Turns.{IsTurnOf, Anywhere};
ghost use Rattle.gup_op_pages.specs.Alone.{IsAlone, ShowsAlone, alone_view};
ghost use Rattle.gup_op_base.specs.Far.{HasFar, far_in};

use crate::loads::{allows_store, load, store};
use crate::mappings::{map, protect};
use crate::unmaps::{discard, exit, unmap};
use gup_base::ProcNo;
use gup_frames::Frames;
use gup_op_base::{Head, page_behind};
use gup_plain::Journal;
use gup_script::Op;
use gup_space::Space;

/// Takes a turn of the operation, which is over one process and the frames and has gone over so many pages, and answers
/// whether the operation is over. Nobody holds the table lock, if the turn needs it.
#[inline]
pub fn take(
    space: &mut Space,
    frames: &mut Frames,
    journal: &mut Journal,
    head: &Head,
    proc: ProcNo,
    far: u16,
    op: &Op,
) -> bool
    requires tidy { IsTidy (frames_of frames.old) (space_of space.old) }
    requires table { table_needed (space_of space.old) op.now ≡ true → (space_of space.old).table ≡ None }
    requires op { IsOp op.now }
    requires far { HasFar op.now far }
    requires alone { IsAlone op.now }
    requires room { 3 ≤ journal.old.room }
    ensures { TellsTurn head.now journal.old journal.new result
        (λ said. (slots k : ℕ) → far ≡ far_in (Some op.now) k
        → IsTurnOf (ShowsAlone proc) Anywhere (alone_view frames.old space.old) (alone_view frames.new space.new)
        (λ s. op_turn s head.now.actor proc slots k op.now) (whats_of said)) }
{
    match op {
        Op::Load { page, word } => {
            load(space, frames, journal, head, proc, *page, *word);
            true
        }
        Op::Store { page, word, value } => {
            store(space, frames, journal, head, proc, *page, *word, *value);
            true
        }
        Op::Map { page, n, rights } => {
            map(space, frames, journal, head, proc, *page, *n, *rights);
            true
        }
        Op::Protect { page, n, rights } => {
            protect(space, frames, journal, head, proc, *page, *n, *rights);
            true
        }
        Op::Unmap { page, n } => {
            let next = page_behind(*page, far);
            unmap(space, frames, journal, head, proc, next, far + 1 == *n)
        }
        Op::Discard { page, n } => {
            let next = page_behind(*page, far);
            discard(space, frames, journal, head, proc, next, far + 1 == *n)
        }
        Op::Exit => exit(space, frames, journal, head, proc),
        _ => false,
    }
}

/// Whether a turn of the operation needs the table lock of its process: a load or a store does where its entry doesn't
/// allow it, and what is done with a pin, a reference or a mirror that is there does not.
pub fn needs_table(space: &Space, op: &Op) -> bool
    ensures { result ≡ table_needed (space_of space.now) op.now }
{
    match op {
        Op::Load { page, .. } => space.entry(*page).is_none(),
        Op::Store { page, .. } => !allows_store(space.entry(*page)),
        Op::Map { .. } | Op::Unmap { .. } | Op::Protect { .. } | Op::Discard { .. } => true,
        Op::Pin { .. } | Op::Get { .. } | Op::Mirror { .. } | Op::Fork { .. } | Op::Exit => true,
        Op::Unpin { .. } | Op::Give { .. } | Op::Take { .. } | Op::Transfer { .. } => false,
        Op::Put { .. } | Op::Look { .. } | Op::Move { .. } => false,
    }
}
