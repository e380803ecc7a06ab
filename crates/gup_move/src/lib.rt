//! Moves: what the steps of a move do to a page's entry and to frames (of Linux's `migrate_pages`, `mm/migrate.c`,
//! for private anonymous memory).
//!
//! A move clears the entry, then reads the count of its frame, and then places the page in another frame, or restores
//! the entry. That the table lock is kept from the first of these to the last is this project's own: Linux frees it,
//! and who comes upon the cleared entry waits (`migration_entry_wait`).
#![tactic(auto)]

ghost use Rattle.std.specs.Prelude.{◌≡◌, ℕ, [], ◌∷◌, Some, None, IsSome, is_err, is_none};
ghost use Rattle.gup_base.specs.declared.entry.Allowed.{Allowed as AllowedValue};
ghost use Rattle.gup_frames.specs.Frames.{FrameLists, frames_of, free_frame, IsFrame};
ghost use Rattle.gup_spec_events.specs.State.{Counted};
ghost use Rattle.gup_spec_events.specs.Event.{clear_entry, count_moved, restore_entry, entry_of};
ghost use Rattle.gup_space.specs.Space.{SpaceParts, space_of, with_entry, lacking};
ghost use Rattle.gup_space.specs.Shows.{change_of};
ghost use Rattle.gup_move.specs.Moves.{with_table, AreMoveEvents, moved, IsOfZones, places};

use gup_base::{Allowed, Entry, PageNo};
use gup_fault::NoFrame;
use gup_frames::Frames;
use gup_space::Space;

/// Takes the page's entry away, which it has, and answers it: from now on nobody comes to the frame through it (of
/// Linux's `try_to_migrate_one`, `mm/rmap.c`). Who moves takes the table lock with it.
#[inline]
pub fn clear(space: &mut Space, page: PageNo) -> Entry
    requires { IsSome ((space_of space.old).entry page) }
    ensures entry { (space_of space.old).entry page ≡ Some result }
    ensures space { space_of space.new ≡ with_entry page None (space_of space.old) }
    ensures events { (a : ℕ) (frames : FrameLists) (allowed : AllowedValue) → AreMoveEvents
        (with_table (Some a) (change_of frames frames space.old space.new))
        (λ p. clear_entry a p page result allowed ∷ []) }
{
    space.take_entry(page).unwrap()
}

/// The count of the frame of an entry that was cleared: at 1 nothing else refers to the frame, and the page may be
/// moved (of Linux's `__migrate_folio`, which gives up where there are further references; that a frame of two
/// entries isn't moved is this project's own, Linux clears both).
#[inline]
pub fn count(frames: &Frames, was: Entry) -> u64
    requires { IsFrame (frames_of frames.now) was.frame }
    ensures count { result ≡ (frames_of frames.now).count was.frame }
    ensures events { (a page : ℕ) (allowed : AllowedValue) (space : SpaceParts) → AreMoveEvents
        (change_of frames.now frames.now space space)
        (λ p. count_moved a p page was allowed result ∷ []) }
{
    frames.count(was.frame)
}

/// Moves the page, whose entry was cleared, which has all four page tables of its path, and whose frame had the count 1, to
/// the lowest free frame of the zones allowed. That frame gets the words and the mark of the old one, the page gets an entry of it with the old right to
/// write, and the old frame has a reference less (of Linux's `migrate_folio_move` and `remove_migration_pte`; that
/// the frame is taken after the count was read is this project's own, Linux takes it before it clears the entry). Who
/// moves frees the table lock with it.
///
/// Refused exactly where no frame of the zones allowed is free. The entry is restored then, and no frame changes.
pub fn place(
    space: &mut Space,
    frames: &mut Frames,
    page: PageNo,
    was: Entry,
    allowed: Allowed,
) -> Result<(), NoFrame>
    requires mapped { IsSome ((space_of space.old).right page) }
    requires absent { (space_of space.old).entry page ≡ None }
    requires path { lacking (space_of space.old) page ≡ 0 }
    requires there { IsFrame (frames_of frames.old) was.frame }
    requires held { (frames_of frames.old).count was.frame ≡ 0 → ⊥ }
    ensures refused { is_err result ≡ is_none (free_frame (frames_of frames.old) allowed) }
    ensures placed { (f : ℕ) → free_frame (frames_of frames.old) allowed ≡ Some f
        → (frames_of frames.new ≡ moved was.frame f (frames_of frames.old))
        × (space_of space.new ≡ with_entry page (Some (entry_of f was.writable)) (space_of space.old)) }
    ensures restored { free_frame (frames_of frames.old) allowed ≡ None
        → (frames_of frames.new ≡ frames_of frames.old)
        × (space_of space.new ≡ with_entry page (Some was) (space_of space.old)) }
    ensures words { (f : ℕ) → free_frame (frames_of frames.old) allowed ≡ Some f
        → (w : ℕ) → (frames_of frames.new).word f w ≡ (frames_of frames.old).word was.frame w }
    ensures zone { (f : ℕ) → free_frame (frames_of frames.old) allowed ≡ Some f
        → IsOfZones (frames_of frames.old) allowed f }
    ensures events { (a : ℕ) → AreMoveEvents
        (with_table None (change_of frames.old frames.new space.old space.new))
        (λ p. places a p page was allowed (free_frame (frames_of frames.old) allowed)) }
{
    let Some(frame) = frames.take_copy(allowed, was.frame) else {
        restore(space, page, was);
        return Err(NoFrame);
    };
    let marked = frames.mark(was.frame);
    frames.set_mark(frame, marked);
    let placed = Entry {
        frame,
        writable: was.writable,
    };
    space.set_entry(page, Some(placed));
    frames.put(was.frame, 1);
    Ok(())
}

/// Puts the entry back that was cleared, where the page isn't moved; the page still has all four page tables of its path (of
/// Linux's `migrate_folio_undo_src`). Who moves frees the table lock with it.
#[inline]
pub fn restore(space: &mut Space, page: PageNo, was: Entry)
    requires mapped { IsSome ((space_of space.old).right page) }
    requires absent { (space_of space.old).entry page ≡ None }
    requires path { lacking (space_of space.old) page ≡ 0 }
    ensures space { space_of space.new ≡ with_entry page (Some was) (space_of space.old) }
    ensures events { (a : ℕ) (frames : FrameLists) (allowed : AllowedValue) (count : Counted) → AreMoveEvents
        (with_table None (change_of frames frames space.old space.new))
        (λ p. restore_entry a p page was allowed count ∷ []) }
{
    space.set_entry(page, Some(was));
}
