//! What a fork does for a page that it copies: word by word into a frame, which then goes into the child's entry (of
//! Linux's `copy_present_page`).
ghost use Rattle.std.specs.Prelude.{◌≡◌, ℕ, [], ◌∷◌, List, Some, None, true, IsSome};
ghost use Rattle.gup_base.specs.declared.entry.Entry.{Entry as EntryValue};
ghost use Rattle.gup_base.specs.declared.entry.Rights.{Rights as RightsValue};
ghost use Rattle.gup_frames.specs.Frames.{frames_of, IsFrame, with_mark, with_word};
ghost use Rattle.gup_spec_events.specs.Event.{copy_word as copies_word, place_child as places_child, entry_of, is_writable};
ghost use Rattle.gup_space.specs.Space.{SpaceParts, space_of, with_entry, lacking};
ghost use Rattle.gup_space.specs.Counted.{IsCounted};
ghost use Rattle.gup_fork.specs.Forks.{fork_change_of, with_table, AreForkEvents};

use gup_base::{Entry, FrameNo, PageNo, Rights, WordNo};
use gup_frames::Frames;
use gup_space::Space;

/// Copies one word of the page, which has an entry, into the same word of frame `to`, which is another one and isn't
/// free: a word of Linux's `copy_user_highpage` (that it takes the words one by one is this project's own).
#[inline(always)]
pub fn copy_word(parent: &Space, frames: &mut Frames, page: PageNo, to: FrameNo, word: WordNo)
    requires entry { IsSome ((space_of parent.now).entry page) }
    requires counted { IsCounted (frames_of frames.old) (space_of parent.now) page }
    requires there { IsFrame (frames_of frames.old) to }
    requires held { (frames_of frames.old).count to ≡ 0 → ⊥ }
    requires apart { (e : EntryValue) → (space_of parent.now).entry page ≡ Some e → to ≡ e.frame → ⊥ }
    ensures frames { (e : EntryValue) → (space_of parent.now).entry page ≡ Some e
        → frames_of frames.new ≡ with_word to word ((frames_of frames.old).word e.frame word) (frames_of frames.old) }
    ensures events { (a : ℕ) (done : List ℕ) (child : SpaceParts) (e : EntryValue) → (space_of parent.now).entry page ≡ Some e
        → AreForkEvents (fork_change_of frames.old frames.new parent.now parent.now child child)
        (λ p c. copies_word a p c done page word to e ∷ []) }
{
    let Some(entry) = parent.entry(page) else {
        return;
    };
    let value = frames.word(entry.frame, word);
    frames.set_word(to, word, value);
}

// Whether the page, which is mapped, may be written.
#[inline]
fn may_write(child: &Space, page: PageNo) -> bool
    ensures { (rights : RightsValue) → (space_of child.now).right page ≡ Some rights → result ≡ is_writable rights }
{
    match child.rights_at(page) {
        Some(Rights::RW) => true,
        Some(Rights::R) | None => false,
    }
}

/// Gives the child's page, which has no entry, but all four page tables of its path, the copy: the frame gets its mark, and the child an entry of it, writable
/// exactly where the page may be written. The parent keeps its entry, and the frame that it pinned (the end of
/// `copy_present_page`). Whoever counted the page frees the table lock with it.
#[inline]
pub fn place_child(
    parent: &Space,
    child: &mut Space,
    frames: &mut Frames,
    page: PageNo,
    copy: FrameNo,
)
    requires entry { IsSome ((space_of parent.now).entry page) }
    requires there { IsFrame (frames_of frames.old) copy }
    requires held { (frames_of frames.old).count copy ≡ 0 → ⊥ }
    requires apart { (e : EntryValue) → (space_of parent.now).entry page ≡ Some e → copy ≡ e.frame → ⊥ }
    requires mapped { IsSome ((space_of child.old).right page) }
    requires absent { (space_of child.old).entry page ≡ None }
    requires path { lacking (space_of child.old) page ≡ 0 }
    ensures child { (rights : RightsValue) → (space_of child.old).right page ≡ Some rights
        → space_of child.new ≡ with_entry page (Some (entry_of copy (is_writable rights))) (space_of child.old) }
    ensures frames { frames_of frames.new ≡ with_mark copy true (frames_of frames.old) }
    ensures events { (a : ℕ) (done : List ℕ) (rights : RightsValue) → (space_of child.old).right page ≡ Some rights
        → AreForkEvents (with_table None (fork_change_of frames.old frames.new parent.now parent.now child.old child.new))
        (λ p c. places_child a p c done page copy rights ∷ []) }
{
    frames.set_mark(copy, true);
    let writable = may_write(child, page);
    child.set_entry(
        page,
        Some(Entry {
            frame: copy,
            writable,
        }),
    );
}
