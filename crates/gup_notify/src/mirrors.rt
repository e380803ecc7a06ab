//! The mirror slots.
ghost use Rattle.std.specs.Prelude.{◌≡◌, ℕ, ◌<◌, ◌≤◌, ◌↔◌, IsTrue, None, Some, IsSome, IfOk, option_map};
ghost use Rattle.std.specs.Bool.{OnFalse};
ghost use Rattle.gup_base.specs.declared.entry.Entry.{Entry};
ghost use Rattle.gup_plain.specs.Put.{put};
ghost use Rattle.gup_spec_events.specs.State.{CoreState};
ghost use Rattle.gup_spec_events.specs.Event.{fill_mirror};
ghost use Rattle.gup_frames.specs.Frames.{frames_of, IsFrame};
ghost use Rattle.gup_space.specs.Space.{space_of};
ghost use Rattle.gup_space.specs.Shows.{ShowsFrames};
ghost use Rattle.gup_notify.specs.Mirrors.{Filled, mirrors_of, no_mirrors, IsAnyFilled, filled_with, is_of, without};
ghost use Rattle.gup_notify.specs.Shows.{ShowsMirrors, IsEvent, IsInvalidation};

use gup_base::{FrameNo, MirrorNo, NoMemory, PageNo, ProcNo, WordNo};
use gup_frames::Frames;
use gup_space::Space;
use std::alloc::Global;
use std::marker::Model;

// How many slots a number can name.
const SLOTS: usize = 64;

/// What a filled slot has: a process, a page of it, and the frame that the page's entry had then.
#[derive(Clone, Copy, Debug)]
pub struct Mirror {
    pub proc: ProcNo,
    pub page: PageNo,
    pub frame: FrameNo,
}

impl Mirror {
    // Whether it is of one of the `n` pages of the process from `page` on.
    #[inline]
    fn is_of(self, p: ProcNo, page: PageNo, n: u16) -> bool
        ensures { result ≡ is_of p page n (Some self) }
    {
        let first = page.get();
        let mirrored = self.page.get();
        p == self.proc && first <= mirrored && mirrored < first + u64::from(n)
    }
}

/// The 64 mirror slots of all devices. Through a filled one its device reads a page of a process without a pin, as Linux's
/// devices do through page tables of their own, which `hmm_range_fault` (`mm/hmm.c`) fills from those of the process. A
/// slot holds no reference to the page's frame: it is to be emptied before the page's entry goes, gets another frame or
/// loses the right to write.
#[derive(Drop)]
pub struct Mirrors {
    slots: Vec<Option<Mirror>>,
    // How many of them are filled.
    filled: u8,
}

impl Model for Mirrors {
    ghost use Rattle.std.specs.Prelude.{◌≡◌, List, Option, count_by, is_some, vec_len};
    ghost use Rattle.gup_notify.specs.Mirrors.{Filled};

    ghost Value = { List (Option Filled) };

    ghost view = { λ a. a.slots.items };

    ghost invariant = { λ a. (vec_len a.slots ≡ 64) × (a.filled ≡ count_by is_some a.slots.items) };
}

impl Mirrors {
    /// The 64 slots, all empty, and the memory for all that they will be: no other call takes any.
    pub fn new(alloc: Global) -> Result<Mirrors, NoMemory>
        ensures { IfOk result (λ mirrors. mirrors_of mirrors ≡ no_mirrors) }
    {
        let slots = vec![in alloc; None; SLOTS]?;
        Ok(Mirrors { slots, filled: 0 })
    }

    /// Whether one of the slots is filled, in a time that doesn't grow with anything (Linux's `mm_has_notifiers`, which asks
    /// whether anyone wants to be told).
    #[inline]
    pub fn is_any_filled(&self) -> bool
        ensures some { IsTrue result ↔ IsAnyFilled (mirrors_of self.now) }
        ensures none { OnFalse result (mirrors_of self.now ≡ no_mirrors) }
    {
        self.filled > 0
    }

    /// A law: no slot is filled but the 64.
    pub fn are_numbered(&self)
        ensures { (m : ℕ) → 64 ≤ m → mirrors_of self.now m ≡ None }
    {
        let _slots = &self.slots;
    }

    /// What the slot is filled with, if it is.
    #[inline]
    pub fn slot(&self, m: MirrorNo) -> Option<Mirror>
        ensures { result ≡ mirrors_of self.now m }
    {
        self.slots[m.get() as usize]
    }

    /// Fills the slot with this page of the process, whose space this is, and with the frame that the page's entry has now
    /// (of Linux's `hmm_vma_handle_pte`, `mm/hmm.c`). Whatever the slot was filled with is gone. A read-only entry serves as
    /// well as a writable one, since nothing is written through a slot.
    #[inline]
    pub fn fill(&mut self, m: MirrorNo, p: ProcNo, page: PageNo, space: &Space)
        requires { IsSome ((space_of space.now).entry page) }
        ensures filled { mirrors_of self.new
            ≡ put m (filled_with p page ((space_of space.now).entry page)) (mirrors_of self.old) }
        ensures event { (a : ℕ) (e : Entry) → (space_of space.now).entry page ≡ Some e
            → IsEvent (mirrors_of self.old) (mirrors_of self.new) (fill_mirror a m p page e.frame e.writable) }
    {
        let entry = space.entry(page).unwrap();
        let at = m.get() as usize;
        if self.slots[at].is_none() {
            self.filled += 1;
        }
        self.slots[at] = Some(Mirror {
            proc: p,
            page,
            frame: entry.frame,
        });
    }

    /// Reads this word of the frame that the slot has, without a look at the process or its entries (as `dmirror_do_read` of
    /// Linux's `lib/test_hmm.c` reads through the device's own table). `None` exactly where the slot is empty.
    #[inline]
    pub fn look(&self, m: MirrorNo, frames: &Frames, word: WordNo) -> Option<u64>
        requires { (filled : Filled) → mirrors_of self.now m ≡ Some filled → IsFrame (frames_of frames.now) filled.frame }
        ensures word { result
            ≡ option_map (λ filled. (frames_of frames.now).word filled.frame word) (mirrors_of self.now m) }
        ensures state { (s : CoreState) → ShowsMirrors (mirrors_of self.now) s → ShowsFrames (frames_of frames.now) s
            → result ≡ option_map (λ f. s.word f word) (s.mirrored m) }
    {
        let Some(filled) = self.slots[m.get() as usize] else {
            return None;
        };
        Some(frames.word(filled.frame, word))
    }

    /// Empties each slot that is filled with this page of the process, and no other, before the page's entry changes
    /// (Linux's `mmu_notifier_invalidate_range_start`). It is all that is told of the change, where Linux brackets it by this
    /// call and `mmu_notifier_invalidate_range_end`, and a device that fills a slot in between begins again.
    #[inline]
    pub fn invalidate(&mut self, p: ProcNo, page: PageNo)
        ensures emptied { mirrors_of self.new ≡ without p page 1 (mirrors_of self.old) }
        ensures state { IsInvalidation p page 1 (mirrors_of self.old) (mirrors_of self.new) }
    {
        self.invalidate_pages(p, page, 1);
    }

    /// Empties each slot that is filled with one of the `n` pages of the process from `page` on, and no other, as
    /// [`Mirrors::invalidate`] does for one page. It goes over the slots once, and over none where none is filled.
    #[inline]
    pub fn invalidate_pages(&mut self, p: ProcNo, page: PageNo, n: u16)
        ensures emptied { mirrors_of self.new ≡ without p page n (mirrors_of self.old) }
        ensures state { IsInvalidation p page n (mirrors_of self.old) (mirrors_of self.new) }
    {
        if self.is_any_filled() {
            self.invalidate_slots(p, page, n);
        }
    }

    // Goes over all slots, and empties those that are filled with one of these pages.
    fn invalidate_slots(&mut self, p: ProcNo, page: PageNo, n: u16)
        ensures { (m : ℕ) → mirrors_of self.new m ≡ without p page n (mirrors_of self.old) m }
    {
        self.are_numbered();
        for at in 0..SLOTS {
            self.invalidate_slot(at, p, page, n);
        }
    }

    // Empties the slot, if it is filled with one of these pages.
    #[inline]
    fn invalidate_slot(&mut self, at: usize, p: ProcNo, page: PageNo, n: u16)
        requires { at < 64 }
        ensures { (m : ℕ) → mirrors_of self.new m ≡ put at (without p page n (mirrors_of self.old) at) (mirrors_of self.old) m }
    {
        let Some(mirror) = self.slots[at] else {
            return;
        };
        if mirror.is_of(p, page, n) {
            self.slots[at] = None;
            self.filled -= 1;
        }
    }
}
