//! The frames of the machine.
ghost use Rattle.std.specs.Prelude.{◌≡◌, ℕ, ◌+◌, ◌-◌, ◌<◌, ◌≤◌, ◌^◌, ◌⊎◌, true, if◌then◌else◌, length, slice_index, IfOk, IfSome, MatchOption};
ghost use Rattle.gup_frames.specs.Frames.{frames_of, no_references, IsFrame, zone_of, free_frame, free_of, claimed, taken, with_references, without_references, with_mark, with_word, copied};

use crate::words;
use gup_base::{Allowed, FrameNo, NoMemory, WordNo, Zone};
use gup_bits::Bitmap;
use std::alloc::Global;
use std::marker::Model;

// 1 where it is so, and else 0.
#[inline(always)]
fn one_if(so: bool) -> u32
    ensures { result ≡ (if so then 1 else 0) }
{
    u32::from(so)
}

/// The frames of the machine, at most 1,024: first those of the movable zone, then those of the normal zone. Each has
/// a count of its references, in which a pin weighs 1,024 (`GUP_PIN_COUNTING_BIAS`), a mark, which says that it is
/// exclusive (`PageAnonExclusive`), and 512 words. A frame with count 0 is free.
#[derive(Drop)]
pub struct Frames {
    movable: u32,
    normal: u32,
    free: Bitmap,
    free_movable: u32,
    free_normal: u32,
    counts: Vec<u64>,
    marks: Vec<bool>,
    words: Vec<u64>,
}

impl Model for Frames {
    ghost use Rattle.std.specs.Prelude.{vec_capacity};
    ghost use Rattle.gup_frames.specs.Frames.{FrameLists};
    ghost use Rattle.gup_frames.specs.Kept.{IsKept};

    ghost Value = { FrameLists };

    ghost view = { λ a. record {
      movable = a.movable;
      normal = a.normal;
      counts = a.counts.items;
      marks = a.marks.items;
      words = a.words.items;
    } };

    ghost invariant = { λ a. IsKept (record {
      movable = a.movable;
      normal = a.normal;
      counts = a.counts.items;
      marks = a.marks.items;
      words = a.words.items;
    }) (vec_capacity a.words) a.free a.free_movable a.free_normal };
}

impl Frames {
    /// So many frames of each zone, all free, unmarked and with words 0, and the memory for all that they will be: no
    /// other call takes any.
    pub fn new(alloc: Global, movable: u32, normal: u32) -> Result<Frames, NoMemory>
        requires { movable + normal ≤ 1024 }
        ensures { IfOk result (λ frames. frames_of frames ≡ no_references movable normal) }
    {
        let many = (movable + normal) as usize;
        let counts = vec![in alloc; 0; many]?;
        let marks = vec![in alloc; false; many]?;
        let free = Bitmap::below(alloc, many)?;
        let words = Vec::with_capacity(alloc, words::of_frames(many))?;
        Ok(Frames {
            movable,
            normal,
            free,
            free_movable: movable,
            free_normal: normal,
            counts,
            marks,
            words,
        })
    }

    /// How many frames the movable zone has.
    #[inline]
    pub fn movable(&self) -> u32
        ensures { result ≡ (frames_of self.now).movable }
    {
        self.movable
    }

    /// How many frames the normal zone has.
    #[inline]
    pub fn normal(&self) -> u32
        ensures { result ≡ (frames_of self.now).normal }
    {
        self.normal
    }

    /// The zone of the frame.
    #[inline]
    pub fn zone(&self, frame: FrameNo) -> Zone
        requires { IsFrame (frames_of self.now) frame }
        ensures { result ≡ zone_of (frames_of self.now) frame }
    {
        if frame.get() < u64::from(self.movable) {
            Zone::Movable
        } else {
            Zone::Normal
        }
    }

    /// How many references the frame has, with 1,024 for each pin. The frame is free exactly at 0.
    #[inline]
    pub fn count(&self, frame: FrameNo) -> u64
        requires { IsFrame (frames_of self.now) frame }
        ensures { result ≡ (frames_of self.now).count frame }
    {
        self.counts[frame.get() as usize]
    }

    /// Whether the frame is marked as exclusive.
    #[inline]
    pub fn mark(&self, frame: FrameNo) -> bool
        requires { IsFrame (frames_of self.now) frame }
        ensures { result ≡ (frames_of self.now).mark frame }
    {
        self.marks[frame.get() as usize]
    }

    /// This word of the frame.
    #[inline]
    pub fn word(&self, frame: FrameNo, word: WordNo) -> u64
        requires { IsFrame (frames_of self.now) frame }
        ensures { result ≡ (frames_of self.now).word frame word }
    {
        words::read(&self.words, frame.get() as usize, word)
    }

    /// The words of the frame, from its first one on. Words that are left out at the end are 0: of a frame that was never
    /// written it may be all of them.
    #[inline]
    pub fn words(&self, frame: FrameNo) -> &[u64]
        requires { IsFrame (frames_of self.now) frame }
        ensures words { slice_index result.now ≡ (frames_of self.now).word frame }
        ensures few { length result.now ≤ 512 }
    {
        words::of_frame(&self.words, frame.get() as usize)
    }

    /// A law: a frame that has a reference is there, and so is one that is marked, or has a word that isn't 0.
    pub fn are_there(&self)
        ensures held { (f : ℕ) → ((frames_of self.now).count f ≡ 0 → ⊥) → IsFrame (frames_of self.now) f }
        ensures marked { (f : ℕ) → (frames_of self.now).mark f ≡ true → IsFrame (frames_of self.now) f }
        ensures written { (f w : ℕ) → ((frames_of self.now).word f w ≡ 0 → ⊥) → IsFrame (frames_of self.now) f × (w < 512) }
    {
        let _counts = &self.counts;
        let _marks = &self.marks;
        let _words = &self.words;
    }

    /// How many frames of the zone are free.
    #[inline]
    pub fn free(&self, zone: Zone) -> u32
        ensures { result ≡ free_of (frames_of self.now) zone }
    {
        match zone {
            Zone::Movable => self.free_movable,
            Zone::Normal => self.free_normal,
        }
    }

    // The lowest free frame of the zone.
    fn lowest_in(&self, zone: Zone) -> Option<usize>
        ensures { result ≡ free_frame (frames_of self.now) (Allowed.Only zone) }
    {
        match zone {
            Zone::Movable => self.free.lowest(0, self.movable as usize),
            Zone::Normal => self
                .free
                .lowest(self.movable as usize, self.normal as usize),
        }
    }

    // The lowest free frame of the zones allowed.
    fn lowest_free(&self, allowed: Allowed) -> Option<usize>
        ensures frame { result ≡ free_frame (frames_of self.now) allowed }
        ensures there { IfSome result (IsFrame (frames_of self.now)) }
        ensures free { IfSome result (λ f. (frames_of self.now).count f ≡ 0) }
    {
        match allowed {
            Allowed::Any => self.free.lowest(0, (self.movable + self.normal) as usize),
            Allowed::Only(zone) => self.lowest_in(zone),
        }
    }

    /// Takes the lowest free frame of the zones allowed: it gets its first reference, no mark, and words 0 (of Linux's
    /// `alloc_pages`, with `__GFP_ZERO`; that it is the lowest is this project's own). `None` exactly where none of
    /// them is free, and nothing changes then.
    pub fn take(&mut self, allowed: Allowed) -> Option<FrameNo>
        ensures frame { result ≡ free_frame (frames_of self.old) allowed }
        ensures taken { MatchOption result (frames_of self.new ≡ frames_of self.old)
            (λ f. frames_of self.new ≡ taken f (frames_of self.old)) }
        ensures there { IfSome result (IsFrame (frames_of self.old)) }
        ensures free { IfSome result (λ f. (frames_of self.old).count f ≡ 0) }
    {
        let Some(place) = self.lowest_free(allowed) else {
            return None;
        };
        words::clear(&mut self.words, place);
        Some(self.claim(place))
    }

    /// Takes the lowest free frame of the zones allowed, as [`Frames::take`] does, and gives it the words of frame `from`,
    /// which isn't free. `None` exactly where none of them is free, and nothing changes then.
    pub fn take_copy(&mut self, allowed: Allowed, from: FrameNo) -> Option<FrameNo>
        requires there { IsFrame (frames_of self.old) from }
        requires held { (frames_of self.old).count from ≡ 0 → ⊥ }
        ensures frame { result ≡ free_frame (frames_of self.old) allowed }
        ensures taken { MatchOption result (frames_of self.new ≡ frames_of self.old)
            (λ f. frames_of self.new ≡ copied from f (taken f (frames_of self.old))) }
        ensures there { IfSome result (IsFrame (frames_of self.old)) }
        ensures free { IfSome result (λ f. (frames_of self.old).count f ≡ 0) }
    {
        let Some(place) = self.lowest_free(allowed) else {
            return None;
        };
        words::copy(&mut self.words, from.get() as usize, place);
        Some(self.claim(place))
    }

    // Gives the frame at this place, which is free, its first reference, and no mark.
    #[inline]
    fn claim(&mut self, place: usize) -> FrameNo
        requires there { IsFrame (frames_of self.old) place }
        requires free { (frames_of self.old).count place ≡ 0 }
        ensures frame { result ≡ place }
        ensures claimed { frames_of self.new ≡ claimed place (frames_of self.old) }
    {
        let movable = place < self.movable as usize;
        self.counts[place] = 1;
        self.marks[place] = false;
        self.free.remove(place);
        self.free_movable -= one_if(movable);
        self.free_normal -= one_if(!movable);
        FrameNo::new(place as u64).unwrap()
    }

    /// Gives the frame, which isn't free, a reference more (`by` 1), or a pin's (`by` 1,024): Linux's `folio_ref_add`
    /// in `try_grab_folio`.
    #[inline]
    pub fn grab(&mut self, frame: FrameNo, by: u64)
        requires there { IsFrame (frames_of self.old) frame }
        requires held { 0 < (frames_of self.old).count frame }
        requires few { (frames_of self.old).count frame < 2 ^ 40 }
        requires by { (by ≡ 1) ⊎ (by ≡ 1024) }
        ensures { frames_of self.new ≡ with_references frame by (frames_of self.old) }
    {
        self.counts[frame.get() as usize] += by;
    }

    /// Takes so many references of the frame back (Linux's `folio_put_refs`). At the last one the frame is free, and
    /// its mark goes.
    #[inline]
    pub fn put(&mut self, frame: FrameNo, by: u64)
        requires there { IsFrame (frames_of self.old) frame }
        requires some { 0 < by }
        requires held { by ≤ (frames_of self.old).count frame }
        ensures { frames_of self.new ≡ without_references frame by (frames_of self.old) }
    {
        let at = frame.get() as usize;
        let left = self.counts[at] - by;
        self.counts[at] = left;
        if left > 0 {
            return;
        }
        let movable = at < self.movable as usize;
        self.marks[at] = false;
        self.free.insert(at);
        self.free_movable += one_if(movable);
        self.free_normal += one_if(!movable);
    }

    /// Marks the frame as exclusive, or takes its mark (`SetPageAnonExclusive`, `ClearPageAnonExclusive`).
    #[inline]
    pub fn set_mark(&mut self, frame: FrameNo, on: bool)
        requires { IsFrame (frames_of self.old) frame }
        ensures { frames_of self.new ≡ with_mark frame on (frames_of self.old) }
    {
        self.marks[frame.get() as usize] = on;
    }

    /// Writes this word of the frame.
    #[inline]
    pub fn set_word(&mut self, frame: FrameNo, word: WordNo, v: u64)
        requires { IsFrame (frames_of self.old) frame }
        ensures { frames_of self.new ≡ with_word frame word v (frames_of self.old) }
    {
        words::write(&mut self.words, frame.get() as usize, word, v);
    }

    /// Gives frame `to` the words of frame `from` (Linux's `copy_user_highpage`).
    #[inline]
    pub fn copy(&mut self, from: FrameNo, to: FrameNo)
        requires from { IsFrame (frames_of self.old) from }
        requires to { IsFrame (frames_of self.old) to }
        ensures { frames_of self.new ≡ copied from to (frames_of self.old) }
    {
        words::copy(&mut self.words, from.get() as usize, to.get() as usize);
    }
}
