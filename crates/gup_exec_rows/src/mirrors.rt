//! Mirror slots.
ghost use Rattle.std.specs.Prelude.{◌≡◌, ℕ, ◌↔◌, IsTrue, IsSome, Some, None, All, OnOk, OnErr, IfOk};
ghost use Rattle.std.specs.BTreeMap.{keys};
ghost use Rattle.gup_plain.specs.State.{Noted};
ghost use Rattle.gup_plain.specs.Put.{put};
ghost use Rattle.gup_exec_rows.specs.Mirrors.{frames_in, notes_in, IsElsewhere, IsClear};

use crate::row::Row;
use gup_base::{FrameNo, MirrorNo, NoMemory, PageNo, ProcNo};
use gup_exec_parts::mirror::Mirror;
use std::alloc::Global;
use std::collections::BTreeMap;

/// The frames of the filled mirror slots, and what each slot was filled with last.
#[derive(Drop)]
pub struct Mirrors {
    frames: BTreeMap<MirrorNo, FrameNo>,
    notes: Row<Option<Mirror>, 64>,
}

impl Mirrors {
    /// No slot is filled.
    #[tactic(auto, unfolding(crate::specs::Mirrors::frames_in, crate::specs::Mirrors::notes_in))]
    pub fn new(alloc: Global) -> Result<Mirrors, NoMemory>
        ensures frames { IfOk result (λ mirrors. frames_in mirrors ≡ (λ _. None)) }
        ensures notes { IfOk result (λ mirrors. notes_in mirrors ≡ (λ _. None)) }
    {
        Ok(Mirrors {
            frames: BTreeMap::new(alloc),
            notes: Row::new(alloc, None)?,
        })
    }

    /// The frame of the slot, where it is filled.
    #[tactic(auto, unfolding(crate::specs::Mirrors::frames_in))]
    pub fn frame(&self, m: MirrorNo) -> Option<FrameNo>
        ensures { result ≡ frames_in self.now m }
    {
        self.frames.get(&m).copied()
    }

    // Whether the slot was filled with another page than this.
    #[tactic(auto, unfolding(crate::specs::Mirrors::notes_in, crate::specs::Mirrors::IsElsewhere))]
    fn is_elsewhere(&self, m: MirrorNo, p: ProcNo, page: PageNo) -> bool
        ensures { IsTrue result ↔ IsElsewhere (notes_in self.now) p page m }
    {
        match self.notes.get(m) {
            None => true,
            Some(note) => {
                if note.proc() != p {
                    return true;
                }
                note.page() != page
            }
        }
    }

    // Whether each filled slot was filled with another page than this.
    fn are_elsewhere(&self, p: ProcNo, page: PageNo) -> bool
        ensures { IsTrue result ↔ All (λ m. IsElsewhere (notes_in self.now) p page m) (keys self.now.frames) }
    {
        self.frames.keys().all(|m| self.is_elsewhere(*m, p, page))
    }

    /// Whether no slot is filled with the page.
    pub fn is_clear(&self, p: ProcNo, page: PageNo) -> bool
        ensures { IsTrue result ↔ IsClear self.now p page }
    {
        self.are_elsewhere(p, page)
    }

    /// Fills the slot.
    #[tactic(auto, unfolding(crate::specs::Mirrors::frames_in, crate::specs::Mirrors::notes_in))]
    pub fn fill(&mut self, m: MirrorNo, f: FrameNo, note: Mirror) -> Result<(), NoMemory>
        ensures frames { OnOk result (frames_in self.new ≡ put m (Some f) (frames_in self.old)) }
        ensures notes { OnOk result (notes_in self.new ≡ put m (Some note) (notes_in self.old)) }
        ensures same_frames { OnErr result (frames_in self.new ≡ frames_in self.old) }
        ensures same_notes { OnErr result (notes_in self.new ≡ notes_in self.old) }
    {
        self.frames.insert(m, f)?;
        self.notes.put(m, Some(note));
        Ok(())
    }

    /// Empties the slot.
    #[tactic(auto, unfolding(crate::specs::Mirrors::frames_in, crate::specs::Mirrors::notes_in))]
    pub fn empty(&mut self, m: MirrorNo)
        ensures frames { frames_in self.new ≡ put m None (frames_in self.old) }
        ensures notes { notes_in self.new ≡ notes_in self.old }
    {
        self.frames.remove(&m);
    }
}
