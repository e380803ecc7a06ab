//! Facts of a machine.
ghost use Rattle.std.specs.Prelude.{◌≡◌, ◌++◌, [], ◌∷◌, OnOk};

use gup_base::{
    ActorNo, Entry, FrameNo, HandleNo, MirrorNo, NoMemory, PageNo, ProcNo, Rights, WordNo,
};
use gup_op_base::JobPlace;
use gup_op_waits::Birth;
use gup_tables::TableNo;
use std::marker::Model;

/// Something that is true of a machine. What isn't said is as at the start: a frame is free and its words are 0, a page isn't mapped, a
/// page table is free, a handle is unmade, a slot is empty.
#[derive(Clone, Copy, Debug, PartialEq, Eq, Hash)]
pub enum Fact {
    /// So many frames are of either zone.
    Zones {
        movable: u32,
        normal: u32,
    },
    /// The frame has references, or is marked as exclusive.
    Frame {
        mark: bool,
        frame: FrameNo,
        count: u64,
    },
    /// A word of the frame that isn't 0.
    Word {
        frame: FrameNo,
        word: WordNo,
        value: u64,
    },
    /// A process: whether it is born and has ever pinned, who holds its locks, how many pages are mapped, its sequence,
    /// and how many walks run in it.
    Process {
        proc: ProcNo,
        birth: Birth,
        has_pinned: bool,
        structure: Option<ActorNo>,
        table: Option<ActorNo>,
        pages: u16,
        sequence: u64,
        walks: u64,
    },
    /// A mapped page of a process.
    Page {
        proc: ProcNo,
        rights: Rights,
        entry: Option<Entry>,
        page: PageNo,
    },
    /// A page table that isn't free.
    Used {
        table: TableNo,
    },
    /// Where a page table stands in the tree of a process: at this level, and which span of that level it covers.
    Table {
        proc: ProcNo,
        level: u8,
        span: u64,
        table: TableNo,
    },
    /// A page table that the process has taken out of its tree, at this place among those that wait, of which the first was taken out
    /// the longest ago.
    Retired {
        proc: ProcNo,
        place: u16,
        table: TableNo,
    },
    /// A pin that the actor holds, or that is given to it.
    Pin {
        actor: ActorNo,
        given: bool,
        write: bool,
        handle: HandleNo,
    },
    /// The frame of the page of a pin at this place.
    Pinned {
        place: u8,
        frame: FrameNo,
        handle: HandleNo,
    },
    /// A reference that the actor got of the frame.
    Got {
        actor: ActorNo,
        frame: FrameNo,
        handle: HandleNo,
    },
    /// A pin that is given back.
    Gone {
        handle: HandleNo,
    },
    /// The frame that the actor's running pin has taken at this place.
    Taken {
        actor: ActorNo,
        place: u8,
        frame: FrameNo,
    },
    /// A word of the device's store that isn't 0.
    Stored {
        actor: ActorNo,
        slot: u16,
        value: u64,
    },
    /// A filled mirror slot.
    Filled {
        mirror: MirrorNo,
        proc: ProcNo,
        frame: FrameNo,
        page: PageNo,
    },
    /// Where the actor stands: how many operations it has answered, how far the present one is, and where its job stands, with no page
    /// where nothing rests on it.
    Stands {
        actor: ActorNo,
        far: u16,
        answered: u32,
        job: JobPlace,
    },
}

/// A fact as an image keeps it. Contracts see the fact.
#[derive(Clone, Copy, Debug, PartialEq, Eq, Hash)]
pub struct KeptFact {
    fact: Fact,
}

impl Model for KeptFact {
    ghost use Rattle.gup_image.specs.declared.fact.Fact.{Fact as FactValue};

    ghost Value = { FactValue };

    ghost view = { λ k. k.fact };

    ghost inverse = { λ v. record { fact = v } };
}

impl KeptFact {
    /// The fact.
    pub fn fact(&self) -> Fact
        ensures { result ≡ self.now }
    {
        self.fact
    }
}

/// Puts a fact on at the end.
pub(crate) fn put(facts: &mut Vec<KeptFact>, fact: Fact) -> Result<(), NoMemory>
    ensures { OnOk result (facts.new.items ≡ facts.old.items ++ fact ∷ []) }
{
    facts.push(KeptFact { fact })?;
    Ok(())
}
