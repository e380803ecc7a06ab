use gup_base::{ActorNo, HandleNo, MirrorNo, PageNo, Parts, ProcNo, Rights, Want, WordNo, Zone};

/// An operation of an actor.
#[derive(Clone, Debug, Drop)]
pub enum Op {
    /// `map p n r` or `map p n rw`: n pages from p on get these rights (`mmap`).
    Map {
        page: PageNo,
        n: u16,
        rights: Rights,
    },
    /// `unmap p n`: the pages from p to p + n - 1 lose their mapping (`munmap`).
    Unmap {
        page: PageNo,
        n: u16,
    },
    /// `protect p n r` or `protect p n rw`: n pages from p on, which are all mapped, get these rights (`mprotect`).
    Protect {
        page: PageNo,
        n: u16,
        rights: Rights,
    },
    /// `discard p n`: the pages from p to p + n - 1 lose their contents and keep their mapping (`madvise` with
    /// `MADV_DONTNEED`).
    Discard {
        page: PageNo,
        n: u16,
    },
    /// `load p.w`: reads a word.
    Load {
        page: PageNo,
        word: WordNo,
    },
    /// `store p.w v`: writes a word.
    Store {
        page: PageNo,
        word: WordNo,
        value: u64,
    },
    /// `pin H p n read` or `pin H p n write`, then optionally `long`, and the same words after `pinfast`: pins the pages
    /// from p to p + n - 1, to read them or also to write them (`pin_user_pages`), for long (`FOLL_LONGTERM`), and makes
    /// the handle. A fast pin begins with the lockless walk (`pin_user_pages_fast`).
    Pin {
        handle: HandleNo,
        page: PageNo,
        n: u8,
        want: Want,
        fast: bool,
    },
    /// `unpin H`: gives the pages of a pin back (`unpin_user_pages`).
    Unpin {
        handle: HandleNo,
    },
    /// `give H X`: gives a pin to an actor.
    Give {
        handle: HandleNo,
        to: ActorNo,
    },
    /// `take H`: takes a pin that is given to this actor, once it is.
    Take {
        handle: HandleNo,
    },
    /// `get G p`: makes a page present, as a load does, and takes a plain reference of its frame (`get_user_pages`), under
    /// this handle.
    Get {
        handle: HandleNo,
        page: PageNo,
    },
    /// `put G`: gives a reference back (`put_page`).
    Put {
        handle: HandleNo,
    },
    /// `out H i s n` or `in H i s n`, and in several parts `outv H s i:n ..` or `inv H s i:n ..`: moves words between the
    /// pages of a pin and the store of the device, from its slot s on: out of the pages, or into them. Each part is so many
    /// words from the pin's word i on; the parts follow each other in the store without a gap.
    Transfer {
        handle: HandleNo,
        outward: bool,
        slot: u32,
        parts: Parts,
    },
    /// `mirror M P p`: makes a page of process P present, as a load does, and fills the device's slot with its frame, without
    /// a reference (HMM: `hmm_range_fault`).
    Mirror {
        mirror: MirrorNo,
        proc: ProcNo,
        page: PageNo,
    },
    /// `look M w`: reads a word through the device's slot, if that is still filled.
    Look {
        mirror: MirrorNo,
        word: WordNo,
    },
    /// `move P p normal` or `move P p movable`: moves a page of process P to a frame of that zone (`migrate_pages`).
    Move {
        proc: ProcNo,
        page: PageNo,
        zone: Zone,
    },
    /// `fork C`: brings a child process, which gets the mappings and shares the frames of this one (`fork`).
    Fork {
        child: ProcNo,
    },
    /// `exit`: takes down all that the process has mapped.
    Exit,
}

/// What an actor is.
#[derive(Clone, Copy, Debug, PartialEq, Eq)]
pub enum Kind {
    /// A CPU thread of a process.
    Thread(ProcNo),
    /// A device with a store of so many words, 1 to 4,096.
    Device(u16),
    /// The one that moves pages.
    Mover,
}
