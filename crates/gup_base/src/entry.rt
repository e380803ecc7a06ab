ghost use Rattle.std.specs.Prelude.{◌≡◌, ℕ, ◌<◌, ◌%◌, ◌^◌, ◌↔◌, Option, IsNone};
ghost use Rattle.std.specs.Option.{ForSome};
ghost use Rattle.gup_base.specs.declared.entry.Entry.{Entry};
ghost use Rattle.gup_base.specs.Packing.{pack_of, unpack_of};

use crate::numbers::FrameNo;

/// What a process may do with a mapped page (of Linux's rights, `VM_READ` and `VM_WRITE`).
#[derive(Clone, Copy, Debug, PartialEq, Eq, Hash)]
pub enum Rights {
    /// Read it.
    R,
    /// Read and write it.
    RW,
}

/// Where a frame lies, as in Linux.
#[derive(Clone, Copy, Debug, PartialEq, Eq)]
pub enum Zone {
    /// Its frames can be migrated (`ZONE_MOVABLE`), and no long-term pin leaves its frame here.
    Movable,
    /// Its frames may stay where they are (`ZONE_NORMAL`).
    Normal,
}

/// The zones that a frame may be taken from.
#[derive(Clone, Copy, Debug, PartialEq, Eq)]
pub enum Allowed {
    /// Either zone.
    Any,
    /// This zone and no other: the normal one for a long-term pin, the one that a migration names.
    Only(Zone),
}

/// What a pin asks for, in the flags of Linux's `pin_user_pages`.
#[derive(Clone, Copy, Debug, PartialEq, Eq)]
pub struct Want {
    /// To write the pages (`FOLL_WRITE`), and not only to read them.
    pub write: bool,
    /// To keep them for long (`FOLL_LONGTERM`).
    pub long: bool,
}

/// A page table entry that is present.
#[derive(Clone, Copy, Debug, PartialEq, Eq, Hash)]
pub struct Entry {
    /// The frame that has the page's words.
    pub frame: FrameNo,
    /// Whether a write may go through the entry. A read always may.
    pub writable: bool,
}

/// The word of a page table that holds the entry, as x86-64 lays it out: bit 0 says present, bit 1 writable,
/// and the frame's number stands from bit 12 on. All other bits are 0, and an absent entry is the word 0.
pub fn pack(e: Option<Entry>) -> u64
    ensures { result ≡ pack_of e }
{
    match e {
        None => 0,
        Some(entry) => {
            let writable = if entry.writable { 2 } else { 0 };
            1 + writable + entry.frame.get() * 4096
        }
    }
}

/// The entry that a word of a page table holds: none exactly where bit 0 is 0, else bit 1 says writable, and the
/// 14 bits from bit 12 on are the frame's number. No other bit is read. What [`pack`] wrote is read back.
pub fn unpack(word: u64) -> Option<Entry>
    ensures value { result ≡ unpack_of word }
    ensures absent { IsNone result ↔ (word % 2 ≡ 0) }
    ensures packed { (e : Option Entry) → ForSome e (λ entry. entry.frame < 2 ^ 14) → word ≡ pack_of e → result ≡ e }
{
    if word % 2 == 0 {
        return None;
    }
    let frame = FrameNo::new(word / 4096 % 16_384)?;
    let writable = word / 2 % 2 == 1;
    Some(Entry { frame, writable })
}
