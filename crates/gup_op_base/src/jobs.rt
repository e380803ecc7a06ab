//! Where an operation of several turns stands between two of them.
use gup_base::{Entry, FrameNo, PageNo};
use gup_tables::Path;

/// Where the lockless walk of a pin stands between two turns.
#[derive(Clone, Copy, Debug, PartialEq, Eq, Hash)]
pub enum WalkPlace {
    /// The process has pinned, and the sequence is to be read.
    Entered,
    /// The path of the page is to be read down to its entry, or after the last page the sequence again.
    Ready,
    /// This entry was read down this path; its frame is to be grabbed.
    Read { path: Path, entry: Entry },
    /// The frame is grabbed; the word above the path's last table, and the entry, are to be read again.
    Grabbed { path: Path, entry: Entry },
    /// The entry was the same, and the page is taken; the frame's mark is to be read.
    Rechecked(Entry),
    /// The page had another entry than this frame's, which is to be dropped.
    Differed(FrameNo),
    /// The frame of the last page taken wasn't marked, and is to be dropped.
    Refused,
    /// The walk stopped at the page, and the sequence is to be read again.
    Stopped,
    /// The sequence was another, and the pages that are left are to be dropped.
    Dropping,
}

/// What an actor is in the middle of between two turns, and how far that is. Forks, moves, and pins that walk or move a page
/// are alone in the middle of anything that counting pages and words doesn't show.
///
/// It goes through each turn, so it is kept small: fields lie as they are written, the small ones first, and it takes 32
/// bytes.
#[derive(Clone, Copy, Debug, PartialEq, Eq, Hash)]
pub enum JobPlace {
    /// It has not begun, or has nothing to keep.
    Unbegun,
    /// A fork looks for its next page from this number on, which is at most 2^35.
    From(u64),
    /// A fork has counted this page, and is about to share it.
    At(PageNo),
    /// A fork has counted this page, and is about to take a frame for a copy of it.
    Wanting(PageNo),
    /// A fork has copied so many words of this page, of 512, into that frame.
    Copying {
        word: u16,
        to: FrameNo,
        page: PageNo,
    },
    /// A move, or a long pin, has cleared this entry of this page, and is about to count its frame.
    Cleared {
        entry: Entry,
        page: PageNo,
    },
    /// It has counted one reference of the frame, and is about to place the page in another.
    Single {
        entry: Entry,
        page: PageNo,
    },
    /// It has counted so many references of the frame, and not 1, and is about to put the entry back.
    Shared {
        entry: Entry,
        page: PageNo,
        count: u64,
    },
    /// The walk of a pin stands there, at this page, and has read this sequence.
    Walking {
        place: WalkPlace,
        page: PageNo,
        sequence: u64,
    },
}
