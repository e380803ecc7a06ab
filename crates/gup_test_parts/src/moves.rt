use crate::frames::has;
use crate::tables::with_tables;
use gup_base::{Allowed, Entry, FrameNo, PageNo, Rights, WordNo, Zone};
use gup_fault::NoFrame;
use gup_frames::Frames;
use gup_long::{LongStep, after_count, needs_move};
use gup_move::{clear, count, place, restore};
use gup_space::Space;
use std::alloc::Global;
use std::process::Abort;
use std::test::Fail;

const PAGE: u64 = 5;

const WORDS: [u64; 3] = [0, 255, 511];

// A process whose page has an entry of frame 0, in which each of the words has its number and one.
#[derive(Drop)]
struct Moved {
    space: Space,
    frames: Frames,
    page: PageNo,
}

// What stands before a move: how many frames there are of each zone, and how many of them are taken; whether frame 0 is marked, how
// many references it has beside that of the entry, and whether the entry is writable.
#[derive(Clone, Copy)]
struct Before {
    zones: (u32, u32),
    taken: u32,
    mark: bool,
    more: u64,
    writable: bool,
}

// What a move does.
#[derive(Clone, Copy, Debug, PartialEq, Eq)]
enum End {
    Placed,
    NoFrame,
    Busy(u64),
}

// The page and frame that stand so.
fn standing(rt: &impl Abort, alloc: Global, before: Before) -> Result<Moved, Fail> {
    let page = PageNo::new(PAGE).ok_or("a page")?;
    let mut space = with_tables(rt, alloc)?;
    assert!(rt; page.get() + 1 <= 34_359_738_368);
    space.map(page, 1, Rights::RW).or(Err("mapped"))?;
    assert!(rt; before.zones.0 <= 1_024 && before.zones.1 <= 1_024 - before.zones.0);
    let mut frames = Frames::new(alloc, before.zones.0, before.zones.1).or(Err("memory"))?;
    for _k in 0..before.taken {
        frames.take(Allowed::Any).ok_or("a frame")?;
    }
    let frame = FrameNo::new(0).ok_or("a frame")?;
    assert!(rt; has(&frames, frame));
    let count = frames.count(frame);
    assert!(rt; 0 < count && count < 1 << 40);
    if before.more == 1 || before.more == 1_024 {
        frames.grab(frame, before.more);
    }
    frames.set_mark(frame, before.mark);
    for word in WORDS {
        let at = WordNo::new(word).ok_or("a word")?;
        assert!(rt; has(&frames, frame));
        frames.set_word(frame, at, word + 1);
    }
    assert!(rt; space.rights_at(page).is_some() && space.lacks(page) == 0);
    let writable = before.writable;
    space.set_entry(page, Some(Entry { frame, writable }));
    Ok(Moved {
        space,
        frames,
        page,
    })
}

impl Moved {
    // Clears the entry and counts its frame, and places the page in a frame of these zones, or restores the entry.
    fn migrate(&mut self, rt: &impl Abort, allowed: Allowed) -> End {
        assert!(rt; self.space.entry(self.page).is_some());
        let was = clear(&mut self.space, self.page);
        assert!(rt; self.space.entry(self.page).is_none());
        assert!(rt; has(&self.frames, was.frame));
        let counted = count(&self.frames, was);
        assert!(rt; self.space.rights_at(self.page).is_some() && self.space.lacks(self.page) == 0);
        match after_count(counted) {
            LongStep::Restore(count) => {
                restore(&mut self.space, self.page, was);
                End::Busy(count)
            }
            LongStep::Place => {
                assert!(rt; counted != 0);
                match place(&mut self.space, &mut self.frames, self.page, was, allowed) {
                    Ok(()) => End::Placed,
                    Err(NoFrame) => End::NoFrame,
                }
            }
        }
    }

    // The frame's count and mark.
    fn frame(&self, rt: &impl Abort, number: u64) -> Option<(u64, bool)> {
        let frame = FrameNo::new(number)?;
        assert!(rt; has(&self.frames, frame));
        Some((self.frames.count(frame), self.frames.mark(frame)))
    }

    // The number of the entry's frame, and whether the entry is writable.
    fn entry(&self) -> Option<(u64, bool)> {
        let entry = self.space.entry(self.page)?;
        Some((entry.frame.get(), entry.writable))
    }

    // Whether each of the words is in the entry's frame as it was written.
    fn has_words(&self, rt: &impl Abort) -> bool {
        let Some(entry) = self.space.entry(self.page) else {
            return false;
        };
        for word in WORDS {
            let Some(at) = WordNo::new(word) else {
                return false;
            };
            assert!(rt; has(&self.frames, entry.frame));
            if self.frames.word(entry.frame, at) != word + 1 {
                return false;
            }
        }
        true
    }
}

#[test]
fn a_page_is_placed_or_restored(rt: HostRuntime) -> Result<(), Fail> {
    let normal = Allowed::Only(Zone::Normal);
    let movable = Allowed::Only(Zone::Movable);
    let alone = Before {
        zones: (1, 1),
        taken: 1,
        mark: true,
        more: 0,
        writable: true,
    };
    // beside the case: the zones allowed, the end, the entry after it, and frame 0
    for (before, allowed, end, entry, frame) in [
        (alone, normal, End::Placed, (1, true), (0, false)),
        (alone, movable, End::NoFrame, (0, true), (1, true)),
        (
            Before {
                writable: false,
                ..alone
            },
            normal,
            End::Placed,
            (1, false),
            (0, false),
        ),
        (
            Before {
                mark: false,
                writable: false,
                ..alone
            },
            normal,
            End::Placed,
            (1, false),
            (0, false),
        ),
        (
            Before { taken: 2, ..alone },
            normal,
            End::NoFrame,
            (0, true),
            (1, true),
        ),
        (
            Before { more: 1, ..alone },
            normal,
            End::Busy(2),
            (0, true),
            (2, true),
        ),
        (
            Before {
                more: 1_024,
                writable: false,
                ..alone
            },
            normal,
            End::Busy(1_025),
            (0, false),
            (1_025, true),
        ),
        (
            Before {
                zones: (2, 0),
                ..alone
            },
            movable,
            End::Placed,
            (1, true),
            (0, false),
        ),
        (
            Before {
                zones: (2, 0),
                ..alone
            },
            normal,
            End::NoFrame,
            (0, true),
            (1, true),
        ),
    ] {
        let mut moved = standing(&rt, rt.alloc(), before)?;
        assert_eq!(&rt; moved.migrate(&rt, allowed), end);
        assert_eq!(&rt; moved.entry(), Some(entry));
        assert_eq!(&rt; moved.frame(&rt, 0), Some(frame));
        assert!(&rt; moved.has_words(&rt));
        // the mark goes with the page
        assert_eq!(&rt; moved.frame(&rt, entry.0).map(|f| f.1), Some(before.mark));
    }
    Ok(())
}

#[test]
fn a_long_pin_moves_what_is_movable(rt: HostRuntime) -> Result<(), Fail> {
    for (zones, moves) in [
        ((1, 0), true),
        ((2, 1), true),
        ((0, 1), false),
        ((0, 2), false),
    ] {
        let before = Before {
            zones,
            taken: 1,
            mark: true,
            more: 0,
            writable: true,
        };
        let moved = standing(&rt, rt.alloc(), before)?;
        let Some(entry) = moved.space.entry(moved.page) else {
            return Err("an entry".into());
        };
        assert!(&rt; has(&moved.frames, entry.frame) && moved.frames.count(entry.frame) != 0);
        assert!(&rt; moved.space.rights_at(moved.page).is_some());
        assert_eq!(&rt; needs_move(&moved.space, &moved.frames, moved.page), moves);
    }
    for (count, step) in [
        (0, LongStep::Restore(0)),
        (1, LongStep::Place),
        (2, LongStep::Restore(2)),
        (1_024, LongStep::Restore(1_024)),
        (1_025, LongStep::Restore(1_025)),
        (u64::MAX, LongStep::Restore(u64::MAX)),
    ] {
        assert_eq!(&rt; after_count(count), step);
    }
    Ok(())
}
