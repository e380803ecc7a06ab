ghost use Rattle.std.specs.Prelude.{◌≡◌, ℕ, ◌<◌, ◌^◌, true, IfSome};
ghost use Rattle.gup_frames.specs.Frames.{frames_of, IsFrame};
ghost use Rattle.gup_space.specs.Space.{space_of, tables_in};
ghost use Rattle.gup_spec_tables.specs.Paths.{KeepsPath};
ghost use Rattle.gup_tables.specs.Path.{tables_on};

use crate::frames::has;
use crate::tables::with_tables;
use arrayvec::ArrayVec;
use gup_base::{Allowed, Entry, FrameNo, PageNo, Rights, Want};
use gup_fast::{GiveUp, Step, Walk};
use gup_frames::Frames;
use gup_space::Space;
use gup_tables::Path;
use std::alloc::Global;
use std::process::Abort;
use std::test::Fail;

const FIRST: u64 = 5;

const SECOND: u64 = 6;

const READ: Want = Want {
    write: false,
    long: false,
};

const WRITE: Want = Want {
    write: true,
    long: false,
};

const KEEP: Want = Want {
    write: false,
    long: true,
};

// What another actor does to the process or to its second page.
#[derive(Clone, Copy, Debug, PartialEq, Eq)]
enum Other {
    Nothing,
    // a fork begins
    Begins,
    // a fork begins and ends
    Forks,
    // the second page loses its entry, and its frame is free
    Frees,
    // the second page's entry becomes read-only
    Lowers,
}

// A walk over two pages: whether the entry of the second is writable, and its frame marked; how many of the frames are
// movable; and what another actor does after how many steps of the walk.
#[derive(Clone, Copy, Debug)]
struct Case {
    want: Want,
    writable: bool,
    mark: bool,
    movable: u32,
    other: (u64, Other),
}

// A process with two pages, whose entries are of frames 0 and 1.
#[derive(Drop)]
struct Pages {
    space: Space,
    frames: Frames,
    second: PageNo,
}

fn standing(rt: &impl Abort, alloc: Global, case: Case) -> Result<Pages, Fail> {
    let first = PageNo::new(FIRST).ok_or("a page")?;
    let second = PageNo::new(SECOND).ok_or("a page")?;
    let mut space = with_tables(rt, alloc)?;
    assert!(rt; first.get() + 2 <= 34_359_738_368);
    space.map(first, 2, Rights::RW).or(Err("mapped"))?;
    assert!(rt; case.movable <= 2);
    let mut frames = Frames::new(alloc, case.movable, 2 - case.movable).or(Err("memory"))?;
    for (page, writable, mark) in [(first, true, true), (second, case.writable, case.mark)] {
        let frame = frames.take(Allowed::Any).ok_or("a frame")?;
        assert!(rt; has(&frames, frame));
        frames.set_mark(frame, mark);
        assert!(rt; space.rights_at(page).is_some() && space.lacks(page) == 0);
        space.set_entry(page, Some(Entry { frame, writable }));
    }
    Ok(Pages {
        space,
        frames,
        second,
    })
}

// The frame of the page's entry, where it has one, is there.
fn expect_there(rt: &impl Abort, space: &Space, frames: &Frames, page: PageNo)
    ensures { IfSome ((space_of space.now).entry page) (λ e. IsFrame (frames_of frames.now) e.frame) }
{
    let Some(entry) = space.entry(page) else {
        return;
    };
    assert!(rt; has(frames, entry.frame));
}

// Whether the path is the page's now: then each table of it stands in the tree.
fn is_path(space: &Space, page: PageNo, path: &Path) -> bool
    ensures { result ≡ true → KeepsPath (tables_in (space_of space.now)) (tables_on path.now) page }
{
    let Some(now) = space.path(page) else {
        return false;
    };
    now == *path
}

// No table of the path has left the tree.
fn expect_path(rt: &impl Abort, space: &Space, page: PageNo, path: &Path)
    ensures { KeepsPath (tables_in (space_of space.now)) (tables_on path.now) page }
{
    assert!(rt; is_path(space, page, path));
}

// No frame has 2^40 references.
fn expect_few(rt: &impl Abort, frames: &Frames)
    ensures { (f : ℕ) → (frames_of frames.now).count f < 2 ^ 40 }
{
    frames.are_there();
    for number in 0..u64::from(frames.movable()) + u64::from(frames.normal()) {
        let Some(frame) = FrameNo::new(number) else {
            panic!(rt; "no frame has this number");
        };
        assert!(rt; has(frames, frame));
        assert!(rt; frames.count(frame) < 1_099_511_627_776);
    }
}

impl Pages {
    fn act(&mut self, rt: &impl Abort, other: Other) {
        match other {
            Other::Nothing => {}
            Other::Begins => self.raise(rt),
            Other::Forks => {
                self.raise(rt);
                self.raise(rt);
            }
            Other::Frees => {
                let Some(entry) = self.space.take_entry(self.second) else {
                    return;
                };
                assert!(rt; has(&self.frames, entry.frame));
                assert!(rt; self.frames.count(entry.frame) >= 1);
                self.frames.put(entry.frame, 1);
            }
            Other::Lowers => {
                let _was = self.space.lower_entry(self.second);
            }
        }
    }

    fn raise(&mut self, rt: &impl Abort) {
        assert!(rt; self.space.sequence() < 1_099_511_627_776);
        self.space.raise();
    }

    // How many references frames 0 and 1 have.
    fn counts(&self, rt: &impl Abort) -> Option<(u64, u64)> {
        let (first, second) = (FrameNo::new(0)?, FrameNo::new(1)?);
        assert!(rt; has(&self.frames, first) && has(&self.frames, second));
        Some((self.frames.count(first), self.frames.count(second)))
    }
}

// A walk, what it has found, and the frames that it has dropped.
#[derive(Drop)]
struct Walked {
    walk: Walk,
    found: Option<GiveUp>,
    dropped: ArrayVec<u64, 4>,
}

impl Walked {
    // The whole walk of the case.
    fn over(rt: &impl Abort, pages: &mut Pages, case: Case) -> Result<Walked, Fail> {
        let first = PageNo::new(FIRST).ok_or("a page")?;
        assert!(rt; first.get() + 2 <= 34_359_738_368);
        let mut walked = Walked {
            walk: Walk::new(first, 2, case.want),
            found: None,
            dropped: ArrayVec::new(),
        };
        for taken in 0..16 {
            if taken == case.other.0 {
                pages.act(rt, case.other.1);
            }
            let found = walked.step(rt, pages);
            if found.is_some() {
                walked.found = found;
            }
            // it keeps nothing, also while pages are left to be dropped
            if matches!(walked.found, Some(GiveUp::Changed { .. })) {
                assert!(rt; walked.walk.kept().is_empty());
            }
        }
        assert_eq!(rt; walked.walk.next(), Step::Nothing);
        Ok(walked)
    }

    // Takes the next step.
    fn step(&mut self, rt: &impl Abort, pages: &mut Pages) -> Option<GiveUp> {
        match self.walk.next() {
            Step::Flag => {
                self.walk.flag(&mut pages.space);
                None
            }
            Step::Sequence => self.walk.sequence(&pages.space),
            Step::Read(page) => {
                expect_there(rt, &pages.space, &pages.frames, page);
                self.walk.read(&pages.space, &pages.frames)
            }
            Step::Grab { entry, .. } => {
                assert!(rt; has(&pages.frames, entry.frame));
                expect_few(rt, &pages.frames);
                self.walk.grab(&mut pages.frames)
            }
            Step::Recheck { page, path, .. } => {
                expect_path(rt, &pages.space, page, &path);
                self.walk.recheck(&pages.space)
            }
            Step::Mark { entry, .. } => {
                assert!(rt; has(&pages.frames, entry.frame));
                self.walk.mark(&pages.frames)
            }
            Step::Again => self.walk.again(&pages.space),
            Step::Drop(frame) => {
                assert!(rt; has(&pages.frames, frame));
                assert!(rt; pages.frames.count(frame) >= 1_024);
                assert!(rt; self.walk.drop_one(&mut pages.frames));
                assert!(rt; !self.dropped.is_full());
                self.dropped.push(frame.get());
                None
            }
            Step::Nothing => None,
        }
    }
}

#[test]
fn a_walk_keeps_its_pages_or_says_why_not(rt: HostRuntime) -> Result<(), Fail> {
    let plain = Case {
        want: READ,
        writable: true,
        mark: true,
        movable: 0,
        other: (0, Other::Nothing),
    };
    let write = Case {
        want: WRITE,
        ..plain
    };
    let keep = Case {
        want: KEEP,
        ..plain
    };
    let read_only = Case {
        writable: false,
        ..plain
    };
    let unmarked = Case {
        mark: false,
        ..plain
    };
    let zero = FrameNo::new(0).ok_or("a frame")?;
    let none: &[u64] = &[];
    let first: &[u64] = &[0];
    let second: &[u64] = &[1];
    let both: &[u64] = &[0, 1];
    // beside the case: what is found, the frames that are kept and dropped, and the references of frames 0 and 1 then
    for (case, found, kept, dropped, counts) in [
        (plain, None, both, none, (1_025, 1_025)),
        (write, None, both, none, (1_025, 1_025)),
        (keep, None, both, none, (1_025, 1_025)),
        (read_only, None, both, none, (1_025, 1_025)),
        (unmarked, None, both, none, (1_025, 1_025)),
        (
            Case {
                movable: 2,
                ..plain
            },
            None,
            both,
            none,
            (1_025, 1_025),
        ),
        // a fork that is over
        (
            Case {
                other: (1, Other::Forks),
                ..plain
            },
            None,
            both,
            none,
            (1_025, 1_025),
        ),
        (
            Case {
                other: (1, Other::Begins),
                ..plain
            },
            Some(GiveUp::Odd(1)),
            none,
            none,
            (1, 1),
        ),
        (
            Case {
                other: (6, Other::Frees),
                ..plain
            },
            Some(GiveUp::Absent),
            first,
            none,
            (1_025, 0),
        ),
        (
            Case {
                writable: false,
                ..write
            },
            Some(GiveUp::Rights),
            first,
            none,
            (1_025, 1),
        ),
        (
            Case { movable: 1, ..keep },
            Some(GiveUp::MovableFrame(zero)),
            none,
            none,
            (1, 1),
        ),
        (
            Case {
                other: (7, Other::Frees),
                ..plain
            },
            Some(GiveUp::CountZero),
            first,
            none,
            (1_025, 0),
        ),
        // in a word of the page table 1 is present, 2 is writable, and frame 1 is 4,096
        (
            Case {
                other: (8, Other::Lowers),
                ..plain
            },
            Some(GiveUp::EntryChanged {
                first: 4_099,
                second: 4_097,
            }),
            first,
            second,
            (1_025, 1),
        ),
        (
            Case {
                other: (8, Other::Frees),
                ..plain
            },
            Some(GiveUp::EntryChanged {
                first: 4_099,
                second: 0,
            }),
            first,
            second,
            (1_025, 0),
        ),
        (
            Case {
                mark: false,
                ..read_only
            },
            Some(GiveUp::Unmarked),
            first,
            second,
            (1_025, 1),
        ),
        (
            Case {
                other: (10, Other::Begins),
                ..plain
            },
            Some(GiveUp::Changed { first: 0, last: 1 }),
            none,
            both,
            (1, 1),
        ),
        (
            Case {
                other: (5, Other::Forks),
                ..plain
            },
            Some(GiveUp::Changed { first: 0, last: 2 }),
            none,
            both,
            (1, 1),
        ),
    ] {
        let mut pages = standing(&rt, rt.alloc(), case)?;
        let walked = Walked::over(&rt, &mut pages, case)?;
        assert_eq!(&rt; walked.found, found, "{case:?}");
        let numbers = walked.walk.kept().iter().map(|f| f.get());
        let now_kept: Vec<u64> = numbers.collect(rt.alloc()).or(Err("memory"))?;
        assert_eq!(&rt; now_kept.as_slice(), kept, "{case:?}");
        assert_eq!(&rt; walked.dropped.as_slice(), dropped, "{case:?}");
        assert_eq!(&rt; pages.counts(&rt), Some(counts), "{case:?}");
        assert!(&rt; pages.space.has_pinned());
    }
    Ok(())
}
