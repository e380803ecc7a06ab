//! A walk, step by step.
ghost use Rattle.std.specs.Prelude.{◌≡◌, ℕ, ◌+◌, ◌<◌, ◌≤◌, ◌^◌, [], ◌∷◌, true, is_some, length, List, Some, None, IfSome};
ghost use Rattle.std.specs.Option.{option_map};
ghost use Rattle.gup_base.specs.declared.entry.Entry.{Entry as EntryValue};
ghost use Rattle.gup_frames.specs.Frames.{FrameLists, frames_of, IsFrame};
ghost use Rattle.gup_space.specs.Space.{SpaceParts, space_of, tables_in};
ghost use Rattle.gup_spec_tables.specs.Paths.{entry_at, leads_still, path_to, KeepsPath};
ghost use Rattle.gup_space.specs.Shows.{change_of};
ghost use Rattle.gup_spec_events.specs.State.{WalkStep, entered, ready, read, grabbed, rechecked};
ghost use Rattle.gup_spec_events.specs.Event.{read_mark};
ghost use Rattle.gup_spec_events.specs.Descent.{reads_down};
ghost use Rattle.gup_tables.specs.Path.{tables_on};
ghost use Rattle.gup_fast.specs.Stages.{stage_of};
ghost use Rattle.gup_fast.specs.Walks.{unbegun, at, new_walk, walk_at, at_stage, next_page, kept_at, MayGrab, MayRecheck, MayReadMark, MayReadAgain, sequence_found, entry_found, count_found, entry_again, found_again, is_same, mark_found, sequence_again, IsNext, after_sequence, step_after_read, entry_down_in, grabbed_frames, step_after_grab, after_recheck, step_after_mark, after_again, stage_left as stage_left_of, dropped_at, dropped_frames, after_drop, flags, reads_sequence, grabs, rechecks, reads_again, drops, AreWalkEvents, IsWalk};

use arrayvec::ArrayVec;
use gup_base::{Entry, FrameNo, PIN_BIAS, PageNo, Want, Zone, pack};
use gup_frames::Frames;
use gup_space::Space;
use gup_tables::{Path, index, link};
use std::marker::Model;

/// What a walk read, for which it has no page, stops before one, or keeps none. The slow way goes on from there.
#[derive(Clone, Copy, Debug, PartialEq, Eq)]
pub enum GiveUp {
    /// The sequence was this odd number: a fork of the process was running.
    Odd(u64),
    /// The sequence was the first of these at the beginning of the walk, and the last at its end: a fork has begun in
    /// between.
    Changed { first: u64, last: u64 },
    /// The page had no entry.
    Absent,
    /// The page's entry was read-only, and the pin is one to write.
    Rights,
    /// The page's frame was this one of the movable zone, and the pin is for long.
    MovableFrame(FrameNo),
    /// The frame of the page's entry was free when its count was read.
    CountZero,
    /// The page's entry was another when it was read again, or the word above it was. These are the words of the page table.
    EntryChanged { first: u64, second: u64 },
    /// The page's entry was read-only and its frame unmarked, so others may share it.
    Unmarked,
}

/// The next step of a walk, and what it is of.
#[derive(Clone, Copy, Debug, PartialEq, Eq)]
pub enum Step {
    /// [`Walk::flag`].
    Flag,
    /// [`Walk::sequence`].
    Sequence,
    /// [`Walk::read`] of this page.
    Read(PageNo),
    /// [`Walk::grab`] of the frame of this entry, which was read down this path of the page.
    Grab {
        page: PageNo,
        path: Path,
        entry: Entry,
    },
    /// [`Walk::recheck`] of this path of the page, and of this entry at its end.
    Recheck {
        page: PageNo,
        path: Path,
        entry: Entry,
    },
    /// [`Walk::mark`] of the frame of this entry, which the page has twice had.
    Mark {
        page: PageNo,
        entry: Entry,
    },
    /// [`Walk::again`].
    Again,
    /// [`Walk::drop_one`] of this frame.
    Drop(FrameNo),
    /// None: the walk is over.
    Nothing,
}

/// Where a walk stands.
#[derive(Clone, Copy, Debug, PartialEq, Eq)]
pub enum Stage {
    /// It has not begun.
    Unbegun,
    /// The sequence is to be read.
    Entered,
    /// The entry of the next page is to be read, or after the last page the sequence again.
    Ready,
    /// This entry was read down this path of the page; its frame is to be grabbed.
    Read {
        page: PageNo,
        path: Path,
        entry: Entry,
    },
    /// The frame is grabbed; the word above the path's last table, and the entry, are to be read again.
    Grabbed {
        page: PageNo,
        path: Path,
        entry: Entry,
    },
    /// The entry was the same, and the page is taken; the frame's mark is to be read.
    Rechecked {
        page: PageNo,
        entry: Entry,
    },
    /// The page had another entry than this frame's, which is to be dropped.
    Differed(FrameNo),
    /// The frame of the last page taken wasn't marked, and is to be dropped.
    Refused,
    /// The walk stopped at a page, and the sequence is to be read again.
    Stopped,
    /// The sequence was another, and the pages that are left are to be dropped.
    Dropping,
    /// The walk is over.
    Left,
}

/// The lockless walk of one pin. Each call is a step, and others may act between any two of them; each has the
/// condition that it is the walk's next step, which [`Walk::next`] names.
///
/// First [`Walk::flag`] and [`Walk::sequence`]; then for each page [`Walk::read`], [`Walk::grab`], [`Walk::recheck`]
/// and [`Walk::mark`]; after the last page, or where the walk stops before one, [`Walk::again`]. While
/// [`Walk::drop_one`] has something to drop, it is the next step.
#[derive(Drop)]
pub struct Walk {
    page: PageNo,
    n: u8,
    want: Want,
    sequence: u64,
    stage: Stage,
    taken: ArrayVec<FrameNo, 16>,
}

impl Model for Walk {
    ghost use Rattle.gup_fast.specs.Walks.{WalkValue, IsWalk};
    ghost use Rattle.gup_fast.specs.Stages.{stage_of};

    ghost Value = { WalkValue };

    ghost view = { λ w. record {
      page = w.page;
      n = w.n;
      want = w.want;
      sequence = w.sequence;
      stage = stage_of w.stage;
      taken = w.taken.items;
    } };

    ghost invariant = { λ w. IsWalk (record {
      page = w.page;
      n = w.n;
      want = w.want;
      sequence = w.sequence;
      stage = stage_of w.stage;
      taken = w.taken.items;
    }) };
}

impl Walk {
    /// The walk of a pin of `n` pages from `page` on, which has not begun.
    #[inline]
    pub fn new(page: PageNo, n: u8, want: Want) -> Walk
        requires some { 1 ≤ n }
        requires most { n ≤ 16 }
        requires range { page + n ≤ 2 ^ 35 }
        ensures { result ≡ new_walk page n want }
    {
        Walk {
            page,
            n,
            want,
            sequence: 0,
            stage: Stage::Unbegun,
            taken: ArrayVec::new(),
        }
    }

    /// The walk stands there, has read this sequence and taken these frames.
    #[inline]
    pub fn resume(&mut self, sequence: u64, stage: Stage, taken: &ArrayVec<FrameNo, 16>)
        requires { IsWalk (walk_at self.old.page self.old.n self.old.want sequence (stage_of stage) taken.now.items) }
        ensures { self.new
            ≡ walk_at self.old.page self.old.n self.old.want sequence (stage_of stage) taken.now.items }
    {
        self.sequence = sequence;
        self.stage = stage;
        self.taken.clear();
        self.taken.try_extend_from_slice(taken.as_slice()).unwrap();
    }

    /// Where the walk stands.
    #[inline]
    pub fn stage(&self) -> Stage
        ensures { stage_of result ≡ self.now.stage }
    {
        self.stage
    }

    /// The sequence that the walk has read, 0 before it has.
    #[inline]
    pub fn sequence_read(&self) -> u64
        ensures { result ≡ self.now.sequence }
    {
        self.sequence
    }

    /// Puts the frames that the walk has taken and not dropped in place of these.
    #[inline]
    pub fn put_taken(&self, taken: &mut ArrayVec<FrameNo, 16>)
        ensures { taken.new.items ≡ self.now.taken }
    {
        taken.clear();
        taken.try_extend_from_slice(self.taken.as_slice()).unwrap();
    }

    /// Which call is the walk's next step, and what it is of.
    #[inline]
    pub fn next(&self) -> Step
        ensures { IsNext self.now result }
    {
        let stage = self.stage;
        let taken = self.taken.as_slice();
        match stage {
            Stage::Unbegun => Step::Flag,
            Stage::Entered => Step::Sequence,
            Stage::Ready if taken.len() < usize::from(self.n) => Step::Read(self.next_page()),
            Stage::Ready | Stage::Stopped => Step::Again,
            Stage::Read { page, path, entry } => Step::Grab { page, path, entry },
            Stage::Grabbed { page, path, entry } => Step::Recheck { page, path, entry },
            Stage::Rechecked { page, entry } => Step::Mark { page, entry },
            Stage::Differed(frame) => Step::Drop(frame),
            Stage::Refused => Step::Drop(taken[taken.len() - 1]),
            Stage::Dropping => Step::Drop(taken[0]),
            Stage::Left => Step::Nothing,
        }
    }

    /// The process has pinned from now on, and the walk runs (Linux's `mm_set_has_pinned_flag` in `gup_fast_fallback`;
    /// and interrupts are off from then on, which keeps page tables from being freed).
    #[inline]
    pub fn flag(&mut self, space: &mut Space)
        requires at { self.old.stage ≡ unbegun }
        ensures walk { self.new ≡ at_stage (at entered) self.old }
        ensures space { space_of space.new ≡ record (space_of space.old) { has_pinned = true } }
        ensures events { (frames : FrameLists) → AreWalkEvents (change_of frames frames space.old space.new) self.old self.new
            (λ s a p. flags a p self.old) }
    {
        space.set_pinned();
        self.stage = Stage::Entered;
    }

    /// Reads the sequence. `Odd` exactly where it is odd, since a fork runs then; the walk is over, without a page
    /// (Linux's `raw_seqcount_begin` of `write_protect_seq` in `gup_fast`).
    #[inline]
    pub fn sequence(&mut self, space: &Space) -> Option<GiveUp>
        requires at { self.old.stage ≡ at entered }
        ensures found { result ≡ sequence_found (space_of space.now).sequence }
        ensures walk { self.new ≡ after_sequence (space_of space.now).sequence self.old }
        ensures events { (frames : FrameLists) → AreWalkEvents (change_of frames frames space.now space.now) self.old self.new
            (λ s a p. reads_sequence a p (space_of space.now).sequence self.old) }
    {
        let sequence = space.sequence();
        self.sequence = sequence;
        if sequence % 2 == 1 {
            self.stage = Stage::Left;
            return Some(GiveUp::Odd(sequence));
        }
        self.stage = Stage::Ready;
        None
    }

    /// Reads down the path of the next page: a word of the root and of each table to which the word before leads, and the
    /// entry in the last one. The walk stops before the page exactly where a table or the entry is absent, where that is
    /// read-only for a pin to write, or where its frame is movable for a pin that is for long, in this order (Linux's
    /// `gup_fast_pgd_range` to `gup_fast_pte_range`: `pte_access_permitted`, and `folio_is_longterm_pinnable` in
    /// `try_grab_folio_fast`; that the zone is looked at before the frame is grabbed is this project's own).
    pub fn read(&mut self, space: &Space, frames: &Frames) -> Option<GiveUp>
        requires at { self.old.stage ≡ at ready }
        requires more { length self.old.taken < self.old.n }
        requires there { IfSome ((space_of space.now).entry (next_page self.old)) (λ e. IsFrame (frames_of frames.now) e.frame) }
        ensures found { result ≡ entry_found (frames_of frames.now) self.old.want
            (entry_down_in (tables_in (space_of space.now)) (next_page self.old)) }
        ensures entry { entry_down_in (tables_in (space_of space.now)) (next_page self.old) ≡ (space_of space.now).entry (next_page self.old) }
        ensures walk { self.new ≡ at_stage (at (step_after_read (frames_of frames.now) self.old.want (next_page self.old)
            (path_to (tables_in (space_of space.now)) (next_page self.old))
            (entry_down_in (tables_in (space_of space.now)) (next_page self.old)))) self.old }
        ensures events { AreWalkEvents (change_of frames.now frames.now space.now space.now) self.old self.new
            (λ s a p. reads_down s a p self.old.want.write self.old.want.long self.old.sequence (next_page self.old)) }
    {
        let page = self.next_page();
        let Some((path, entry)) = read_down(space, page) else {
            self.stage = Stage::Stopped;
            return Some(GiveUp::Absent);
        };
        if self.want.write && !entry.writable {
            self.stage = Stage::Stopped;
            return Some(GiveUp::Rights);
        }
        if self.want.long && frames.zone(entry.frame) == Zone::Movable {
            self.stage = Stage::Stopped;
            return Some(GiveUp::MovableFrame(entry.frame));
        }
        self.stage = Stage::Read { page, path, entry };
        None
    }

    /// Gives the frame of the entry that was read the weight of a pin. Where its count is 0 nothing is done and the
    /// walk stops: the frame is free, and somebody may be about to take it (Linux's `try_get_folio`,
    /// `folio_ref_try_add`; that the weight is added in one step is this project's own, Linux adds 1 and then 1,023).
    pub fn grab(&mut self, frames: &mut Frames) -> Option<GiveUp>
        requires at { MayGrab self.old.stage }
        requires there { (page : ℕ) (path : List ℕ) (e : EntryValue) → self.old.stage ≡ at (read page path e)
            → IsFrame (frames_of frames.old) e.frame }
        requires few { (f : ℕ) → (frames_of frames.old).count f < 2 ^ 40 }
        ensures found { (page : ℕ) (path : List ℕ) (e : EntryValue) → self.old.stage ≡ at (read page path e)
            → result ≡ count_found ((frames_of frames.old).count e.frame) }
        ensures frames { (page : ℕ) (path : List ℕ) (e : EntryValue) → self.old.stage ≡ at (read page path e)
            → frames_of frames.new ≡ grabbed_frames e.frame ((frames_of frames.old).count e.frame) (frames_of frames.old) }
        ensures walk { (page : ℕ) (path : List ℕ) (e : EntryValue) → self.old.stage ≡ at (read page path e)
            → self.new ≡ at_stage (at (step_after_grab page path e ((frames_of frames.old).count e.frame))) self.old }
        ensures events { (space : SpaceParts) (page : ℕ) (path : List ℕ) (e : EntryValue) → self.old.stage ≡ at (read page path e)
            → AreWalkEvents (change_of frames.old frames.new space space) self.old self.new
            (λ s a p. grabs a p page ((frames_of frames.old).count e.frame) path e self.old) }
    {
        let stage = self.stage;
        let Stage::Read { page, path, entry } = stage else {
            return None;
        };
        if frames.count(entry.frame) == 0 {
            self.stage = Stage::Stopped;
            return Some(GiveUp::CountZero);
        }
        frames.grab(entry.frame, PIN_BIAS);
        self.stage = Stage::Grabbed { page, path, entry };
        None
    }

    /// Reads the word above the path's last table again, and where that still leads to it the page's entry. Where that is
    /// the same, too, the page is taken: the pin names what the page names now. Where one is another, the grabbed frame is
    /// to be dropped, and the walk stops (Linux's `pmd_val(pmd) != pmd_val(*pmdp)` and
    /// `pte_val(pte) != pte_val(ptep_get(ptep))` in `gup_fast_pte_range`).
    ///
    /// The process has kept the tables that the walk went through: each stands where it stood, or was taken out and is empty.
    pub fn recheck(&mut self, space: &Space) -> Option<GiveUp>
        requires at { MayRecheck self.old.stage }
        requires kept { (page : ℕ) (path : List ℕ) (e : EntryValue) → self.old.stage ≡ at (grabbed page path e)
            → KeepsPath (tables_in (space_of space.now)) path page }
        ensures found { (page : ℕ) (path : List ℕ) (e : EntryValue) → self.old.stage ≡ at (grabbed page path e)
            → result ≡ found_again (tables_in (space_of space.now)) page path e }
        ensures walk { (page : ℕ) (path : List ℕ) (e : EntryValue) → self.old.stage ≡ at (grabbed page path e)
            → self.new ≡ after_recheck (tables_in (space_of space.now)) page path e self.old }
        ensures events { (frames : FrameLists) (page : ℕ) (path : List ℕ) (e : EntryValue) → self.old.stage ≡ at (grabbed page path e)
            → AreWalkEvents (change_of frames frames space.now space.now) self.old self.new
            (λ s a p. rechecks a p page path e (leads_still (tables_in (space_of space.now)) path page)
            (is_same e (entry_at (tables_in (space_of space.now)) path page)) self.old) }
    {
        let stage = self.stage;
        let Stage::Grabbed { page, path, entry } = stage else {
            return None;
        };
        let changed = read_again(space, page, &path, &entry);
        if changed.is_some() {
            self.stage = Stage::Differed(entry.frame);
            return changed;
        }
        self.taken.push(entry.frame);
        self.stage = Stage::Rechecked { page, entry };
        None
    }

    /// Reads the mark of the frame, where the entry was read-only. An unmarked frame may be shared, so the page is to
    /// be dropped and the walk stops; else the page is kept (Linux's `gup_must_unshare` in `gup_fast_pte_range`).
    pub fn mark(&mut self, frames: &Frames) -> Option<GiveUp>
        requires at { MayReadMark self.old.stage }
        requires there { (page : ℕ) (e : EntryValue) → self.old.stage ≡ at (rechecked page e)
            → IsFrame (frames_of frames.now) e.frame }
        ensures found { (page : ℕ) (e : EntryValue) → self.old.stage ≡ at (rechecked page e)
            → result ≡ mark_found e.writable ((frames_of frames.now).mark e.frame) }
        ensures walk { (page : ℕ) (e : EntryValue) → self.old.stage ≡ at (rechecked page e)
            → self.new ≡ at_stage (at (step_after_mark e.writable ((frames_of frames.now).mark e.frame))) self.old }
        ensures events { (space : SpaceParts) (page : ℕ) (e : EntryValue) → self.old.stage ≡ at (rechecked page e)
            → AreWalkEvents (change_of frames.now frames.now space space) self.old self.new
            (λ s a p. read_mark a p self.old.want.write self.old.want.long self.old.sequence page e
            ((frames_of frames.now).mark e.frame) ∷ []) }
    {
        let Stage::Rechecked { entry, .. } = self.stage else {
            return None;
        };
        if !entry.writable && !frames.mark(entry.frame) {
            self.stage = Stage::Refused;
            return Some(GiveUp::Unmarked);
        }
        self.stage = Stage::Ready;
        None
    }

    /// Reads the sequence again, after the last page or where the walk stopped. Where it is as it was the walk is over,
    /// and keeps its pages. `Changed` exactly where it isn't: a fork has begun, which may have counted the frames
    /// before they were grabbed. Then no page is kept, and each is to be dropped (Linux's `read_seqcount_retry` in
    /// `gup_fast`).
    pub fn again(&mut self, space: &Space) -> Option<GiveUp>
        requires at { MayReadAgain self.old self.old.stage }
        ensures found { result ≡ sequence_again self.old.sequence (space_of space.now).sequence }
        ensures walk { self.new ≡ after_again (space_of space.now).sequence self.old }
        ensures events { (frames : FrameLists) (step : WalkStep) → self.old.stage ≡ at step
            → AreWalkEvents (change_of frames frames space.now space.now) self.old self.new
            (λ s a p. reads_again a p (space_of space.now).sequence step self.old) }
    {
        let last = space.sequence();
        let first = self.sequence;
        if last == first {
            self.stage = Stage::Left;
            return None;
        }
        self.stage = stage_left(&self.taken);
        Some(GiveUp::Changed { first, last })
    }

    /// Drops one frame that the walk grabbed and doesn't keep, if there is one: it loses the weight of a pin. Of a walk
    /// that keeps nothing, the pages are dropped one a call, in rising order, and the walk is over with the last
    /// (Linux's `gup_put_folio`, and `gup_fast_unpin_user_pages`). False exactly where nothing is to be dropped, and
    /// nothing changes then.
    pub fn drop_one(&mut self, frames: &mut Frames) -> bool
        requires there { IfSome (dropped_at self.old.stage self.old.taken) (IsFrame (frames_of frames.old)) }
        requires held { IfSome (dropped_at self.old.stage self.old.taken) (λ f. 1024 ≤ (frames_of frames.old).count f) }
        ensures drops { result ≡ is_some (dropped_at self.old.stage self.old.taken) }
        ensures frames { frames_of frames.new
            ≡ dropped_frames (dropped_at self.old.stage self.old.taken) (frames_of frames.old) }
        ensures walk { self.new ≡ after_drop self.old.stage self.old }
        ensures events { (space : SpaceParts) → AreWalkEvents (change_of frames.old frames.new space space) self.old self.new
            (λ s a p. drops a p self.old self.old.stage (s.taken a)) }
    {
        let Some(frame) = self.take_dropped() else {
            return false;
        };
        frames.put(frame, PIN_BIAS);
        true
    }

    /// The frames of the pages that the walk keeps so far, in the order of their pages. A page whose mark isn't read
    /// yet, or was found missing, is none of them; and a walk that keeps nothing has none, also while pages are left to
    /// be dropped.
    pub fn kept(&self) -> &[FrameNo]
        ensures { result.now ≡ kept_at self.now.stage self.now.taken }
    {
        let taken = self.taken.as_slice();
        match self.stage {
            Stage::Rechecked { .. } | Stage::Refused => &taken[..taken.len() - 1],
            Stage::Dropping => &taken[..0],
            _ => taken,
        }
    }

    /// A law: the walk is of 1 to 16 pages, and what it has taken is no more than these and fits where it stands.
    pub fn is_in_order(&self)
        ensures { IsWalk self.now }
    {
        let _taken = &self.taken;
    }

    // Takes out the frame that is to be dropped next, where there is one.
    fn take_dropped(&mut self) -> Option<FrameNo>
        ensures frame { result ≡ dropped_at self.old.stage self.old.taken }
        ensures walk { self.new ≡ after_drop self.old.stage self.old }
        ensures was { IsWalk self.old }
    {
        let stage = self.stage;
        match stage {
            Stage::Differed(frame) => {
                self.stage = Stage::Stopped;
                Some(frame)
            }
            Stage::Refused => {
                self.stage = Stage::Stopped;
                self.taken.pop()
            }
            Stage::Dropping => {
                if self.taken.is_empty() {
                    return None;
                }
                let frame = self.taken.remove(0);
                self.stage = stage_left(&self.taken);
                Some(frame)
            }
            _ => None,
        }
    }

    // The page after those that it has taken.
    fn next_page(&self) -> PageNo
        requires { length self.now.taken < self.now.n }
        ensures { result ≡ next_page self.now }
    {
        PageNo::new(self.page.get() + self.taken.len() as u64).unwrap()
    }
}

// What is read down the page's path: its tables, and the entry at its end. None where a table or the entry is missing.
fn read_down(space: &Space, page: PageNo) -> Option<(Path, Entry)>
    ensures path { IfSome result (λ r. path_to (tables_in (space_of space.now)) page ≡ tables_on r.0) }
    ensures entry { entry_down_in (tables_in (space_of space.now)) page ≡ option_map (λ r. r.1) result }
    ensures same { entry_down_in (tables_in (space_of space.now)) page ≡ (space_of space.now).entry page }
{
    space.has_path(page);
    let path = space.path(page)?;
    let entry = space.entry_by(&path, page)?;
    Some((path, entry))
}

// What a walk that read this entry down this path finds where it reads the word above and the entry again.
fn read_again(space: &Space, page: PageNo, path: &Path, entry: &Entry) -> Option<GiveUp>
    requires { KeepsPath (tables_in (space_of space.now)) (tables_on path.now) page }
    ensures { result ≡ found_again (tables_in (space_of space.now)) page (tables_on path.now) entry.now }
{
    if !space.leads(path, page) {
        return Some(GiveUp::EntryChanged {
            first: link(path.last),
            second: space.word_at(path.second, index(page, 2) as u16),
        });
    }
    entry_changed(entry, space.entry_by(path, page))
}

// What a walk that read this entry finds where the page has this one now: nothing, if it is the same.
fn entry_changed(was: &Entry, now: Option<Entry>) -> Option<GiveUp>
    ensures { result ≡ entry_again was.now now }
{
    let was = Some(*was);
    if now == was {
        return None;
    }
    Some(GiveUp::EntryChanged {
        first: pack(was),
        second: pack(now),
    })
}

// Where a walk that keeps nothing stands: pages are left to be dropped, or it is over.
fn stage_left(taken: &ArrayVec<FrameNo, 16>) -> Stage
    ensures { stage_of result ≡ stage_left_of taken.now.items }
{
    if taken.is_empty() {
        Stage::Left
    } else {
        Stage::Dropping
    }
}
