//! The facts of a machine, frame by frame.
use gup_base::{ActorNo, FrameNo, HandleNo, MirrorNo, NoMemory, PageNo, ProcNo, WordNo};
use gup_image::{Fact, KeptFact};
use gup_op_base::{JobPlace, WalkPlace};
use std::alloc::Global;

/// What names a frame, or has a reference of it.
#[derive(Clone, Copy, Debug, PartialEq, Eq)]
pub enum Holder {
    /// The entry of a page.
    Entry {
        proc: ProcNo,
        page: PageNo,
        writable: bool,
    },
    /// A pin.
    Pin(HandleNo),
    /// A reference that was got.
    Reference(HandleNo),
    /// A pin under way has taken it.
    Taken(ActorNo),
    /// A lockless walk has grabbed it.
    Grabbed(ActorNo),
    /// A fork copies a page into it.
    Copied(ActorNo),
    /// The entry of its page was cleared, for it is being moved.
    Moved(ActorNo),
    /// A mirror slot, which has no reference.
    Slot(MirrorNo),
}

/// A frame: its references, with 1,024 for each pin, its mark, and what names it.
#[derive(Debug, Drop)]
pub struct FrameView {
    pub count: u64,
    pub mark: bool,
    pub holders: Vec<Holder>,
}

impl FrameView {
    /// Whether the frame has no reference, and nothing names it.
    pub fn is_free(&self) -> bool {
        self.count == 0 && !self.mark && self.holders.is_empty()
    }

    /// Whether the entry of this page names the frame.
    pub fn is_of(&self, proc: ProcNo, page: PageNo) -> bool {
        for holder in &self.holders {
            if let Holder::Entry {
                proc: p,
                page: g,
                ..
            } = holder
                && p.get() == proc.get()
                && g.get() == page.get()
            {
                return true;
            }
        }
        false
    }

    /// Whether both are alike.
    pub fn is_like(&self, other: &FrameView) -> bool {
        self.count == other.count
            && self.mark == other.mark
            && self.holders.as_slice() == other.holders.as_slice()
    }
}

/// A word of a frame that isn't 0.
#[derive(Clone, Copy, Debug, PartialEq, Eq)]
pub struct WordView {
    pub frame: FrameNo,
    pub word: WordNo,
    pub value: u64,
}

/// A mirror slot that is filled.
#[derive(Clone, Copy, Debug, PartialEq, Eq)]
pub struct SlotView {
    pub mirror: MirrorNo,
    pub proc: ProcNo,
    pub page: PageNo,
    pub frame: FrameNo,
}

/// A process: who holds its locks, its sequence, and whether it has ever pinned.
#[derive(Clone, Copy, Debug, PartialEq, Eq)]
pub struct ProcessView {
    pub structure: Option<ActorNo>,
    pub table: Option<ActorNo>,
    pub sequence: u64,
    pub has_pinned: bool,
}

/// A machine between two turns. Words and slots stand in rising order, processes and jobs at their numbers.
#[derive(Debug, Drop)]
pub struct View {
    pub frames: Vec<FrameView>,
    pub words: Vec<WordView>,
    pub slots: Vec<SlotView>,
    pub processes: Vec<ProcessView>,
    pub jobs: Vec<JobPlace>,
}

impl View {
    /// The machine that has these facts.
    pub fn of(alloc: Global, facts: &[KeptFact]) -> Result<View, NoMemory> {
        let mut view = View {
            frames: Vec::new(alloc),
            words: Vec::new(alloc),
            slots: Vec::new(alloc),
            processes: Vec::new(alloc),
            jobs: Vec::new(alloc),
        };
        for fact in facts {
            view.add(alloc, fact.fact())?;
        }
        Ok(view)
    }

    /// The job of an actor.
    pub fn job(&self, actor: ActorNo) -> JobPlace {
        match self.jobs.get(actor.get() as usize) {
            Some(job) => *job,
            None => JobPlace::Unbegun,
        }
    }

    fn add(&mut self, alloc: Global, fact: Fact) -> Result<(), NoMemory> {
        match fact {
            Fact::Zones { movable, normal } => self.add_frames(alloc, movable, normal),
            Fact::Frame { mark, frame, count } => {
                self.count(frame, count, mark);
                Ok(())
            }
            Fact::Word { frame, word, value } => self.add_word(frame, word, value),
            Fact::Process {
                structure,
                table,
                sequence,
                has_pinned,
                ..
            } => {
                self.processes.push(ProcessView {
                    structure,
                    table,
                    sequence,
                    has_pinned,
                })?;
                Ok(())
            }
            Fact::Page {
                proc,
                entry,
                page,
                ..
            } => match entry {
                Some(entry) => self.hold(
                    entry.frame,
                    Holder::Entry {
                        proc,
                        page,
                        writable: entry.writable,
                    },
                ),
                None => Ok(()),
            },
            Fact::Pinned { frame, handle, .. } => self.hold(frame, Holder::Pin(handle)),
            Fact::Got { frame, handle, .. } => self.hold(frame, Holder::Reference(handle)),
            Fact::Taken { actor, frame, .. } => self.hold(frame, Holder::Taken(actor)),
            Fact::Filled {
                mirror,
                proc,
                frame,
                page,
            } => {
                self.add_slot(mirror, proc, frame, page)?;
                self.hold(frame, Holder::Slot(mirror))
            }
            Fact::Stands { actor, job, .. } => self.add_job(actor, job),
            Fact::Pin { .. } | Fact::Gone { .. } | Fact::Stored { .. } => Ok(()),
            Fact::Used { .. } | Fact::Table { .. } | Fact::Retired { .. } => Ok(()),
        }
    }

    fn add_frames(&mut self, alloc: Global, movable: u32, normal: u32) -> Result<(), NoMemory> {
        for _ in 0..movable.saturating_add(normal) {
            self.frames.push(FrameView {
                count: 0,
                mark: false,
                holders: Vec::new(alloc),
            })?;
        }
        Ok(())
    }

    fn count(&mut self, frame: FrameNo, count: u64, mark: bool) {
        if let Some(view) = self.frames.get_mut(frame.get() as usize) {
            view.count = count;
            view.mark = mark;
        }
    }

    fn hold(&mut self, frame: FrameNo, holder: Holder) -> Result<(), NoMemory> {
        if let Some(view) = self.frames.get_mut(frame.get() as usize) {
            view.holders.push(holder)?;
        }
        Ok(())
    }

    fn add_word(&mut self, frame: FrameNo, word: WordNo, value: u64) -> Result<(), NoMemory> {
        self.words.push(WordView { frame, word, value })?;
        Ok(())
    }

    fn add_slot(
        &mut self,
        mirror: MirrorNo,
        proc: ProcNo,
        frame: FrameNo,
        page: PageNo,
    ) -> Result<(), NoMemory> {
        self.slots.push(SlotView {
            mirror,
            proc,
            page,
            frame,
        })?;
        Ok(())
    }

    fn add_job(&mut self, actor: ActorNo, job: JobPlace) -> Result<(), NoMemory> {
        self.jobs.push(job)?;
        match &job {
            JobPlace::Copying { to, .. } => self.hold(*to, Holder::Copied(actor)),
            JobPlace::Cleared { entry, .. }
            | JobPlace::Single { entry, .. }
            | JobPlace::Shared { entry, .. } => self.hold(entry.frame, Holder::Moved(actor)),
            JobPlace::Walking { place, .. } => self.add_walk(actor, place),
            JobPlace::Unbegun | JobPlace::From(_) | JobPlace::At(_) | JobPlace::Wanting(_) => Ok(
                (),
            ),
        }
    }

    // What a lockless walk has a reference of, and hasn't taken.
    fn add_walk(&mut self, actor: ActorNo, place: &WalkPlace) -> Result<(), NoMemory> {
        match place {
            WalkPlace::Grabbed { entry, .. } => self.hold(entry.frame, Holder::Grabbed(actor)),
            WalkPlace::Differed(frame) => self.hold(*frame, Holder::Grabbed(actor)),
            _ => Ok(()),
        }
    }
}
