//! The state of the core machine.
ghost use Rattle.std.specs.Prelude.{◌≡◌, ◌≤◌, ◌==◌, if◌then◌else◌, true, false, ◌↔◌, IsTrue, IfOk};
ghost use Rattle.gup_spec_events.specs.State.{core_start};
ghost use Rattle.gup_spec_events.specs.Event.{AreUnlocked, IsAllowed, IsIdle, IsNormal, IsUnmirrored};
ghost use Rattle.gup_plain.specs.State.{born, unborn};
ghost use Rattle.gup_exec_rows.specs.Procs.{births, copies};
ghost use Rattle.gup_exec_core.specs.State.{state_of};

use gup_base::{ActorNo, Allowed, Entry, FrameNo, NoMemory, PageNo, ProcNo, Rights, Zone};
use gup_exec_jobs::job::Job;
use gup_exec_jobs::lists::Frames;
use gup_exec_jobs::taken::TakenList;
use gup_exec_parts::contents::Contents;
use gup_exec_rows::grid::Grid;
use gup_exec_rows::handles::Handles;
use gup_exec_rows::mirrors::Mirrors;
use gup_exec_rows::objects::Objects;
use gup_exec_rows::procs::Procs;
use gup_exec_rows::row::Row;
use gup_exec_rows::sheets::Sheets;
use gup_exec_rows::stores::Stores;
use gup_exec_rows::tables::{TableList, free_below};
use gup_tables::Place;
use std::alloc::Global;

/// A state of the core machine, with 16 processes, 81 actors, 1,024 handles and as many got references, and 64 mirror
/// slots. No entry needs page tables. Contracts see it as `state_of` it.
#[derive(Drop)]
pub struct Trial {
    pub movable: u16,
    pub normal: u16,
    pub count: Row<u64, 16384>,
    pub mark: Row<bool, 16384>,
    pub word: Sheets,
    pub own: Row<Option<u64>, 16384>,
    pub procs: Procs,
    pub sequence: Row<u64, 16>,
    pub has_pinned: Row<bool, 16>,
    pub structure: Row<Option<ActorNo>, 16>,
    pub table: Row<Option<ActorNo>, 16>,
    pub walks: Row<u64, 16>,
    pub pages: Row<u64, 16>,
    pub right: Grid<Rights>,
    pub entry: Grid<Entry>,
    pub object: Objects,
    pub contents: Contents,
    pub handle: Handles,
    pub pinned: Row<Frames, 1024>,
    pub for_long: Row<bool, 1024>,
    pub got: Row<Option<(ActorNo, FrameNo)>, 1024>,
    pub mirrors: Mirrors,
    pub job: Row<Job, 81>,
    pub prepared: Row<Option<FrameNo>, 81>,
    pub owed: Row<Option<FrameNo>, 81>,
    pub taken: Row<TakenList, 81>,
    pub store: Stores,
    pub free_table: Row<bool, 8192>,
    pub place: Grid<Place>,
    pub retired: Row<TableList, 16>,
    pub alloc: Global,
}

// One process is born.
fn one_born(alloc: Global, first: ProcNo) -> Result<Procs, NoMemory>
    ensures births { IfOk result (λ procs. births procs ≡ (λ p. if p == first then born else unborn)) }
    ensures copies { IfOk result (λ procs. copies procs ≡ (λ _ _ _. false)) }
{
    let mut procs = Procs::new(alloc)?;
    procs.be_born(first);
    Ok(procs)
}

impl Trial {
    /// The start: so many frames of the movable zone and, after them, of the normal one, all free and zero; so many page
    /// tables; one process born, and nothing mapped.
    pub fn new(
        alloc: Global,
        movable: u16,
        normal: u16,
        tables: u16,
        first: ProcNo,
    ) -> Result<Trial, NoMemory>
        requires { tables ≤ 8192 }
        ensures { IfOk result (λ trial. state_of trial ≡ core_start movable normal tables false (λ p. p == first)) }
    {
        let count = Row::new(alloc, 0)?;
        let mark = Row::new(alloc, false)?;
        let word = Sheets::new(alloc)?;
        let own = Row::new(alloc, None)?;
        let procs = one_born(alloc, first)?;
        let sequence = Row::new(alloc, 0)?;
        let has_pinned = Row::new(alloc, false)?;
        let structure = Row::new(alloc, None)?;
        let table = Row::new(alloc, None)?;
        let walks = Row::new(alloc, 0)?;
        let pages = Row::new(alloc, 0)?;
        let right = Grid::new(alloc)?;
        let entry = Grid::new(alloc)?;
        let object = Objects::new(alloc)?;
        let handle = Handles::new(alloc)?;
        let contents = Contents::new(alloc);
        let frames = Vec::new(alloc);
        let no_frames = Frames::new(frames);
        let pinned = Row::new(alloc, no_frames)?;
        let for_long = Row::new(alloc, false)?;
        let got = Row::new(alloc, None)?;
        let mirrors = Mirrors::new(alloc)?;
        let no_job = Job::idle();
        let job = Row::new(alloc, no_job)?;
        let prepared = Row::new(alloc, None)?;
        let owed = Row::new(alloc, None)?;
        let pages_taken = Vec::new(alloc);
        let no_pages = TakenList::new(pages_taken);
        let taken = Row::new(alloc, no_pages)?;
        let store = Stores::new(alloc)?;
        let free_table = free_below(alloc, tables)?;
        let place = Grid::new(alloc)?;
        let tables_out = Vec::new(alloc);
        let no_tables = TableList::new(tables_out);
        let retired = Row::new(alloc, no_tables)?;
        Ok(Trial {
            movable,
            normal,
            count,
            mark,
            word,
            own,
            procs,
            sequence,
            has_pinned,
            structure,
            table,
            walks,
            pages,
            right,
            entry,
            object,
            contents,
            handle,
            pinned,
            for_long,
            got,
            mirrors,
            job,
            prepared,
            owed,
            taken,
            store,
            free_table,
            place,
            retired,
            alloc,
        })
    }

    /// Whether neither the structure nor the page tables of the process are locked.
    pub(crate) fn is_unlocked(&self, p: ProcNo) -> bool
        ensures { IsTrue result ↔ AreUnlocked (state_of self.now) p }
    {
        self.structure.get(p).is_none() && self.table.get(p).is_none()
    }

    /// Whether the actor is in the middle of nothing, and keeps no frame.
    pub fn is_idle(&self, a: ActorNo) -> bool
        ensures { IsTrue result ↔ IsIdle (state_of self.now) a }
    {
        self.job.get(a).is_idle() && self.prepared.get(a).is_none()
    }

    /// Whether the frame may be pinned so: for long only in the normal zone.
    pub(crate) fn may_stay(&self, long: bool, f: FrameNo) -> bool
        ensures { IsTrue result ↔ (long ≡ true → IsNormal (state_of self.now) f) }
    {
        !long || f.get() >= u64::from(self.movable)
    }

    /// Whether a move to these zones may take the frame.
    pub(crate) fn may_move_to(&self, allowed: &Allowed, f: FrameNo) -> bool
        ensures { IsTrue result ↔ IsAllowed (state_of self.now) allowed.now f }
    {
        match *allowed {
            Allowed::Any => true,
            Allowed::Only(Zone::Movable) => f.get() < u64::from(self.movable),
            Allowed::Only(Zone::Normal) => f.get() >= u64::from(self.movable),
        }
    }

    /// Whether no mirror of the page is filled.
    pub(crate) fn is_unmirrored(&self, p: ProcNo, page: PageNo) -> bool
        ensures { IsTrue result ↔ IsUnmirrored (state_of self.now) p page }
    {
        self.mirrors.is_clear(p, page)
    }
}
