//! The pages that a running pin has taken.
ghost use Rattle.std.specs.Prelude.{◌≡◌, ◌↔◌, All, IsTrue, IfOk, [], ◌∷◌, ◌++◌};
ghost use Rattle.gup_spec_events.specs.State.{Taken};
ghost use Rattle.gup_spec_events.specs.Event.{AreAlike, IsUntaken, taken_frames, objects_taken, writes_taken, long_taken};

use gup_base::{FrameNo, NoMemory, PageNo, ProcNo};
use std::alloc::Global;
use std::marker::Model;

/// A page that a running pin has taken, and its process.
#[derive(Clone, Copy, Debug, PartialEq, Eq)]
pub struct Taken {
    proc: ProcNo,
    page: PageNo,
    frame: FrameNo,
    object: u64,
    write: bool,
    long: bool,
}

impl Model for Taken {
    ghost use Rattle.gup_spec_events.specs.State.{Taken as TakenValue};

    ghost Value = { TakenValue };

    ghost view = { λ t. record { proc = t.proc; page = t.page; frame = t.frame; object = t.object; write = t.write; long = t.long } };

    ghost inverse = { λ v. record { proc = v.proc; page = v.page; frame = v.frame; object = v.object; write = v.write; long = v.long } };
}

impl Taken {
    /// A page that is taken, with its frame and object.
    pub fn new(
        proc: ProcNo,
        page: PageNo,
        frame: FrameNo,
        object: u64,
        write: bool,
        long: bool,
    ) -> Taken
        ensures { result ≡ record { proc = proc; page = page; frame = frame; object = object; write = write; long = long } }
    {
        Taken {
            proc,
            page,
            frame,
            object,
            write,
            long,
        }
    }

    /// The page.
    pub fn page(&self) -> PageNo
        ensures { result ≡ self.now.page }
    {
        self.page
    }

    /// Its frame.
    pub fn frame(&self) -> FrameNo
        ensures { result ≡ self.now.frame }
    {
        self.frame
    }

    /// The object that it names.
    pub fn object(&self) -> u64
        ensures { result ≡ self.now.object }
    {
        self.object
    }

    fn write(&self) -> bool
        ensures { result ≡ self.now.write }
    {
        self.write
    }

    fn long(&self) -> bool
        ensures { result ≡ self.now.long }
    {
        self.long
    }

    fn is_for(&self, write: bool, long: bool) -> bool
        ensures { IsTrue result ↔ ((self.now.write ≡ write) × (self.now.long ≡ long)) }
    {
        self.write == write && self.long == long
    }
}

/// Whether the page is none of those taken.
pub fn is_untaken(taken: &[Taken], page: PageNo) -> bool
    ensures { IsTrue result ↔ IsUntaken taken.now page }
{
    taken.iter().all(|t| t.page() != page)
}

/// Whether all are to be written, and kept for long, as this says.
pub fn are_alike(taken: &[Taken], write: bool, long: bool) -> bool
    ensures { IsTrue result ↔ AreAlike taken.now write long }
{
    taken.iter().all(|t| t.is_for(write, long))
}

/// The pages once more.
pub fn same(alloc: Global, taken: &[Taken]) -> Result<Vec<Taken>, NoMemory>
    ensures { IfOk result (λ same. same.items ≡ taken.now) }
{
    Ok(taken.iter().copied().collect(alloc)?)
}

/// Those taken, and one more, the last.
pub fn with_one_more(alloc: Global, taken: &[Taken], more: Taken) -> Result<Vec<Taken>, NoMemory>
    ensures { IfOk result (λ all. all.items ≡ taken.now ++ more ∷ []) }
{
    let mut all = same(alloc, taken)?;
    all.push(more)?;
    Ok(all)
}

/// The frames, in order.
pub fn frames(alloc: Global, taken: &[Taken]) -> Result<Vec<FrameNo>, NoMemory>
    ensures { IfOk result (λ frames. frames.items ≡ taken_frames taken.now) }
{
    Ok(taken.iter().map(|t| t.frame()).collect(alloc)?)
}

/// The objects, in order.
pub fn objects(alloc: Global, taken: &[Taken]) -> Result<Vec<u64>, NoMemory>
    ensures { IfOk result (λ objects. objects.items ≡ objects_taken taken.now) }
{
    Ok(taken.iter().map(|t| t.object()).collect(alloc)?)
}

/// Whether the first is to be written.
pub fn writes(taken: &[Taken]) -> bool
    ensures { result ≡ writes_taken taken.now }
{
    match taken {
        [] => false,
        [first, ..] => first.write(),
    }
}

/// Whether the first is to be kept for long.
pub fn for_long(taken: &[Taken]) -> bool
    ensures { result ≡ long_taken taken.now }
{
    match taken {
        [] => false,
        [first, ..] => first.long(),
    }
}

/// Pages that are taken, in order. Contracts see the list of them.
#[derive(Drop)]
pub struct TakenList {
    items: Vec<Taken>,
}

impl Model for TakenList {
    ghost use Rattle.std.specs.Prelude.{List};
    ghost use Rattle.gup_spec_events.specs.State.{Taken as TakenValue};

    ghost Value = { List TakenValue };

    ghost view = { λ t. t.items.items };
}

impl TakenList {
    /// These pages.
    pub fn new(items: Vec<Taken>) -> TakenList
        ensures { result ≡ items.items }
    {
        TakenList { items }
    }

    /// The pages.
    pub fn as_slice(&self) -> &[Taken]
        ensures { result.now ≡ self.now }
    {
        self.items.as_slice()
    }
}

/// Whether there is one.
pub fn has_one(taken: &[Taken]) -> bool
    ensures { IsTrue result ↔ (taken.now ≡ [] → ⊥) }
{
    match taken {
        [] => false,
        [_, ..] => true,
    }
}

/// Whether there is none.
pub fn has_none(taken: &[Taken]) -> bool
    ensures { IsTrue result ↔ (taken.now ≡ []) }
{
    match taken {
        [] => true,
        [_, ..] => false,
    }
}

/// Whether these are the same pages in the same order.
pub fn are_same(taken: &[Taken], others: &[Taken]) -> bool
    ensures { IsTrue result ↔ (taken.now ≡ others.now) }
{
    taken == others
}

/// Whether the pages taken are those to the left, and then the last.
pub fn ends_with(taken: &[Taken], left: &[Taken], last: &Taken) -> bool
    ensures { IsTrue result ↔ (taken.now ≡ left.now ++ last.now ∷ []) }
{
    match taken.split_last() {
        None => false,
        Some((page, others)) => {
            if !are_same(others, left) {
                return false;
            }
            *page == *last
        }
    }
}

/// Whether the pages taken are the first, and then those that are left.
pub fn begins_with(taken: &[Taken], first: &Taken, left: &[Taken]) -> bool
    ensures { IsTrue result ↔ (taken.now ≡ first.now ∷ left.now) }
{
    match taken.split_first() {
        None => false,
        Some((page, others)) => {
            if !are_same(others, left) {
                return false;
            }
            *page == *first
        }
    }
}
