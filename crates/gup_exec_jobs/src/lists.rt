//! Lists of pages and of frames.
ghost use Rattle.std.specs.Prelude.{◌≡◌, ◌↔◌, IsTrue, IfOk, [], ◌∷◌, ◌++◌};

use gup_base::{FrameNo, NoMemory, PageNo};
use std::alloc::Global;
use std::marker::Model;

/// The pages once more.
pub fn same_pages(alloc: Global, pages: &[PageNo]) -> Result<Vec<PageNo>, NoMemory>
    ensures { IfOk result (λ same. same.items ≡ pages.now) }
{
    Ok(pages.iter().copied().collect(alloc)?)
}

/// The page, and then the others.
pub fn with_page(alloc: Global, page: PageNo, pages: &[PageNo]) -> Result<Vec<PageNo>, NoMemory>
    ensures { IfOk result (λ all. all.items ≡ page ∷ pages.now) }
{
    let mut all = same_pages(alloc, pages)?;
    all.insert(0, page)?;
    Ok(all)
}

/// The frames once more.
pub fn same_frames(alloc: Global, frames: &[FrameNo]) -> Result<Vec<FrameNo>, NoMemory>
    ensures { IfOk result (λ same. same.items ≡ frames.now) }
{
    Ok(frames.iter().copied().collect(alloc)?)
}

/// Whether the frames are those to the left, and then the last.
pub fn ends_with(frames: &[FrameNo], left: &[FrameNo], last: FrameNo) -> bool
    ensures { IsTrue result ↔ (frames.now ≡ left.now ++ last ∷ []) }
{
    match frames.split_last() {
        None => false,
        Some((frame, others)) => {
            if !are_same_frames(others, left) {
                return false;
            }
            *frame == last
        }
    }
}

/// Whether these are the same pages in the same order.
pub fn are_same_pages(pages: &[PageNo], others: &[PageNo]) -> bool
    ensures { IsTrue result ↔ (pages.now ≡ others.now) }
{
    pages == others
}

/// Whether these are the same frames in the same order.
pub fn are_same_frames(frames: &[FrameNo], others: &[FrameNo]) -> bool
    ensures { IsTrue result ↔ (frames.now ≡ others.now) }
{
    frames == others
}

/// Frames in a row. Contracts see the list of them.
#[derive(Drop)]
pub struct Frames {
    items: Vec<FrameNo>,
}

impl Model for Frames {
    ghost use Rattle.std.specs.Prelude.{ℕ, List};

    ghost Value = { List ℕ };

    ghost view = { λ f. f.items.items };
}

impl Frames {
    /// These frames.
    pub fn new(items: Vec<FrameNo>) -> Frames
        ensures { result ≡ items.items }
    {
        Frames { items }
    }

    /// The frames.
    pub fn as_slice(&self) -> &[FrameNo]
        ensures { result.now ≡ self.now }
    {
        self.items.as_slice()
    }
}
