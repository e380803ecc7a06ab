//! Why a fault is refused.
ghost use Rattle.std.specs.Prelude.{◌≡◌};
ghost use Rattle.gup_fault.specs.declared.denied.Denied.TheVariants.{NoFrame as WantsFrame};
ghost use Rattle.gup_fault.specs.Refused.{answer_of as answered};

use gup_plain::Answer;
use std::error::Error;
use std::fmt;

/// Why a page can't be made ready. Nothing has changed then.
#[derive(Clone, Copy, Debug, PartialEq, Eq)]
pub enum Denied {
    /// The page has no mapping (`SIGSEGV`, `SEGV_MAPERR`).
    Missing,
    /// The page's rights don't allow a write (`SEGV_ACCERR`).
    Forbidden,
    /// The page lacks a page table, or no frame of the allowed zones is free (`VM_FAULT_OOM`).
    NoFrame,
}

impl fmt::Display for Denied {
    fn fmt<W: fmt::Write>(&self, f: &mut fmt::Formatter<W>) -> fmt::Result {
        f.write_str(match self {
            Denied::Missing => "the page isn't mapped",
            Denied::Forbidden => "the page's rights don't allow a write",
            Denied::NoFrame => "no frame of the allowed zones is free",
        })
    }
}

impl Error for Denied {}

/// The page lacks a page table, or no frame of the allowed zones is free (`VM_FAULT_OOM`, as where `pte_alloc` fails,
/// `mm/memory.c`). Nothing has changed then.
#[derive(Clone, Copy, Debug, PartialEq, Eq)]
pub struct NoFrame;

impl fmt::Display for NoFrame {
    fn fmt<W: fmt::Write>(&self, f: &mut fmt::Formatter<W>) -> fmt::Result {
        f.write_str("no frame of the allowed zones is free")
    }
}

impl Error for NoFrame {}

impl From<NoFrame> for Denied {
    ghost from_gives = { λ _ e. e ≡ WantsFrame };

    fn from(_none: NoFrame) -> Denied {
        Denied::NoFrame
    }
}

/// What an operation answers whose page can't be made ready.
pub fn answer_of(denied: Denied) -> Answer
    ensures { result ≡ answered denied }
{
    match denied {
        Denied::Missing => Answer::Missing,
        Denied::Forbidden => Answer::Forbidden,
        Denied::NoFrame => Answer::NoFrame,
    }
}
