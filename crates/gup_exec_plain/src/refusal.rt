//! Why an event isn't applied.
use gup_base::NoMemory;
use std::error::Error;
use std::fmt;

/// Why an event isn't applied.
#[derive(Clone, Copy, Debug, PartialEq, Eq)]
pub enum PlainRefusal {
    /// The event can't happen in this state.
    Broken,
    /// The program's own memory ran out.
    NoMemory,
}

impl fmt::Display for PlainRefusal {
    fn fmt<W: fmt::Write>(&self, f: &mut fmt::Formatter<W>) -> fmt::Result {
        f.write_str(match self {
            PlainRefusal::Broken => "the event can't happen here",
            PlainRefusal::NoMemory => "out of memory",
        })
    }
}

impl Error for PlainRefusal {}

impl From<NoMemory> for PlainRefusal {
    ghost use Rattle.std.specs.Prelude.{◌≡◌};
    ghost use Rattle.gup_exec_plain.specs.declared.refusal.PlainRefusal.TheVariants as refusals;

    ghost from_gives = { λ _ e. e ≡ refusals.NoMemory };

    fn from(_e: NoMemory) -> PlainRefusal {
        PlainRefusal::NoMemory
    }
}
