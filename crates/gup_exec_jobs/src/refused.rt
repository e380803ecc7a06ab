//! Why an event isn't let happen.
use gup_base::NoMemory;
use std::error::Error;
use std::fmt;

/// Why an event isn't let happen.
#[derive(Clone, Copy, Debug, PartialEq, Eq)]
pub enum Refused {
    /// It can't happen in this state.
    Cannot,
    /// The program's own memory ran out, or a count would be more than a `u64` holds.
    NoMemory,
}

impl fmt::Display for Refused {
    fn fmt<W: fmt::Write>(&self, f: &mut fmt::Formatter<W>) -> fmt::Result {
        f.write_str(match self {
            Refused::Cannot => "the event can't happen here",
            Refused::NoMemory => "out of memory",
        })
    }
}

impl Error for Refused {}

impl From<NoMemory> for Refused {
    ghost use Rattle.std.specs.Prelude.{◌≡◌};
    ghost use Rattle.gup_exec_jobs.specs.declared.refused.Refused.TheVariants as refusals;

    ghost from_gives = { λ _ e. e ≡ refusals.NoMemory };

    fn from(_e: NoMemory) -> Refused {
        Refused::NoMemory
    }
}
