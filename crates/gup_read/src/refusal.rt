ghost use Rattle.gup_read.specs.declared.refusal.Trouble.TheVariants.{Fault, NoMemory};
ghost use Rattle.std.specs.Prelude.{◌≡◌, true, false, MatchResult};

use gup_spec_grammar::{ReadRefusal, Reason, ScriptFault};
use std::alloc::AllocError;

/// Why a line isn't read.
#[derive(Clone, Copy, Debug)]
pub(crate) enum Trouble {
    Fault(Reason),
    NoMemory,
}

/// One test of a line: this reason where it isn't passed.
pub(crate) fn check(passed: bool, reason: Reason) -> Result<(), Reason>
    ensures { MatchResult result (λ _. passed ≡ true) (λ fault. (fault ≡ reason) × (passed ≡ false)) }
{
    if passed { Ok(()) } else { Err(reason) }
}

impl Trouble {
    ghost use Rattle.gup_read.specs.Steps.{refusal_at};

    /// The refusal for it in the line with this number.
    pub fn at(self, line: u32) -> ReadRefusal
        ensures { result ≡ refusal_at line self }
    {
        match self {
            Trouble::Fault(reason) => ReadRefusal::Fault(ScriptFault { line, reason }),
            Trouble::NoMemory => ReadRefusal::NoMemory,
        }
    }
}

impl From<Reason> for Trouble {
    ghost from_gives = { λ reason e. e ≡ Fault reason };

    fn from(reason: Reason) -> Trouble {
        Trouble::Fault(reason)
    }
}

impl From<AllocError> for Trouble {
    ghost from_gives = { λ _ e. e ≡ NoMemory };

    fn from(_e: AllocError) -> Trouble {
        Trouble::NoMemory
    }
}
