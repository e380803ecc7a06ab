//! Verdicts on conditions.
ghost use Rattle.std.specs.Prelude.{◌≡◌, Bool, false, not, List};
ghost use Rattle.gup_script.specs.Script.{ScriptValue};
ghost use Rattle.gup_spec_orders.specs.declared.told.Named.{Named as NamedValue};
ghost use Rattle.gup_conditions.specs.Named.{AreNamed};
ghost use Rattle.gup_conditions.specs.Shown.{AreShown, AreAllShown};
ghost use Rattle.gup_conditions.specs.Verdict.{first_place, shown_or, shows_all, judged, IsRight};
ghost use Rattle.gup_conditions.specs.declared.shown.Shown.{Shown as ShownValue};

use crate::condition::{Condition, Often};
use crate::line::{Line, has_all};
use crate::shown::Shown;

/// What is judged of a condition: it holds of every order of the turns, it doesn't, or that is open. `seen` is the place, from 0, of the
/// first outcome that shows it, where one does.
#[derive(Clone, Copy, Debug, PartialEq, Eq)]
pub enum Verdict {
    Yes { seen: Option<usize> },
    No { seen: Option<usize> },
    Open,
}

/// Judges a condition by the outcomes of a search. An outcome that has all its lines decides `never` and `sometimes`, one that lacks a
/// line decides `always`; where there is none, and the search is open, so is the verdict.
pub fn judge(condition: &Condition, outcomes: &[Shown], is_open: bool) -> Verdict
    ensures verdict { result ≡ judged condition.now.often condition.now.lines outcomes.now is_open }
    ensures right { (script : ScriptValue) (behind : Bool) (named : List NamedValue) → AreNamed named condition.now.lines
        → AreShown script behind named outcomes.now → (is_open ≡ false → AreAllShown script behind named outcomes.now)
        → IsRight script behind condition.now result }
{
    let wanted = condition.lines();
    match condition.often() {
        Often::Never => match with_all(outcomes, wanted) {
            Some(k) => Verdict::No { seen: Some(k) },
            None => unless_open(is_open, Verdict::Yes { seen: None }),
        },
        Often::Sometimes => match with_all(outcomes, wanted) {
            Some(k) => Verdict::Yes { seen: Some(k) },
            None => unless_open(is_open, Verdict::No { seen: None }),
        },
        Often::Always => match without_all(outcomes, wanted) {
            Some(k) => Verdict::No { seen: Some(k) },
            None => unless_open(is_open, Verdict::Yes { seen: None }),
        },
    }
}

fn unless_open(is_open: bool, verdict: Verdict) -> Verdict
    ensures { result ≡ shown_or None (λ seen. Verdict.Open) is_open verdict }
{
    if is_open { Verdict::Open } else { verdict }
}

// The first outcome that has all lines.
fn with_all(outcomes: &[Shown], wanted: &[Line]) -> Option<usize>
    ensures { result ≡ first_place (shows_all wanted.now) outcomes.now }
{
    outcomes
        .iter()
        .position(|shown| has_all(shown.lines.as_slice(), wanted))
}

// The first outcome that lacks a line.
fn without_all(outcomes: &[Shown], wanted: &[Line]) -> Option<usize>
    ensures { result ≡ first_place (λ (shown : ShownValue). not (shows_all wanted.now shown)) outcomes.now }
{
    outcomes
        .iter()
        .position(|shown| !has_all(shown.lines.as_slice(), wanted))
}
