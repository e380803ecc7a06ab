//! What a search finds, and what is judged of conditions by it.
ghost use Rattle.std.specs.Prelude.{◌≡◌, ◌==◌, ◌||◌, ◌&&◌, length, IfOk};
ghost use Rattle.std.specs.List.{list_any};
ghost use Rattle.gup_orders.specs.Found.{AreFindings, verdicts_on, says_no, says_open, status_by};
ghost use Rattle.gup_orders.specs.Shows.{AreShownOf};

use crate::command::Asked;
use gup_base::NoMemory;
use gup_conditions::{Condition, Shown, Verdict, judge, named};
use gup_law_orders::tells_are_lines;
use gup_script::Script;
use gup_search::explore;
use gup_spec_orders::{Named, Outcome};
use std::alloc::Global;
use std::marker::Model;

/// What a search has found: the outcomes as they are printed, over how many states it has gone, and whether there were more states than
/// its limit.
#[derive(Debug, Drop)]
pub struct Found {
    outcomes: Vec<Shown>,
    states: usize,
    is_open: bool,
}

impl Model for Found {
    ghost use Rattle.gup_orders.specs.Found.{Findings};

    ghost Value = { Findings };

    ghost view = { λ f. record { outcomes = f.outcomes.items; states = f.states; is_open = f.is_open } };
}

impl Found {
    /// What a search of the script's orders finds, for these conditions.
    pub fn of(
        alloc: Global,
        script: &Script,
        asked: &Asked,
        conditions: &[Condition],
    ) -> Result<Found, NoMemory>
        ensures { IfOk result (λ found. AreFindings script.now asked.now.behind asked.now.limit conditions.now found) }
    {
        tells_are_lines();
        let _actors = script.actors();
        let named = named(alloc, script, conditions)?;
        let explored = explore(alloc, script, asked.behind, named.as_slice(), asked.limit)?;
        let outcomes = all_shown(alloc, named.as_slice(), explored.outcomes)?;
        Ok(Found {
            outcomes,
            states: explored.states,
            is_open: explored.is_open,
        })
    }

    /// The outcomes, in the order in which they were found.
    pub fn outcomes(&self) -> &[Shown]
        ensures { result.now ≡ self.now.outcomes }
    {
        self.outcomes.as_slice()
    }

    /// Over how many states the search has gone.
    pub fn states(&self) -> usize
        ensures { result ≡ self.now.states }
    {
        self.states
    }

    /// Whether there were more states than the limit.
    pub fn is_open(&self) -> bool
        ensures { result ≡ self.now.is_open }
    {
        self.is_open
    }

    /// A verdict on each condition.
    pub fn verdicts(
        &self,
        alloc: Global,
        conditions: &[Condition],
    ) -> Result<Vec<Verdict>, NoMemory>
        ensures verdicts { IfOk result (λ verdicts. verdicts.items ≡ verdicts_on self.now conditions.now) }
    {
        let mut verdicts = Vec::new(alloc);
        for condition in conditions {
            verdicts.push(judge(condition, self.outcomes(), self.is_open))?;
        }
        Ok(verdicts)
    }
}

// The outcomes as they are printed.
fn all_shown(alloc: Global, named: &[Named], outcomes: Vec<Outcome>) -> Result<Vec<Shown>, NoMemory>
    ensures { IfOk result (λ shown. AreShownOf named.now outcomes.items shown.items) }
{
    let mut shown = Vec::new(alloc);
    for outcome in outcomes {
        shown.push(Shown::of(alloc, named, outcome)?)?;
    }
    Ok(shown)
}

/// The status: 8 where a condition doesn't hold, else 9 where one is open, or where there is none and the search is open, else 0.
pub fn status_by(verdicts: &[Verdict], is_open: bool) -> u8
    ensures { result ≡ status_by verdicts.now is_open }
{
    match (fails(verdicts), is_left(verdicts, is_open)) {
        (true, _) => 8,
        (false, true) => 9,
        (false, false) => 0,
    }
}

fn fails(verdicts: &[Verdict]) -> bool
    ensures { result ≡ list_any says_no verdicts.now }
{
    verdicts.iter().any(|verdict| says_no(*verdict))
}

fn opens(verdicts: &[Verdict]) -> bool
    ensures { result ≡ list_any says_open verdicts.now }
{
    verdicts.iter().any(|verdict| says_open(*verdict))
}

// Whether something is left open.
fn is_left(verdicts: &[Verdict], is_open: bool) -> bool
    ensures { result ≡ (list_any says_open verdicts.now || ((length verdicts.now == 0) && is_open)) }
{
    opens(verdicts) || (verdicts.is_empty() && is_open)
}

fn says_no(verdict: Verdict) -> bool
    ensures { result ≡ says_no verdict }
{
    matches!(verdict, Verdict::No { .. })
}

fn says_open(verdict: Verdict) -> bool
    ensures { result ≡ says_open verdict }
{
    matches!(verdict, Verdict::Open)
}
