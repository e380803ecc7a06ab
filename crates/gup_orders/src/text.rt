//! The text of what a search has found.
ghost use Rattle.std.specs.Prelude.{◌≡◌, ◌++◌, ◌∷◌, [], ◌<◌, ◌+◌, ◌^◌, decimal, filter, length, not, if◌then◌else◌, IfOk, OnOk};
ghost use Rattle.std.specs.List.{flat_map};
ghost use Rattle.gup_conditions.specs.Line.{LineValue, line_text, has_line};
ghost use Rattle.gup_conditions.specs.Condition.{wanted_text};
ghost use Rattle.gup_orders.specs.Found.{verdicts_on};
ghost use Rattle.gup_orders.specs.Text.{all_have, shared, own_lines, with_line_feed, shared_word, shared_line, stuck_among, outcome_text, outcomes_from, often_word, seen_text, verdict_text, judged_line, open_word, counts_text, found_text, judged_lines};
ghost use Rattle.gup_orders.specs.Written.{AreNamedIn, AreNamedWaits, IsPlace, IsSeen, AreSeen};

use crate::found::Found;
use crate::turns::{name_of, push_turns};
use gup_base::{ActorNo, NoMemory};
use gup_conditions::{Condition, Line, Often, Shown, Verdict, has_line};
use gup_front::push_stuck_line;
use gup_lines::push_text;
use gup_plain::Waiting;
use gup_script::Script;
use itoa::Buffer;
use std::alloc::Global;

/// The text of what was found, with the verdicts on the conditions.
pub fn found_text(
    alloc: Global,
    script: &Script,
    conditions: &[Condition],
    found: &Found,
    verdicts: &[Verdict],
) -> Result<Vec<u8>, NoMemory>
    requires verdicts { verdicts.now ≡ verdicts_on found.now conditions.now }
    requires named { AreNamedWaits script.now found.now.outcomes }
    ensures { IfOk result (λ text. text.items ≡ found_text script.now conditions.now found.now) }
{
    let common = shared(alloc, found.outcomes())?;
    let mut text = Vec::new(alloc);
    push_counts(found, &mut text)?;
    push_shared(script, common.as_slice(), found.is_open(), &mut text)?;
    push_outcomes(
        alloc,
        script,
        common.as_slice(),
        found.outcomes(),
        &mut text,
    )?;
    push_judged(script, conditions, verdicts, &mut text)?;
    Ok(text)
}

// The lines that all outcomes share.
fn shared(alloc: Global, outcomes: &[Shown]) -> Result<Vec<Line>, NoMemory>
    ensures { IfOk result (λ common. common.items ≡ shared outcomes.now) }
{
    match outcomes.split_first() {
        Some((first, others)) => shared_with(alloc, first.lines.as_slice(), others),
        None => Ok(Vec::new(alloc)),
    }
}

// Those of these lines that all others have.
fn shared_with(alloc: Global, lines: &[Line], others: &[Shown]) -> Result<Vec<Line>, NoMemory>
    ensures { IfOk result (λ common. common.items ≡ filter (all_have others.now) lines.now) }
{
    let mut common = Vec::new(alloc);
    for line in lines {
        push_if(alloc, all_have(others, line), line, &mut common)?;
    }
    Ok(common)
}

fn push_if(
    alloc: Global,
    is_common: bool,
    line: &Line,
    common: &mut Vec<Line>,
) -> Result<(), NoMemory>
    ensures { OnOk result (common.new.items ≡ common.old.items ++ (if is_common then line.now ∷ [] else [])) }
{
    if is_common {
        common.push(line.copy(alloc)?)?;
    }
    Ok(())
}

fn all_have(outcomes: &[Shown], line: &Line) -> bool
    ensures { result ≡ all_have outcomes.now line.now }
{
    outcomes
        .iter()
        .all(|shown| has_line(shown.lines.as_slice(), line))
}

// How many states and outcomes there are.
fn push_counts(found: &Found, text: &mut Vec<u8>) -> Result<(), NoMemory>
    ensures { OnOk result (text.new.items ≡ text.old.items ++ counts_text found.now) }
{
    push_text(text, "states ")?;
    push_number(text, found.states() as u64)?;
    push_text(text, "\noutcomes ")?;
    push_number(text, found.outcomes().len() as u64)?;
    push_text(text, if found.is_open() { " open\n" } else { "\n" })
}

fn push_number(text: &mut Vec<u8>, n: u64) -> Result<(), NoMemory>
    ensures { OnOk result (text.new.items ≡ text.old.items ++ decimal n) }
{
    let mut buffer = Buffer::new();
    push_text(text, buffer.format(n))
}

// The lines that all outcomes share, each with a word in front.
fn push_shared(
    script: &Script,
    common: &[Line],
    is_open: bool,
    text: &mut Vec<u8>,
) -> Result<(), NoMemory>
    ensures { OnOk result (text.new.items ≡ text.old.items ++ flat_map (shared_line script.now is_open) common.now) }
{
    for line in common {
        push_text(text, shared_word(is_open))?;
        push_line(script, line, text)?;
    }
    Ok(())
}

fn shared_word(is_open: bool) -> &'static str
    ensures { result.now ≡ shared_word is_open }
{
    if is_open { "so far " } else { "always " }
}

// A line, with its line feed.
fn push_line(script: &Script, line: &Line, text: &mut Vec<u8>) -> Result<(), NoMemory>
    ensures { OnOk result (text.new.items ≡ text.old.items ++ with_line_feed script.now line.now) }
{
    push_line_text(script, line, text)?;
    push_text(text, "\n")
}

fn push_line_text(script: &Script, line: &Line, text: &mut Vec<u8>) -> Result<(), NoMemory>
    ensures { OnOk result (text.new.items ≡ text.old.items ++ line_text script.now line.now) }
{
    push_text(text, name_of(script, line.actor()))?;
    push_text(text, " ")?;
    push_number(text, u64::from(line.op()))?;
    push_text(text, " ")?;
    text.extend_from_slice(line.text())?;
    Ok(())
}

// Each outcome with its number, from 1.
fn push_outcomes(
    alloc: Global,
    script: &Script,
    common: &[Line],
    outcomes: &[Shown],
    text: &mut Vec<u8>,
) -> Result<(), NoMemory>
    requires named { AreNamedWaits script.now outcomes.now }
    ensures { OnOk result (text.new.items ≡ text.old.items ++ outcomes_from script.now common.now 1 outcomes.now) }
{
    for k in 0..outcomes.len() {
        push_outcome(alloc, script, common, k, &outcomes[k], text)?;
    }
    Ok(())
}

// The outcome at this place, from 0.
fn push_outcome(
    alloc: Global,
    script: &Script,
    common: &[Line],
    k: usize,
    shown: &Shown,
    text: &mut Vec<u8>,
) -> Result<(), NoMemory>
    requires few { k < 2 ^ 63 }
    requires named { AreNamedIn script.now shown.now.waits.items }
    ensures { OnOk result (text.new.items ≡ text.old.items ++ outcome_text script.now common.now (k + 1) shown.now) }
{
    push_text(text, "outcome ")?;
    push_number(text, k as u64 + 1)?;
    push_text(text, " ")?;
    push_turns(alloc, script, shown.path.as_slice(), text)?;
    push_text(text, "\n")?;
    push_own(script, common, shown.lines.as_slice(), text)?;
    push_stuck(script, shown.waits.as_slice(), text)
}

// The lines that not all share.
fn push_own(
    script: &Script,
    common: &[Line],
    lines: &[Line],
    text: &mut Vec<u8>,
) -> Result<(), NoMemory>
    ensures { OnOk result (text.new.items ≡ text.old.items
        ++ flat_map (with_line_feed script.now) (filter (λ (line : LineValue). not (has_line common.now line)) lines.now)) }
{
    for line in lines {
        push_unless(script, has_line(common, line), line, text)?;
    }
    Ok(())
}

fn push_unless(
    script: &Script,
    is_common: bool,
    line: &Line,
    text: &mut Vec<u8>,
) -> Result<(), NoMemory>
    ensures { OnOk result (text.new.items ≡ text.old.items ++ (if is_common then [] else with_line_feed script.now line.now)) }
{
    if is_common {
        Ok(())
    } else {
        push_line(script, line, text)
    }
}

// The actors that are stuck.
fn push_stuck(
    script: &Script,
    waits: &[Option<Waiting>],
    text: &mut Vec<u8>,
) -> Result<(), NoMemory>
    requires named { AreNamedIn script.now waits.now }
    ensures { OnOk result (text.new.items ≡ text.old.items ++ stuck_among script.now waits.now (length script.now.actors)) }
{
    for k in 0..script.actors() {
        let actor = ActorNo::new(u64::from(k)).unwrap();
        push_stuck_line(script, actor, waits[usize::from(k)], text)?;
    }
    Ok(())
}

// Each condition with its verdict.
fn push_judged(
    script: &Script,
    conditions: &[Condition],
    verdicts: &[Verdict],
    text: &mut Vec<u8>,
) -> Result<(), NoMemory>
    requires same { length verdicts.now ≡ length conditions.now }
    requires few { AreSeen verdicts.now }
    ensures { OnOk result (text.new.items ≡ text.old.items ++ judged_lines script.now conditions.now verdicts.now) }
{
    for k in 0..conditions.len() {
        push_judgement(script, &conditions[k], verdicts[k], text)?;
    }
    Ok(())
}

fn push_judgement(
    script: &Script,
    condition: &Condition,
    verdict: Verdict,
    text: &mut Vec<u8>,
) -> Result<(), NoMemory>
    requires few { IsSeen verdict }
    ensures { OnOk result (text.new.items ≡ text.old.items ++ judged_line script.now condition.now verdict) }
{
    push_text(text, often_word(condition.often()))?;
    push_text(text, ":")?;
    push_wanted(script, condition.lines(), text)?;
    push_text(text, ": ")?;
    push_verdict(verdict, text)?;
    push_text(text, "\n")
}

fn often_word(often: Often) -> &'static str
    ensures { result.now ≡ often_word often }
{
    match often {
        Often::Never => "never",
        Often::Sometimes => "sometimes",
        Often::Always => "always",
    }
}

// The lines, each behind a space, with a semicolon between two.
fn push_wanted(script: &Script, lines: &[Line], text: &mut Vec<u8>) -> Result<(), NoMemory>
    ensures { OnOk result (text.new.items ≡ text.old.items ++ wanted_text script.now lines.now) }
{
    for k in 0..lines.len() {
        push_text(text, if k == 0 { " " } else { "; " })?;
        push_line_text(script, &lines[k], text)?;
    }
    Ok(())
}

fn push_verdict(verdict: Verdict, text: &mut Vec<u8>) -> Result<(), NoMemory>
    requires few { IsSeen verdict }
    ensures { OnOk result (text.new.items ≡ text.old.items ++ verdict_text verdict) }
{
    match verdict {
        Verdict::Yes { seen } => {
            push_text(text, "yes")?;
            push_seen(seen, text)
        }
        Verdict::No { seen } => {
            push_text(text, "no")?;
            push_seen(seen, text)
        }
        Verdict::Open => push_text(text, "open"),
    }
}

// The number of the outcome that shows it, from 1.
fn push_seen(seen: Option<usize>, text: &mut Vec<u8>) -> Result<(), NoMemory>
    requires few { IsPlace seen }
    ensures { OnOk result (text.new.items ≡ text.old.items ++ seen_text seen) }
{
    match seen {
        Some(k) => {
            push_text(text, ", in ")?;
            push_number(text, k as u64 + 1)
        }
        None => Ok(()),
    }
}
