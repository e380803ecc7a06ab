//! The lines that write turns. A line is judged wholly before its turns are added, so it costs what it adds.
ghost use Rattle.std.specs.Prelude.{◌≡◌, ◌+◌, Ok, length, map, nat_le, is_some, if◌then◌else◌, OnOk, IfOk, IfErr};
ghost use Rattle.gup_spec_grammar.specs.Outline.{with_turns};
ghost use Rattle.gup_read_words.specs.Text.{turn_times};
ghost use Rattle.gup_spec_grammar.specs.declared.fault.Reason.TheVariants.{Number as number_reason, Name as name_reason};
ghost use Rattle.gup_read.specs.Steps.{Makes, IsTrouble};
ghost use Rattle.gup_read.specs.Reading.{turner, are_times, turns_of, turns_in, random_in};
ghost use Rattle.gup_read.specs.Runs.{turn_in, spread, turners_in};

use crate::refusal::{Trouble, check};
use gup_base::ActorNo;
use gup_read_outline::Reader;
use gup_read_words::{number, turn};
use gup_spec_grammar::Reason;
use std::alloc::{AllocError, Global};

/// How many written turns a script may have.
const MAX_TURNS: usize = 1_000_000;

/// So many turns of an actor in a row, as a word says.
#[derive(Clone, Copy, Debug)]
struct Run {
    actor: ActorNo,
    times: u32,
}

fn is_timed(word: &str) -> bool
    ensures { result ≡ is_some (turn_times word.now) }
{
    turn(word).is_some()
}

/// The fault of words that are not all right: all numbers are judged before any name.
fn fault_of(words: &[&str]) -> Reason
    ensures { result ≡ (if are_times (map (λ word. word.now) words.now) then name_reason else number_reason) }
{
    if words.iter().all(|word| is_timed(word)) {
        Reason::Name
    } else {
        Reason::Number
    }
}

/// The actor that the word names, and how many turns it says; `None` where either is wrong.
fn turn_of(reader: &Reader, word: &str) -> Option<(ActorNo, u32)>
    ensures { result ≡ turn_in (turner reader.now word.now) (turn_times word.now) }
{
    let (name, times) = turn(word)?;
    let actor = reader.actor(name)?;
    Some((actor, times))
}

/// What the words say, or their fault. A word that is the one before it again isn't looked up again.
fn runs_of(alloc: Global, reader: &Reader, words: &[&str]) -> Result<Vec<Run>, Trouble>
    ensures runs { IfOk result (λ runs. (turners_in reader.now (map (λ word. word.now) words.now) ≡ Ok tt) × (spread runs.items ≡ turns_of reader.now (map (λ word. word.now) words.now))) }
    ensures refused { IfErr result (λ trouble. IsTrouble (turners_in reader.now (map (λ word. word.now) words.now)) trouble) }
{
    let [first, ..] = words else {
        return Err(Trouble::Fault(Reason::Shape));
    };
    let Some((first_actor, first_times)) = turn_of(reader, first) else {
        return Err(Trouble::Fault(fault_of(words)));
    };
    let mut before = *first;
    let mut actor = first_actor;
    let mut times = first_times;
    let mut runs = Vec::with_capacity(alloc, words.len())?;
    for word in words {
        if *word != before {
            let Some((other, often)) = turn_of(reader, word) else {
                return Err(Trouble::Fault(fault_of(words)));
            };
            actor = other;
            times = often;
            before = *word;
        }
        runs.push_reserved(Run { actor, times });
    }
    Ok(runs)
}

/// Whether there may be so many more turns after so many.
fn have_room(turns: usize, runs: &[Run]) -> bool
    ensures { result ≡ nat_le (turns + length (spread runs.now)) 1000000 }
{
    let mut total = turns;
    for run in runs {
        if total > MAX_TURNS {
            return false;
        }
        total += run.times as usize;
    }
    total <= MAX_TURNS
}

fn add_all(reader: &mut Reader, runs: &[Run]) -> Result<(), AllocError>
    ensures { OnOk result (reader.new ≡ with_turns (spread runs.now) reader.old) }
{
    for run in runs {
        reader.add_turns(run.actor, run.times)?;
    }
    Ok(())
}

/// The words after `turns`.
#[tactic(auto, unfolding(crate::specs::Reading::turns_in))]
pub fn turns_line(alloc: Global, reader: &mut Reader, words: &[&str]) -> Result<(), Trouble>
    ensures { Makes (turns_in reader.old (map (λ word. word.now) words.now)) reader.new result }
{
    let runs = runs_of(alloc, reader, words)?;
    check(have_room(reader.turns(), runs.as_slice()), Reason::Limit)?;
    add_all(reader, runs.as_slice())?;
    Ok(())
}
/// The words after `random`.
#[tactic(auto, unfolding(crate::specs::Reading::random_in))]
pub fn random_line(reader: &mut Reader, fields: &[&str]) -> Result<(), Trouble>
    ensures { Makes (random_in reader.old (map (λ word. word.now) fields.now)) reader.new result }
{
    let [start, count] = fields else {
        return Err(Trouble::Fault(Reason::Shape));
    };
    let start = number(start).ok_or(Reason::Number)?;
    let count = number(count).ok_or(Reason::Number)?;
    check(count == 0 || reader.actors() > 0, Reason::Name)?;
    let turns = reader.turns();
    let fits = turns <= MAX_TURNS && count <= (MAX_TURNS - turns) as u64;
    check(fits, Reason::Limit)?;
    reader.add_drawn_turns(start, count)?;
    Ok(())
}
