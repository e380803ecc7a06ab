//! The answers of operations, as a note's line has them behind `done`.
ghost use Rattle.std.specs.Prelude.{◌≡◌, ◌^◌, ◌<◌, map, length};
ghost use Rattle.gup_spec_trace.specs.Written.{counts_pages, is_pin, op_at};
ghost use Rattle.gup_read_notes.specs.Reading.{plain_answer_in, number_answer, counted_answer_in, plain_cause_in, counted_cause_in, cause_in, short_answer_in, answer_in};

use crate::fields::byte;
use gup_base::ActorNo;
use gup_plain::{Answer, Cause};
use gup_read_words::number;
use gup_script::{Op, Script};

/// The answer that the words are, of this operation of the actor, with its number from 1.
#[tactic(auto, unfolding(crate::specs::Reading::answer_in))]
pub(crate) fn answer(script: &Script, actor: ActorNo, op: u32, words: &[&str]) -> Option<Answer>
    requires { actor < length script.now.actors }
    ensures { result ≡ answer_in (op_at script.now actor op) (map (λ word. word.now) words.now) }
{
    match words {
        [word] => plain_answer(word),
        [word, count] => {
            let n = number(count)?;
            counted_answer(script, actor, op, word, n)
        }
        [word, got, of, wanted, cause @ ..] => {
            if *word == "ok" {
                short_answer(got, of, wanted, cause)
            } else {
                None
            }
        }
        _ => None,
    }
}

// An answer of one word.
#[tactic(auto, unfolding(crate::specs::Reading::plain_answer_in))]
fn plain_answer(word: &str) -> Option<Answer>
    ensures { result ≡ plain_answer_in word.now }
{
    match word {
        "ok" => Some(Answer::Plain),
        "words" => Some(Answer::Words),
        "missing" => Some(Answer::Missing),
        "forbidden" => Some(Answer::Forbidden),
        "noframe" => Some(Answer::NoFrame),
        "notheld" => Some(Answer::NotHeld),
        "range" => Some(Answer::Range),
        "overlap" => Some(Answer::Overlap),
        "full" => Some(Answer::Full),
        "untouched" => Some(Answer::Untouched),
        "stale" => Some(Answer::Stale),
        "unborn" => Some(Answer::Unborn),
        _ => None,
    }
}

// An answer of a word and a number.
#[tactic(auto, unfolding(crate::specs::Reading::counted_answer_in))]
fn counted_answer(script: &Script, actor: ActorNo, op: u32, word: &str, n: u64) -> Option<Answer>
    requires { actor < length script.now.actors }
    ensures { result ≡ counted_answer_in (op_at script.now actor op) word.now n }
{
    match word {
        "ok" => Some(number_answer(script, actor, op, n)),
        "unmovable" => Some(Answer::Unmovable(n)),
        "busy" => Some(Answer::Busy(n)),
        _ => None,
    }
}

// The number behind `ok`: of a pin its pages, and else a word that was read.
#[tactic(auto, unfolding(crate::specs::Reading::number_answer))]
fn number_answer(script: &Script, actor: ActorNo, op: u32, n: u64) -> Answer
    requires { actor < length script.now.actors }
    ensures { result ≡ number_answer (op_at script.now actor op) n }
{
    if counts_pages(script, actor, op, n) {
        Answer::Pinned(n as u8)
    } else {
        Answer::Value(n)
    }
}

fn counts_pages(script: &Script, actor: ActorNo, op: u32, n: u64) -> bool
    requires { actor < length script.now.actors }
    ensures { result ≡ counts_pages (op_at script.now actor op) n }
{
    is_pin(script, actor, op) && n < 256
}

// Whether the actor's operation with this number, from 1, is a pin.
fn is_pin(script: &Script, actor: ActorNo, op: u32) -> bool
    requires { actor < length script.now.actors }
    ensures { result ≡ is_pin (op_at script.now actor op) }
{
    if op == 0 {
        return false;
    }
    matches!(script.ops(actor).get(op as usize - 1), Some(Op::Pin { .. }))
}

// The answer of a pin that was cut short, behind its first word.
#[tactic(auto, unfolding(crate::specs::Reading::short_answer_in))]
fn short_answer(got: &str, of: &str, wanted: &str, cause_words: &[&str]) -> Option<Answer>
    ensures { result ≡ short_answer_in got.now of.now wanted.now (map (λ word. word.now) cause_words.now) }
{
    if of != "of" {
        return None;
    }
    let got = byte(got)?;
    let wanted = byte(wanted)?;
    let cause = cause(cause_words)?;
    Some(Answer::Short { got, wanted, cause })
}

#[tactic(auto, unfolding(crate::specs::Reading::cause_in))]
fn cause(words: &[&str]) -> Option<Cause>
    ensures { result ≡ cause_in (map (λ word. word.now) words.now) }
{
    match words {
        [word] => plain_cause(word),
        [word, count] => counted_cause(word, count),
        _ => None,
    }
}

#[tactic(auto, unfolding(crate::specs::Reading::plain_cause_in))]
fn plain_cause(word: &str) -> Option<Cause>
    ensures { result ≡ plain_cause_in word.now }
{
    match word {
        "missing" => Some(Cause::Missing),
        "forbidden" => Some(Cause::Forbidden),
        "noframe" => Some(Cause::NoFrame),
        _ => None,
    }
}

#[tactic(auto, unfolding(crate::specs::Reading::counted_cause_in))]
fn counted_cause(word: &str, count: &str) -> Option<Cause>
    ensures { result ≡ counted_cause_in word.now count.now }
{
    if word != "unmovable" {
        return None;
    }
    let n = number(count)?;
    Some(Cause::Unmovable(n))
}
