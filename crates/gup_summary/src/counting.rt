//! The summary of a run.
ghost use Rattle.std.specs.Prelude.{◌≡◌, ◌+◌, ◌<◌, ◌%◌, ◌^◌, ◌++◌, length, count_by, IfOk, OnOk};
ghost use Rattle.gup_lines.specs.Text.{outcomes_of};
ghost use Rattle.gup_summary.specs.Summary.{says_ok, word_of, word_in, words_sum, counted, summary_lines};
ghost use Rattle.gup_summary.specs.Counts.{is_ok, answers_in, oks_in};

use gup_base::NoMemory;
use gup_lines::push_text;
use gup_plain::{Answer, Journal, PlainEvent, What};
use itoa::Buffer;
use std::alloc::Global;

/// The four lines of a run's summary: how many answers there are, how many of them say `ok`, how many turns there were, and the sum of
/// all words that were loaded, looked at and moved, modulo 2^64.
pub fn summary_lines(alloc: Global, journal: &Journal, turns: u32) -> Result<Vec<u8>, NoMemory>
    ensures { IfOk result (λ text. text.items ≡ summary_lines journal.now.notes turns) }
{
    let counts = Counts::of(journal);
    let mut text = Vec::new(alloc);
    push_count(&mut text, "answers", counts.answers)?;
    push_count(&mut text, "ok", counts.ok)?;
    push_count(&mut text, "turns", u64::from(turns))?;
    push_count(&mut text, "words", counts.words)?;
    Ok(text)
}

// A line of what was counted.
fn push_count(text: &mut Vec<u8>, what: &str, n: u64) -> Result<(), NoMemory>
    ensures { OnOk result (text.new.items ≡ text.old.items ++ counted what.now n) }
{
    let mut number = Buffer::new();
    push_text(text, what)?;
    push_text(text, " ")?;
    push_text(text, number.format(n))?;
    push_text(text, "\n")
}

// What a journal is counted by.
#[derive(Clone, Copy)]
struct Counts {
    answers: u64,
    ok: u64,
    words: u64,
}

impl Counts {
    fn of(journal: &Journal) -> Counts
        ensures answers { result.answers ≡ length (outcomes_of journal.now.notes) }
        ensures ok { result.ok ≡ count_by says_ok (outcomes_of journal.now.notes) }
        ensures words { result.words ≡ words_sum journal.now.notes }
    {
        let mut counts = Counts {
            answers: 0,
            ok: 0,
            words: 0,
        };
        for note in journal.notes() {
            counts.add(note.what());
        }
        counts
    }

    fn add(&mut self, what: What)
        requires answers { self.old.answers + 1 < 2 ^ 64 }
        requires ok { self.old.ok + 1 < 2 ^ 64 }
        ensures answers { self.new.answers ≡ self.old.answers + answers_in what }
        ensures ok { self.new.ok ≡ self.old.ok + oks_in what }
        ensures words { self.new.words ≡ (self.old.words + word_in what) % 2 ^ 64 }
    {
        match what {
            What::Done(answer) => {
                self.answers += 1;
                self.ok += u64::from(is_ok(answer));
            }
            What::Event(event) => self.words = self.words.wrapping_add(word_of(event)),
            _ => {}
        }
    }
}

// Whether the text of the answer begins with `ok`.
fn is_ok(answer: Answer) -> bool
    ensures { result ≡ is_ok answer }
{
    matches!(
        answer,
        Answer::Plain | Answer::Value(_) | Answer::Pinned(_) | Answer::Short { .. } | Answer::Words
    )
}

// The word that an event reads or moves, and 0 of the others.
fn word_of(event: PlainEvent) -> u64
    ensures { result ≡ word_of event }
{
    match event {
        PlainEvent::Load { value, .. }
        | PlainEvent::Look { value, .. }
        | PlainEvent::MoveOut { value, .. }
        | PlainEvent::MoveIn { value, .. } => value,
        _ => 0,
    }
}
