//! The lines of a run.
ghost use Rattle.std.specs.Prelude.{◌≡◌, ℕ, ◌<◌, List, [], ◌++◌, length, codes, decimal, IsSome, IsTrue, IfOk, OnOk, OnErr};
ghost use Rattle.std.specs.List.{cons_option, flat_map};
ghost use Rattle.gup_script.specs.Script.{actor_at, process_at, handle_at};
ghost use Rattle.gup_plain.specs.Put.{put};
ghost use Rattle.gup_lines.specs.Moved.{words_of, moved_after};
ghost use Rattle.gup_lines.specs.Text.{text_of, name_in, process_name, handle_name, cause_text, word_text, answer_text, head_of, line_of, waiting_text, stuck_line, word_in, moved_by, words_after, outcome_of, outcomes_of, NamesWaiting, BeginsWith};

use crate::kept::Moved;
use crate::names::{handle_name, name_of, process_name};
use crate::outcome::{Outcome, Outcomes};
use crate::pieces::{push_number, push_text, write_number};
use gup_base::{ActorNo, NoMemory, Words};
use gup_plain::{Answer, Cause, Journal, Note, PlainEvent, Waiting, What};
use gup_script::Script;
use std::alloc::Global;

/// The answers of the script's journal, in order, each with the words that its own actor's operation has moved.
pub fn outcomes(alloc: Global, _script: &Script, journal: &Journal) -> Result<Outcomes, NoMemory>
    ensures { IfOk result (λ outcomes. outcomes ≡ outcomes_of journal.now.notes) }
{
    Ok(Outcomes::of(told_in(alloc, journal.notes())?))
}

fn told_in(alloc: Global, notes: &[Note]) -> Result<Vec<Outcome>, NoMemory>
    ensures { IfOk result (λ found. found.items ≡ outcomes_of notes.now) }
{
    let mut moved = Moved::new(alloc)?;
    let mut found = Vec::new(alloc);
    for note in notes {
        tell(note, &mut moved, &mut found)?;
    }
    Ok(found)
}

// Puts the outcome on that a note tells, if it ends an operation: the words that its actor's operation has moved go into
// it. After any other note they are those, and the word of the note.
#[tactic(auto, using(crate::proofs::Moved::moves))]
fn tell(note: &Note, moved: &mut Moved, found: &mut Vec<Outcome>) -> Result<(), NoMemory>
    ensures found { OnOk result (found.new.items
        ≡ found.old.items ++ cons_option (outcome_of note.now.actor note.now.op (words_of moved.old note.now.actor) note.now.what) []) }
    ensures moved { OnOk result (words_of moved.new ≡ moved_after (words_of moved.old) note.now) }
{
    match note.what() {
        What::Silent | What::Idle | What::Wait(_) => Ok(()),
        What::Event(event) => push_word(moved, note.actor(), word_of(event)),
        What::Done(answer) => {
            let actor = note.actor();
            let words = as_words(moved.of(actor))?;
            found.push(Outcome {
                actor,
                op: note.op(),
                answer,
                words,
            })?;
            moved.clear(actor);
            Ok(())
        }
    }
}

// These words. A transfer has 64 at most, and there is no room for more.
fn as_words(kept: &[u64]) -> Result<Words, NoMemory>
    ensures { IfOk result (λ words. words ≡ kept.now) }
{
    let mut words = Words::new();
    for word in kept {
        if words.as_slice().len() >= 64 {
            return Err(NoMemory);
        }
        words.push(*word);
    }
    Ok(words)
}

// The word that an event of a transfer moves.
#[inline(always)]
fn word_of(event: PlainEvent) -> Option<u64>
    ensures { result ≡ word_in event }
{
    match event {
        PlainEvent::MoveOut { value, .. } | PlainEvent::MoveIn { value, .. } => Some(value),
        _ => None,
    }
}

// Puts the word on after those of its actor, if there is one.
#[inline(always)]
#[tactic(auto, using(crate::proofs::Moved::moves))]
fn push_word(moved: &mut Moved, actor: ActorNo, word: Option<u64>) -> Result<(), NoMemory>
    ensures { OnOk result (words_of moved.new ≡ put actor (moved_by (words_of moved.old actor) word) (words_of moved.old)) }
{
    match word {
        Some(word) => moved.push(actor, word),
        None => Ok(()),
    }
}

/// Appends the line of each answer of the script's journal, in order, with the words that its own actor's operation
/// has moved. Beside the text memory is taken only for the words that are kept until their operation's answer. Where
/// memory is wanted the text is as it was.
pub fn push_lines(
    alloc: Global,
    script: &Script,
    journal: &Journal,
    text: &mut Vec<u8>,
) -> Result<(), NoMemory>
    ensures ok { OnOk result (text.new.items ≡ text.old.items ++ text_of script.now journal.now.notes) }
    ensures err { OnErr result (text.new.items ≡ text.old.items) }
{
    let notes = journal.notes();
    let length = text.len();
    let written = write_lines(alloc, script, notes, text);
    if written.is_err() {
        text.truncate(length);
    }
    written
}

#[tactic(auto, using(crate::proofs::Fronts::fronts))]
fn write_lines(
    alloc: Global,
    script: &Script,
    notes: &[Note],
    text: &mut Vec<u8>,
) -> Result<(), NoMemory>
    ensures ok { OnOk result (text.new.items ≡ text.old.items ++ text_of script.now notes.now) }
    ensures err { OnErr result (BeginsWith text.new.items text.old.items) }
{
    let mut moved = Moved::new(alloc)?;
    for note in notes {
        pass_note(script, note, &mut moved, text)?;
    }
    Ok(())
}

// Writes the line of a note that ends an operation, and keeps the word of one that moves a word. Most notes do neither.
#[inline(always)]
#[tactic(auto, using(crate::proofs::Fronts::fronts, crate::proofs::Moved::moves))]
fn pass_note(
    script: &Script,
    note: &Note,
    moved: &mut Moved,
    text: &mut Vec<u8>,
) -> Result<(), NoMemory>
    ensures text { OnOk result (text.new.items ≡ text.old.items ++ flat_map (line_of script.now)
        (cons_option (outcome_of note.now.actor note.now.op (words_of moved.old note.now.actor) note.now.what) [])) }
    ensures moved { OnOk result (words_of moved.new ≡ moved_after (words_of moved.old) note.now) }
    ensures err { OnErr result (BeginsWith text.new.items text.old.items) }
{
    match note.what() {
        What::Silent | What::Idle | What::Wait(_) => Ok(()),
        What::Event(event) => push_word(moved, note.actor(), word_of(event)),
        What::Done(_answer) => write_note(script, note, moved, text),
    }
}

// Writes the line of a note that ends an operation, with the words that its actor's operation has moved. It stands
// apart, so that the loop over the notes stays small.
#[inline(never)]
#[tactic(auto, using(crate::proofs::Fronts::fronts, crate::proofs::Moved::moves))]
fn write_note(
    script: &Script,
    note: &Note,
    moved: &mut Moved,
    text: &mut Vec<u8>,
) -> Result<(), NoMemory>
    requires { IsSome (outcome_of note.now.actor note.now.op (words_of moved.old note.now.actor) note.now.what) }
    ensures text { OnOk result (text.new.items ≡ text.old.items ++ flat_map (line_of script.now)
        (cons_option (outcome_of note.now.actor note.now.op (words_of moved.old note.now.actor) note.now.what) [])) }
    ensures moved { OnOk result (words_of moved.new ≡ moved_after (words_of moved.old) note.now) }
    ensures err { OnErr result (BeginsWith text.new.items text.old.items) }
{
    push_head(script, note.actor(), note.op(), text)?;
    if is_plain(note) {
        push_text(text, " ok\n")?;
    } else if let What::Done(answer) = note.what() {
        push_end(text, answer, moved.of(note.actor()))?;
    }
    moved.clear(note.actor());
    Ok(())
}

// Does the note say `ok` alone? Most answers do.
#[inline(always)]
fn is_plain(note: &Note) -> bool
    ensures { IsTrue result → note.now.what ≡ What.Done Answer.Plain }
{
    matches!(note.what(), What::Done(Answer::Plain))
}

#[tactic(auto, using(crate::proofs::Fronts::fronts))]
fn push_cause(text: &mut Vec<u8>, cause: Cause) -> Result<(), NoMemory>
    ensures ok { OnOk result (text.new.items ≡ text.old.items ++ cause_text cause) }
    ensures err { OnErr result (BeginsWith text.new.items text.old.items) }
{
    match cause {
        Cause::Missing => push_text(text, "missing"),
        Cause::Forbidden => push_text(text, "forbidden"),
        Cause::NoFrame => push_text(text, "noframe"),
        Cause::Unmovable(count) => {
            push_text(text, "unmovable ")?;
            push_number(text, count)
        }
    }
}

// The words of a transfer, each after a space.
#[tactic(auto, using(crate::proofs::Fronts::fronts))]
fn push_words(text: &mut Vec<u8>, words: &[u64]) -> Result<(), NoMemory>
    ensures ok { OnOk result (text.new.items ≡ text.old.items ++ flat_map word_text words.now) }
    ensures err { OnErr result (BeginsWith text.new.items text.old.items) }
{
    for word in words {
        write_word(text, *word)?;
    }
    Ok(())
}

// A word after a space. Where it is of one digit these are two bytes, and room for both is asked for at once.
#[tactic(auto, using(crate::proofs::Fronts::fronts))]
#[inline(always)]
fn write_word(text: &mut Vec<u8>, word: u64) -> Result<(), NoMemory>
    ensures ok { OnOk result (text.new.items ≡ text.old.items ++ word_text word) }
    ensures err { OnErr result (BeginsWith text.new.items text.old.items) }
{
    if word < 10 {
        text.reserve(2)?;
        text.push_reserved(b' ');
        text.push_reserved(b'0' + word as u8);
        Ok(())
    } else {
        text.push(b' ')?;
        write_number(text, word)
    }
}

#[tactic(auto, using(crate::proofs::Fronts::fronts))]
fn push_counted(text: &mut Vec<u8>, word: &str, count: u64) -> Result<(), NoMemory>
    ensures ok { OnOk result (text.new.items ≡ text.old.items ++ (word.now ++ decimal count)) }
    ensures err { OnErr result (BeginsWith text.new.items text.old.items) }
{
    push_text(text, word)?;
    push_number(text, count)
}

#[tactic(auto, using(crate::proofs::Fronts::fronts))]
fn push_short(text: &mut Vec<u8>, got: u8, wanted: u8, cause: Cause) -> Result<(), NoMemory>
    ensures ok { OnOk result (text.new.items ≡ text.old.items ++ answer_text (Answer.Short got wanted cause) []) }
    ensures err { OnErr result (BeginsWith text.new.items text.old.items) }
{
    push_counted(text, "ok ", u64::from(got))?;
    push_counted(text, " of ", u64::from(wanted))?;
    push_behind_space(text, cause)
}

#[tactic(auto, using(crate::proofs::Fronts::fronts))]
fn push_behind_space(text: &mut Vec<u8>, cause: Cause) -> Result<(), NoMemory>
    ensures ok { OnOk result (text.new.items ≡ text.old.items ++ (codes " " ++ cause_text cause)) }
    ensures err { OnErr result (BeginsWith text.new.items text.old.items) }
{
    push_text(text, " ")?;
    push_cause(text, cause)
}

/// Appends the text of an answer, as it stands in a line behind the actor's name and the operation's number; the words are those that a
/// transfer has moved. Where memory is wanted, a part of it may have been appended.
#[tactic(auto, using(crate::proofs::Fronts::fronts))]
pub fn push_answer(text: &mut Vec<u8>, answer: Answer, words: &[u64]) -> Result<(), NoMemory>
    ensures ok { OnOk result (text.new.items ≡ text.old.items ++ answer_text answer words.now) }
    ensures err { OnErr result (BeginsWith text.new.items text.old.items) }
{
    match answer {
        Answer::Plain => push_text(text, "ok"),
        Answer::Value(value) => push_counted(text, "ok ", value),
        Answer::Pinned(pages) => push_counted(text, "ok ", u64::from(pages)),
        Answer::Short { got, wanted, cause } => push_short(text, got, wanted, cause),
        Answer::Words => {
            push_text(text, "ok")?;
            push_words(text, words)
        }
        Answer::Missing => push_text(text, "missing"),
        Answer::Forbidden => push_text(text, "forbidden"),
        Answer::Unmovable(count) => push_counted(text, "unmovable ", count),
        Answer::NoFrame => push_text(text, "noframe"),
        Answer::NotHeld => push_text(text, "notheld"),
        Answer::Range => push_text(text, "range"),
        Answer::Overlap => push_text(text, "overlap"),
        Answer::Full => push_text(text, "full"),
        Answer::Busy(count) => push_counted(text, "busy ", count),
        Answer::Untouched => push_text(text, "untouched"),
        Answer::Stale => push_text(text, "stale"),
        Answer::Unborn => push_text(text, "unborn"),
    }
}

// The actor's name and the operation's number.
#[tactic(auto, using(crate::proofs::Fronts::fronts))]
#[inline(always)]
fn push_head(script: &Script, actor: ActorNo, op: u32, text: &mut Vec<u8>) -> Result<(), NoMemory>
    ensures ok { OnOk result (text.new.items ≡ text.old.items ++ (name_in (actor_at script.now actor) ++ (codes " " ++ decimal op))) }
    ensures err { OnErr result (BeginsWith text.new.items text.old.items) }
{
    push_text(text, name_of(script, actor))?;
    push_text(text, " ")?;
    write_number(text, u64::from(op))
}

// The answer behind a space, and a line feed.
#[tactic(auto, using(crate::proofs::Fronts::fronts))]
#[inline(never)]
fn push_end(text: &mut Vec<u8>, answer: Answer, words: &[u64]) -> Result<(), NoMemory>
    ensures ok { OnOk result (text.new.items ≡ text.old.items ++ (codes " " ++ (answer_text answer words.now ++ codes "\n"))) }
    ensures err { OnErr result (BeginsWith text.new.items text.old.items) }
{
    push_text(text, " ")?;
    push_answer(text, answer, words)?;
    push_text(text, "\n")
}

// Writes a line: the head, the answer, and a line feed.
#[tactic(auto, using(crate::proofs::Fronts::fronts))]
#[inline(always)]
fn write_line(
    script: &Script,
    actor: ActorNo,
    op: u32,
    answer: Answer,
    words: &[u64],
    text: &mut Vec<u8>,
) -> Result<(), NoMemory>
    ensures ok { OnOk result (text.new.items ≡ text.old.items
        ++ line_of script.now (record { actor = actor; op = op; answer = answer; words = words.now })) }
    ensures err { OnErr result (BeginsWith text.new.items text.old.items) }
{
    push_head(script, actor, op, text)?;
    push_end(text, answer, words)
}

/// Appends the line of an outcome: the actor's name, the operation's number, the answer and a line feed. Where
/// memory is wanted the text is as it was.
pub fn push_line(script: &Script, o: &Outcome, text: &mut Vec<u8>) -> Result<(), NoMemory>
    ensures ok { OnOk result (text.new.items ≡ text.old.items ++ line_of script.now o.now) }
    ensures err { OnErr result (text.new.items ≡ text.old.items) }
{
    let length = text.len();
    let written = write_line(script, o.actor, o.op, o.answer, o.words.as_slice(), text);
    if written.is_err() {
        text.truncate(length);
    }
    written
}

// The process or the handle that an actor is stuck at.
#[tactic(auto, using(crate::proofs::Fronts::fronts))]
fn push_waiting(script: &Script, waiting: Waiting, text: &mut Vec<u8>) -> Result<(), NoMemory>
    requires { NamesWaiting script.now waiting }
    ensures ok { OnOk result (text.new.items ≡ text.old.items ++ (codes " " ++ waiting_text script.now waiting)) }
    ensures err { OnErr result (BeginsWith text.new.items text.old.items) }
{
    push_text(text, " ")?;
    match waiting {
        Waiting::Process(p) => {
            push_text(text, "process ")?;
            push_text(text, process_name(script, p))
        }
        Waiting::Handle(h) => {
            push_text(text, "handle ")?;
            push_text(text, handle_name(script, h))
        }
        // Nobody is stuck at a lock.
        Waiting::Holder(_) => Ok(()),
    }
}

#[tactic(auto, using(crate::proofs::Fronts::fronts))]
fn write_stuck(
    script: &Script,
    actor: ActorNo,
    waiting: Waiting,
    text: &mut Vec<u8>,
) -> Result<(), NoMemory>
    requires { NamesWaiting script.now waiting }
    ensures ok { OnOk result (text.new.items ≡ text.old.items ++ stuck_line script.now actor waiting) }
    ensures err { OnErr result (BeginsWith text.new.items text.old.items) }
{
    push_text(text, "stuck ")?;
    push_text(text, name_of(script, actor))?;
    push_waiting(script, waiting, text)?;
    push_text(text, "\n")
}

/// Appends the line of an actor that is stuck: `stuck`, its name, and what it waits for, a process or a
/// handle of the script. If allocation fails the text is as it was.
pub fn push_stuck(
    script: &Script,
    actor: ActorNo,
    waiting: Waiting,
    text: &mut Vec<u8>,
) -> Result<(), NoMemory>
    requires { NamesWaiting script.now waiting }
    ensures ok { OnOk result (text.new.items ≡ text.old.items ++ stuck_line script.now actor waiting) }
    ensures err { OnErr result (text.new.items ≡ text.old.items) }
{
    let length = text.len();
    let written = write_stuck(script, actor, waiting, text);
    if written.is_err() {
        text.truncate(length);
    }
    written
}
