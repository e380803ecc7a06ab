//! What a row's turns tell.
use crate::operations::push_operation;
use crate::rows::Around;
use crate::spans::copied;
use crate::steps::push_step;
use gup_base::NoMemory;
use gup_lines::{push_number, push_text};
use gup_plain::{Answer, Note, What};
use gup_scene::{Said, SaidKind};
use gup_script::Script;
use gup_trace::push_note;
use std::alloc::Global;

/// Puts in what the notes tell: each note of a turn, and of like turns the first one.
pub(crate) fn push_said(
    alloc: Global,
    script: &Script,
    notes: &[Note],
    wrong: Option<usize>,
    around: &Around<'_>,
    said: &mut Vec<Said>,
) -> Result<(), NoMemory> {
    let (Some(first), Some(last)) = (notes.first(), notes.last()) else {
        return Ok(());
    };
    if first.turn() != last.turn() {
        let mut text = text_of(alloc, script, first, around)?;
        push_last_word(last, &mut text)?;
        return push(kind_of(first), text, said);
    }
    if has_no_event(notes) {
        push_unheard(alloc, script, first, around, said)?;
    }
    for (k, note) in notes.iter().enumerate() {
        let text = text_of(alloc, script, note, around)?;
        let kind = if wrong == Some(k) {
            SaidKind::Wrong
        } else {
            kind_of(note)
        };
        push(kind, text, said)?;
    }
    Ok(())
}

// Whether the notes are an answer, and tell of no event and no step.
fn has_no_event(notes: &[Note]) -> bool {
    match notes.first() {
        Some(note) => matches!(note.what(), What::Done(_)),
        None => false,
    }
}

// What a turn was about that only answers: its step, or else its operation.
fn push_unheard(
    alloc: Global,
    script: &Script,
    note: &Note,
    around: &Around<'_>,
    said: &mut Vec<Said>,
) -> Result<(), NoMemory> {
    let mut text = Vec::new(alloc);
    let actor = note.actor();
    let stepped = match (around.before, around.after) {
        (Some(before), Some(after)) => {
            push_step(&before.job(actor), &after.job(actor), &mut text)?
        }
        _ => false,
    };
    if !stepped {
        push_operation(script, actor, note.op(), &mut text)?;
    }
    if text.is_empty() {
        return Ok(());
    }
    push(SaidKind::Step, text, said)
}

fn push(kind: SaidKind, text: Vec<u8>, said: &mut Vec<Said>) -> Result<(), NoMemory> {
    said.push(Said { kind, text })?;
    Ok(())
}

fn kind_of(note: &Note) -> SaidKind {
    match note.what() {
        What::Silent => SaidKind::Step,
        What::Idle | What::Wait(_) => SaidKind::Wait,
        What::Event(_) => SaidKind::Event,
        What::Done(_) => SaidKind::Answer,
    }
}

// Of copied words, to which one they go: ` to 5.511`.
fn push_last_word(last: &Note, text: &mut Vec<u8>) -> Result<(), NoMemory> {
    let What::Event(event) = last.what() else {
        return Ok(());
    };
    let Some(word) = copied(event) else {
        return Ok(());
    };
    push_text(text, " to ")?;
    push_number(text, word.page)?;
    push_text(text, ".")?;
    push_number(text, word.word)
}

// What a note says: as in its line of the trace, but of an answer without `done`, and of a silent turn what its step was.
fn text_of(
    alloc: Global,
    script: &Script,
    note: &Note,
    around: &Around<'_>,
) -> Result<Vec<u8>, NoMemory> {
    let mut text = Vec::new(alloc);
    if let (What::Silent, Some(before), Some(after)) = (note.what(), around.before, around.after) {
        let actor = note.actor();
        if push_step(&before.job(actor), &after.job(actor), &mut text)? {
            return Ok(text);
        }
    }
    if matches!(note.what(), What::Done(Answer::Words)) {
        push_text(&mut text, "ok")?;
        return Ok(text);
    }
    let mut line = Vec::new(alloc);
    push_note(script, note, &mut line)?;
    let skipped = if matches!(note.what(), What::Done(_)) {
        4
    } else {
        3
    };
    text.extend_from_slice(behind_words(line.as_slice(), skipped))?;
    Ok(text)
}

// The line without its line feed, behind so many words.
fn behind_words(line: &[u8], words: u8) -> &[u8] {
    let mut left = words;
    for (k, byte) in line.iter().enumerate() {
        if left == 0 {
            return without_feed(&line[k..]);
        }
        if *byte == b' ' {
            left = left.saturating_sub(1);
        }
    }
    without_feed(line)
}

fn without_feed(line: &[u8]) -> &[u8] {
    match line.split_last() {
        Some((b'\n', front)) => front,
        _ => line,
    }
}
