//! The lines of notes.
ghost use Rattle.std.specs.Prelude.{◌≡◌, ◌++◌, ◌^◌, ◌<◌, [], ◌∷◌, codes, decimal, OnOk, OnErr};
ghost use Rattle.std.specs.List.{All, flat_map};
ghost use Rattle.gup_lines.specs.Text.{BeginsWith};
ghost use Rattle.gup_spec_trace.specs.Note.{said, actor, waiting_text, done_text, what_text, note_line};
ghost use Rattle.gup_spec_trace.specs.Kept.{IsAnswerKept, IsWhatKept, IsKept};
ghost use Rattle.gup_spec_trace.specs.Trace.{journal_line};

use crate::events::push_event;
use crate::words::{push_count, push_word};
use gup_base::NoMemory;
use gup_lines::{handle_name, name_of, process_name, push_answer, push_text, write_number};
use gup_plain::{Answer, Note, Waiting, What};
use gup_script::Script;

/// Appends what stands behind the script in a trace: the line `journal`, and the line of each note, in order. Where memory is wanted the
/// text is as it was.
pub fn push_journal(script: &Script, notes: &[Note], text: &mut Vec<u8>) -> Result<(), NoMemory>
    ensures ok { OnOk result (text.new.items ≡ text.old.items ++ (journal_line ++ flat_map (note_line script.now) notes.now)) }
    ensures kept { OnOk result (All IsKept notes.now) }
    ensures err { OnErr result (text.new.items ≡ text.old.items) }
{
    let length = text.len();
    let written = write_journal(script, notes, text);
    if written.is_err() {
        text.truncate(length);
    }
    written
}

#[tactic(auto, using(crate::proofs::Fronts::fronts))]
fn write_journal(script: &Script, notes: &[Note], text: &mut Vec<u8>) -> Result<(), NoMemory>
    ensures ok { OnOk result (text.new.items ≡ text.old.items ++ (journal_line ++ flat_map (note_line script.now) notes.now)) }
    ensures kept { OnOk result (All IsKept notes.now) }
    ensures err { OnErr result (BeginsWith text.new.items text.old.items) }
{
    push_text(text, "journal\n")?;
    write_notes(script, notes, text)
}

#[tactic(auto, using(crate::proofs::Fronts::fronts))]
fn write_notes(script: &Script, notes: &[Note], text: &mut Vec<u8>) -> Result<(), NoMemory>
    ensures ok { OnOk result (text.new.items ≡ text.old.items ++ flat_map (note_line script.now) notes.now) }
    ensures kept { OnOk result (All IsKept notes.now) }
    ensures err { OnErr result (BeginsWith text.new.items text.old.items) }
{
    for note in notes {
        write_note(script, note, text)?;
    }
    Ok(())
}

/// Appends the line of a note: its turn, the actor's name, the number of the operation, and what happened. A name that the script
/// doesn't declare is left empty. Where memory is wanted the text is as it was.
pub fn push_note(script: &Script, note: &Note, text: &mut Vec<u8>) -> Result<(), NoMemory>
    ensures ok { OnOk result (text.new.items ≡ text.old.items ++ note_line script.now note.now) }
    ensures kept { OnOk result (IsKept note.now) }
    ensures err { OnErr result (text.new.items ≡ text.old.items) }
{
    let length = text.len();
    let written = write_note(script, note, text);
    if written.is_err() {
        text.truncate(length);
    }
    written
}

#[tactic(auto, using(crate::proofs::Fronts::fronts))]
fn write_note(script: &Script, note: &Note, text: &mut Vec<u8>) -> Result<(), NoMemory>
    ensures ok { OnOk result (text.new.items ≡ text.old.items ++ note_line script.now note.now) }
    ensures kept { OnOk result (IsKept note.now) }
    ensures err { OnErr result (BeginsWith text.new.items text.old.items) }
{
    push_head(script, note, text)?;
    push_what(script, note.what(), text)?;
    push_text(text, "\n")
}

// What stands in front of what happened: the turn, the actor and the operation.
#[tactic(auto, using(crate::proofs::Fronts::fronts))]
fn push_head(script: &Script, note: &Note, text: &mut Vec<u8>) -> Result<(), NoMemory>
    ensures ok { OnOk result (text.new.items ≡ text.old.items
        ++ (said (decimal note.now.turn) (actor script.now note.now.actor ∷ decimal note.now.op ∷ []) ++ codes " ")) }
    ensures kept { OnOk result ((note.now.turn < 2 ^ 32) × (note.now.op < 2 ^ 32)) }
    ensures err { OnErr result (BeginsWith text.new.items text.old.items) }
{
    write_number(text, u64::from(note.turn()))?;
    push_word(text, name_of(script, note.actor()))?;
    push_count(text, u64::from(note.op()))?;
    push_text(text, " ")
}

#[tactic(auto, using(crate::proofs::Fronts::fronts))]
fn push_what(script: &Script, what: What, text: &mut Vec<u8>) -> Result<(), NoMemory>
    ensures ok { OnOk result (text.new.items ≡ text.old.items ++ what_text script.now what) }
    ensures kept { OnOk result (IsWhatKept what) }
    ensures err { OnErr result (BeginsWith text.new.items text.old.items) }
{
    match what {
        What::Silent => push_text(text, "silent"),
        What::Idle => push_text(text, "idle"),
        What::Wait(waiting) => push_waiting(script, waiting, text),
        What::Event(event) => push_event(script, event, text),
        What::Done(answer) => {
            push_text(text, "done ")?;
            push_done(answer, text)
        }
    }
}

// What an actor waits for.
fn push_waiting(script: &Script, waiting: Waiting, text: &mut Vec<u8>) -> Result<(), NoMemory>
    ensures ok { OnOk result (text.new.items ≡ text.old.items ++ waiting_text script.now waiting) }
    ensures err { OnErr result (BeginsWith text.new.items text.old.items) }
{
    match waiting {
        Waiting::Holder(actor) => push_wait("actor", name_of(script, actor), text),
        Waiting::Handle(handle) => push_wait("handle", handle_name(script, handle), text),
        Waiting::Process(p) => push_wait("process", process_name(script, p), text),
    }
}

#[tactic(auto, using(crate::proofs::Fronts::fronts))]
fn push_wait(kind: &str, name: &str, text: &mut Vec<u8>) -> Result<(), NoMemory>
    ensures ok { OnOk result (text.new.items ≡ text.old.items ++ said (codes "wait") (kind.now ∷ name.now ∷ [])) }
    ensures err { OnErr result (BeginsWith text.new.items text.old.items) }
{
    push_text(text, "wait")?;
    push_word(text, kind)?;
    push_word(text, name)
}

// An answer; of a transfer's words only that they are there.
#[tactic(auto, using(crate::proofs::Fronts::fronts))]
fn push_done(answer: Answer, text: &mut Vec<u8>) -> Result<(), NoMemory>
    ensures ok { OnOk result (text.new.items ≡ text.old.items ++ done_text answer) }
    ensures kept { OnOk result (IsAnswerKept answer) }
    ensures err { OnErr result (BeginsWith text.new.items text.old.items) }
{
    match answer {
        Answer::Words => push_text(text, "words"),
        answer => push_answer(text, answer, &[]),
    }
}
