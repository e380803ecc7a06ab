//! A note's line.
ghost use Rattle.std.specs.Prelude.{◌≡◌, ◌<◌, ℕ, List, map, length, IfOk, MatchOption};
ghost use Rattle.gup_plain.specs.Note.{NoteValue};
ghost use Rattle.gup_script.specs.Script.{ScriptValue};
ghost use Rattle.gup_spec_grammar.specs.Spelling.{parts};
ghost use Rattle.gup_spec_trace.specs.Names.{AreNames};
ghost use Rattle.gup_spec_trace.specs.Trace.{IsLineOf, IsNoLine};
ghost use Rattle.gup_spec_trace.specs.Written.{op_at};
ghost use Rattle.gup_read_notes.specs.Reading.{holder_in, awaited_handle_in, awaited_process_in, awaited_in, waiting_in, alone, wait_in, done_in, some_event_in, what_in, note_in, read_in};

use crate::answers::answer;
use crate::events::event;
use crate::names::Names;
use gup_base::{ActorNo, NoMemory};
use gup_plain::{Answer, Cause, Note, PlainEvent, Waiting, What};
use gup_read_words::{cut_words, index, line_text};
use gup_script::Script;

/// The note that the line is, which has no line feed; `None` exactly where it is none. The words are a buffer, of which nothing stays:
/// where it is used for each line, a line takes no memory.
pub fn read_note<'a>(
    script: &Script,
    names: &Names,
    line: &'a [u8],
    words: &mut Vec<&'a str>,
) -> Result<Option<Note>, NoMemory>
    requires of { names.now ≡ script.now }
    requires names { AreNames script.now }
    ensures found { IfOk result (λ found. MatchOption found (IsNoLine script.now line.now) (λ note. IsLineOf script.now line.now note)) }
{
    note_of_line(script, names, line, words)
}

/// No line is that of two notes.
pub fn one_note()
    ensures { (script : ScriptValue) (line : List ℕ) (m n : NoteValue) → AreNames script → IsLineOf script line m → IsLineOf script line n → m ≡ n }
{}

#[tactic(auto, unfolding(crate::specs::Reading::read_in))]
fn note_of_line<'a>(
    script: &Script,
    names: &Names,
    line: &'a [u8],
    words: &mut Vec<&'a str>,
) -> Result<Option<Note>, NoMemory>
    requires { names.now ≡ script.now }
    ensures { IfOk result (λ found. found ≡ read_in script.now line.now) }
{
    let Some(text) = line_text(line) else {
        return Ok(None);
    };
    cut_words(text, words)?;
    Ok(note(script, names, words.as_slice()))
}

// The note that the words are.
#[tactic(auto, unfolding(crate::specs::Reading::note_in))]
fn note(script: &Script, names: &Names, words: &[&str]) -> Option<Note>
    requires { names.now ≡ script.now }
    ensures { result ≡ note_in script.now (map (λ word. word.now) words.now) }
{
    let [turn, actor, op, word, fields @ ..] = words else {
        return None;
    };
    let turn = index(turn)?;
    let actor = names.actor(actor)?;
    let op = index(op)?;
    let what = what(script, names, actor, op, word, fields)?;
    // Rattle moves it only where it was told what stands in it.
    let _known = matches!(
        what,
        What::Wait(Waiting::Holder(_))
            | What::Event(PlainEvent::ForkFail { .. })
            | What::Done(Answer::Short {
                cause: Cause::Missing,
                ..
            })
    );
    Some(Note::new(turn, actor, op, what))
}

// What happened: its word, and the others.
#[tactic(auto, unfolding(crate::specs::Reading::what_in))]
fn what(
    script: &Script,
    names: &Names,
    actor: ActorNo,
    op: u32,
    word: &str,
    fields: &[&str],
) -> Option<What>
    requires of { names.now ≡ script.now }
    requires actor { actor < length script.now.actors }
    ensures { result ≡ what_in script.now actor op word.now (map (λ word. word.now) fields.now) }
{
    match word {
        "done" => done(script, actor, op, fields),
        "silent" => alone(What::Silent, fields),
        "idle" => alone(What::Idle, fields),
        "wait" => wait(names, fields),
        _ => some_event(names, actor, word, fields),
    }
}

// What stands alone.
#[tactic(auto, unfolding(crate::specs::Reading::alone))]
fn alone(what: What, fields: &[&str]) -> Option<What>
    ensures { result ≡ alone what (map (λ word. word.now) fields.now) }
{
    match fields {
        [] => Some(what),
        _ => None,
    }
}

#[tactic(auto, unfolding(crate::specs::Reading::done_in))]
fn done(script: &Script, actor: ActorNo, op: u32, fields: &[&str]) -> Option<What>
    requires { actor < length script.now.actors }
    ensures { result ≡ done_in (op_at script.now actor op) (map (λ word. word.now) fields.now) }
{
    let answer = answer(script, actor, op, fields)?;
    Some(What::Done(answer))
}

#[tactic(auto, unfolding(crate::specs::Reading::wait_in))]
fn wait(names: &Names, fields: &[&str]) -> Option<What>
    ensures { result ≡ wait_in names.now (map (λ word. word.now) fields.now) }
{
    let waiting = waiting(names, fields)?;
    Some(What::Wait(waiting))
}

#[tactic(auto, unfolding(crate::specs::Reading::some_event_in))]
fn some_event(names: &Names, actor: ActorNo, word: &str, fields: &[&str]) -> Option<What>
    ensures { result ≡ some_event_in names.now actor word.now (map (λ word. word.now) fields.now) }
{
    let event = event(names, actor, word, fields)?;
    Some(What::Event(event))
}

// What an actor waits for.
#[tactic(auto, unfolding(crate::specs::Reading::waiting_in))]
fn waiting(names: &Names, fields: &[&str]) -> Option<Waiting>
    ensures { result ≡ waiting_in names.now (map (λ word. word.now) fields.now) }
{
    let [kind, name] = fields else {
        return None;
    };
    awaited(names, kind, name)
}

#[tactic(auto, unfolding(crate::specs::Reading::awaited_in))]
fn awaited(names: &Names, kind: &str, name: &str) -> Option<Waiting>
    ensures { result ≡ awaited_in names.now kind.now name.now }
{
    match kind {
        "actor" => holder(names, name),
        "handle" => awaited_handle(names, name),
        "process" => awaited_process(names, name),
        _ => None,
    }
}

#[tactic(auto, unfolding(crate::specs::Reading::holder_in))]
fn holder(names: &Names, name: &str) -> Option<Waiting>
    ensures { result ≡ holder_in names.now name.now }
{
    let actor = names.actor(name)?;
    Some(Waiting::Holder(actor))
}

#[tactic(auto, unfolding(crate::specs::Reading::awaited_handle_in))]
fn awaited_handle(names: &Names, name: &str) -> Option<Waiting>
    ensures { result ≡ awaited_handle_in names.now name.now }
{
    let handle = names.handle(name)?;
    Some(Waiting::Handle(handle))
}

#[tactic(auto, unfolding(crate::specs::Reading::awaited_process_in))]
fn awaited_process(names: &Names, name: &str) -> Option<Waiting>
    ensures { result ≡ awaited_process_in names.now name.now }
{
    let process = names.process(name)?;
    Some(Waiting::Process(process))
}
