//! The texts of events.
ghost use Rattle.std.specs.Prelude.{◌≡◌, ◌++◌, [], ◌∷◌, codes, decimal, OnOk, OnErr};
ghost use Rattle.gup_lines.specs.Text.{BeginsWith};
ghost use Rattle.gup_spec_grammar.specs.Spelling.{address};
ghost use Rattle.gup_spec_trace.specs.Note.{said, actor, process, handle, slot, right, way, event_text};
ghost use Rattle.gup_spec_trace.specs.Kept.{IsEventKept};

use crate::words::{push_address, push_count, push_word};
use gup_base::{ActorNo, HandleNo, MirrorNo, NoMemory, PageNo, ProcNo, Rights, WordNo};
use gup_lines::{handle_name, name_of, process_name, push_text, slot_name};
use gup_plain::PlainEvent;
use gup_script::Script;

/// Appends the text of an event: its keyword, and behind it what it names and has. Its actor isn't said: it is the line's.
#[tactic(auto, using(crate::proofs::Fronts::fronts))]
pub(crate) fn push_event(
    script: &Script,
    event: PlainEvent,
    text: &mut Vec<u8>,
) -> Result<(), NoMemory>
    ensures ok { OnOk result (text.new.items ≡ text.old.items ++ event_text script.now event) }
    ensures kept { OnOk result (IsEventKept event) }
    ensures err { OnErr result (BeginsWith text.new.items text.old.items) }
{
    match event {
        PlainEvent::Map {
            proc,
            page,
            n,
            rights,
            ..
        } => push_range(script, "map", proc, page, n, rights, text),
        PlainEvent::Protect {
            proc,
            page,
            n,
            rights,
            ..
        } => push_range(script, "protect", proc, page, n, rights, text),
        PlainEvent::Unmap { proc, page, .. } => push_page(script, "unmap", proc, page, text),
        PlainEvent::Discard { proc, page, .. } => push_page(script, "discard", proc, page, text),
        PlainEvent::Load {
            proc,
            page,
            word,
            value,
            ..
        } => push_access(script, "load", proc, page, word, value, text),
        PlainEvent::Store {
            proc,
            page,
            word,
            value,
            ..
        } => push_access(script, "store", proc, page, word, value, text),
        PlainEvent::PinTry {
            proc,
            page,
            write,
            ..
        } => push_try(script, proc, page, write, text),
        PlainEvent::PinDrop { page, .. } => push_drop(page, text),
        PlainEvent::PinOk { handle, .. } => push_of_handle(script, "pinok", handle, text),
        PlainEvent::Unpin { handle, .. } => push_of_handle(script, "unpin", handle, text),
        PlainEvent::Give { handle, to, .. } => push_give(script, handle, to, text),
        PlainEvent::Take { handle, .. } => push_of_handle(script, "take", handle, text),
        PlainEvent::MoveOut {
            handle,
            index,
            slot,
            value,
            ..
        } => push_moved(script, "out", handle, index, slot, value, text),
        PlainEvent::MoveIn {
            handle,
            index,
            slot,
            value,
            ..
        } => push_moved(script, "in", handle, index, slot, value, text),
        PlainEvent::MirrorFill {
            mirror,
            proc,
            page,
            ..
        } => push_fill(script, mirror, proc, page, text),
        PlainEvent::Look {
            mirror,
            word,
            value,
            ..
        } => push_look(script, mirror, word, value, text),
        PlainEvent::ForkBegin { parent, child } => push_fork(
            script,
            "forkbegin",
            parent,
            child,
            text,
        ),
        PlainEvent::ForkPage {
            parent,
            child,
            page,
        } => push_fork_page(script, parent, child, page, text),
        PlainEvent::ForkWord {
            parent,
            child,
            page,
            word,
        } => push_fork_word(script, parent, child, page, word, text),
        PlainEvent::ForkEnd { parent, child } => push_fork(script, "forkend", parent, child, text),
        PlainEvent::ForkFail { child } => push_failed(script, child, text),
    }
}

// A space and the process.
#[tactic(auto, using(crate::proofs::Fronts::fronts))]
fn push_process(script: &Script, proc: ProcNo, text: &mut Vec<u8>) -> Result<(), NoMemory>
    ensures ok { OnOk result (text.new.items ≡ text.old.items ++ (codes " " ++ process script.now proc)) }
    ensures err { OnErr result (BeginsWith text.new.items text.old.items) }
{
    push_word(text, process_name(script, proc))
}

// A space and the handle.
#[tactic(auto, using(crate::proofs::Fronts::fronts))]
fn push_handle(script: &Script, h: HandleNo, text: &mut Vec<u8>) -> Result<(), NoMemory>
    ensures ok { OnOk result (text.new.items ≡ text.old.items ++ (codes " " ++ handle script.now h)) }
    ensures err { OnErr result (BeginsWith text.new.items text.old.items) }
{
    push_word(text, handle_name(script, h))
}

// Pages of a process from this one on, and their rights.
#[tactic(auto, using(crate::proofs::Fronts::fronts))]
fn push_range(
    script: &Script,
    keyword: &str,
    proc: ProcNo,
    page: PageNo,
    n: u16,
    rights: Rights,
    text: &mut Vec<u8>,
) -> Result<(), NoMemory>
    ensures ok { OnOk result (text.new.items ≡ text.old.items ++ said keyword.now (process script.now proc ∷ decimal page ∷ decimal n ∷ right rights ∷ [])) }
    ensures err { OnErr result (BeginsWith text.new.items text.old.items) }
{
    push_page(script, keyword, proc, page, text)?;
    push_count(text, u64::from(n))?;
    push_word(text, right_word(rights))
}

// A page of a process.
#[tactic(auto, using(crate::proofs::Fronts::fronts))]
fn push_page(
    script: &Script,
    keyword: &str,
    proc: ProcNo,
    page: PageNo,
    text: &mut Vec<u8>,
) -> Result<(), NoMemory>
    ensures ok { OnOk result (text.new.items ≡ text.old.items ++ said keyword.now (process script.now proc ∷ decimal page ∷ [])) }
    ensures err { OnErr result (BeginsWith text.new.items text.old.items) }
{
    push_text(text, keyword)?;
    push_process(script, proc, text)?;
    push_count(text, page.get())
}

// A word of a page, and its value.
#[tactic(auto, using(crate::proofs::Fronts::fronts))]
fn push_access(
    script: &Script,
    keyword: &str,
    proc: ProcNo,
    page: PageNo,
    word: WordNo,
    value: u64,
    text: &mut Vec<u8>,
) -> Result<(), NoMemory>
    ensures ok { OnOk result (text.new.items ≡ text.old.items ++ said keyword.now (process script.now proc ∷ address page word ∷ decimal value ∷ [])) }
    ensures err { OnErr result (BeginsWith text.new.items text.old.items) }
{
    push_text(text, keyword)?;
    push_process(script, proc, text)?;
    push_address(text, page, word)?;
    push_count(text, value)
}

// A page that a pin tries, to write it or not.
#[tactic(auto, using(crate::proofs::Fronts::fronts))]
fn push_try(
    script: &Script,
    proc: ProcNo,
    page: PageNo,
    write: bool,
    text: &mut Vec<u8>,
) -> Result<(), NoMemory>
    ensures ok { OnOk result (text.new.items ≡ text.old.items ++ said (codes "pintry") (process script.now proc ∷ decimal page ∷ way write ∷ [])) }
    ensures err { OnErr result (BeginsWith text.new.items text.old.items) }
{
    push_page(script, "pintry", proc, page, text)?;
    push_word(text, way_word(write))
}

// A page that a pin drops.
#[tactic(auto, using(crate::proofs::Fronts::fronts))]
fn push_drop(page: PageNo, text: &mut Vec<u8>) -> Result<(), NoMemory>
    ensures ok { OnOk result (text.new.items ≡ text.old.items ++ said (codes "pindrop") (decimal page ∷ [])) }
    ensures err { OnErr result (BeginsWith text.new.items text.old.items) }
{
    push_text(text, "pindrop")?;
    push_count(text, page.get())
}

// What is done with a handle.
#[tactic(auto, using(crate::proofs::Fronts::fronts))]
fn push_of_handle(
    script: &Script,
    keyword: &str,
    h: HandleNo,
    text: &mut Vec<u8>,
) -> Result<(), NoMemory>
    ensures ok { OnOk result (text.new.items ≡ text.old.items ++ said keyword.now (handle script.now h ∷ [])) }
    ensures err { OnErr result (BeginsWith text.new.items text.old.items) }
{
    push_text(text, keyword)?;
    push_handle(script, h, text)
}

// A handle that is given to an actor.
#[tactic(auto, using(crate::proofs::Fronts::fronts))]
fn push_give(script: &Script, h: HandleNo, to: ActorNo, text: &mut Vec<u8>) -> Result<(), NoMemory>
    ensures ok { OnOk result (text.new.items ≡ text.old.items ++ said (codes "give") (handle script.now h ∷ actor script.now to ∷ [])) }
    ensures err { OnErr result (BeginsWith text.new.items text.old.items) }
{
    push_of_handle(script, "give", h, text)?;
    push_word(text, name_of(script, to))
}

// A word that a transfer moves: its index in the pin, its slot in the store, and the word.
#[tactic(auto, using(crate::proofs::Fronts::fronts))]
fn push_moved(
    script: &Script,
    keyword: &str,
    h: HandleNo,
    index: u32,
    place: u32,
    value: u64,
    text: &mut Vec<u8>,
) -> Result<(), NoMemory>
    ensures ok { OnOk result (text.new.items ≡ text.old.items ++ said keyword.now (handle script.now h ∷ decimal index ∷ decimal place ∷ decimal value ∷ [])) }
    ensures err { OnErr result (BeginsWith text.new.items text.old.items) }
{
    push_of_handle(script, keyword, h, text)?;
    push_count(text, u64::from(index))?;
    push_count(text, u64::from(place))?;
    push_count(text, value)
}

// A mirror slot, and the page that it is filled with.
#[tactic(auto, using(crate::proofs::Fronts::fronts))]
fn push_fill(
    script: &Script,
    mirror: MirrorNo,
    proc: ProcNo,
    page: PageNo,
    text: &mut Vec<u8>,
) -> Result<(), NoMemory>
    ensures ok { OnOk result (text.new.items ≡ text.old.items ++ said (codes "mirror") (slot script.now mirror ∷ process script.now proc ∷ decimal page ∷ [])) }
    ensures err { OnErr result (BeginsWith text.new.items text.old.items) }
{
    push_text(text, "mirror")?;
    push_word(text, slot_name(script, mirror))?;
    push_process(script, proc, text)?;
    push_count(text, page.get())
}

// A word that is looked at by a mirror slot.
#[tactic(auto, using(crate::proofs::Fronts::fronts))]
fn push_look(
    script: &Script,
    mirror: MirrorNo,
    word: WordNo,
    value: u64,
    text: &mut Vec<u8>,
) -> Result<(), NoMemory>
    ensures ok { OnOk result (text.new.items ≡ text.old.items ++ said (codes "look") (slot script.now mirror ∷ decimal word ∷ decimal value ∷ [])) }
    ensures err { OnErr result (BeginsWith text.new.items text.old.items) }
{
    push_text(text, "look")?;
    push_word(text, slot_name(script, mirror))?;
    push_count(text, word.get())?;
    push_count(text, value)
}

// A parent and the child of its fork.
#[tactic(auto, using(crate::proofs::Fronts::fronts))]
fn push_fork(
    script: &Script,
    keyword: &str,
    parent: ProcNo,
    child: ProcNo,
    text: &mut Vec<u8>,
) -> Result<(), NoMemory>
    ensures ok { OnOk result (text.new.items ≡ text.old.items ++ said keyword.now (process script.now parent ∷ process script.now child ∷ [])) }
    ensures err { OnErr result (BeginsWith text.new.items text.old.items) }
{
    push_text(text, keyword)?;
    push_process(script, parent, text)?;
    push_process(script, child, text)
}

// A page that a fork shares, or passes.
#[tactic(auto, using(crate::proofs::Fronts::fronts))]
fn push_fork_page(
    script: &Script,
    parent: ProcNo,
    child: ProcNo,
    page: PageNo,
    text: &mut Vec<u8>,
) -> Result<(), NoMemory>
    ensures ok { OnOk result (text.new.items ≡ text.old.items ++ said (codes "forkpage") (process script.now parent ∷ process script.now child ∷ decimal page ∷ [])) }
    ensures err { OnErr result (BeginsWith text.new.items text.old.items) }
{
    push_fork(script, "forkpage", parent, child, text)?;
    push_count(text, page.get())
}

// A word that a fork copies.
#[tactic(auto, using(crate::proofs::Fronts::fronts))]
fn push_fork_word(
    script: &Script,
    parent: ProcNo,
    child: ProcNo,
    page: PageNo,
    word: WordNo,
    text: &mut Vec<u8>,
) -> Result<(), NoMemory>
    ensures ok { OnOk result (text.new.items ≡ text.old.items ++ said (codes "forkword") (process script.now parent ∷ process script.now child ∷ address page word ∷ [])) }
    ensures err { OnErr result (BeginsWith text.new.items text.old.items) }
{
    push_fork(script, "forkword", parent, child, text)?;
    push_address(text, page, word)
}

// The child of a fork that failed.
#[tactic(auto, using(crate::proofs::Fronts::fronts))]
fn push_failed(script: &Script, child: ProcNo, text: &mut Vec<u8>) -> Result<(), NoMemory>
    ensures ok { OnOk result (text.new.items ≡ text.old.items ++ said (codes "forkfail") (process script.now child ∷ [])) }
    ensures err { OnErr result (BeginsWith text.new.items text.old.items) }
{
    push_text(text, "forkfail")?;
    push_process(script, child, text)
}

fn right_word(rights: Rights) -> &'static str
    ensures { result.now ≡ right rights }
{
    match rights {
        Rights::R => "r",
        Rights::RW => "rw",
    }
}

fn way_word(write: bool) -> &'static str
    ensures { result.now ≡ way write }
{
    if write { "write" } else { "read" }
}
