//! Frames, words, slots and processes in words.
use crate::view::{FrameView, Holder, SlotView};
use gup_base::{FrameNo, NoMemory, PageNo, ProcNo, WordNo};
use gup_lines::{handle_name, name_of, process_name, push_number, push_text, slot_name};
use gup_script::Script;
use std::alloc::Global;

/// How many that name a frame are told one by one.
const MOST_HOLDERS: usize = 8;

/// `frame 0: p.5 rw, pin h, count 1025, exclusive`, or `frame 0: free`. Of more than eight that name it the others are counted.
pub(crate) fn frame_text(
    alloc: Global,
    script: &Script,
    number: u64,
    frame: &FrameView,
) -> Result<Vec<u8>, NoMemory> {
    let mut text = Vec::new(alloc);
    push_text(&mut text, "frame ")?;
    push_number(&mut text, number)?;
    push_text(&mut text, ": ")?;
    if frame.is_free() {
        push_text(&mut text, "free")?;
        return Ok(text);
    }
    for holder in frame.holders.iter().take(MOST_HOLDERS) {
        push_holder(script, holder, &mut text)?;
        push_text(&mut text, ", ")?;
    }
    if frame.holders.len() > MOST_HOLDERS {
        push_number(&mut text, (frame.holders.len() - MOST_HOLDERS) as u64)?;
        push_text(&mut text, " more, ")?;
    }
    push_text(&mut text, "count ")?;
    push_number(&mut text, frame.count)?;
    if frame.mark {
        push_text(&mut text, ", exclusive")?;
    }
    Ok(text)
}

fn push_holder(script: &Script, holder: &Holder, text: &mut Vec<u8>) -> Result<(), NoMemory> {
    match holder {
        Holder::Entry {
            proc,
            page,
            writable,
        } => {
            push_page(script, *proc, *page, text)?;
            push_text(text, if *writable { " rw" } else { " ro" })
        }
        Holder::Pin(handle) => push_named("pin ", handle_name(script, *handle), text),
        Holder::Reference(handle) => push_named("get ", handle_name(script, *handle), text),
        Holder::Taken(actor) => push_named("pin of ", name_of(script, *actor), text),
        Holder::Grabbed(actor) => push_named("grab of ", name_of(script, *actor), text),
        Holder::Copied(actor) => push_named("copy of ", name_of(script, *actor), text),
        Holder::Moved(actor) => push_named("move of ", name_of(script, *actor), text),
        Holder::Slot(mirror) => push_named("slot ", slot_name(script, *mirror), text),
    }
}

fn push_named(kind: &str, name: &str, text: &mut Vec<u8>) -> Result<(), NoMemory> {
    push_text(text, kind)?;
    push_text(text, name)
}

/// `p.5`.
pub(crate) fn push_page(
    script: &Script,
    proc: ProcNo,
    page: PageNo,
    text: &mut Vec<u8>,
) -> Result<(), NoMemory> {
    push_text(text, process_name(script, proc))?;
    push_text(text, ".")?;
    push_number(text, page.get())
}

/// `frame 0 word 3: 7`.
pub(crate) fn word_text(
    alloc: Global,
    frame: FrameNo,
    word: WordNo,
    value: u64,
) -> Result<Vec<u8>, NoMemory> {
    let mut text = Vec::new(alloc);
    push_text(&mut text, "frame ")?;
    push_number(&mut text, frame.get())?;
    push_text(&mut text, " word ")?;
    push_number(&mut text, word.get())?;
    push_text(&mut text, ": ")?;
    push_number(&mut text, value)?;
    Ok(text)
}

/// `3 more words`.
pub(crate) fn more_words(alloc: Global, words: usize) -> Result<Vec<u8>, NoMemory> {
    let mut text = Vec::new(alloc);
    push_number(&mut text, words as u64)?;
    push_text(&mut text, " more words")?;
    Ok(text)
}

/// `slot a: p.5, frame 0`, or `slot a: empty`.
pub(crate) fn slot_text(
    alloc: Global,
    script: &Script,
    slot: &SlotView,
    filled: bool,
) -> Result<Vec<u8>, NoMemory> {
    let mut text = Vec::new(alloc);
    push_named("slot ", slot_name(script, slot.mirror), &mut text)?;
    push_text(&mut text, ": ")?;
    if !filled {
        push_text(&mut text, "empty")?;
        return Ok(text);
    }
    push_page(script, slot.proc, slot.page, &mut text)?;
    push_text(&mut text, ", frame ")?;
    push_number(&mut text, slot.frame.get())?;
    Ok(text)
}

/// `p: sequence 1`.
pub(crate) fn sequence_text(
    alloc: Global,
    script: &Script,
    proc: ProcNo,
    sequence: u64,
) -> Result<Vec<u8>, NoMemory> {
    let mut text = Vec::new(alloc);
    push_text(&mut text, process_name(script, proc))?;
    push_text(&mut text, ": sequence ")?;
    push_number(&mut text, sequence)?;
    Ok(text)
}

/// `p: has pinned`.
pub(crate) fn pinned_text(
    alloc: Global,
    script: &Script,
    proc: ProcNo,
) -> Result<Vec<u8>, NoMemory> {
    let mut text = Vec::new(alloc);
    push_text(&mut text, process_name(script, proc))?;
    push_text(&mut text, ": has pinned")?;
    Ok(text)
}
