//! What differs from one state to another.
use crate::view::{FrameView, ProcessView, SlotView, View, WordView};
use crate::words::{frame_text, more_words, pinned_text, sequence_text, slot_text, word_text};
use gup_base::{MirrorNo, NoMemory, PageNo, ProcNo};
use gup_scene::{Shown, ShownKind};
use gup_script::Script;
use std::alloc::Global;

/// How many words of one turn are told one by one: of more the others are counted.
const MOST_WORDS: usize = 4;

/// Puts in what differs behind a turn from what was before it: frames, words, mirror slots, and the sequences of processes. With
/// `all`, each frame that isn't free is put in, whether it differs or not. Where a page is given, only of frames that it names before the
/// turn or behind it.
pub fn push_changes(
    alloc: Global,
    script: &Script,
    before: &View,
    after: &View,
    all: bool,
    page: &Option<(ProcNo, PageNo)>,
    shown: &mut Vec<Shown>,
) -> Result<(), NoMemory> {
    push_frames(alloc, script, before, after, all, page, shown)?;
    push_words(alloc, before, after, page, shown)?;
    if page.is_none() {
        push_slots(alloc, script, before, after, shown)?;
        push_processes(alloc, script, before, after, shown)?;
    }
    Ok(())
}

fn push_shown(kind: ShownKind, text: Vec<u8>, shown: &mut Vec<Shown>) -> Result<(), NoMemory> {
    shown.push(Shown { kind, text })?;
    Ok(())
}

// Whether the frame is one of the page that is asked for, if there is one.
fn is_asked(
    before: Option<&FrameView>,
    after: &FrameView,
    page: &Option<(ProcNo, PageNo)>,
) -> bool {
    let Some((proc, page)) = page else {
        return true;
    };
    let was = match before {
        Some(frame) => frame.is_of(*proc, *page),
        None => false,
    };
    was || after.is_of(*proc, *page)
}

// Whether the frame is another than it was.
fn differs(before: Option<&FrameView>, after: &FrameView) -> bool {
    match before {
        Some(frame) => !frame.is_like(after),
        None => !after.is_free(),
    }
}

fn push_frames(
    alloc: Global,
    script: &Script,
    before: &View,
    after: &View,
    all: bool,
    page: &Option<(ProcNo, PageNo)>,
    shown: &mut Vec<Shown>,
) -> Result<(), NoMemory> {
    for (f, frame) in after.frames.iter().enumerate() {
        let was = before.frames.get(f);
        if (differs(was, frame) || (all && !frame.is_free())) && is_asked(was, frame, page) {
            let text = frame_text(alloc, script, f as u64, frame)?;
            push_shown(ShownKind::Frame, text, shown)?;
        }
    }
    Ok(())
}

// Whether words of this frame are asked for.
fn is_word_asked(
    before: &View,
    after: &View,
    word: &WordView,
    page: &Option<(ProcNo, PageNo)>,
) -> bool {
    let f = word.frame.get() as usize;
    match after.frames.get(f) {
        Some(frame) => is_asked(before.frames.get(f), frame, page),
        None => false,
    }
}

// The words that have another value, those that are 0 now among them.
fn push_words(
    alloc: Global,
    before: &View,
    after: &View,
    page: &Option<(ProcNo, PageNo)>,
    shown: &mut Vec<Shown>,
) -> Result<(), NoMemory> {
    let mut told: usize = 0;
    for word in &changed_words(alloc, before.words.as_slice(), after.words.as_slice())? {
        if is_word_asked(before, after, word, page) {
            if told < MOST_WORDS {
                let text = word_text(alloc, word.frame, word.word, word.value)?;
                push_shown(ShownKind::Word, text, shown)?;
            }
            told = told.saturating_add(1);
        }
    }
    if told > MOST_WORDS {
        push_shown(
            ShownKind::Word,
            more_words(alloc, told - MOST_WORDS)?,
            shown,
        )?;
    }
    Ok(())
}

// A number that orders words by their frames, and then by their places.
fn place_of(word: &WordView) -> u64 {
    word.frame
        .get()
        .saturating_mul(512)
        .saturating_add(word.word.get())
}

// Which of two lists goes on, and what has changed.
#[derive(Clone, Copy)]
struct Step {
    old: bool,
    new: bool,
    change: Option<WordView>,
}

// The word as it is when it is 0.
fn gone(word: &WordView) -> WordView {
    WordView {
        frame: word.frame,
        word: word.word,
        value: 0,
    }
}

// The next step along the words before and those behind: the lower one goes on, or both if they are the same word.
fn next_step(old: Option<&WordView>, new: Option<&WordView>) -> Step {
    let (is_old, is_new) = match (old, new) {
        (Some(old), Some(new)) => (
            place_of(old) <= place_of(new),
            place_of(new) <= place_of(old),
        ),
        (old, new) => (old.is_some(), new.is_some()),
    };
    let change = match (old, new) {
        (Some(old), Some(new)) if is_old && is_new => {
            if old.value == new.value {
                None
            } else {
                Some(*new)
            }
        }
        (Some(old), _) if is_old => Some(gone(old)),
        (_, Some(new)) => Some(*new),
        _ => None,
    };
    Step {
        old: is_old,
        new: is_new,
        change,
    }
}

// Of two lists of words in rising order: what has another value in the second, or is 0 there.
fn changed_words(
    alloc: Global,
    before: &[WordView],
    after: &[WordView],
) -> Result<Vec<WordView>, NoMemory> {
    let mut changed = Vec::new(alloc);
    let mut a: usize = 0;
    let mut b: usize = 0;
    for _ in 0..before.len().saturating_add(after.len()) {
        let step = next_step(before.get(a), after.get(b));
        a = a.saturating_add(usize::from(step.old));
        b = b.saturating_add(usize::from(step.new));
        if let Some(word) = step.change {
            changed.push(word)?;
        }
    }
    Ok(changed)
}

// The slot with the same number among these.
fn slot_in(slots: &[SlotView], mirror: MirrorNo) -> Option<&SlotView> {
    slots.iter().find(|slot| slot.mirror.get() == mirror.get())
}

fn push_slots(
    alloc: Global,
    script: &Script,
    before: &View,
    after: &View,
    shown: &mut Vec<Shown>,
) -> Result<(), NoMemory> {
    for slot in &before.slots {
        if slot_in(after.slots.as_slice(), slot.mirror).is_none() {
            let text = slot_text(alloc, script, slot, false)?;
            push_shown(ShownKind::Slot, text, shown)?;
        }
    }
    for slot in &after.slots {
        if slot_in(before.slots.as_slice(), slot.mirror) != Some(slot) {
            let text = slot_text(alloc, script, slot, true)?;
            push_shown(ShownKind::Slot, text, shown)?;
        }
    }
    Ok(())
}

fn push_processes(
    alloc: Global,
    script: &Script,
    before: &View,
    after: &View,
    shown: &mut Vec<Shown>,
) -> Result<(), NoMemory> {
    for (p, (was, is)) in before.processes.iter().zip(&after.processes).enumerate() {
        if let Some(proc) = ProcNo::new(p as u64) {
            push_process(alloc, script, proc, was, is, shown)?;
        }
    }
    Ok(())
}

fn push_process(
    alloc: Global,
    script: &Script,
    proc: ProcNo,
    was: &ProcessView,
    is: &ProcessView,
    shown: &mut Vec<Shown>,
) -> Result<(), NoMemory> {
    if was.has_pinned != is.has_pinned {
        push_shown(ShownKind::Process, pinned_text(alloc, script, proc)?, shown)?;
    }
    if was.sequence != is.sequence {
        let text = sequence_text(alloc, script, proc, is.sequence)?;
        push_shown(ShownKind::Process, text, shown)?;
    }
    Ok(())
}
