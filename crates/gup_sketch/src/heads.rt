//! What stands above the rows.
use crate::operations::push_operation;
use crate::pen::{Page, page_asked};
use gup_base::{ActorNo, NoMemory};
use gup_lines::{name_of, process_name, push_number, push_text};
use gup_plain::{Note, What};
use gup_scene::{Asked, Lane};
use gup_script::{Kind, Script};
use gup_spec_check::Verdict;
use std::alloc::Global;

/// The lines of the head: how many there are of what, what is shown where that isn't all, the verdict, and from which turn on no state is
/// shown, if there is one.
pub(crate) fn head(
    alloc: Global,
    script: &Script,
    asked: &Asked,
    notes: &[Note],
    verdict: Verdict,
    parted: Option<u32>,
) -> Result<Vec<Vec<u8>>, NoMemory> {
    let mut head = Vec::new(alloc);
    head.push(counts(alloc, script, notes)?)?;
    if let Some(text) = part_text(alloc, script, asked, last_turn(notes))? {
        head.push(text)?;
    }
    head.push(verdict_text(alloc, notes, verdict)?)?;
    if matches!(verdict, Verdict::Open) {
        push_left(alloc, script, notes, &mut head)?;
    }
    if let Some(turn) = parted {
        head.push(parted_text(alloc, turn)?)?;
    }
    Ok(head)
}

// What is left: of each actor that hasn't ended all its operations the next one.
fn push_left(
    alloc: Global,
    script: &Script,
    notes: &[Note],
    head: &mut Vec<Vec<u8>>,
) -> Result<(), NoMemory> {
    let ended = ended_by(alloc, script, notes)?;
    for (a, ended) in ended.iter().enumerate() {
        if let Some(actor) = ActorNo::new(a as u64) {
            let mut operation = Vec::new(alloc);
            push_operation(script, actor, ended.saturating_add(1), &mut operation)?;
            if !operation.is_empty() {
                head.push(left_text(alloc, script, actor, operation.as_slice())?)?;
            }
        }
    }
    Ok(())
}

// `t has not ended: take k`.
fn left_text(
    alloc: Global,
    script: &Script,
    actor: ActorNo,
    operation: &[u8],
) -> Result<Vec<u8>, NoMemory> {
    let mut text = Vec::new(alloc);
    push_text(&mut text, name_of(script, actor))?;
    push_text(&mut text, " has not ended: ")?;
    text.extend_from_slice(operation)?;
    Ok(text)
}

// How many operations each actor has ended.
fn ended_by(alloc: Global, script: &Script, notes: &[Note]) -> Result<Vec<u32>, NoMemory> {
    let mut ended = Vec::new(alloc);
    for _ in 0..script.actors() {
        ended.push(0_u32)?;
    }
    for note in notes {
        if matches!(note.what(), What::Done(_))
            && let Some(count) = ended.get_mut(note.actor().get() as usize)
        {
            *count = count.saturating_add(1);
        }
    }
    Ok(ended)
}

fn last_turn(notes: &[Note]) -> u32 {
    match notes.last() {
        Some(note) => note.turn(),
        None => 0,
    }
}

// `shown: turns 9 to 15, page p.5`; of a process that isn't declared, that there is none.
fn part_text(
    alloc: Global,
    script: &Script,
    asked: &Asked,
    turns: u32,
) -> Result<Option<Vec<u8>>, NoMemory> {
    let mut text = Vec::new(alloc);
    if asked.from > 1 || asked.to < turns {
        push_text(&mut text, "shown: turns ")?;
        push_number(&mut text, u64::from(asked.from))?;
        push_text(&mut text, " to ")?;
        push_number(&mut text, u64::from(asked.to.min(turns)))?;
    }
    if let Some(page) = &asked.page {
        let front = if text.is_empty() { "shown: " } else { ", " };
        push_text(&mut text, front)?;
        push_text(&mut text, "page ")?;
        push_text(&mut text, page.process.as_str())?;
        push_text(&mut text, ".")?;
        push_number(&mut text, page.page.get())?;
    }
    if matches!(page_asked(script, &asked.page), Page::Unknown) {
        push_text(&mut text, ", but there is no such process")?;
    }
    if text.is_empty() {
        return Ok(None);
    }
    Ok(Some(text))
}

fn parted_text(alloc: Global, turn: u32) -> Result<Vec<u8>, NoMemory> {
    let mut text = Vec::new(alloc);
    push_text(&mut text, "the machine does something else in turn ")?;
    push_number(&mut text, u64::from(turn))?;
    push_text(&mut text, ": from there on no state is shown")?;
    Ok(text)
}

// `3 actors, 2 processes, 8 movable and 8 normal frames, 530 turns`.
fn counts(alloc: Global, script: &Script, notes: &[Note]) -> Result<Vec<u8>, NoMemory> {
    let (movable, normal, _tables) = script.frames();
    let turns = last_turn(notes);
    let mut text = Vec::new(alloc);
    push_many(u64::from(script.actors()), " actor", ", ", &mut text)?;
    push_number(&mut text, u64::from(script.processes()))?;
    push_text(
        &mut text,
        if script.processes() == 1 {
            " process, "
        } else {
            " processes, "
        },
    )?;
    push_number(&mut text, u64::from(movable))?;
    push_text(&mut text, " movable and ")?;
    push_number(&mut text, u64::from(normal))?;
    push_text(&mut text, " normal frames, ")?;
    push_many(u64::from(turns), " turn", "", &mut text)?;
    Ok(text)
}

fn push_many(n: u64, what: &str, behind: &str, text: &mut Vec<u8>) -> Result<(), NoMemory> {
    push_number(text, n)?;
    push_text(text, what)?;
    push_text(text, if n == 1 { "" } else { "s" })?;
    push_text(text, behind)
}

fn verdict_text(alloc: Global, notes: &[Note], verdict: Verdict) -> Result<Vec<u8>, NoMemory> {
    let mut text = Vec::new(alloc);
    push_verdict(notes, verdict, &mut text)?;
    Ok(text)
}

fn push_verdict(notes: &[Note], verdict: Verdict, text: &mut Vec<u8>) -> Result<(), NoMemory> {
    match verdict {
        Verdict::Yes => push_text(
            text,
            "gup check: yes, all of it can happen, and every operation has ended",
        ),
        Verdict::Open => push_text(
            text,
            "gup check: open, all of it can happen, and an operation has not ended",
        ),
        Verdict::No(number) => {
            push_text(text, "gup check: no ")?;
            push_number(text, number)?;
            if let Some(note) = notes.get((number as usize).saturating_sub(1)) {
                push_text(text, ", a note of turn ")?;
                push_number(text, u64::from(note.turn()))?;
            }
            push_text(text, " can't be")
        }
    }
}

/// A lane for each actor.
pub(crate) fn lanes(alloc: Global, script: &Script) -> Result<Vec<Lane>, NoMemory> {
    let mut lanes = Vec::new(alloc);
    for a in 0..script.actors() {
        if let Some(actor) = ActorNo::new(u64::from(a)) {
            lanes.push(lane(alloc, script, actor)?)?;
        }
    }
    Ok(lanes)
}

fn lane(alloc: Global, script: &Script, actor: ActorNo) -> Result<Lane, NoMemory> {
    let mut name = Vec::new(alloc);
    push_text(&mut name, name_of(script, actor))?;
    let mut role = Vec::new(alloc);
    push_role(script, actor, &mut role)?;
    Ok(Lane { name, role })
}

fn push_role(script: &Script, actor: ActorNo, text: &mut Vec<u8>) -> Result<(), NoMemory> {
    if actor.get() >= u64::from(script.actors()) {
        return Ok(());
    }
    match script.kind(actor) {
        Kind::Thread(proc) => {
            push_text(text, "thread of ")?;
            push_text(text, process_name(script, proc))
        }
        Kind::Device(_) => push_text(text, "device"),
        Kind::Mover => push_text(text, "mover"),
    }
}
