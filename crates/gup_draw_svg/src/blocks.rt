//! Rows, with their places from the top down, and their text in lines.
use crate::places::Places;
use gup_base::NoMemory;
use gup_scene::{Row, Said, SaidKind, Scene, Shown, ShownKind};
use gup_wrap::wrapped;
use std::alloc::Global;

/// The heights of lines, and what is free above and below a row's text.
pub(crate) const SAID_HEIGHT: usize = 17;

pub(crate) const STATE_HEIGHT: usize = 14;

const FREE: usize = 5;

/// The least height of a row: its numbers may take two lines.
const LEAST: usize = 32;

/// A row's place and its lines.
#[derive(Drop)]
pub(crate) struct Block {
    pub top: usize,
    pub bottom: usize,
    pub said: Vec<SaidLine>,
    pub state: Vec<StateLine>,
}

/// A line of what the row's turn tells.
#[derive(Drop)]
pub(crate) struct SaidLine {
    pub kind: SaidKind,
    pub text: Vec<u8>,
}

/// A line of what is so behind it.
#[derive(Drop)]
pub(crate) struct StateLine {
    pub kind: ShownKind,
    pub text: Vec<u8>,
}

impl Block {
    /// The height of the row's mark on its rail.
    pub(crate) fn mark(&self) -> usize {
        self.top.saturating_add(14)
    }

    /// Where the first line of what the turn tells stands.
    pub(crate) fn first_line(&self) -> usize {
        self.top.saturating_add(FREE).saturating_add(13)
    }

    /// Where the first line stands of what is so behind it.
    pub(crate) fn first_state(&self) -> usize {
        self.top
            .saturating_add(FREE)
            .saturating_add(SAID_HEIGHT.saturating_mul(self.said.len()))
            .saturating_add(11)
    }
}

/// The rows, one below the other, from here on.
pub(crate) fn stacked(
    alloc: Global,
    scene: &Scene,
    places: Places,
    top: usize,
) -> Result<Vec<Block>, NoMemory> {
    let mut blocks = Vec::new(alloc);
    let mut next = top;
    for row in scene.rows.iter() {
        let block = block_of(alloc, scene, places, row, next)?;
        next = block.bottom;
        blocks.push(block)?;
    }
    Ok(blocks)
}

/// The lower edge of the last row.
pub(crate) fn bottom_of(blocks: &[Block], top: usize) -> usize {
    match blocks.last() {
        Some(block) => block.bottom,
        None => top,
    }
}

fn block_of(
    alloc: Global,
    scene: &Scene,
    places: Places,
    row: &Row,
    top: usize,
) -> Result<Block, NoMemory> {
    let said = said_lines(alloc, scene, row, places.said_letters())?;
    let state = state_lines(alloc, row, places.state_letters())?;
    let height = SAID_HEIGHT
        .saturating_mul(said.len())
        .saturating_add(STATE_HEIGHT.saturating_mul(state.len()))
        .saturating_add(2 * FREE)
        .max(LEAST);
    Ok(Block {
        top,
        bottom: top.saturating_add(height),
        said,
        state,
    })
}

fn said_lines(
    alloc: Global,
    scene: &Scene,
    row: &Row,
    letters: usize,
) -> Result<Vec<SaidLine>, NoMemory> {
    let mut lines = Vec::new(alloc);
    for (place, said) in row.said.iter().enumerate() {
        let mut text = Vec::new(alloc);
        if place == 0 {
            push_name(scene, row, &mut text)?;
        }
        push_said(said, &mut text)?;
        push_said_lines(alloc, said.kind, text.as_slice(), letters, &mut lines)?;
        if said.kind == SaidKind::Wrong {
            push_said_lines(alloc, said.kind, b"this can't be", letters, &mut lines)?;
        }
    }
    Ok(lines)
}

// The name of the row's actor, and a blank.
fn push_name(scene: &Scene, row: &Row, text: &mut Vec<u8>) -> Result<(), NoMemory> {
    if let Some(lane) = scene.lanes.get(row.lane) {
        text.extend_from_slice(lane.name.as_slice())?;
        text.push(b' ')?;
    }
    Ok(())
}

fn push_said(said: &Said, text: &mut Vec<u8>) -> Result<(), NoMemory> {
    match said.kind {
        SaidKind::Answer => text.extend_from_slice(b"= ")?,
        SaidKind::Step => text.push(b'(')?,
        SaidKind::Wait => text.extend_from_slice(b"~ ")?,
        SaidKind::Event | SaidKind::Wrong => {}
    }
    text.extend_from_slice(said.text.as_slice())?;
    if said.kind == SaidKind::Step {
        text.push(b')')?;
    }
    Ok(())
}

fn push_said_lines(
    alloc: Global,
    kind: SaidKind,
    text: &[u8],
    letters: usize,
    lines: &mut Vec<SaidLine>,
) -> Result<(), NoMemory> {
    for text in wrapped(alloc, text, letters, 2)? {
        lines.push(SaidLine { kind, text })?;
    }
    Ok(())
}

fn state_lines(alloc: Global, row: &Row, letters: usize) -> Result<Vec<StateLine>, NoMemory> {
    let mut lines = Vec::new(alloc);
    for shown in row.state.iter() {
        push_state_lines(alloc, shown, letters, &mut lines)?;
    }
    Ok(lines)
}

fn push_state_lines(
    alloc: Global,
    shown: &Shown,
    letters: usize,
    lines: &mut Vec<StateLine>,
) -> Result<(), NoMemory> {
    for text in wrapped(alloc, shown.text.as_slice(), letters, 2)? {
        lines.push(StateLine {
            kind: shown.kind,
            text,
        })?;
    }
    Ok(())
}
