//! What stands in the cells of a row, in lines of the cell's width.
use crate::signs::{end_mark, mark};
use gup_base::NoMemory;
use gup_scene::{Lane, Row, Said, SaidKind, Scene, Shown, ShownKind};
use gup_wrap::wrapped;
use itoa::Buffer;
use std::alloc::Global;

/// The columns that the numbers of a row take at most: longer ones stand on two lines.
const LABEL_AT_MOST: usize = 13;

/// The numbers of the row's turns: `7`, or `16-525`.
pub(crate) fn label(alloc: Global, row: &Row) -> Result<Vec<Vec<u8>>, NoMemory> {
    let mut text = Vec::new(alloc);
    push_number(&mut text, row.first)?;
    if row.first != row.last {
        text.push(b'-')?;
        push_second(&mut text, row.last)?;
    }
    wrapped(alloc, text.as_slice(), LABEL_AT_MOST, 0)
}

// The second number, behind a blank where both don't fit into one line.
fn push_second(text: &mut Vec<u8>, number: u32) -> Result<(), NoMemory> {
    let mut buffer = Buffer::new();
    let digits = buffer.format(number);
    if text.len().saturating_add(digits.len()) > LABEL_AT_MOST {
        text.push(b' ')?;
    }
    text.extend_from_slice(digits.as_bytes())?;
    Ok(())
}

fn push_number(text: &mut Vec<u8>, number: u32) -> Result<(), NoMemory> {
    let mut buffer = Buffer::new();
    text.extend_from_slice(buffer.format(number).as_bytes())?;
    Ok(())
}

/// The columns of the numbers, with those of the word above them.
pub(crate) fn label_width(alloc: Global, scene: &Scene) -> Result<usize, NoMemory> {
    let mut width = 4;
    for row in scene.rows.iter() {
        width = width.max(longest(label(alloc, row)?.as_slice()));
    }
    Ok(width)
}

fn longest(lines: &[Vec<u8>]) -> usize {
    let mut most = 0;
    for line in lines {
        most = line.len().max(most);
    }
    most
}

/// What the row's turn tells.
pub(crate) fn said(alloc: Global, row: &Row, width: usize) -> Result<Vec<Vec<u8>>, NoMemory> {
    let mut lines = Vec::new(alloc);
    for said in row.said.iter() {
        push_said(alloc, &[], said, width, &mut lines)?;
    }
    Ok(lines)
}

/// What the row's turn tells, with its actor's name in front.
pub(crate) fn named_said(
    alloc: Global,
    scene: &Scene,
    row: &Row,
    width: usize,
) -> Result<Vec<Vec<u8>>, NoMemory> {
    let mut name = Vec::new(alloc);
    push_name(scene.lanes.get(row.lane), &mut name)?;
    let mut lines = Vec::new(alloc);
    for said in row.said.iter() {
        push_said(alloc, name.as_slice(), said, width, &mut lines)?;
    }
    Ok(lines)
}

fn push_name(lane: Option<&Lane>, text: &mut Vec<u8>) -> Result<(), NoMemory> {
    if let Some(lane) = lane {
        text.extend_from_slice(lane.name.as_slice())?;
        text.extend_from_slice(b": ")?;
    }
    Ok(())
}

fn push_said(
    alloc: Global,
    name: &[u8],
    said: &Said,
    width: usize,
    lines: &mut Vec<Vec<u8>>,
) -> Result<(), NoMemory> {
    let mut text = Vec::new(alloc);
    text.extend_from_slice(name)?;
    text.extend_from_slice(mark(said.kind).as_bytes())?;
    text.extend_from_slice(said.text.as_slice())?;
    text.extend_from_slice(end_mark(said.kind).as_bytes())?;
    push_lines(wrapped(alloc, text.as_slice(), width, 2)?, lines)?;
    if said.kind == SaidKind::Wrong {
        push_lines(wrapped(alloc, b"<-- this can't be", width, 2)?, lines)?;
    }
    Ok(())
}

/// What is so behind the row.
pub(crate) fn state(alloc: Global, row: &Row, width: usize) -> Result<Vec<Vec<u8>>, NoMemory> {
    let mut lines = Vec::new(alloc);
    for shown in row.state.iter() {
        push_shown(alloc, shown, width, &mut lines)?;
    }
    Ok(lines)
}

fn push_shown(
    alloc: Global,
    shown: &Shown,
    width: usize,
    lines: &mut Vec<Vec<u8>>,
) -> Result<(), NoMemory> {
    let mut text = Vec::new(alloc);
    if shown.kind == ShownKind::Remark {
        text.extend_from_slice(b"-- ")?;
    }
    text.extend_from_slice(shown.text.as_slice())?;
    push_lines(wrapped(alloc, text.as_slice(), width, 2)?, lines)
}

fn push_lines(more: Vec<Vec<u8>>, lines: &mut Vec<Vec<u8>>) -> Result<(), NoMemory> {
    for line in more {
        lines.push(line)?;
    }
    Ok(())
}
