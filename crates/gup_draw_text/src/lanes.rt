//! The picture of many actors: a lane of one sign for each, and one column of text.
use crate::cells::{label, label_width, named_said, state};
use crate::head::draw_wrapped;
use crate::page::{Page, WIDTH};
use crate::signs::{act_sign, held_at, held_sign};
use gup_base::NoMemory;
use gup_scene::{Held, Lane, Row, Scene};
use std::alloc::Global;

/// The columns of all lanes together, at most, if each has a second column for its locks.
const WIDE_AT_MOST: usize = 40;

/// The columns that text has at least beside the lanes. With fewer it stands below them.
const TEXT_AT_LEAST: usize = 40;

/// Where everything stands.
#[derive(Clone, Copy)]
pub(crate) struct Lanes {
    // Where the first lane begins.
    first: usize,
    // Whether each lane has a second column, for its locks.
    wide: bool,
    // Where the text stands, and whether that is below the lanes.
    text: usize,
    below: bool,
}

impl Lanes {
    /// The lanes of this scene.
    pub(crate) fn of(alloc: Global, scene: &Scene) -> Result<Lanes, NoMemory> {
        let first = label_width(alloc, scene)?.saturating_add(1);
        let wide = scene.lanes.len() <= WIDE_AT_MOST / 2;
        let columns = if wide {
            scene.lanes.len().saturating_mul(2)
        } else {
            scene.lanes.len()
        };
        let beside = first.saturating_add(columns).saturating_add(2);
        let below = WIDTH.saturating_sub(beside) < TEXT_AT_LEAST;
        let text = if below {
            first.saturating_add(2)
        } else {
            beside
        };
        Ok(Lanes {
            first,
            wide,
            text,
            below,
        })
    }

    // Where the lane of this place begins.
    fn lane(self, place: usize) -> usize {
        let columns = if self.wide {
            place.saturating_mul(2)
        } else {
            place
        };
        self.first.saturating_add(columns)
    }

    fn text_width(self) -> usize {
        WIDTH.saturating_sub(self.text)
    }
}

/// The actors, their names above the lanes, and the rows.
pub(crate) fn draw(
    alloc: Global,
    scene: &Scene,
    lanes: Lanes,
    page: &mut Page,
) -> Result<(), NoMemory> {
    draw_roles(alloc, scene, page)?;
    draw_names(scene, lanes, page)?;
    for row in scene.rows.iter() {
        draw_row(alloc, scene, lanes, row, page)?;
    }
    Ok(())
}

// Who each actor is, and what the signs in its lane mean.
fn draw_roles(alloc: Global, scene: &Scene, page: &mut Page) -> Result<(), NoMemory> {
    let mut text = Vec::new(alloc);
    text.extend_from_slice(b"lanes:")?;
    for (place, lane) in scene.lanes.iter().enumerate() {
        text.extend_from_slice(if place == 0 { b" " } else { b", " })?;
        push_role(lane, &mut text)?;
    }
    text.extend_from_slice(b"; * acts, ~ waits, . neither")?;
    draw_wrapped(alloc, text.as_slice(), page)?;
    page.end_line()
}

fn push_role(lane: &Lane, text: &mut Vec<u8>) -> Result<(), NoMemory> {
    text.extend_from_slice(lane.name.as_slice())?;
    text.extend_from_slice(b" (")?;
    text.extend_from_slice(lane.role.as_slice())?;
    text.extend_from_slice(b")")?;
    Ok(())
}

// The names, written downwards. Each ends above its lane.
fn draw_names(scene: &Scene, lanes: Lanes, page: &mut Page) -> Result<(), NoMemory> {
    let mut height = 0;
    for lane in scene.lanes.iter() {
        height = lane.name.len().max(height);
    }
    for line in 0..height {
        if line.saturating_add(1) == height {
            page.put_text("turn")?;
        }
        draw_letters(scene.lanes.as_slice(), lanes, height, line, page)?;
        page.end_line()?;
    }
    Ok(())
}

// One line of the names.
fn draw_letters(
    actors: &[Lane],
    lanes: Lanes,
    height: usize,
    line: usize,
    page: &mut Page,
) -> Result<(), NoMemory> {
    for (place, actor) in actors.iter().enumerate() {
        page.pad_to(lanes.lane(place))?;
        page.put_byte(letter(actor.name.as_slice(), height, line))?;
    }
    Ok(())
}

// The letter of a name that stands in this line, if the name ends in the last line.
fn letter(name: &[u8], height: usize, line: usize) -> u8 {
    let place = line
        .saturating_add(name.len())
        .checked_sub(height)
        .and_then(|place| name.get(place));
    match place {
        Some(byte) => *byte,
        None => b' ',
    }
}

fn draw_row(
    alloc: Global,
    scene: &Scene,
    lanes: Lanes,
    row: &Row,
    page: &mut Page,
) -> Result<(), NoMemory> {
    let label = label(alloc, row)?;
    let text = row_text(alloc, scene, row, lanes.text_width())?;
    if lanes.below {
        draw_beside(scene, lanes, row, label.as_slice(), &[], page)?;
        draw_below(lanes, text.as_slice(), page)
    } else {
        draw_beside(scene, lanes, row, label.as_slice(), text.as_slice(), page)
    }
}

// What the turn tells, and indented what is so behind it.
fn row_text(
    alloc: Global,
    scene: &Scene,
    row: &Row,
    width: usize,
) -> Result<Vec<Vec<u8>>, NoMemory> {
    let mut lines = named_said(alloc, scene, row, width)?;
    for line in state(alloc, row, width.saturating_sub(4))?.iter() {
        let mut indented = Vec::new(alloc);
        indented.extend_from_slice(b"    ")?;
        indented.extend_from_slice(line.as_slice())?;
        lines.push(indented)?;
    }
    Ok(lines)
}

// The lanes, with the text behind them.
fn draw_beside(
    scene: &Scene,
    lanes: Lanes,
    row: &Row,
    label: &[Vec<u8>],
    text: &[Vec<u8>],
    page: &mut Page,
) -> Result<(), NoMemory> {
    let height = label.len().max(text.len()).max(lane_height(lanes, row));
    for line in 0..height {
        page.put_line_of(label, line)?;
        draw_signs(scene.lanes.as_slice(), lanes, row, line, page)?;
        page.pad_to(lanes.text)?;
        page.put_line_of(text, line)?;
        page.end_line()?;
    }
    Ok(())
}

// The lines of the lanes: a second one where the actor's sign leaves no room for its locks.
fn lane_height(lanes: Lanes, row: &Row) -> usize {
    if !lanes.wide && held_at(row, row.lane) != Held::Nothing {
        2
    } else {
        1
    }
}

fn draw_signs(
    actors: &[Lane],
    lanes: Lanes,
    row: &Row,
    line: usize,
    page: &mut Page,
) -> Result<(), NoMemory> {
    for place in 0..actors.len() {
        page.pad_to(lanes.lane(place))?;
        let acts = place == row.lane && line == 0;
        let held = held_sign(held_at(row, place));
        page.put_byte(lane_sign(row, acts, held, line))?;
        if acts && lanes.wide {
            page.put_byte(held)?;
        }
    }
    Ok(())
}

// What an actor does in this line, or what it holds.
fn lane_sign(row: &Row, acts: bool, held: u8, line: usize) -> u8 {
    if acts {
        act_sign(row)
    } else if held == b' ' && line == 0 {
        b'.'
    } else {
        held
    }
}

fn draw_below(lanes: Lanes, text: &[Vec<u8>], page: &mut Page) -> Result<(), NoMemory> {
    for line in text {
        page.pad_to(lanes.text)?;
        page.put(line.as_slice())?;
        page.end_line()?;
    }
    Ok(())
}
