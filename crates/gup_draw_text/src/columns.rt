//! The picture of few actors: a column for each.
use crate::cells::{label, label_width, said, state};
use crate::page::{Page, WIDTH};
use crate::signs::{held_at, held_sign};
use gup_base::NoMemory;
use gup_scene::{Lane, Row, Scene};
use gup_wrap::wrapped;
use std::alloc::Global;

/// The columns that an actor has at least and at most: the sign of its locks, a blank, its text, and a blank.
const LANE_AT_LEAST: usize = 20;

const LANE_AT_MOST: usize = 30;

/// The columns of what is so behind a turn, at least.
const STATE_AT_LEAST: usize = 26;

/// Where everything stands.
#[derive(Clone, Copy)]
pub(crate) struct Columns {
    // Where the first actor's column begins, and how wide each is.
    lanes: usize,
    lane_width: usize,
    // Where it is said what is so behind a turn.
    state: usize,
}

impl Columns {
    /// The columns of this scene, if each actor has room for one.
    pub(crate) fn of(alloc: Global, scene: &Scene) -> Result<Option<Columns>, NoMemory> {
        let lanes = label_width(alloc, scene)?.saturating_add(1);
        let least = if has_state(scene) { STATE_AT_LEAST } else { 0 };
        let room = WIDTH.saturating_sub(lanes).saturating_sub(least);
        let lane_width = room
            .checked_div(scene.lanes.len())
            .unwrap_or(0)
            .min(LANE_AT_MOST);
        if lane_width < LANE_AT_LEAST {
            return Ok(None);
        }
        let state = lanes.saturating_add(lane_width.saturating_mul(scene.lanes.len()));
        Ok(Some(Columns {
            lanes,
            lane_width,
            state,
        }))
    }

    // Where the column of this place begins.
    fn lane(self, place: usize) -> usize {
        self.lanes
            .saturating_add(self.lane_width.saturating_mul(place))
    }

    // The columns of an actor's text.
    fn said_width(self) -> usize {
        self.lane_width.saturating_sub(3)
    }

    fn state_width(self) -> usize {
        WIDTH.saturating_sub(self.state)
    }
}

fn has_state(scene: &Scene) -> bool {
    scene.rows.iter().any(|row| !row.state.is_empty())
}

/// The head row, and the rows.
pub(crate) fn draw(
    alloc: Global,
    scene: &Scene,
    columns: Columns,
    page: &mut Page,
) -> Result<(), NoMemory> {
    draw_names(alloc, scene, columns, page)?;
    draw_roles(alloc, scene, columns, page)?;
    draw_rule(scene, columns, page)?;
    for row in scene.rows.iter() {
        draw_row(alloc, scene, columns, row, page)?;
    }
    Ok(())
}

fn draw_names(
    alloc: Global,
    scene: &Scene,
    columns: Columns,
    page: &mut Page,
) -> Result<(), NoMemory> {
    let mut names = Vec::new(alloc);
    for lane in scene.lanes.iter() {
        names.push(wrapped(alloc, lane.name.as_slice(), columns.said_width(), 0)?)?;
    }
    page.put_text("turn")?;
    draw_heads(names.as_slice(), columns, page)
}

fn draw_roles(
    alloc: Global,
    scene: &Scene,
    columns: Columns,
    page: &mut Page,
) -> Result<(), NoMemory> {
    let mut roles = Vec::new(alloc);
    for lane in scene.lanes.iter() {
        roles.push(wrapped(alloc, lane.role.as_slice(), columns.said_width(), 0)?)?;
    }
    draw_heads(roles.as_slice(), columns, page)
}

// A text above each actor's column.
fn draw_heads(texts: &[Vec<Vec<u8>>], columns: Columns, page: &mut Page) -> Result<(), NoMemory> {
    let mut height = 0;
    for text in texts {
        height = text.len().max(height);
    }
    for line in 0..height {
        for (place, text) in texts.iter().enumerate() {
            page.pad_to(columns.lane(place).saturating_add(2))?;
            page.put_line_of(text.as_slice(), line)?;
        }
        page.end_line()?;
    }
    Ok(())
}

fn draw_rule(scene: &Scene, columns: Columns, page: &mut Page) -> Result<(), NoMemory> {
    page.put_dashes_to(columns.lanes.saturating_sub(1))?;
    for place in 0..scene.lanes.len() {
        page.pad_to(columns.lane(place))?;
        page.put_dashes_to(columns.lane(place.saturating_add(1)).saturating_sub(1))?;
    }
    if has_state(scene) {
        page.pad_to(columns.state)?;
        page.put_dashes_to(WIDTH)?;
    }
    page.end_line()
}

fn draw_row(
    alloc: Global,
    scene: &Scene,
    columns: Columns,
    row: &Row,
    page: &mut Page,
) -> Result<(), NoMemory> {
    let label = label(alloc, row)?;
    let said = said(alloc, row, columns.said_width())?;
    let state = state(alloc, row, columns.state_width())?;
    let height = label.len().max(said.len()).max(state.len());
    for line in 0..height {
        page.put_line_of(label.as_slice(), line)?;
        draw_lanes(
            scene.lanes.as_slice(),
            columns,
            row,
            said.as_slice(),
            line,
            page,
        )?;
        page.pad_to(columns.state)?;
        page.put_line_of(state.as_slice(), line)?;
        page.end_line()?;
    }
    Ok(())
}

// One line of the actors' columns.
fn draw_lanes(
    lanes: &[Lane],
    columns: Columns,
    row: &Row,
    said: &[Vec<u8>],
    line: usize,
    page: &mut Page,
) -> Result<(), NoMemory> {
    for place in 0..lanes.len() {
        page.pad_to(columns.lane(place))?;
        page.put_byte(held_sign(held_at(row, place)))?;
        if place == row.lane {
            page.put_text(" ")?;
            page.put_line_of(said, line)?;
        }
    }
    Ok(())
}
