//! The rails, with the bars of the locks.
use crate::blocks::Block;
use crate::marks::{draw_held, hue};
use crate::places::Places;
use gup_base::NoMemory;
use gup_scene::{Row, Scene};
use std::fmt::Write;

/// Draws the rails beside these rows, down to the lower edge.
pub(crate) fn draw(
    scene: &Scene,
    places: Places,
    blocks: &[Block],
    bottom: usize,
    svg: &mut String,
) -> Result<(), NoMemory> {
    let top = match blocks.first() {
        Some(block) => block.top,
        None => bottom,
    };
    for lane in 0..scene.lanes.len() {
        draw_rail(places.rail(lane), lane, top, bottom, svg)?;
    }
    for (place, row) in scene.rows.iter().enumerate() {
        let from = mark_at(blocks, place, bottom);
        let to = mark_at(blocks, place.saturating_add(1), bottom);
        draw_locks(places, row, from, to, svg)?;
    }
    Ok(())
}

fn draw_rail(
    x: usize,
    lane: usize,
    top: usize,
    bottom: usize,
    svg: &mut String,
) -> Result<(), NoMemory> {
    let hue = hue(lane);
    write!(
        svg,
        "<line class='rail r{hue}' x1='{x}' y1='{top}' x2='{x}' y2='{bottom}'/>\n"
    )?;
    Ok(())
}

// The height of this row's mark, or the lower edge behind the last row.
fn mark_at(blocks: &[Block], place: usize, bottom: usize) -> usize {
    match blocks.get(place) {
        Some(block) => block.mark(),
        None => bottom,
    }
}

// The locks that are held behind the row, down to the next one's mark.
fn draw_locks(
    places: Places,
    row: &Row,
    from: usize,
    to: usize,
    svg: &mut String,
) -> Result<(), NoMemory> {
    for (lane, held) in row.held.iter().enumerate() {
        draw_held(*held, places.rail(lane), from, to, svg)?;
    }
    Ok(())
}
