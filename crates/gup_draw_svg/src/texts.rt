//! The rows: their numbers, their marks, and their text.
use crate::blocks::{Block, SAID_HEIGHT, STATE_HEIGHT, SaidLine, StateLine};
use crate::ink::put_escaped;
use crate::marks::{self, Act, act_of, hue};
use crate::places::{MARGIN, Places, is_short};
use gup_base::NoMemory;
use gup_scene::{Lane, Row, SaidKind, Scene, ShownKind};
use std::fmt::Write;

/// Says that there is no row. Gives the picture's lower edge.
pub(crate) fn draw_none(top: usize, svg: &mut String) -> Result<usize, NoMemory> {
    let y = top.saturating_add(16);
    write!(svg, "<text x='{MARGIN}' y='{y}'>no such turn</text>\n")?;
    Ok(y.saturating_add(MARGIN).saturating_add(4))
}

/// Draws the rows. Those behind one that can't be are pale.
pub(crate) fn draw(
    scene: &Scene,
    places: Places,
    blocks: &[Block],
    svg: &mut String,
) -> Result<(), NoMemory> {
    let mut is_pale = false;
    for (row, block) in scene.rows.iter().zip(blocks.iter()) {
        draw_row(scene, places, row, block, svg)?;
        if act_of(row) == Act::Errs && !is_pale {
            svg.push_str("<g class='after'>\n")?;
            is_pale = true;
        }
    }
    if is_pale {
        svg.push_str("</g>\n")?;
    }
    Ok(())
}

fn draw_row(
    scene: &Scene,
    places: Places,
    row: &Row,
    block: &Block,
    svg: &mut String,
) -> Result<(), NoMemory> {
    let act = act_of(row);
    draw_ground(places, act, block, svg)?;
    draw_label(places, row, block, svg)?;
    draw_line(places, row.lane, block, svg)?;
    marks::draw(act, row.lane, places.rail(row.lane), block.mark(), svg)?;
    draw_said(scene.lanes.get(row.lane), places, row.lane, block, svg)?;
    draw_state(places, block, svg)
}

// A box round a row that can't be, and else a line above the row's text.
fn draw_ground(places: Places, act: Act, block: &Block, svg: &mut String) -> Result<(), NoMemory> {
    let right = places.width.saturating_sub(3);
    let left = places.text.saturating_sub(5);
    let top = block.top;
    if act == Act::Errs {
        let width = right.saturating_sub(3);
        // The line above the next row stands free below it.
        let height = block.bottom.saturating_sub(top).saturating_sub(2);
        write!(
            svg,
            "<rect class='xb' x='3' y='{top}' width='{width}' height='{height}' rx='4'/>\n"
        )?;
    } else {
        write!(
            svg,
            "<line class='u' x1='{left}' y1='{top}' x2='{right}' y2='{top}'/>\n"
        )?;
    }
    Ok(())
}

// The numbers of the row's turns: on two lines where they are long.
fn draw_label(places: Places, row: &Row, block: &Block, svg: &mut String) -> Result<(), NoMemory> {
    let x = places.label;
    let y = block.first_line();
    let below = y.saturating_add(13);
    let first = row.first;
    let last = row.last;
    if first == last {
        write!(svg, "<text class='l' x='{x}' y='{y}'>{first}</text>\n")?;
    } else if is_short(row) {
        write!(
            svg,
            "<text class='l' x='{x}' y='{y}'>{first}-{last}</text>\n"
        )?;
    } else {
        write!(svg, "<text class='l' x='{x}' y='{y}'>{first}-</text>\n")?;
        write!(svg, "<text class='l' x='{x}' y='{below}'>{last}</text>\n")?;
    }
    Ok(())
}

// The line from the actor's rail to the text.
fn draw_line(places: Places, lane: usize, block: &Block, svg: &mut String) -> Result<(), NoMemory> {
    let hue = hue(lane);
    let left = places.rail(lane).saturating_add(6);
    let right = places.text.saturating_sub(4);
    let y = block.mark();
    write!(
        svg,
        "<line class='line r{hue}' x1='{left}' y1='{y}' x2='{right}' y2='{y}'/>\n"
    )?;
    Ok(())
}

fn draw_said(
    actor: Option<&Lane>,
    places: Places,
    lane: usize,
    block: &Block,
    svg: &mut String,
) -> Result<(), NoMemory> {
    let mut y = block.first_line();
    for (place, line) in block.said.iter().enumerate() {
        let name = if place == 0 { actor } else { None };
        draw_said_line(name, places.text, y, lane, line, svg)?;
        y = y.saturating_add(SAID_HEIGHT);
    }
    Ok(())
}

fn draw_said_line(
    actor: Option<&Lane>,
    x: usize,
    y: usize,
    lane: usize,
    line: &SaidLine,
    svg: &mut String,
) -> Result<(), NoMemory> {
    let class = said_class(line.kind);
    write!(svg, "<text class='{class}' x='{x}' y='{y}'>")?;
    match actor {
        Some(actor) => put_named(actor.name.as_slice(), lane, line.text.as_slice(), svg)?,
        None => put_escaped(line.text.as_slice(), svg)?,
    }
    svg.push_str("</text>\n")?;
    Ok(())
}

// A text that begins with its actor's name, if the name is not cut.
fn put_named(name: &[u8], lane: usize, text: &[u8], svg: &mut String) -> Result<(), NoMemory> {
    let Some(told) = text.get(name.len()..) else {
        return put_escaped(text, svg);
    };
    let hue = hue(lane);
    write!(svg, "<tspan class='n c{hue}'>")?;
    put_escaped(name, svg)?;
    svg.push_str("</tspan>")?;
    put_escaped(told, svg)
}

fn said_class(kind: SaidKind) -> &'static str {
    match kind {
        SaidKind::Event => "e",
        SaidKind::Step => "q",
        SaidKind::Wait => "w",
        SaidKind::Answer => "a",
        SaidKind::Wrong => "x",
    }
}

fn draw_state(places: Places, block: &Block, svg: &mut String) -> Result<(), NoMemory> {
    let mut y = block.first_state();
    for line in block.state.iter() {
        draw_state_line(places.text, y, line, svg)?;
        y = y.saturating_add(STATE_HEIGHT);
    }
    Ok(())
}

fn draw_state_line(x: usize, y: usize, line: &StateLine, svg: &mut String) -> Result<(), NoMemory> {
    let kind = kind_letter(line.kind);
    let top = y.saturating_sub(10);
    let left = x.saturating_add(9);
    write!(
        svg,
        "<rect class='bar s{kind}' x='{x}' y='{top}' width='3' height='14'/>\n"
    )?;
    write!(svg, "<text class='s s{kind}' x='{left}' y='{y}'>")?;
    put_escaped(line.text.as_slice(), svg)?;
    svg.push_str("</text>\n")?;
    Ok(())
}

/// The letter of a kind's colour.
pub(crate) fn kind_letter(kind: ShownKind) -> &'static str {
    match kind {
        ShownKind::Frame => "f",
        ShownKind::Word => "w",
        ShownKind::Slot => "s",
        ShownKind::Process => "p",
        ShownKind::Remark => "r",
    }
}
