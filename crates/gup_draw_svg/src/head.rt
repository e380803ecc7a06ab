//! What stands above the rows: what is said of the whole, who the actors are, what the marks mean, and the names above the rails.
use crate::ink::put_escaped;
use crate::marks::{self, Act, act_of, draw_held, hue};
use crate::places::{MARGIN, Places};
use crate::texts::kind_letter;
use gup_base::NoMemory;
use gup_scene::{Held, Lane, Scene, ShownKind};
use gup_wrap::wrapped;
use std::alloc::Global;
use std::fmt::Write;

/// A lane whose actor's colour is grey, as it is for the marks of no actor.
const GREY_LANE: usize = 8;

/// The height of a line of entries.
const ENTRY_HEIGHT: usize = 17;

/// The place of the next entry: entries stand beside one another as long as there is room.
#[derive(Drop)]
struct Flow {
    x: usize,
    y: usize,
    right: usize,
}

impl Flow {
    fn new(y: usize, places: Places) -> Flow {
        Flow {
            x: MARGIN,
            y,
            right: places.width.saturating_sub(MARGIN),
        }
    }

    /// Makes room for an entry of so many letters, and gives the place of its mark.
    fn enter(&mut self, letters: usize) -> (usize, usize) {
        let width = letters.saturating_mul(7).saturating_add(30);
        if self.x > MARGIN && self.x.saturating_add(width) > self.right {
            self.x = MARGIN;
            self.y = self.y.saturating_add(ENTRY_HEIGHT);
        }
        let x = self.x;
        self.x = self.x.saturating_add(width);
        (x.saturating_add(6), self.y)
    }
}

/// Draws all that. Gives the upper edge of the rows.
pub(crate) fn draw(
    alloc: Global,
    scene: &Scene,
    places: Places,
    svg: &mut String,
) -> Result<usize, NoMemory> {
    let below = draw_lines(alloc, scene, places, svg)?;
    if scene.rows.is_empty() {
        return Ok(below);
    }
    let below = draw_actors(scene, places, below.saturating_add(2), svg)?;
    let below = draw_meanings(scene, places, below.saturating_add(4), svg)?;
    draw_names(scene, places, below.saturating_add(2), svg)
}

fn draw_lines(
    alloc: Global,
    scene: &Scene,
    places: Places,
    svg: &mut String,
) -> Result<usize, NoMemory> {
    let mut y = MARGIN.saturating_add(14);
    for line in scene.head.iter() {
        for part in wrapped(alloc, line.as_slice(), places.head_letters(), 2)?.iter() {
            draw_line(y, part.as_slice(), svg)?;
            y = y.saturating_add(18);
        }
    }
    Ok(y)
}

fn draw_line(y: usize, text: &[u8], svg: &mut String) -> Result<(), NoMemory> {
    write!(svg, "<text class='h' x='{MARGIN}' y='{y}'>")?;
    put_escaped(text, svg)?;
    svg.push_str("</text>\n")?;
    Ok(())
}

// The actors: a mark, the name, and what it is.
fn draw_actors(
    scene: &Scene,
    places: Places,
    top: usize,
    svg: &mut String,
) -> Result<usize, NoMemory> {
    let mut flow = Flow::new(top, places);
    for (lane, actor) in scene.lanes.iter().enumerate() {
        let letters = actor.name.len().saturating_add(actor.role.len());
        let (x, y) = flow.enter(letters.saturating_add(1));
        draw_actor(lane, actor, x, y, svg)?;
    }
    Ok(flow.y.saturating_add(ENTRY_HEIGHT))
}

fn draw_actor(
    lane: usize,
    actor: &Lane,
    x: usize,
    y: usize,
    svg: &mut String,
) -> Result<(), NoMemory> {
    marks::draw(Act::Acts, lane, x, y.saturating_sub(4), svg)?;
    let left = x.saturating_add(10);
    let hue = hue(lane);
    write!(
        svg,
        "<text class='k' x='{left}' y='{y}'><tspan class='n c{hue}'>"
    )?;
    put_escaped(actor.name.as_slice(), svg)?;
    svg.push_str("</tspan> ")?;
    put_escaped(actor.role.as_slice(), svg)?;
    svg.push_str("</text>\n")?;
    Ok(())
}

/// What a mark can be of.
#[derive(Clone, Copy)]
enum Mark {
    Act(Act),
    Held(Held),
    Shown(ShownKind),
}

/// The marks, each with its meaning.
const MEANINGS: [(Mark, &str); 12] = [
    (Mark::Act(Act::Acts), "acts"),
    (Mark::Act(Act::Steps), "quiet step"),
    (Mark::Act(Act::Waits), "waits or idle"),
    (Mark::Act(Act::Answers), "its operation ends"),
    (Mark::Act(Act::Errs), "can't be"),
    (Mark::Held(Held::Structure), "structure lock held"),
    (Mark::Held(Held::Table), "table lock held"),
    (Mark::Shown(ShownKind::Frame), "frame"),
    (Mark::Shown(ShownKind::Word), "word"),
    (Mark::Shown(ShownKind::Slot), "mirror slot"),
    (Mark::Shown(ShownKind::Process), "process"),
    (Mark::Shown(ShownKind::Remark), "remark"),
];

// The marks that occur, with their meanings.
fn draw_meanings(
    scene: &Scene,
    places: Places,
    top: usize,
    svg: &mut String,
) -> Result<usize, NoMemory> {
    let mut flow = Flow::new(top, places);
    for (mark, meaning) in MEANINGS {
        if occurs(scene, mark) {
            let (x, y) = flow.enter(meaning.len());
            draw_mark(mark, x, y, svg)?;
            draw_meaning(meaning, x, y, svg)?;
        }
    }
    Ok(flow.y.saturating_add(ENTRY_HEIGHT))
}

fn draw_meaning(meaning: &str, x: usize, y: usize, svg: &mut String) -> Result<(), NoMemory> {
    let left = x.saturating_add(10);
    write!(
        svg,
        "<text class='k m' x='{left}' y='{y}'>{meaning}</text>\n"
    )?;
    Ok(())
}

fn draw_mark(mark: Mark, x: usize, y: usize, svg: &mut String) -> Result<(), NoMemory> {
    match mark {
        Mark::Act(act) => marks::draw(act, GREY_LANE, x, y.saturating_sub(4), svg),
        Mark::Held(held) => draw_held(held, x, y.saturating_sub(10), y.saturating_add(2), svg),
        Mark::Shown(kind) => draw_bar(kind, x, y, svg),
    }
}

fn draw_bar(kind: ShownKind, x: usize, y: usize, svg: &mut String) -> Result<(), NoMemory> {
    let kind = kind_letter(kind);
    let top = y.saturating_sub(10);
    write!(
        svg,
        "<rect class='bar s{kind}' x='{x}' y='{top}' width='4' height='12'/>\n"
    )?;
    Ok(())
}

// Whether the mark occurs. Of two locks each is held.
fn occurs(scene: &Scene, mark: Mark) -> bool {
    match mark {
        Mark::Act(act) => scene.rows.iter().any(|row| act_of(row) == act),
        Mark::Held(held) => scene.rows.iter().any(|row| {
            row.held
                .iter()
                .any(|other| *other == held || *other == Held::Both)
        }),
        Mark::Shown(kind) => scene
            .rows
            .iter()
            .any(|row| row.state.iter().any(|shown| shown.kind == kind)),
    }
}

// The names above the rails: aslant, if they have no room otherwise.
fn draw_names(
    scene: &Scene,
    places: Places,
    top: usize,
    svg: &mut String,
) -> Result<usize, NoMemory> {
    let mut letters = 0;
    for lane in scene.lanes.iter() {
        letters = lane.name.len().max(letters);
    }
    let is_level = places.has_room(letters);
    let height = if is_level {
        4
    } else {
        letters.saturating_mul(6)
    };
    let bottom = top.saturating_add(height);
    for (lane, actor) in scene.lanes.iter().enumerate() {
        draw_name(actor, lane, is_level, places.rail(lane), bottom, svg)?;
    }
    Ok(bottom.saturating_add(6))
}

fn draw_name(
    actor: &Lane,
    lane: usize,
    is_level: bool,
    x: usize,
    y: usize,
    svg: &mut String,
) -> Result<(), NoMemory> {
    let hue = hue(lane);
    let right = x.saturating_add(3);
    if is_level {
        write!(
            svg,
            "<text class='k n c{hue}' x='{x}' y='{y}' text-anchor='middle'>"
        )?;
    } else {
        write!(
            svg,
            "<text class='k n c{hue}' transform='translate({right} {y}) rotate(-60)'>"
        )?;
    }
    put_escaped(actor.name.as_slice(), svg)?;
    svg.push_str("</text>\n")?;
    Ok(())
}
