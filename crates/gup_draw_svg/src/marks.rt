//! The marks on the rails.
use crate::style::HUES;
use gup_base::NoMemory;
use gup_scene::{Held, Row, SaidKind};
use std::fmt::Write;

/// What a row's actor does, by which its mark differs.
#[derive(Clone, Copy, Debug, PartialEq, Eq)]
pub(crate) enum Act {
    Acts,
    /// It takes a quiet step.
    Steps,
    Waits,
    /// Its operation ends.
    Answers,
    /// What the row tells can't be.
    Errs,
}

/// What the row's actor does.
pub(crate) fn act_of(row: &Row) -> Act {
    if says(row, SaidKind::Wrong) {
        Act::Errs
    } else if says(row, SaidKind::Answer) {
        Act::Answers
    } else if says(row, SaidKind::Event) {
        Act::Acts
    } else if says(row, SaidKind::Wait) {
        Act::Waits
    } else {
        Act::Steps
    }
}

fn says(row: &Row, kind: SaidKind) -> bool {
    row.said.iter().any(|said| said.kind == kind)
}

/// The number of the colour of the actor in this lane.
pub(crate) fn hue(lane: usize) -> usize {
    lane % HUES
}

/// Draws the mark of an act of this lane's actor round this place.
pub(crate) fn draw(
    act: Act,
    lane: usize,
    x: usize,
    y: usize,
    svg: &mut String,
) -> Result<(), NoMemory> {
    let hue = hue(lane);
    match act {
        Act::Acts => write!(svg, "<circle class='c{hue}' cx='{x}' cy='{y}' r='6'/>\n")?,
        Act::Steps => write!(svg, "<circle class='c{hue}' cx='{x}' cy='{y}' r='4'/>\n")?,
        Act::Waits => write!(
            svg,
            "<circle class='hollow r{hue}' cx='{x}' cy='{y}' r='4.5'/>\n"
        )?,
        Act::Answers => write!(
            svg,
            "<path class='c{hue}' d='M{x} {y}m-8 0l8 -8l8 8l-8 8z'/>\n"
        )?,
        Act::Errs => write!(
            svg,
            "<path class='xc' d='M{x} {y}m-6 -6l12 12m0 -12l-12 12'/>\n"
        )?,
    }
    Ok(())
}

/// Draws the bars of the locks that an actor holds beside its rail, between these heights.
pub(crate) fn draw_held(
    held: Held,
    x: usize,
    top: usize,
    bottom: usize,
    svg: &mut String,
) -> Result<(), NoMemory> {
    let height = bottom.saturating_sub(top);
    if held == Held::Structure || held == Held::Both {
        let left = x.saturating_sub(5);
        write!(
            svg,
            "<rect class='ls' x='{left}' y='{top}' width='4' height='{height}'/>\n"
        )?;
    }
    if held == Held::Table || held == Held::Both {
        let left = x.saturating_add(1);
        write!(
            svg,
            "<rect class='lt' x='{left}' y='{top}' width='4' height='{height}'/>\n"
        )?;
    }
    Ok(())
}
