//! The picture of a trace for a terminal: ASCII text of at most 100 columns. Where few actors take part, each has a column of its
//! own; where many do, each has a lane of one sign, and what the turns tell stands in one column behind the lanes.
#![tactic(auto)]

mod cells;
mod columns;
mod head;
mod lanes;
mod page;
mod signs;

use columns::Columns;
use gup_base::NoMemory;
use gup_scene::Scene;
use lanes::Lanes;
use page::Page;
use std::alloc::Global;

/// The picture of the scene as text: lines of at most 100 columns, none of which ends in a blank, and a line feed behind each.
pub fn draw_text(alloc: Global, scene: &Scene) -> Result<Vec<u8>, NoMemory> {
    let mut page = Page::new(alloc);
    head::draw(alloc, scene, &mut page)?;
    draw_rows(alloc, scene, &mut page)?;
    Ok(page.into_text())
}

fn draw_rows(alloc: Global, scene: &Scene, page: &mut Page) -> Result<(), NoMemory> {
    if scene.rows.is_empty() {
        page.put_text("no such turn")?;
        return page.end_line();
    }
    match Columns::of(alloc, scene)? {
        Some(columns) => columns::draw(alloc, scene, columns, page),
        None => lanes::draw(alloc, scene, Lanes::of(alloc, scene)?, page),
    }
}

#[cfg(test)]
mod tests;
