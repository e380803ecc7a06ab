//! The lines above the rows.
use crate::page::{Page, WIDTH};
use crate::signs::{MEANINGS, occurs};
use gup_base::NoMemory;
use gup_scene::Scene;
use gup_wrap::wrapped;
use std::alloc::Global;

/// What is said of the whole, what the signs mean, and a blank line.
pub(crate) fn draw(alloc: Global, scene: &Scene, page: &mut Page) -> Result<(), NoMemory> {
    for line in scene.head.iter() {
        draw_wrapped(alloc, line.as_slice(), page)?;
    }
    draw_meanings(scene, page)?;
    if page.is_empty() {
        return Ok(());
    }
    page.end_line()
}

/// A text in as many lines as it needs.
pub(crate) fn draw_wrapped(alloc: Global, text: &[u8], page: &mut Page) -> Result<(), NoMemory> {
    for line in wrapped(alloc, text, WIDTH, 2)?.iter() {
        page.put(line.as_slice())?;
        page.end_line()?;
    }
    Ok(())
}

// The signs that occur, each with its meaning.
fn draw_meanings(scene: &Scene, page: &mut Page) -> Result<(), NoMemory> {
    for (sign, meaning) in MEANINGS {
        if occurs(scene, sign) {
            draw_meaning(meaning, page)?;
        }
    }
    if page.column() > 0 {
        page.end_line()?;
    }
    Ok(())
}

fn draw_meaning(meaning: &str, page: &mut Page) -> Result<(), NoMemory> {
    let end = page
        .column()
        .saturating_add(meaning.len())
        .saturating_add(3);
    if page.column() == 0 {
        page.put_text("signs:  ")?;
    } else if end > WIDTH {
        page.end_line()?;
        page.put_text("        ")?;
    } else {
        page.put_text("   ")?;
    }
    page.put_text(meaning)
}
