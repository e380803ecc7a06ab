//! The picture of a trace as an SVG document, without scripts, light or dark as its reader is: a rail for each actor with a mark for
//! each turn, bars beside the rail while its actor holds a lock, and behind the rails what the turns tell and what is so then.
//! With up to ten actors it is as wide as a narrow screen.
#![tactic(auto)]

mod blocks;
mod head;
mod ink;
mod marks;
mod places;
mod rails;
mod style;
mod texts;

use gup_base::NoMemory;
use gup_scene::Scene;
use places::Places;
use std::alloc::Global;

/// The picture of the scene as an SVG document.
pub fn draw_svg(alloc: Global, scene: &Scene) -> Result<Vec<u8>, NoMemory> {
    let places = Places::of(scene);
    let mut body = String::new(alloc);
    let top = head::draw(alloc, scene, places, &mut body)?;
    let bottom = draw_rows(alloc, scene, places, top, &mut body)?;
    let mut svg = String::new(alloc);
    style::open(scene, places.width, bottom, &mut svg)?;
    svg.push_str(body.as_str())?;
    svg.push_str("</svg>\n")?;
    Ok(svg.into_bytes())
}

// The rows, from here on downwards. Gives the picture's lower edge.
fn draw_rows(
    alloc: Global,
    scene: &Scene,
    places: Places,
    top: usize,
    svg: &mut String,
) -> Result<usize, NoMemory> {
    if scene.rows.is_empty() {
        return texts::draw_none(top, svg);
    }
    let blocks = blocks::stacked(alloc, scene, places, top)?;
    let bottom = blocks::bottom_of(blocks.as_slice(), top);
    rails::draw(scene, places, blocks.as_slice(), bottom, svg)?;
    texts::draw(scene, places, blocks.as_slice(), svg)?;
    Ok(bottom.saturating_add(places::MARGIN))
}

#[cfg(test)]
mod tests;
