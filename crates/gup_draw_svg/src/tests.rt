use crate::draw_svg;
use gup_scene::{Held, Lane, Row, Said, SaidKind, Scene, Shown, ShownKind};
use std::alloc::{AllocError, Global};
use std::process::Abort;
use std::test::*;

fn bytes(alloc: Global, text: &str) -> Result<Vec<u8>, AllocError> {
    Vec::from_slice(alloc, text.as_bytes())
}

fn empty(alloc: Global) -> Scene {
    Scene {
        head: Vec::new(alloc),
        lanes: Vec::new(alloc),
        rows: Vec::new(alloc),
    }
}

fn said(alloc: Global, kind: SaidKind, text: &str) -> Result<Said, AllocError> {
    let text = bytes(alloc, text)?;
    Ok(Said { kind, text })
}

// A row whose actor holds both locks behind it.
fn row(alloc: Global, first: u32, last: u32) -> Result<Row, Fail> {
    let mut row = Row {
        first,
        last,
        lane: 0,
        said: Vec::new(alloc),
        state: Vec::new(alloc),
        held: Vec::from_slice(alloc, &[Held::Both])?,
    };
    row.said
        .push(said(alloc, SaidKind::Event, "store p 5.0 7")?)?;
    row.said
        .push(said(alloc, SaidKind::Answer, "ok & <done>")?)?;
    row.state.push(Shown {
        kind: ShownKind::Word,
        text: bytes(alloc, "p 5.0 is 7")?,
    })?;
    Ok(row)
}

// The document, and whether all these texts stand in it.
fn expect_texts(rt: &impl Abort, alloc: Global, scene: &Scene, texts: &[&str]) -> Result<(), Fail> {
    let svg = String::from_utf8(draw_svg(alloc, scene)?)?;
    let svg = svg.as_str();
    assert!(rt; svg.starts_with("<svg xmlns='http://www.w3.org/2000/svg' width='384' height="));
    assert!(rt; svg.ends_with("</svg>\n"));
    for text in texts {
        assert!(rt; svg.contains(*text), "{text}");
    }
    Ok(())
}

#[test]
fn each_text_stands_in_the_picture(rt: HostRuntime) -> Result<(), Fail> {
    let alloc = rt.alloc();
    let mut scene = empty(alloc);
    scene.head.push(bytes(alloc, "One store.")?)?;
    scene.lanes.push(Lane {
        name: bytes(alloc, "t")?,
        role: bytes(alloc, "thread of p")?,
    })?;
    scene.rows.push(row(alloc, 1, 1)?)?;
    scene.rows.push(row(alloc, 2, 9)?)?;
    scene.rows.push(row(alloc, 10, 1000000)?)?;
    let mut wrong = row(alloc, 1000001, 1000001)?;
    wrong
        .said
        .push(said(alloc, SaidKind::Wrong, "load p 5.0 8")?)?;
    scene.rows.push(wrong)?;
    let texts = [
        "<title>One store.</title>",
        "</tspan> thread of p</text>",
        ">1</text>",
        ">2-9</text>",
        ">10-</text>",
        ">1000000</text>",
        "</tspan> store p 5.0 7</text>",
        ">= ok &amp; &lt;done&gt;</text>",
        ">p 5.0 is 7</text>",
        "class='ls'",
        "class='lt'",
        ">load p 5.0 8</text>",
        ">this can't be</text>",
    ];
    expect_texts(&rt, alloc, &scene, texts.as_slice())
}

#[test]
fn no_turn_has_no_picture(rt: HostRuntime) -> Result<(), Fail> {
    let alloc = rt.alloc();
    expect_texts(
        &rt,
        alloc,
        &empty(alloc),
        &["<title>A trace</title>", ">no such turn</text>"],
    )
}
