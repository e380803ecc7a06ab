use crate::draw_text;
use gup_scene::Held::{Both, Nothing, Structure, Table};
use gup_scene::SaidKind::{Answer, Event, Step, Wait, Wrong};
use gup_scene::ShownKind::{Frame, Remark, Word};
use gup_scene::{Held, Lane, Row, Said, SaidKind, Scene, Shown, ShownKind};
use std::alloc::{AllocError, Global};
use std::test::*;

/// A row: its turns, its lane, what it tells, what is so behind it, and who holds which locks.
struct Turn {
    first: u32,
    last: u32,
    lane: usize,
    said: &'static [(SaidKind, &'static str)],
    state: &'static [(ShownKind, &'static str)],
    held: &'static [Held],
}

const THREE: [(&str, &str); 3] = [("t", "thread of p"), ("u", "thread of c"), ("d", "device")];

const FORK: [Turn; 5] = [
    Turn {
        first: 4,
        last: 4,
        lane: 0,
        said: &[(Event, "forkbegin p c")],
        state: &[],
        held: &[Structure, Nothing, Nothing],
    },
    Turn {
        first: 5,
        last: 5,
        lane: 1,
        said: &[(Wait, "wait process c")],
        state: &[],
        held: &[Structure, Nothing, Nothing],
    },
    Turn {
        first: 6,
        last: 6,
        lane: 0,
        said: &[(Step, "grabs frame 1")],
        state: &[
            (Frame, "frame 1: 1 reference of the walk in turn 6"),
            (Remark, "no note says so"),
        ],
        held: &[Both, Table, Nothing],
    },
    Turn {
        first: 16,
        last: 525,
        lane: 0,
        said: &[(Event, "forkword p c 5.2 .. 5.511"), (Answer, "ok")],
        state: &[(Word, "c 5.0 is 7")],
        held: &[Nothing, Nothing, Nothing],
    },
    Turn {
        first: 526,
        last: 526,
        lane: 2,
        said: &[(Wrong, "out h 0 0 8")],
        state: &[],
        held: &[],
    },
];

const FORK_TEXT: &str = "\
A fork with a pinned page.
signs:  | holds the structure lock   : holds the table lock   # holds both   = the answer
        (..) a quiet step   ~ waits, or is idle   !! this can't be   -- a remark

turn     t                     u                     d
         thread of p           thread of c           device
------ --------------------- --------------------- --------------------- ---------------------------
4      | forkbegin p c
5      |                       ~ wait process c
6      # (grabs frame 1)     :                                           frame 1: 1 reference of the
       #                     :                                             walk in turn 6
       #                     :                                           -- no note says so
16-525   forkword p c 5.2 ..                                             c 5.0 is 7
           5.511
         = ok
526                                                  !! out h 0 0 8
                                                     <-- this can't be
";

const TWELVE: [(&str, &str); 12] = [
    ("t", "thread of p"),
    ("u", "thread of p"),
    ("v", "thread of p"),
    ("w", "thread of p"),
    ("nic", "device"),
    ("gpu", "device"),
    ("a", "thread of q"),
    ("b", "thread of q"),
    ("c", "thread of q"),
    ("d", "thread of q"),
    ("e", "thread of q"),
    ("mover", "mover"),
];

const MOVE: [Turn; 3] = [
    Turn {
        first: 9,
        last: 9,
        lane: 11,
        said: &[(Step, "takes the table lock of p")],
        state: &[],
        held: &[
            Nothing, Nothing, Structure, Nothing, Nothing, Nothing, Nothing, Nothing, Nothing,
            Nothing, Nothing, Table,
        ],
    },
    Turn {
        first: 4294967290,
        last: 4294967294,
        lane: 1,
        said: &[(Wait, "wait actor mover")],
        state: &[],
        held: &[],
    },
    Turn {
        first: 4294967295,
        last: 4294967295,
        lane: 4,
        said: &[(Event, "out h 0 0 7"), (Answer, "ok 7")],
        state: &[(
            Frame,
            "frame 3: 1025 references: p 5, q 5 and the pin h, which has had it since turn 4",
        )],
        held: &[],
    },
];

const MOVE_TEXT: &str = "\
A move.
signs:  | holds the structure lock   : holds the table lock   = the answer   (..) a quiet step
        ~ waits, or is idle

lanes: t (thread of p), u (thread of p), v (thread of p), w (thread of p), nic (device), gpu
  (device), a (thread of q), b (thread of q), c (thread of q), d (thread of q), e (thread of q),
  mover (mover); * acts, ~ waits, . neither

                                  m
                                  o
                    n g           v
                    i p           e
turn        t u v w c u a b c d e r
9           . . | . . . . . . . . *:  mover: (takes the table lock of p)
4294967290- . ~ . . . . . . . . . .   u: ~ wait actor mover
4294967294
4294967295  . . . . * . . . . . . .   nic: out h 0 0 7
                                      nic: = ok 7
                                          frame 3: 1025 references: p 5, q 5 and the pin h, which
                                            has had it since turn 4
";

fn bytes(alloc: Global, text: &str) -> Result<Vec<u8>, AllocError> {
    Vec::from_slice(alloc, text.as_bytes())
}

fn scene(
    alloc: Global,
    head: &str,
    actors: &[(&str, &str)],
    turns: &[Turn],
) -> Result<Scene, Fail> {
    let mut scene = Scene {
        head: Vec::new(alloc),
        lanes: Vec::new(alloc),
        rows: Vec::new(alloc),
    };
    scene.head.push(bytes(alloc, head)?)?;
    for (name, role) in actors {
        scene.lanes.push(Lane {
            name: bytes(alloc, name)?,
            role: bytes(alloc, role)?,
        })?;
    }
    for turn in turns {
        scene.rows.push(row(alloc, turn)?)?;
    }
    Ok(scene)
}

fn row(alloc: Global, turn: &Turn) -> Result<Row, Fail> {
    let mut row = Row {
        first: turn.first,
        last: turn.last,
        lane: turn.lane,
        said: Vec::new(alloc),
        state: Vec::new(alloc),
        held: Vec::from_slice(alloc, turn.held)?,
    };
    for (kind, text) in turn.said {
        row.said.push(Said {
            kind: *kind,
            text: bytes(alloc, text)?,
        })?;
    }
    for (kind, text) in turn.state {
        row.state.push(Shown {
            kind: *kind,
            text: bytes(alloc, text)?,
        })?;
    }
    Ok(row)
}

// The picture, as a text.
fn picture(alloc: Global, scene: &Scene) -> Result<String, Fail> {
    Ok(String::from_utf8(draw_text(alloc, scene)?)?)
}

#[test]
fn few_actors_have_columns(rt: HostRuntime) -> Result<(), Fail> {
    let alloc = rt.alloc();
    let scene = scene(
        alloc,
        "A fork with a pinned page.",
        THREE.as_slice(),
        FORK.as_slice(),
    )?;
    let text = picture(alloc, &scene)?;
    assert_eq!(rt; text.as_str(), FORK_TEXT, "{text}");
    Ok(())
}

#[test]
fn many_actors_have_lanes(rt: HostRuntime) -> Result<(), Fail> {
    let alloc = rt.alloc();
    let scene = scene(alloc, "A move.", TWELVE.as_slice(), MOVE.as_slice())?;
    let text = picture(alloc, &scene)?;
    assert_eq!(rt; text.as_str(), MOVE_TEXT, "{text}");
    Ok(())
}

#[test]
fn no_turn_has_no_picture(rt: HostRuntime) -> Result<(), Fail> {
    let alloc = rt.alloc();
    let scene = scene(alloc, "Turns 7 to 9.", THREE.as_slice(), &[])?;
    let text = picture(alloc, &scene)?;
    assert_eq!(rt; text.as_str(), "Turns 7 to 9.\n\nno such turn\n");
    Ok(())
}

// With 81 actors each line has at most 100 columns, and none ends in a blank.
#[test]
fn lines_are_short(rt: HostRuntime) -> Result<(), Fail> {
    let alloc = rt.alloc();
    let mut scene = scene(alloc, "Very many.", &[], MOVE.as_slice())?;
    for _ in 0..81 {
        scene.lanes.push(Lane {
            name: bytes(alloc, "actor")?,
            role: bytes(alloc, "thread of q")?,
        })?;
    }
    let text = picture(alloc, &scene)?;
    for line in text.as_str().lines() {
        assert!(rt; line.len() <= 100, "{line}");
        assert!(rt; !line.ends_with(' '), "{line}");
    }
    assert!(rt; text.as_str().ends_with('\n'));
    Ok(())
}
