//! The signs of what actors do and hold, and what they mean.
use gup_scene::{Held, Row, SaidKind, Scene, ShownKind};

/// What stands in front of what a turn tells.
pub(crate) fn mark(kind: SaidKind) -> &'static str {
    match kind {
        SaidKind::Event => "",
        SaidKind::Step => "(",
        SaidKind::Wait => "~ ",
        SaidKind::Answer => "= ",
        SaidKind::Wrong => "!! ",
    }
}

/// What stands behind it.
pub(crate) fn end_mark(kind: SaidKind) -> &'static str {
    match kind {
        SaidKind::Step => ")",
        SaidKind::Event | SaidKind::Wait | SaidKind::Answer | SaidKind::Wrong => "",
    }
}

/// The sign of the locks that an actor holds.
pub(crate) fn held_sign(held: Held) -> u8 {
    match held {
        Held::Nothing => b' ',
        Held::Structure => b'|',
        Held::Table => b':',
        Held::Both => b'#',
    }
}

/// The locks that the actor of this lane holds behind the row.
pub(crate) fn held_at(row: &Row, lane: usize) -> Held {
    match row.held.get(lane) {
        Some(held) => *held,
        None => Held::Nothing,
    }
}

/// The sign of what the row's actor does.
pub(crate) fn act_sign(row: &Row) -> u8 {
    if says(row, SaidKind::Wrong) {
        b'!'
    } else if only_waits(row) {
        b'~'
    } else {
        b'*'
    }
}

fn says(row: &Row, kind: SaidKind) -> bool {
    row.said.iter().any(|said| said.kind == kind)
}

fn only_waits(row: &Row) -> bool {
    !row.said.is_empty() && row.said.iter().all(|said| said.kind == SaidKind::Wait)
}

/// The signs that have a meaning.
#[derive(Clone, Copy)]
pub(crate) enum Sign {
    Held(Held),
    Said(SaidKind),
    Remark,
}

/// Each sign that may occur, with its meaning.
pub(crate) const MEANINGS: [(Sign, &str); 8] = [
    (Sign::Held(Held::Structure), "| holds the structure lock"),
    (Sign::Held(Held::Table), ": holds the table lock"),
    (Sign::Held(Held::Both), "# holds both"),
    (Sign::Said(SaidKind::Answer), "= the answer"),
    (Sign::Said(SaidKind::Step), "(..) a quiet step"),
    (Sign::Said(SaidKind::Wait), "~ waits, or is idle"),
    (Sign::Said(SaidKind::Wrong), "!! this can't be"),
    (Sign::Remark, "-- a remark"),
];

/// Whether the sign occurs.
pub(crate) fn occurs(scene: &Scene, sign: Sign) -> bool {
    scene.rows.iter().any(|row| occurs_in(row, sign))
}

fn occurs_in(row: &Row, sign: Sign) -> bool {
    match sign {
        Sign::Held(held) => row.held.iter().any(|other| *other == held),
        Sign::Said(kind) => says(row, kind),
        Sign::Remark => row
            .state
            .iter()
            .any(|shown| shown.kind == ShownKind::Remark),
    }
}
