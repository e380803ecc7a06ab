//! A row.
use crate::pen::Page;
use crate::said::push_said;
use gup_base::{ActorNo, NoMemory, PageNo, ProcNo};
use gup_lines::push_text;
use gup_plain::{Note, PlainEvent, What};
use gup_scene::{Asked, Held, Row, Shown, ShownKind};
use gup_script::Script;
use gup_view::{View, push_changes};
use std::alloc::Global;

/// The states before a row and behind it, where they are known, and whether the machine leaves the trace in this row.
#[derive(Clone, Copy)]
pub(crate) struct Around<'v> {
    pub(crate) before: Option<&'v View>,
    pub(crate) after: Option<&'v View>,
    pub(crate) parts: bool,
}

/// Puts in the row of these notes, if it concerns the page that is asked for. Where each frame is asked for, and in the first row of a
/// window, each is shown that has a reference. `wrong` is how many of the notes stand before the one that can't be.
pub(crate) fn push_row(
    alloc: Global,
    script: &Script,
    asked: &Asked,
    page: Page,
    notes: &[Note],
    wrong: Option<usize>,
    around: &Around<'_>,
    rows: &mut Vec<Row>,
) -> Result<(), NoMemory> {
    let (Some(first), Some(last)) = (notes.first(), notes.last()) else {
        return Ok(());
    };
    let changed = state_lines(alloc, script, false, page, around)?;
    if !concerns(page, notes, changed.as_slice()) {
        return Ok(());
    }
    let state = if asked.frames || (rows.is_empty() && asked.from > 1) {
        state_lines(alloc, script, true, page, around)?
    } else {
        changed
    };
    let mut said = Vec::new(alloc);
    push_said(alloc, script, notes, wrong, around, &mut said)?;
    rows.push(Row {
        first: first.turn(),
        last: last.turn(),
        lane: first.actor().get() as usize,
        said,
        state,
        held: held(alloc, script, around.after)?,
    })?;
    Ok(())
}

fn state_lines(
    alloc: Global,
    script: &Script,
    all: bool,
    page: Page,
    around: &Around<'_>,
) -> Result<Vec<Shown>, NoMemory> {
    let mut state = Vec::new(alloc);
    if let (Some(before), Some(after)) = (around.before, around.after) {
        let only = match page {
            Page::One { proc, page } => Some((proc, page)),
            Page::Any | Page::Unknown => None,
        };
        push_changes(alloc, script, before, after, all, &only, &mut state)?;
    }
    if around.parts {
        let mut text = Vec::new(alloc);
        push_text(&mut text, "the machine does something else here")?;
        state.push(Shown {
            kind: ShownKind::Remark,
            text,
        })?;
    }
    Ok(state)
}

// Whether the row is to be shown where this page alone is asked for.
fn concerns(page: Page, notes: &[Note], state: &[Shown]) -> bool {
    match page {
        Page::Any => true,
        Page::Unknown => false,
        Page::One { proc, page } => !state.is_empty() || name(notes, proc, page),
    }
}

// Whether one of these notes names the page.
fn name(notes: &[Note], proc: ProcNo, page: PageNo) -> bool {
    for note in notes {
        if let What::Event(event) = note.what()
            && names(event, proc, page)
        {
            return true;
        }
    }
    false
}

fn names(event: PlainEvent, proc: ProcNo, page: PageNo) -> bool {
    match event {
        PlainEvent::Map {
            proc: p,
            page: g,
            n,
            ..
        }
        | PlainEvent::Protect {
            proc: p,
            page: g,
            n,
            ..
        } => {
            p.get() == proc.get() && g.get() <= page.get() && page.get() - g.get() < u64::from(n)
        }
        PlainEvent::Unmap {
            proc: p,
            page: g,
            ..
        }
        | PlainEvent::Discard {
            proc: p,
            page: g,
            ..
        }
        | PlainEvent::Load {
            proc: p,
            page: g,
            ..
        }
        | PlainEvent::Store {
            proc: p,
            page: g,
            ..
        }
        | PlainEvent::PinTry {
            proc: p,
            page: g,
            ..
        }
        | PlainEvent::MirrorFill {
            proc: p,
            page: g,
            ..
        } => p.get() == proc.get() && g.get() == page.get(),
        PlainEvent::ForkPage {
            parent,
            child,
            page: g,
        }
        | PlainEvent::ForkWord {
            parent,
            child,
            page: g,
            ..
        } => (parent.get() == proc.get() || child.get() == proc.get()) && g.get() == page.get(),
        _ => false,
    }
}

// The locks that each actor holds. Nothing where the state isn't known.
fn held(alloc: Global, script: &Script, after: Option<&View>) -> Result<Vec<Held>, NoMemory> {
    let mut held = Vec::new(alloc);
    let Some(view) = after else {
        return Ok(held);
    };
    for a in 0..script.actors() {
        if let Some(actor) = ActorNo::new(u64::from(a)) {
            held.push(held_by(view, actor))?;
        }
    }
    Ok(held)
}

fn held_by(view: &View, actor: ActorNo) -> Held {
    let mut structure = false;
    let mut table = false;
    for process in &view.processes {
        structure = structure || is_of(process.structure, actor);
        table = table || is_of(process.table, actor);
    }
    match (structure, table) {
        (false, false) => Held::Nothing,
        (true, false) => Held::Structure,
        (false, true) => Held::Table,
        (true, true) => Held::Both,
    }
}

fn is_of(holder: Option<ActorNo>, actor: ActorNo) -> bool {
    match holder {
        Some(holder) => holder.get() == actor.get(),
        None => false,
    }
}
