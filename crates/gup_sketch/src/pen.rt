//! The rows of a scene, drawn one after another.
ghost use Rattle.std.specs.Prelude.{option_map};
ghost use Rattle.gup_sketch.specs.Behind.{IsReplayTo, IsStateAt};

use crate::rows::{Around, push_row};
use crate::spans::row_length;
use gup_base::{NoMemory, PageNo, ProcNo};
use gup_image::KeptFact;
use gup_lines::process_name;
use gup_plain::Note;
use gup_replay::Replay;
use gup_scene::{Asked, AskedPage, Row};
use gup_script::Script;
use gup_spec_check::Verdict;
use gup_view::View;
use std::alloc::Global;

/// The rows so far, and the one that is begun.
#[derive(Drop)]
pub(crate) struct Pen {
    pub(crate) rows: Vec<Row>,
    // How many notes stand before the row that is begun, and how many before what comes behind it.
    from: usize,
    end: usize,
    // How many notes stand before the one that can't be, if there is one.
    wrong: Option<usize>,
    // The page that alone is asked for.
    page: Page,
    // The state before the row that is begun, if it is to be shown and the machine is beside it.
    before: Option<View>,
    /// The first turn that the machine doesn't do as the trace tells it.
    pub(crate) parted: Option<u32>,
}

/// The page that alone is asked for.
#[derive(Clone, Copy)]
pub(crate) enum Page {
    Any,
    One { proc: ProcNo, page: PageNo },
    /// One of a process that the script doesn't have.
    Unknown,
}

impl Pen {
    /// No rows.
    pub(crate) fn new(alloc: Global, script: &Script, asked: &Asked, verdict: Verdict) -> Pen {
        Pen {
            rows: Vec::new(alloc),
            from: 0,
            end: 0,
            wrong: wrong_in(verdict),
            page: page_asked(script, &asked.page),
            before: None,
            parted: None,
        }
    }

    /// Begins a row at the first of the notes that are left, unless it is of the row that is begun.
    pub(crate) fn begin(
        &mut self,
        alloc: Global,
        script: &Script,
        asked: &Asked,
        notes: &[Note],
        rest: &[Note],
        replay: &Replay,
    ) -> Result<(), NoMemory>
        requires { IsReplayTo script.now notes.now rest.now replay.now }
    {
        let at = notes.len().saturating_sub(rest.len());
        if at < self.end {
            return Ok(());
        }
        self.from = at;
        self.end = at.saturating_add(row_length(rest, at, self.wrong));
        if self.before.is_none() && is_asked(asked, self.notes_of(notes)) {
            self.before = view_at(alloc, script, notes, rest, replay.state(alloc)?)?;
        }
        Ok(())
    }

    /// Ends the row that is begun, if it ends where these notes are left.
    pub(crate) fn end(
        &mut self,
        alloc: Global,
        script: &Script,
        asked: &Asked,
        notes: &[Note],
        rest: &[Note],
        replay: &Replay,
    ) -> Result<(), NoMemory>
        requires { IsReplayTo script.now notes.now rest.now replay.now }
    {
        let at = notes.len().saturating_sub(rest.len());
        self.look(&notes[..at], replay);
        if at < self.end {
            return Ok(());
        }
        if !is_asked(asked, self.notes_of(notes)) {
            self.before = None;
            return Ok(());
        }
        let after = view_at(alloc, script, notes, rest, replay.state(alloc)?)?;
        self.push(alloc, script, asked, notes, after)
    }

    // Looks whether the machine is still beside the trace behind these notes.
    fn look(&mut self, told: &[Note], replay: &Replay) {
        if self.parted.is_none()
            && !replay.is_beside()
            && let Some(last) = told.last()
        {
            self.parted = Some(last.turn());
        }
    }

    // The notes of the row.
    fn notes_of<'n>(&self, notes: &'n [Note]) -> &'n [Note] {
        let end = self.end.min(notes.len());
        let from = self.from.min(end);
        &notes[from..end]
    }

    fn push(
        &mut self,
        alloc: Global,
        script: &Script,
        asked: &Asked,
        notes: &[Note],
        after: Option<View>,
    ) -> Result<(), NoMemory> {
        let before = self.before.take();
        let around = Around {
            before: before.as_ref(),
            after: after.as_ref(),
            parts: before.is_some() && after.is_none(),
        };
        let wrong = match self.wrong {
            Some(wrong) => wrong.checked_sub(self.from),
            None => None,
        };
        let own = self.notes_of(notes);
        push_row(
            alloc,
            script,
            asked,
            self.page,
            own,
            wrong,
            &around,
            &mut self.rows,
        )?;
        self.before = after;
        Ok(())
    }
}

// How many notes stand before the one that can't be.
fn wrong_in(verdict: Verdict) -> Option<usize> {
    match verdict {
        Verdict::No(number) => (number as usize).checked_sub(1),
        Verdict::Yes | Verdict::Open => None,
    }
}

// Whether the turns of a row are asked for.
fn is_asked(asked: &Asked, notes: &[Note]) -> bool {
    match (notes.first(), notes.last()) {
        (Some(first), Some(last)) => asked.from <= last.turn() && first.turn() <= asked.to,
        _ => false,
    }
}

/// The page that is asked for, with its process as the script has it.
pub(crate) fn page_asked(script: &Script, page: &Option<AskedPage>) -> Page {
    let Some(asked) = page else {
        return Page::Any;
    };
    for p in 0..script.processes() {
        if let Some(proc) = ProcNo::new(u64::from(p))
            && process_name(script, proc) == asked.process.as_str()
        {
            return Page::One {
                proc,
                page: asked.page,
            };
        }
    }
    Page::Unknown
}

// The state that stands behind the notes before these that are left.
fn view_at(
    alloc: Global,
    _script: &Script,
    _notes: &[Note],
    _rest: &[Note],
    state: Option<Vec<KeptFact>>,
) -> Result<Option<View>, NoMemory>
    requires { IsStateAt _script.now _notes.now _rest.now (option_map (λ facts. facts.items) state) }
{
    match state {
        Some(facts) => Ok(Some(View::of(alloc, facts.as_slice())?)),
        None => Ok(None),
    }
}
