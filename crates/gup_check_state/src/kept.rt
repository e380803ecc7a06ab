//! What is kept, and its start.
ghost use Rattle.std.specs.Prelude.{◌≡◌, ◌<◌, IfOk, MatchOption, Some, None, length, slice_get};
ghost use Rattle.std.specs.Option.{option_copied};
ghost use Rattle.gup_script.specs.Valid.{IsScript};
ghost use Rattle.gup_spec_check.specs.Seen.{seen_first};
ghost use Rattle.gup_spec_check.specs.Times.{times_first};
ghost use Rattle.gup_check_state.specs.Presence.{op_at};
ghost use Rattle.gup_check_state.specs.Shows.{Shows, IsFirst};

use gup_base::{ActorNo, NoMemory};
use gup_check_course::{Course, Step};
use gup_check_pages::{Mapped, first_page};
use gup_check_plain::{References, start};
use gup_exec_plain::Plain;
use gup_script::{Op, Script};
use std::alloc::Global;

/// How far an actor has come.
#[derive(Clone, Copy, Debug)]
pub struct Progress {
    /// How many operations it has answered.
    pub answered: usize,
    /// How far the next one has come, by its events.
    pub course: Course,
    /// Whether that one has had a turn.
    pub has_begun: bool,
    /// The number of the actor's last note of an event or an answer, and 0 before the first.
    pub said: u64,
    /// The page that the operation comes to next, if it goes page by page.
    pub next: u64,
}

/// What is kept of the notes so far.
#[derive(Drop)]
pub struct Kept {
    /// The plain state that their events have led to.
    pub plain: Plain,
    /// Who has got which reference.
    pub references: References,
    /// Which note mapped each page.
    pub mapped: Mapped,
    /// The actors of the script.
    pub actors: Vec<Progress>,
    /// The turn and the actor of the last note.
    pub last: Option<(u32, ActorNo)>,
    /// How many notes there are.
    pub count: u64,
}

/// What a note that fits makes of its actor's operation.
#[derive(Clone, Copy, Debug)]
pub enum Fit {
    /// Nothing: it is no event and no answer.
    Stays,
    /// Its event or answer goes a step on.
    Steps(Step),
}

// The actor at its first operation.
fn first_progress(script: &Script, actor: ActorNo) -> Progress
    requires { actor < length script.now.actors }
    ensures { IsFirst script.now actor result }
{
    Progress {
        answered: 0,
        course: Course::Start,
        has_begun: false,
        said: 0,
        next: first_page(script.ops(actor).first()),
    }
}

impl Kept {
    /// What is kept before the first note.
    pub fn start(alloc: Global, script: &Script) -> Result<Kept, NoMemory>
        ensures { IfOk result (λ kept. Shows script.now kept (seen_first script.now) times_first) }
    {
        let mut actors = Vec::new(alloc);
        for a in 0..script.actors() {
            let actor = ActorNo::new(u64::from(a)).unwrap();
            actors.push(first_progress(script, actor))?;
        }
        Ok(Kept {
            plain: start(alloc, script)?,
            references: References::new(alloc),
            mapped: Mapped::new(alloc)?,
            actors,
            last: None,
            count: 0,
        })
    }

    /// How far the actor has come; `None` where the script has no such actor.
    pub fn progress(&self, actor: ActorNo) -> Option<&Progress>
        ensures { MatchOption result (slice_get self.now.actors.items actor ≡ None)
            (λ progress. slice_get self.now.actors.items actor ≡ Some progress.now) }
    {
        self.actors.get(actor.get() as usize)
    }

    /// The operation that the actor is at; `None` where it has answered all, and where the script has no such actor.
    pub fn present_op<'s>(&self, script: &'s Script, actor: ActorNo) -> Option<&'s Op>
        ensures op { option_copied result ≡ op_at script.now actor (slice_get self.now.actors.items actor) }
        ensures valid { IsScript script.now }
    {
        if u64::from(script.actors()) <= actor.get() {
            return None;
        }
        let progress = self.progress(actor)?;
        script.ops(actor).get(progress.answered)
    }
}
