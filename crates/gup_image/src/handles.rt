//! The facts of handles and mirror slots.
ghost use Rattle.std.specs.Prelude.{◌≡◌, ◌++◌, ◌≤◌, ◌<◌, length, OnOk, [], ◌∷◌};
ghost use Rattle.gup_script.specs.Limits.{most_handles, most_mirrors};
ghost use Rattle.gup_handles.specs.Handles.{handles_of};
ghost use Rattle.gup_notify.specs.Mirrors.{mirrors_of};
ghost use Rattle.gup_image.specs.declared.fact.Fact.TheVariants.{Pin, Pinned};
ghost use Rattle.gup_image.specs.Gathered.{gathered, along};
ghost use Rattle.gup_image.specs.Image.{handle_facts, slot_fact};

use crate::fact::{Fact, KeptFact, put};
use gup_base::{ActorNo, FrameNo, HandleNo, MirrorNo, NoMemory};
use gup_handles::{HandleState, Handles};
use gup_notify::Mirrors;

// How many handles and slots a number can name.
const HANDLES: u16 = 1024;

const SLOTS: u8 = 64;

/// Those of all handles.
pub(crate) fn push_handles(facts: &mut Vec<KeptFact>, handles: &Handles) -> Result<(), NoMemory>
    ensures { OnOk result (facts.new.items
        ≡ facts.old.items ++ gathered (λ h. handle_facts h (handles_of handles.now h)) most_handles) }
{
    for h in 0..HANDLES {
        push_handle(facts, handles, handle_no(h))?;
    }
    Ok(())
}

fn handle_no(h: u16) -> HandleNo
    requires { h < 1024 }
    ensures { result ≡ h }
{
    HandleNo::new(u64::from(h)).unwrap()
}

fn push_handle(
    facts: &mut Vec<KeptFact>,
    handles: &Handles,
    handle: HandleNo,
) -> Result<(), NoMemory>
    ensures { OnOk result (facts.new.items ≡ facts.old.items ++ handle_facts handle (handles_of handles.now handle)) }
{
    match handles.state(handle) {
        HandleState::Unmade => {}
        HandleState::Held { by, frames, write } => {
            push_pin(facts, handle, by, false, write, frames)?;
        }
        HandleState::Given { to, frames, write } => {
            push_pin(facts, handle, to, true, write, frames)?;
        }
        HandleState::Got { by, frame } => put(
            facts,
            Fact::Got {
                actor: by,
                frame,
                handle,
            },
        )?,
        HandleState::Gone => put(facts, Fact::Gone { handle })?,
    }
    Ok(())
}

fn push_pin(
    facts: &mut Vec<KeptFact>,
    handle: HandleNo,
    actor: ActorNo,
    given: bool,
    write: bool,
    frames: &[FrameNo],
) -> Result<(), NoMemory>
    requires { length frames.now ≤ 16 }
    ensures { OnOk result (facts.new.items ≡ facts.old.items
        ++ Pin actor given write handle ∷ along (λ k frame. Pinned k frame handle ∷ []) frames.now) }
{
    put(
        facts,
        Fact::Pin {
            actor,
            given,
            write,
            handle,
        },
    )?;
    push_pinned(facts, handle, frames)
}

fn push_pinned(
    facts: &mut Vec<KeptFact>,
    handle: HandleNo,
    frames: &[FrameNo],
) -> Result<(), NoMemory>
    requires { length frames.now ≤ 16 }
    ensures { OnOk result (facts.new.items ≡ facts.old.items ++ along (λ k frame. Pinned k frame handle ∷ []) frames.now) }
{
    for place in 0..frames.len() {
        let frame = frames[place];
        put(
            facts,
            Fact::Pinned {
                place: place as u8,
                frame,
                handle,
            },
        )?;
    }
    Ok(())
}

/// Those of all mirror slots.
pub(crate) fn push_slots(facts: &mut Vec<KeptFact>, mirrors: &Mirrors) -> Result<(), NoMemory>
    ensures { OnOk result (facts.new.items
        ≡ facts.old.items ++ gathered (λ m. slot_fact m (mirrors_of mirrors.now m)) most_mirrors) }
{
    for m in 0..SLOTS {
        push_slot(facts, mirrors, mirror_no(m))?;
    }
    Ok(())
}

fn mirror_no(m: u8) -> MirrorNo
    requires { m < 64 }
    ensures { result ≡ m }
{
    MirrorNo::new(u64::from(m)).unwrap()
}

fn push_slot(facts: &mut Vec<KeptFact>, mirrors: &Mirrors, mirror: MirrorNo) -> Result<(), NoMemory>
    ensures { OnOk result (facts.new.items ≡ facts.old.items ++ slot_fact mirror (mirrors_of mirrors.now mirror)) }
{
    if let Some(filled) = mirrors.slot(mirror) {
        put(
            facts,
            Fact::Filled {
                mirror,
                proc: filled.proc,
                frame: filled.frame,
                page: filled.page,
            },
        )?;
    }
    Ok(())
}
