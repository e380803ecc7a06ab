//! What a silent turn has done, by where its job stood before it and behind it.
use gup_base::{Entry, NoMemory, PageNo};
use gup_lines::{push_number, push_text};
use gup_op_base::{JobPlace, WalkPlace};

/// Appends what the step was, if that can be told, and answers whether it was.
pub(crate) fn push_step(
    before: &JobPlace,
    after: &JobPlace,
    text: &mut Vec<u8>,
) -> Result<bool, NoMemory> {
    let length = text.len();
    match after {
        JobPlace::Unbegun => push_end(before, text)?,
        JobPlace::From(_) => push_text(text, "gives the copy to the child")?,
        JobPlace::At(page) => push_page("counts page ", *page, ": to be shared", text)?,
        JobPlace::Wanting(page) => push_page("counts page ", *page, ": to be copied", text)?,
        JobPlace::Copying { to, .. } => push_frame("takes frame ", to.get(), " for a copy", text)?,
        JobPlace::Cleared { page, .. } => {
            push_page("clears the entry of page ", *page, "", text)?;
        }
        JobPlace::Single { entry, .. } => push_count(entry, 1, text)?,
        JobPlace::Shared { entry, count, .. } => push_count(entry, *count, text)?,
        JobPlace::Walking {
            place,
            page,
            sequence,
        } => push_walk(before, place, *page, *sequence, text)?,
    }
    Ok(text.len() > length)
}

// The last step of a job.
fn push_end(before: &JobPlace, text: &mut Vec<u8>) -> Result<(), NoMemory> {
    let step = match before {
        JobPlace::Walking { place, .. } => match place {
            WalkPlace::Entered => "reads the sequence: odd",
            _ => "reads the sequence again",
        },
        JobPlace::Single { .. } => "enters the new frame",
        JobPlace::Shared { .. } => "puts the entry back",
        JobPlace::Copying { .. } => "gives the copy to the child",
        _ => "",
    };
    push_text(text, step)
}

fn push_page(front: &str, page: PageNo, behind: &str, text: &mut Vec<u8>) -> Result<(), NoMemory> {
    push_text(text, front)?;
    push_number(text, page.get())?;
    push_text(text, behind)
}

fn push_count(entry: &Entry, count: u64, text: &mut Vec<u8>) -> Result<(), NoMemory> {
    push_text(text, "counts frame ")?;
    push_number(text, entry.frame.get())?;
    push_text(text, ": ")?;
    push_number(text, count)
}

fn push_frame(front: &str, frame: u64, behind: &str, text: &mut Vec<u8>) -> Result<(), NoMemory> {
    push_text(text, front)?;
    push_number(text, frame)?;
    push_text(text, behind)
}

// A step of a lockless walk, which is at this place behind it.
fn push_walk(
    before: &JobPlace,
    place: &WalkPlace,
    page: PageNo,
    sequence: u64,
    text: &mut Vec<u8>,
) -> Result<(), NoMemory> {
    let JobPlace::Walking { place: was, .. } = before else {
        return push_text(text, "marks its process as one that has pinned");
    };
    match place {
        WalkPlace::Ready => push_ready(was, sequence, text),
        WalkPlace::Read { entry, .. } => {
            push_page("reads the entry of page ", page, ": ", text)?;
            push_frame("frame ", entry.frame.get(), "", text)
        }
        WalkPlace::Grabbed { entry, .. } => push_frame("grabs frame ", entry.frame.get(), "", text),
        WalkPlace::Differed(_) => push_text(text, "reads the entry again: not the same"),
        WalkPlace::Refused => push_text(text, "the frame isn't exclusive"),
        WalkPlace::Stopped => push_stop(was, text),
        WalkPlace::Dropping => push_text(text, "reads the sequence again: another"),
        WalkPlace::Entered | WalkPlace::Rechecked(_) => Ok(()),
    }
}

// The step behind which the walk is ready for a page.
fn push_ready(was: &WalkPlace, sequence: u64, text: &mut Vec<u8>) -> Result<(), NoMemory> {
    match was {
        WalkPlace::Entered => push_frame("reads the sequence: ", sequence, "", text),
        WalkPlace::Rechecked(entry) => {
            push_frame("frame ", entry.frame.get(), " is exclusive: kept", text)
        }
        _ => Ok(()),
    }
}

// The step behind which the walk has stopped.
fn push_stop(was: &WalkPlace, text: &mut Vec<u8>) -> Result<(), NoMemory> {
    match was {
        WalkPlace::Read { entry, .. } => {
            push_frame("frame ", entry.frame.get(), " is free: grabs nothing", text)
        }
        WalkPlace::Differed(frame) => push_frame("drops frame ", frame.get(), "", text),
        _ => push_text(text, "reads an entry that is none to take"),
    }
}
