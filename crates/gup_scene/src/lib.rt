//! What a picture of a trace shows: a lane for each actor, and a row for each turn, or for like turns one after another. All text is of
//! the bytes 32 to 126.
#![tactic(auto)]

use gup_base::PageNo;

/// What is to be shown.
#[derive(Debug, Drop)]
pub struct Asked {
    /// The first and the last turn.
    pub from: u32,
    pub to: u32,
    /// The page that alone is shown, if there is one.
    pub page: Option<AskedPage>,
    /// Behind each turn each frame that has a reference, and not only what the turn has changed.
    pub frames: bool,
}

/// A page, by its process's name.
#[derive(Debug, Drop)]
pub struct AskedPage {
    pub process: String,
    pub page: PageNo,
}

/// A picture's content.
#[derive(Debug, Drop)]
pub struct Scene {
    /// What is said of the whole, a line each.
    pub head: Vec<Vec<u8>>,
    pub lanes: Vec<Lane>,
    pub rows: Vec<Row>,
}

/// An actor: its name, and what it is: `thread of p`, `device`, `mover`.
#[derive(Debug, Drop)]
pub struct Lane {
    pub name: Vec<u8>,
    pub role: Vec<u8>,
}

/// A turn, or like turns one after another.
#[derive(Debug, Drop)]
pub struct Row {
    /// The numbers of the first turn and of the last one, which are the same where there is one.
    pub first: u32,
    pub last: u32,
    /// The place of its actor's lane.
    pub lane: usize,
    /// What it tells, in order.
    pub said: Vec<Said>,
    /// What is so behind it: of frames, words, slots, and processes.
    pub state: Vec<Shown>,
    /// The locks that each lane's actor holds behind it. Empty where the state isn't known.
    pub held: Vec<Held>,
}

/// A line of what a turn tells.
#[derive(Debug, Drop)]
pub struct Said {
    pub kind: SaidKind,
    pub text: Vec<u8>,
}

#[derive(Clone, Copy, Debug, PartialEq, Eq)]
pub enum SaidKind {
    /// Something happens in the plain model.
    Event,
    /// A step that the plain model doesn't have.
    Step,
    /// The actor waits, or has finished.
    Wait,
    /// The operation ends.
    Answer,
    /// The first note that can't be, whatever it says.
    Wrong,
}

/// A line of what is so behind a turn.
#[derive(Debug, Drop)]
pub struct Shown {
    pub kind: ShownKind,
    pub text: Vec<u8>,
}

#[derive(Clone, Copy, Debug, PartialEq, Eq)]
pub enum ShownKind {
    /// A frame, with what names it.
    Frame,
    /// A word of a frame.
    Word,
    /// A mirror slot.
    Slot,
    /// A process: its sequence, and whether it has pinned.
    Process,
    /// A remark on the trace.
    Remark,
}

/// The locks of its process, or of the one that it works on, that an actor holds between two turns.
#[derive(Clone, Copy, Debug, PartialEq, Eq)]
pub enum Held {
    Nothing,
    /// The structure lock (Linux: `mmap_lock`).
    Structure,
    /// The table lock (Linux: the page table's lock).
    Table,
    Both,
}
