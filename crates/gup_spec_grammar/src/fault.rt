//! Why a text is no script.

/// Why a script is refused. In a line that has several of these faults, the first in this order is told.
#[derive(Clone, Copy, Debug, PartialEq, Eq)]
pub enum Reason {
    /// The text has more than 1,048,576 bytes. This goes before all others, and its line is 0.
    Long,
    /// A byte other than 32 to 126.
    Byte,
    /// The text ends in this line without a line feed.
    End,
    /// A space at the front, at the end, or next to another.
    Space,
    /// The first line that isn't passed over isn't `gup 1`.
    Head,
    /// The second isn't a `frames` line with three numbers in range.
    Frames,
    /// No line, or no operation of this kind of actor, has this word.
    Word,
    /// The line can't have so many words, or a fixed word is spelled otherwise.
    Shape,
    /// A number, page, address, range, count or segment that isn't spelled right or is out of its range.
    Number,
    /// A name that isn't spelled right, isn't declared, or is of another kind than its place needs.
    Name,
    /// A name that is declared already, a second `seed` or `mover`, or a second `fork` of a child.
    Twice,
    /// The line passes one of the counts that a script is held to.
    Limit,
    /// The line is right, and its operation isn't built yet. No line of version 1 is refused so.
    Later,
    /// The text ends before its `frames` line. The line is the one after the last.
    Short,
    /// In a trace, a line behind `journal` that is no note. No script is refused so.
    Note,
}

/// The first fault of a text that is no script: its line, from 1, or 0 for the text as a whole, and the reason.
#[derive(Clone, Copy, Debug, PartialEq, Eq)]
pub struct ScriptFault {
    pub line: u32,
    pub reason: Reason,
}

/// What `read_script` answers instead of a script.
#[derive(Clone, Copy, Debug, PartialEq, Eq)]
pub enum ReadRefusal {
    /// The text is no script.
    Fault(ScriptFault),
    /// The program's own memory ran out.
    NoMemory,
}
