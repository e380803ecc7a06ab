/// What an operation answers where it ends: the first five say what it did, the others why it was refused.
#[derive(Clone, Copy, Debug, PartialEq, Eq, Hash)]
pub enum Answer {
    /// It is done.
    Plain,
    /// It read this word.
    Value(u64),
    /// All its pages are pinned, so many, from 1 to 16.
    Pinned(u8),
    /// Of the `wanted` pages of a pin the first `got` are pinned, at least one; the page after them was refused.
    Short { got: u8, wanted: u8, cause: Cause },
    /// It moved words. The events of the transfer have them.
    Words,
    /// The page has no mapping.
    Missing,
    /// The page's rights don't allow a write, or the handle's pin was made to read.
    Forbidden,
    /// The page's frame has this many references, and not 1, so that it can't leave the movable zone for a
    /// long-term pin.
    Unmovable(u64),
    /// No frame of the allowed zones is free.
    NoFrame,
    /// The actor doesn't hold the handle.
    NotHeld,
    /// A word lies past the pinned pages, or a slot past the device's store.
    Range,
    /// A page of the range is mapped already.
    Overlap,
    /// The process would have more than 1,024 mapped pages.
    Full,
    /// The page's frame has this many references, and not 1, so that it can't move.
    Busy(u64),
    /// The page has no entry, so there is nothing to move.
    Untouched,
    /// The mirror slot is empty.
    Stale,
    /// The operation is of a process, or names one, that never came into being: the fork that was to bring it
    /// failed.
    Unborn,
}

/// Why the page after a short pin was refused.
#[derive(Clone, Copy, Debug, PartialEq, Eq, Hash)]
pub enum Cause {
    /// The page has no mapping.
    Missing,
    /// The pin is to write, and the page's rights don't allow it.
    Forbidden,
    /// No frame of the allowed zones is free.
    NoFrame,
    /// The page's frame has this many references, and not 1, so that it can't leave the movable zone.
    Unmovable(u64),
}
