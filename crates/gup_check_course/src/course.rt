use gup_plain::Answer;

/// How far an operation has come, by its events and answers.
#[derive(Clone, Copy, Debug, PartialEq, Eq)]
pub enum Course {
    /// It has had neither.
    Start,
    /// An unmap or a discard: its next event is of this page or a later one. Of an exit the number is 0.
    Taking(u64),
    /// A transfer has moved so many words, and not yet all.
    Moved(u8),
    /// A fork: its next page is this one or a later one.
    Forking(u64),
    /// A fork copies a page, and this word of it is the next.
    Copying { page: u64, word: u16 },
    /// A fast pin has taken so many pages, and dropped none.
    Walking(u8),
    /// A fast pin has dropped the page that it took last, and has so many left, at least one.
    Stopped(u8),
    /// A fast pin drops all pages that it has taken: so many of so many.
    Dropping { dropped: u8, pages: u8 },
    /// A pin that goes slowly has taken so many pages.
    Slow(u8),
    /// A pin has made its handle of so many pages, fewer than it wants.
    Short(u8),
    /// All its events have come, and this is its answer.
    Closing(Answer),
}

/// What a note makes of an operation.
#[derive(Clone, Copy, Debug, PartialEq, Eq)]
pub enum Step {
    /// It goes on.
    On(Course),
    /// It has ended.
    Ended,
}
