//! A word of a line, before it is spelled.

/// A text, a number, the name of a handle by its letter and its number, or an address by its page and its word.
#[derive(Clone, Copy)]
pub enum Word<'a> {
    Text(&'a str),
    Number(u64),
    Name(&'a str, u64),
    Address(u64, u64),
}
