//! The pieces of a script's text: lines, words, numbers, pages, addresses, segments and names.
#![tactic(auto)]

mod text;

pub use text::{
    address, are_spaced, count, cut_words, index, is_name, is_passed, is_printable, line_text,
    number, page, range, segment, turn, word_no,
};
