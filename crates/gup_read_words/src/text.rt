//! What a line's bytes, its words, and the numbers, places and names that words spell are.
ghost use Rattle.std.specs.Prelude.{◌≡◌, ◌^◌, ◌<◌, ◌≤◌, if◌then◌else◌, Some, None, map, option_map, OnOk, IfSome};
ghost use Rattle.std.specs.List.{list_all};
ghost use Rattle.std.specs.Option.{option_copied};
ghost use Rattle.gup_spec_grammar.specs.Spelling.{parts};
ghost use Rattle.gup_read_words.specs.WordCut.{IsCutAt, IsWordCut};
ghost use Rattle.gup_read_words.specs.Text.{is_printable, is_passed, are_spaced, is_padded, number_in, count_in, index_in, page_in, word_no_in, page_and_word_in, address_in, range_in, index_and_count_in, segment_in, turn_name, turn_times, is_name, is_name_byte};

use gup_base::{PageNo, WordNo};
use std::alloc::AllocError;

/// How many pages there are.
const PAGES: u64 = 1 << 35;

/// How many words a segment may have.
const MAX_SEGMENT: u64 = 64;

/// How many times a written turn may be repeated.
const MAX_TIMES: u64 = 1_000_000;

/// Whether each byte is one that a line may have: from the space to `~`.
pub fn is_printable(line: &[u8]) -> bool
    ensures { result ≡ is_printable line.now }
{
    line.iter().all(|b| matches!(b, b' '..=b'~'))
}

/// The line's bytes as text; `None` where a line may not have one of them.
pub fn line_text(line: &[u8]) -> Option<&str>
    ensures { option_copied result ≡ (if is_printable line.now then Some line.now else None) }
{
    if is_printable(line) {
        str::from_utf8(line).ok()
    } else {
        None
    }
}

/// Whether a reader passes the line over: it is empty or a comment, which begins with `#`.
pub fn is_passed(line: &[u8]) -> bool
    ensures { result ≡ is_passed line.now }
{
    match line {
        [] => true,
        [first, ..] => *first == b'#',
    }
}

/// What stands before the first such byte, which is ASCII, and what stands after it; `None` where there is none.
#[inline(always)]
fn cut_at(byte: u8, text: &str) -> Option<(&str, &str)>
    requires { byte < 128 }
    ensures { IsCutAt byte text.now result }
{
    let at = text.as_bytes().iter().position(|&b| b == byte)?;
    Some((&text[..at], &text[at + 1..]))
}

/// What stands before the first space, and what stands after it; `None` where there is no space.
#[inline(always)]
fn cut_word(line: &str) -> Option<(&str, &str)>
    ensures { IsWordCut line.now result }
{
    cut_at(b' ', line)
}

/// Puts the parts of the line between its spaces into the vector, in place of what it holds.
pub fn cut_words<'a>(line: &'a str, words: &mut Vec<&'a str>) -> Result<(), AllocError>
    ensures { OnOk result (map (λ word. word.now) words.new.items ≡ parts 32 line.now) }
{
    words.clear();
    let mut rest = line;
    while let Some((word, behind)) = cut_word(rest) {
        words.push(word)?;
        rest = behind;
    }
    words.push(rest)?;
    Ok(())
}

/// Whether no word is empty: the line that they were cut from has single spaces, and none at its ends.
pub fn are_spaced(words: &[&str]) -> bool
    ensures { result ≡ are_spaced (map (λ word. word.now) words.now) }
{
    words.iter().all(|word| !word.is_empty())
}

/// The number that the word is the decimal text of. `None` where it spells none, with a leading zero too, or one
/// that `u64` can't hold.
pub fn number(word: &str) -> Option<u64>
    ensures { result ≡ number_in word.now }
{
    let Ok(n) = word.parse::<u64>() else {
        return None;
    };
    if is_padded(word) { None } else { Some(n) }
}

/// Whether something stands in front that a number's decimal text never has: a plus, or a zero before another byte.
#[tactic(auto, unfolding(crate::specs::Text::is_padded))]
fn is_padded(word: &str) -> bool
    ensures { result ≡ is_padded word.now }
{
    match word.as_bytes() {
        [] => false,
        [first, rest @ ..] => *first == b'+' || (*first == b'0' && !rest.is_empty()),
    }
}

/// The number that the word spells, if it is at least `least` and at most `most`.
#[tactic(auto, unfolding(crate::specs::Text::count_in))]
pub fn count(least: u64, most: u64, word: &str) -> Option<u64>
    ensures found { result ≡ count_in least most word.now }
    ensures within { IfSome result (λ n. (least ≤ n) × (n ≤ most)) }
{
    let n = number(word)?;
    if (least..=most).contains(&n) {
        Some(n)
    } else {
        None
    }
}

/// The index or slot that the word spells; `None` for a number that `u32` can't hold, too.
#[tactic(auto, unfolding(crate::specs::Text::index_in))]
pub fn index(word: &str) -> Option<u32>
    ensures { result ≡ index_in word.now }
{
    u32::try_from(number(word)?).ok()
}

/// The page that the word spells; `None` from 2^35 on, too.
#[tactic(auto, unfolding(crate::specs::Text::page_in))]
pub fn page(word: &str) -> Option<PageNo>
    ensures { result ≡ page_in word.now }
{
    PageNo::new(number(word)?)
}

/// The word of a page that the word spells; `None` from 512 on, too.
#[tactic(auto, unfolding(crate::specs::Text::word_no_in))]
pub fn word_no(word: &str) -> Option<WordNo>
    ensures { result ≡ word_no_in word.now }
{
    WordNo::new(number(word)?)
}

#[tactic(auto, unfolding(crate::specs::Text::page_and_word_in))]
fn page_and_word(before: &str, after: &str) -> Option<(PageNo, WordNo)>
    ensures { result ≡ page_and_word_in before.now after.now }
{
    let page = page(before)?;
    let word = word_no(after)?;
    Some((page, word))
}

/// A page and a word in it, with a dot between them.
pub fn address(text: &str) -> Option<(PageNo, WordNo)>
    ensures { result ≡ address_in text.now }
{
    match cut_at(b'.', text) {
        None => None,
        Some((before, after)) => page_and_word(before, after),
    }
}

/// A page, and how many pages there are from it on: at least one, at most `most`, and none from 2^35 on.
#[tactic(auto, unfolding(crate::specs::Text::range_in))]
pub fn range(most: u64, first: &str, count: &str) -> Option<(PageNo, u16)>
    requires { most ≤ 1024 }
    ensures { result ≡ range_in most first.now count.now }
{
    let page = page(first)?;
    let n = number(count)?;
    if (1..=most).contains(&n) && page.get() + n <= PAGES {
        Some((page, n as u16))
    } else {
        None
    }
}

#[tactic(auto, unfolding(crate::specs::Text::index_and_count_in))]
fn index_and_count(before: &str, after: &str) -> Option<(u32, u8)>
    ensures { result ≡ index_and_count_in before.now after.now }
{
    let index = index(before)?;
    let n = segment_len(after)?;
    Some((index, n))
}

fn segment_len(word: &str) -> Option<u8>
    ensures { result ≡ count_in 1 64 word.now }
{
    let n = count(1, MAX_SEGMENT, word)?;
    Some(n as u8)
}

/// An index and how many words there are from it on, from 1 to 64, with a colon between them.
pub fn segment(text: &str) -> Option<(u32, u8)>
    ensures { result ≡ segment_in text.now }
{
    match cut_at(b':', text) {
        None => None,
        Some((before, after)) => index_and_count(before, after),
    }
}

/// A written turn's word: the name before its first `*`, and how often it says that its actor has a turn. That is the
/// number after the `*`, and once where there is none; `None` where the number isn't one from 1 to 1,000,000.
pub fn turn(word: &str) -> Option<(&str, u32)>
    ensures times { option_map (λ turn. turn.1) result ≡ turn_times word.now }
    ensures name { IfSome result (λ turn. turn.0.now ≡ turn_name word.now) }
{
    match cut_at(b'*', word) {
        None => Some((word, 1)),
        Some((name, times)) => repeated(name, times),
    }
}

fn repeated<'a>(name: &'a str, times: &str) -> Option<(&'a str, u32)>
    ensures times { option_map (λ turn. turn.1) result ≡ count_in 1 1000000 times.now }
    ensures name { IfSome result (λ turn. turn.0.now ≡ name.now) }
{
    let n = times_count(times)?;
    Some((name, n))
}

fn times_count(word: &str) -> Option<u32>
    ensures { result ≡ count_in 1 1000000 word.now }
{
    let n = count(1, MAX_TIMES, word)?;
    Some(n as u32)
}

/// Whether the word is 1 to 16 lowercase letters and digits, a letter first.
#[tactic(auto, unfolding(crate::specs::Text::is_name))]
pub fn is_name(word: &str) -> bool
    ensures { result ≡ is_name word.now }
{
    match word.as_bytes() {
        [] => false,
        [first, rest @ ..] => {
            first.is_ascii_lowercase() && rest.len() < 16 && are_name_bytes(rest)
        }
    }
}

fn are_name_bytes(bytes: &[u8]) -> bool
    ensures { result ≡ list_all is_name_byte bytes.now }
{
    bytes
        .iter()
        .all(|b| b.is_ascii_lowercase() || b.is_ascii_digit())
}
