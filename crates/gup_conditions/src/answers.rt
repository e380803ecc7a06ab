//! Which answers an operation can give, by the words of their texts.
ghost use Rattle.std.specs.Prelude.{◌≡◌, ◌==◌, map};
ghost use Rattle.gup_base.specs.Parts.{words_of};
ghost use Rattle.gup_conditions.specs.Answers.{can_answer, can_follow, is_refusal, is_refusing, is_cause, is_success, is_one_number, is_number, is_within, are_pinned, are_moved, is_counting};

use gup_base::Parts;
use gup_read_words::{count, number};
use gup_script::Op;

/// Whether the operation can answer with these words.
pub(crate) fn can_answer(op: &Op, words: &[&str]) -> bool
    ensures { result ≡ can_answer op.now (map (λ word. word.now) words.now) }
{
    is_refusal(words) || is_success(op, words)
}

// A refusal, of any operation.
fn is_refusal(words: &[&str]) -> bool
    ensures { result ≡ is_refusal (map (λ word. word.now) words.now) }
{
    match words {
        [word] => is_refusing(word),
        [word, count] => is_counting(word) && is_number(count),
        _ => false,
    }
}

fn is_refusing(word: &str) -> bool
    ensures { result ≡ is_refusing word.now }
{
    word == "missing"
        || word == "forbidden"
        || word == "noframe"
        || word == "notheld"
        || word == "range"
        || word == "overlap"
        || word == "full"
        || word == "untouched"
        || word == "stale"
        || word == "unborn"
}

// A word that says how many references a page's frame has.
fn is_counting(word: &str) -> bool
    ensures { result ≡ is_counting word.now }
{
    word == "unmovable" || word == "busy"
}

// Why a pin stopped short.
fn is_cause(words: &[&str]) -> bool
    ensures { result ≡ is_cause (map (λ word. word.now) words.now) }
{
    match words {
        [word] => *word == "missing" || *word == "forbidden" || *word == "noframe",
        [word, count] => *word == "unmovable" && is_number(count),
        _ => false,
    }
}

// `ok`, with what the operation tells.
fn is_success(op: &Op, words: &[&str]) -> bool
    ensures { result ≡ is_success op.now (map (λ word. word.now) words.now) }
{
    match words {
        [word, more @ ..] => *word == "ok" && can_follow(op, more),
        [] => false,
    }
}

// What stands behind `ok`.
fn can_follow(op: &Op, words: &[&str]) -> bool
    ensures { result ≡ can_follow op.now (map (λ word. word.now) words.now) }
{
    match op {
        Op::Load { .. } | Op::Look { .. } => is_one_number(words),
        Op::Pin { n, .. } => are_pinned(*n, words),
        Op::Transfer { parts, .. } => are_moved(parts, words),
        _ => words.is_empty(),
    }
}

fn is_one_number(words: &[&str]) -> bool
    ensures { result ≡ is_one_number (map (λ word. word.now) words.now) }
{
    match words {
        [word] => is_number(word),
        _ => false,
    }
}

// All pages of a pin, or fewer and why.
fn are_pinned(n: u8, words: &[&str]) -> bool
    ensures { result ≡ are_pinned n (map (λ word. word.now) words.now) }
{
    let n = u64::from(n);
    match words {
        [pages] => is_within(n, n, pages),
        [got, of, wanted, cause @ ..] => {
            is_within(1, n.saturating_sub(1), got)
                && *of == "of"
                && is_within(n, n, wanted)
                && is_cause(cause)
        }
        _ => false,
    }
}

// The words of a transfer.
fn are_moved(parts: &Parts, words: &[&str]) -> bool
    ensures { result ≡ are_moved (words_of parts.now) (map (λ word. word.now) words.now) }
{
    has_words(parts.as_slice(), words.len()) && words.iter().all(|word| is_number(word))
}

// Whether the parts have so many words.
fn has_words(parts: &[(u32, u8)], n: usize) -> bool
    ensures { result ≡ (n == words_of parts.now) }
{
    let mut left = n;
    for part in parts {
        let count = usize::from(part.1);
        if left < count {
            return false;
        }
        left -= count;
    }
    left == 0
}

fn is_number(word: &str) -> bool
    ensures { result ≡ is_number word.now }
{
    number(word).is_some()
}

fn is_within(least: u64, most: u64, word: &str) -> bool
    ensures { result ≡ is_within least most word.now }
{
    count(least, most, word).is_some()
}
