//! What the words after the program's name ask for.
ghost use Rattle.std.specs.Prelude.{◌≡◌, IfSome, None, map, string_bytes};
ghost use Rattle.gup_orders.specs.Report.{IsCommand, IsAsked, IsLimited};

use gup_read_words::number;

/// How many states a search goes over at most, where nothing is said of it.
const USUAL_LIMIT: usize = 1_000_000;

/// What is asked: the orders from the start, or behind the written turns, over at most so many states.
#[derive(Clone, Copy, Debug)]
pub struct Asked {
    pub behind: bool,
    pub limit: usize,
}

/// What the words ask, if they ask something: `behind` or not, and then `--limit N` or not, with a number below 2^64 that has no sign and
/// no zero in front.
pub fn asked_in(words: &[String]) -> Option<Asked>
    ensures found { IfSome result (λ asked. IsAsked (map string_bytes words.now) asked.behind asked.limit) }
    ensures none { result ≡ None → IsCommand (map string_bytes words.now) → ⊥ }
{
    match words {
        [] => Some(usual(false)),
        [word] if word.as_str() == "behind" => Some(usual(true)),
        [word, limit] if word.as_str() == "--limit" => limited(false, limit.as_str()),
        [first, word, limit] if first.as_str() == "behind" && word.as_str() == "--limit" => {
            limited(true, limit.as_str())
        }
        _ => None,
    }
}

fn usual(behind: bool) -> Asked
    ensures behind { result.behind ≡ behind }
    ensures limit { result.limit ≡ 1000000 }
{
    Asked {
        behind,
        limit: USUAL_LIMIT,
    }
}

fn limited(behind: bool, word: &str) -> Option<Asked>
    ensures { IsLimited behind word.now result }
{
    let limit = number(word)?;
    Some(Asked {
        behind,
        limit: limit as usize,
    })
}
