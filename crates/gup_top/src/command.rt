//! What the words after the program's name ask for.
ghost use Rattle.std.specs.Prelude.{◌≡◌, ◌↔◌, [], ◌∷◌, IsTrue, IfSome, None, map, string_bytes};
ghost use Rattle.gup_top.specs.Report.{RunsScript, IsChecked, IsSerial, IsLiveIn, RunsLive, IsAsked};

use gup_read_words::number;

/// How a run is told.
#[derive(Clone, Copy, Debug, PartialEq, Eq)]
pub enum Format {
    /// By its answers.
    Answers,
    /// By the script and all notes of its journal.
    Trace,
}

/// A command that needs no threads.
#[derive(Clone, Copy, Debug)]
pub enum Command {
    /// `run` or `trace`: run the script that the source has, and tell the run so.
    Run(Format),
    /// `check`: judge the trace that the source has.
    Check,
    /// `make N`: run the script that is made from this number.
    Make(u64),
}

/// The command without threads that the words are, if they are one. A number has no sign and no zero in front, and is below 2^64.
pub fn command_of(words: &[String]) -> Option<Command>
    ensures found { IfSome result (IsAsked (map string_bytes words.now)) }
    ensures none { result ≡ None → IsSerial (map string_bytes words.now) → ⊥ }
{
    match words {
        [word] => one_word(word.as_str()),
        [word, count] if word.as_str() == "make" => Some(Command::Make(number(count.as_str())?)),
        _ => None,
    }
}

// The command that is one word.
fn one_word(word: &str) -> Option<Command>
    ensures found { IfSome result (IsAsked (word.now ∷ [])) }
    ensures none { result ≡ None → (RunsScript (word.now ∷ []) → ⊥) × (IsChecked (word.now ∷ []) → ⊥) }
{
    match word {
        "run" => Some(Command::Run(Format::Answers)),
        "trace" => Some(Command::Run(Format::Trace)),
        "check" => Some(Command::Check),
        _ => None,
    }
}

/// How the run is to be told that is asked for, where the words are `live` or `live trace`.
pub fn live_format(words: &[String]) -> Option<Format>
    ensures found { IfSome result (IsLiveIn (map string_bytes words.now)) }
    ensures none { result ≡ None → RunsLive (map string_bytes words.now) → ⊥ }
{
    match words {
        [word] => live_word(word.as_str()),
        [word, told] => live_words(word.as_str(), told.as_str()),
        _ => None,
    }
}

// The same of one word.
fn live_word(word: &str) -> Option<Format>
    ensures found { IfSome result (IsLiveIn (word.now ∷ [])) }
    ensures none { result ≡ None → RunsLive (word.now ∷ []) → ⊥ }
{
    match word {
        "live" => Some(Format::Answers),
        _ => None,
    }
}

// The same of two words.
fn live_words(word: &str, told: &str) -> Option<Format>
    ensures found { IfSome result (IsLiveIn (word.now ∷ told.now ∷ [])) }
    ensures none { result ≡ None → RunsLive (word.now ∷ told.now ∷ []) → ⊥ }
{
    match (word, told) {
        ("live", "trace") => Some(Format::Trace),
        _ => None,
    }
}
