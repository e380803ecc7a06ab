//! What the words after the program's name ask for.
ghost use Rattle.std.specs.Prelude.{◌≡◌, ℕ, List, IfSome, IfOk, MatchBool, MatchOption, None, map, string_bytes};
ghost use Rattle.gup_read_words.specs.WordCut.{IsCutAt};
ghost use Rattle.gup_spec_grammar.specs.Spelling.{IsCount};
ghost use Rattle.gup_picture.specs.Asking.{Wish, nothing, IsAsked, IsCommand, IsNew, with_choice, IsPageWord, IsAskedAs, first_shown, last_shown, last_turn};
ghost use Rattle.gup_picture.specs.Choices.{choice_of, wish_of, IsFirst, BeginsWithNone, IsValued, IsNoneValued};

use gup_base::{NoMemory, PageNo};
use gup_read_words::{count, is_name, page};
use gup_scene::{Asked, AskedPage};
use std::alloc::Global;

/// The number of the last turn that a run can have.
const LAST_TURN: u32 = 4_294_967_295;

/// A page of a process, by the process's name.
#[derive(Clone, Copy, Debug)]
pub struct NamedPage<'a> {
    pub process: &'a str,
    pub page: PageNo,
}

/// An option, with what stands behind it.
#[derive(Clone, Copy, Debug)]
enum Choice<'a> {
    Svg,
    Frames,
    From(u32),
    To(u32),
    Page(NamedPage<'a>),
}

/// What options ask.
#[derive(Clone, Copy, Debug)]
pub struct Wanted<'a> {
    /// An SVG, and not a text.
    pub svg: bool,
    pub frames: bool,
    pub from: Option<u32>,
    pub to: Option<u32>,
    pub page: Option<NamedPage<'a>>,
}

/// The option that words begin with, and the words behind it.
#[derive(Clone, Copy, Debug)]
struct First<'a> {
    choice: Choice<'a>,
    behind: &'a [String],
}

impl<'a> Wanted<'a> {
    // Nothing is asked.
    fn nothing() -> Wanted<'a>
        ensures { wish_of result ≡ nothing }
    {
        Wanted {
            svg: false,
            frames: false,
            from: None,
            to: None,
            page: None,
        }
    }

    // Asks for what this option says too, and answers whether that wasn't said already.
    fn add(&mut self, choice: &Choice<'a>) -> bool
        ensures { MatchBool result
            (IsNew (choice_of choice.now) (wish_of self.old) × (wish_of self.new ≡ with_choice (choice_of choice.now) (wish_of self.old)))
            (IsNew (choice_of choice.now) (wish_of self.old) → ⊥) }
    {
        match choice {
            Choice::Svg if !self.svg => self.svg = true,
            Choice::Frames if !self.frames => self.frames = true,
            Choice::From(turn) if self.from.is_none() => self.from = Some(*turn),
            Choice::To(turn) if self.to.is_none() => self.to = Some(*turn),
            Choice::Page(named) if self.page.is_none() => {
                self.page = Some(NamedPage {
                    process: named.process,
                    page: named.page,
                });
            }
            _ => return false,
        }
        true
    }

    /// The first turn that is shown.
    pub fn first(&self) -> u32
        ensures { result ≡ first_shown (wish_of self.now) }
    {
        self.from.unwrap_or(1)
    }

    /// The last turn that is shown.
    pub fn last(&self) -> u32
        ensures { result ≡ last_shown (wish_of self.now) }
    {
        self.to.unwrap_or(LAST_TURN)
    }

    /// The same with a text of its own.
    pub fn asked(&self, alloc: Global) -> Result<Asked, NoMemory>
        ensures { IfOk result (IsAskedAs (wish_of self.now)) }
    {
        let page = match &self.page {
            Some(named) => Some(named.asked(alloc)?),
            None => None,
        };
        Ok(Asked {
            from: self.first(),
            to: self.last(),
            page,
            frames: self.frames,
        })
    }
}

impl NamedPage<'_> {
    // The same with a name of its own.
    fn asked(&self, alloc: Global) -> Result<AskedPage, NoMemory>
        ensures process { IfOk result (λ page. string_bytes page.process ≡ self.now.process.now) }
        ensures page { IfOk result (λ page. page.page ≡ self.now.page) }
    {
        Ok(AskedPage {
            process: String::from_str(alloc, self.process)?,
            page: self.page,
        })
    }
}

/// What the words ask, if they ask something: each of the options `--svg`, `--frames`, `--from T`, `--to T` and `--page P.p` at most once,
/// in any order, and no turn T behind `--from` that is after the one behind `--to`.
pub fn wanted_in(words: &[String]) -> Option<Wanted<'_>>
    ensures found { IfSome result (λ wanted. IsAsked (map string_bytes words.now) (wish_of wanted)) }
    ensures one { IfSome result (λ wanted. (wish : Wish) → IsAsked (map string_bytes words.now) wish → wish ≡ wish_of wanted) }
    ensures none { result ≡ None → IsCommand (map string_bytes words.now) → ⊥ }
{
    let mut wanted = Wanted::nothing();
    let mut rest = words;
    while !rest.is_empty() {
        let Some(first) = first_choice(rest) else {
            return None;
        };
        if !wanted.add(&first.choice) {
            return None;
        }
        rest = first.behind;
    }
    if wanted.first() <= wanted.last() {
        Some(wanted)
    } else {
        None
    }
}

// The option that the words begin with, if they begin with one.
fn first_choice(words: &[String]) -> Option<First<'_>>
    ensures { MatchOption result (BeginsWithNone (map string_bytes words.now))
        (λ first. IsFirst (map string_bytes words.now) (choice_of first.choice) (map string_bytes first.behind.now)) }
{
    let [option, behind @ ..] = words else {
        return None;
    };
    if option.as_str() == "--svg" {
        return Some(First {
            choice: Choice::Svg,
            behind,
        });
    }
    if option.as_str() == "--frames" {
        return Some(First {
            choice: Choice::Frames,
            behind,
        });
    }
    let [value, behind @ ..] = behind else {
        return None;
    };
    match valued(option.as_str(), value.as_str()) {
        Some(choice) => Some(First { choice, behind }),
        None => None,
    }
}

// The option of these two words.
fn valued<'a>(option: &str, value: &'a str) -> Option<Choice<'a>>
    ensures { MatchOption result (IsNoneValued option.now value.now)
        (λ choice. IsValued option.now value.now (choice_of choice)) }
{
    match option {
        "--from" => match turn(value) {
            Some(turn) => Some(Choice::From(turn)),
            None => None,
        },
        "--to" => match turn(value) {
            Some(turn) => Some(Choice::To(turn)),
            None => None,
        },
        "--page" => match named_page(value) {
            Some(named) => Some(Choice::Page(named)),
            None => None,
        },
        _ => None,
    }
}

// The number of a turn, from 1 to 4,294,967,295.
fn turn(word: &str) -> Option<u32>
    ensures { MatchOption result ((n : ℕ) → IsCount 1 last_turn word.now n → ⊥) (IsCount 1 last_turn word.now) }
{
    match count(1, u64::from(LAST_TURN), word) {
        Some(n) => Some(n as u32),
        None => None,
    }
}

// A page: its process's name, a dot, and its number.
fn named_page(word: &str) -> Option<NamedPage<'_>>
    ensures { MatchOption result ((process : List ℕ) (page : ℕ) → IsPageWord word.now process page → ⊥)
        (λ named. IsPageWord word.now named.process.now named.page) }
{
    let Some((process, number)) = cut_at_dot(word) else {
        return None;
    };
    if !is_name(process) {
        return None;
    }
    match page(number) {
        Some(page) => Some(NamedPage { process, page }),
        None => None,
    }
}

// What stands before the first dot, and what stands after it; `None` where there is none.
fn cut_at_dot(text: &str) -> Option<(&str, &str)>
    ensures { IsCutAt 46 text.now result }
{
    let at = text.as_bytes().iter().position(|&b| b == b'.')?;
    Some((&text[..at], &text[at + 1..]))
}
