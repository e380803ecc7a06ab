//! How far a text is read: nothing, the head, or the `frames` line and all that stands after it.
ghost use Rattle.std.specs.Prelude.{◌≡◌, Ok, Err, map, MatchResult};
ghost use Rattle.gup_spec_grammar.specs.Outline.{frame_counts};
ghost use Rattle.gup_read.specs.Reading.{counts_in, frames_in, is_head, words_in, line_in};

use crate::declarations::next_line;
use crate::refusal::{Trouble, check};
use gup_read_outline::Reader;
use gup_read_words::{are_spaced, cut_words, is_passed, line_text, number};
use gup_spec_grammar::Reason;
use std::alloc::Global;

/// How many frames there may be in both zones.
const MAX_FRAMES: u64 = 1_024;

const MAX_TABLES: u64 = 8_192;

#[derive(Drop)]
pub enum Stage {
    BeforeHead,
    BeforeFrames,
    Open(Reader),
}

#[tactic(auto, unfolding(crate::specs::Reading::is_head))]
fn is_head(words: &[&str]) -> bool
    ensures { result ≡ is_head (map (λ word. word.now) words.now) }
{
    match words {
        [word, version] => *word == "gup" && *version == "1",
        _ => false,
    }
}

/// The numbers of a `frames` line.
#[tactic(auto, unfolding(crate::specs::Reading::counts_in))]
fn counts(movable: &str, normal: &str, tables: &str) -> Result<(u32, u32, u32), Reason>
    ensures { MatchResult result
        (λ counts. counts_in movable.now normal.now tables.now ≡ Ok (frame_counts counts))
        (λ reason. counts_in movable.now normal.now tables.now ≡ Err reason) }
{
    let movable = number(movable).ok_or(Reason::Frames)?;
    let normal = number(normal).ok_or(Reason::Frames)?;
    let tables = number(tables).ok_or(Reason::Frames)?;
    if movable <= MAX_FRAMES && normal <= MAX_FRAMES - movable && tables <= MAX_TABLES {
        Ok((movable as u32, normal as u32, tables as u32))
    } else {
        Err(Reason::Frames)
    }
}

#[tactic(auto, unfolding(crate::specs::Reading::frames_in))]
fn frames(words: &[&str]) -> Result<(u32, u32, u32), Reason>
    ensures { MatchResult result
        (λ counts. frames_in (map (λ word. word.now) words.now) ≡ Ok (frame_counts counts))
        (λ reason. frames_in (map (λ word. word.now) words.now) ≡ Err reason) }
{
    let [word, movable, normal, tables] = words else {
        return Err(Reason::Frames);
    };
    if *word == "frames" {
        counts(movable, normal, tables)
    } else {
        Err(Reason::Frames)
    }
}

impl Stage {
    ghost use Rattle.gup_read.specs.StageViews.{stage_value, LeadsTo};

    /// Goes on by a line with these words.
    #[tactic(auto, unfolding(crate::specs::Reading::words_in))]
    fn take_words(&mut self, alloc: Global, words: &[&str]) -> Result<(), Trouble>
        ensures { LeadsTo (words_in (stage_value self.old) (map (λ word. word.now) words.now)) self.new result }
    {
        match self {
            Stage::BeforeHead => {
                check(is_head(words), Reason::Head)?;
                *self = Stage::BeforeFrames;
                Ok(())
            }
            Stage::BeforeFrames => {
                let counts = frames(words)?;
                *self = Stage::Open(Reader::new(alloc, counts));
                Ok(())
            }
            Stage::Open(reader) => next_line(alloc, reader, words),
        }
    }

    /// Goes on by this line, which a line feed ends. Its words are put into the vector.
    #[tactic(auto, unfolding(crate::specs::Reading::line_in, crate::specs::Reading::said_in))]
    pub fn take_line<'a>(
        &mut self,
        alloc: Global,
        line: &'a [u8],
        words: &mut Vec<&'a str>,
    ) -> Result<(), Trouble>
        ensures { LeadsTo (line_in (stage_value self.old) line.now) self.new result }
    {
        let text = line_text(line).ok_or(Reason::Byte)?;
        if is_passed(line) {
            return Ok(());
        }
        cut_words(text, words)?;
        check(are_spaced(words.as_slice()), Reason::Space)?;
        self.take_words(alloc, words.as_slice())
    }
}
