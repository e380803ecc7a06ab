//! The reader of a script's text.
ghost use Rattle.std.specs.Prelude.{◌≡◌, ◌+◌, ◌≤◌, length, if◌then◌else◌, nat_lt, IfOk, IfErr, Some, None, ℕ};
ghost use Rattle.gup_spec_grammar.specs.Spelling.{parts};
ghost use Rattle.gup_spec_grammar.specs.Grammar.{Accepts, before_head};
ghost use Rattle.gup_spec_grammar.specs.Fault.{IsRefusalOf};
ghost use Rattle.gup_read.specs.Steps.{IsReading, IsRead};
ghost use Rattle.gup_read.specs.StageViews.{stage_value, IsCut};
ghost use Rattle.gup_read.specs.Reading.{end_in, lines_in, reading};

use crate::refusal::Trouble;
use crate::stage::Stage;
use gup_read_outline::Reader;
use gup_read_words::is_printable;
use gup_script::Script;
use gup_spec_grammar::{ReadRefusal, Reason};
use std::alloc::Global;

/// How many bytes a script's text may have.
const MAX_BYTES: usize = 1_048_576;

/// The line that the bytes begin with, and what stands after its line feed; `None` where there is no line feed.
fn cut_line(text: &[u8]) -> Option<(&[u8], &[u8])>
    ensures { IsCut text.now result }
{
    let end = text.iter().position(|&b| b == b'\n')?;
    Some((&text[..end], &text[end + 1..]))
}

/// What the lines have made, where these bytes stand after the last line feed.
fn ended(number: u32, stage: Stage, rest: &[u8]) -> Result<Reader, ReadRefusal>
    ensures { IsReading (end_in number (stage_value stage) rest.now) result }
{
    if !rest.is_empty() {
        let reason = if is_printable(rest) {
            Reason::End
        } else {
            Reason::Byte
        };
        return Err(Trouble::Fault(reason).at(number));
    }
    match stage {
        Stage::Open(reader) => Ok(reader),
        Stage::BeforeHead | Stage::BeforeFrames => Err(Trouble::Fault(Reason::Short).at(number)),
    }
}

/// What the lines of the text make.
fn lines(alloc: Global, text: &[u8]) -> Result<Reader, ReadRefusal>
    requires { length text.now ≤ 1048576 }
    ensures { IsReading (lines_in 1 before_head (parts 10 text.now)) result }
{
    let mut number = 1;
    let mut stage = Stage::BeforeHead;
    let mut words = Vec::new(alloc);
    let mut rest = text;
    while let Some((line, behind)) = cut_line(rest) {
        match stage.take_line(alloc, line, &mut words) {
            Ok(()) => {}
            Err(trouble) => return Err(trouble.at(number)),
        }
        number += 1;
        rest = behind;
    }
    ended(number, stage, rest)
}

#[tactic(auto, unfolding(crate::specs::Reading::reading))]
fn script(alloc: Global, text: &[u8]) -> Result<Script, ReadRefusal>
    ensures { IsRead (reading text.now) result }
{
    if text.len() > MAX_BYTES {
        return Err(Trouble::Fault(Reason::Long).at(0));
    }
    let reader = lines(alloc, text)?;
    Ok(Script::new(reader.into_contents()))
}

/// The script that the bytes spell: they are one where they are at most 1,048,576 and each of their lines ends with
/// a line feed and is right after the lines before it. A refusal is because allocation failed, or tells the first line that
/// isn't right and the first fault that it has, in the order of `Reason`. The text is read once, in time that is
/// linear in its bytes and in the turns that it writes.
pub fn read_script(alloc: Global, text: &[u8]) -> Result<Script, ReadRefusal>
    ensures script { IfOk result (λ script. Accepts text.now script) }
    ensures refused { IfErr result (λ refusal. IsRefusalOf text.now refusal) }
{
    script(alloc, text)
}
