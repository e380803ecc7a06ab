//! The facts of frames.
ghost use Rattle.std.specs.Prelude.{◌≡◌, ◌++◌, ◌<◌, ◌≤◌, OnOk};
ghost use Rattle.gup_plain.specs.Event.{words};
ghost use Rattle.gup_frames.specs.Frames.{frames_of, frames_in, IsFrame};
ghost use Rattle.gup_image.specs.Gathered.{gathered};
ghost use Rattle.gup_image.specs.Image.{frame_fact, word_fact, words_of_frame, frame_facts};

use crate::fact::{Fact, KeptFact, put};
use gup_base::{FrameNo, NoMemory, WordNo};
use gup_frames::Frames;

/// Those of all frames.
pub(crate) fn push_frames(facts: &mut Vec<KeptFact>, frames: &Frames) -> Result<(), NoMemory>
    requires { frames_in (frames_of frames.now) ≤ 1024 }
    ensures { OnOk result (facts.new.items
        ≡ facts.old.items ++ gathered (frame_facts (frames_of frames.now)) (frames_in (frames_of frames.now))) }
{
    for f in 0..frames.movable() + frames.normal() {
        push_frame(facts, frames, frame_no(f))?;
    }
    Ok(())
}

fn frame_no(f: u32) -> FrameNo
    requires { f < 16384 }
    ensures { result ≡ f }
{
    FrameNo::new(u64::from(f)).unwrap()
}

fn push_frame(facts: &mut Vec<KeptFact>, frames: &Frames, frame: FrameNo) -> Result<(), NoMemory>
    requires { IsFrame (frames_of frames.now) frame }
    ensures { OnOk result (facts.new.items ≡ facts.old.items ++ frame_facts (frames_of frames.now) frame) }
{
    push_count(facts, frame, frames.count(frame), frames.mark(frame))?;
    push_words(facts, frames, frame)
}

fn push_count(
    facts: &mut Vec<KeptFact>,
    frame: FrameNo,
    count: u64,
    mark: bool,
) -> Result<(), NoMemory>
    ensures { OnOk result (facts.new.items ≡ facts.old.items ++ frame_fact frame count mark) }
{
    if count > 0 || mark {
        put(facts, Fact::Frame { mark, frame, count })?;
    }
    Ok(())
}

fn push_words(facts: &mut Vec<KeptFact>, frames: &Frames, frame: FrameNo) -> Result<(), NoMemory>
    requires { IsFrame (frames_of frames.now) frame }
    ensures { OnOk result (facts.new.items
        ≡ facts.old.items ++ gathered (words_of_frame (frames_of frames.now) frame) words) }
{
    for (w, value) in frames.words(frame).iter().enumerate() {
        push_word(facts, frame, word_no(w), *value)?;
    }
    Ok(())
}

#[inline]
fn word_no(w: usize) -> WordNo
    requires { w < 512 }
    ensures { result ≡ w }
{
    WordNo::new(w as u64).unwrap()
}

#[inline]
fn push_word(
    facts: &mut Vec<KeptFact>,
    frame: FrameNo,
    word: WordNo,
    value: u64,
) -> Result<(), NoMemory>
    ensures { OnOk result (facts.new.items ≡ facts.old.items ++ word_fact frame word value) }
{
    if value > 0 {
        put(facts, Fact::Word { frame, word, value })?;
    }
    Ok(())
}
