//! The words of all frames, in one list: 512 of each, one frame after another. The list has room for all from the start, and
//! ends with the last frame that was written so far: the words past its end are 0, and their memory isn't touched.
ghost use Rattle.std.specs.Prelude.{◌≡◌, ℕ, ◌+◌, ◌*◌, ◌<◌, ◌≤◌, length, slice_index, vec_len, vec_capacity};
ghost use Rattle.gup_plain.specs.Put.{put, put2};
ghost use Rattle.gup_frames.specs.Frames.{word_in};

use gup_base::WordNo;

// How many words a frame has.
const WORDS: usize = 512;

/// How many words so many frames have.
#[inline(always)]
pub(crate) fn of_frames(frames: usize) -> usize
    requires { frames ≤ 1024 }
    ensures { result ≡ 512 * frames }
{
    WORDS * frames
}

// Makes the list so long, with words 0.
#[inline(never)]
fn lengthen(words: &mut Vec<u64>, end: usize)
    requires longer { vec_len words.old ≤ end }
    requires room { end ≤ vec_capacity words.old }
    ensures words { word_in words.new.items ≡ word_in words.old.items }
    ensures len { vec_len words.new ≡ end }
    ensures room { vec_capacity words.old ≤ vec_capacity words.new }
{
    words.resize(end, 0).unwrap();
}

// Makes the list reach the end of the frame.
#[inline(always)]
fn reach(words: &mut Vec<u64>, frame: usize)
    requires few { frame < 1024 }
    requires room { 512 * (frame + 1) ≤ vec_capacity words.old }
    ensures words { word_in words.new.items ≡ word_in words.old.items }
    ensures reached { 512 * (frame + 1) ≤ vec_len words.new }
    ensures longer { vec_len words.old ≤ vec_len words.new }
    ensures within { (frames : ℕ) → frame < frames → vec_len words.old ≤ 512 * frames → vec_len words.new ≤ 512 * frames }
    ensures room { vec_capacity words.old ≤ vec_capacity words.new }
{
    let end = of_frames(frame + 1);
    if words.len() < end {
        lengthen(words, end);
    }
}

/// The word of the frame.
#[inline(always)]
pub(crate) fn read(words: &[u64], frame: usize, word: WordNo) -> u64
    requires { frame < 1024 }
    ensures { result ≡ word_in words.now frame word }
{
    match words.get(WORDS * frame + word.get() as usize) {
        Some(v) => *v,
        None => 0,
    }
}

/// The words of the frame that the list reaches: those past its end are 0.
#[inline]
pub(crate) fn of_frame(words: &[u64], frame: usize) -> &[u64]
    requires { frame < 1024 }
    ensures words { slice_index result.now ≡ word_in words.now frame }
    ensures few { length result.now ≤ 512 }
{
    let first = of_frames(frame).min(words.len());
    let end = of_frames(frame + 1).min(words.len());
    &words[first..end]
}

// Writes the word of a frame that the list may not reach yet.
#[inline(never)]
fn write_first(words: &mut Vec<u64>, frame: usize, word: WordNo, v: u64)
    requires few { frame < 1024 }
    requires room { 512 * (frame + 1) ≤ vec_capacity words.old }
    ensures words { word_in words.new.items ≡ put2 frame word v (word_in words.old.items) }
    ensures within { (frames : ℕ) → frame < frames → vec_len words.old ≤ 512 * frames → vec_len words.new ≤ 512 * frames }
    ensures room { vec_capacity words.old ≤ vec_capacity words.new }
{
    reach(words, frame);
    words[WORDS * frame + word.get() as usize] = v;
}

/// Writes the word of the frame.
#[inline(always)]
pub(crate) fn write(words: &mut Vec<u64>, frame: usize, word: WordNo, v: u64)
    requires few { frame < 1024 }
    requires room { 512 * (frame + 1) ≤ vec_capacity words.old }
    ensures words { word_in words.new.items ≡ put2 frame word v (word_in words.old.items) }
    ensures within { (frames : ℕ) → frame < frames → vec_len words.old ≤ 512 * frames → vec_len words.new ≤ 512 * frames }
    ensures room { vec_capacity words.old ≤ vec_capacity words.new }
{
    let place = WORDS * frame + word.get() as usize;
    if place < words.len() {
        words[place] = v;
    } else {
        write_first(words, frame, word, v);
    }
}

/// Makes each word of the frame 0. One past the end of the list needs nothing for it.
pub(crate) fn clear(words: &mut Vec<u64>, frame: usize)
    requires few { frame < 1024 }
    requires room { 512 * (frame + 1) ≤ vec_capacity words.old }
    ensures words { word_in words.new.items ≡ put frame (λ _. 0) (word_in words.old.items) }
    ensures within { (frames : ℕ) → frame < frames → vec_len words.old ≤ 512 * frames → vec_len words.new ≤ 512 * frames }
    ensures room { vec_capacity words.old ≤ vec_capacity words.new }
{
    let first = WORDS * frame;
    if first < words.len() {
        reach(words, frame);
        for word in 0..WORDS {
            words[first + word] = 0;
        }
    }
}

/// Gives the second frame the words of the first.
pub(crate) fn copy(words: &mut Vec<u64>, from: usize, to: usize)
    requires few { (from < 1024) × (to < 1024) }
    requires from { 512 * (from + 1) ≤ vec_capacity words.old }
    requires to { 512 * (to + 1) ≤ vec_capacity words.old }
    ensures words { word_in words.new.items ≡ put to (word_in words.old.items from) (word_in words.old.items) }
    ensures within { (frames : ℕ) → from < frames → to < frames → vec_len words.old ≤ 512 * frames → vec_len words.new ≤ 512 * frames }
    ensures room { vec_capacity words.old ≤ vec_capacity words.new }
{
    reach(words, from);
    reach(words, to);
    let first = WORDS * from;
    words.copy_within(first..first + WORDS, WORDS * to);
}
