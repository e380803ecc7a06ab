//! A device's words.
ghost use Rattle.std.specs.Prelude.{◌≡◌, ℕ, ◌<◌, ◌≤◌, IfOk};
ghost use Rattle.gup_plain.specs.Put.{put};
ghost use Rattle.gup_frames.specs.Frames.{frames_of, IsFrame, with_word};
ghost use Rattle.gup_device.specs.Store.{store_of, no_words, IsSlot};

use gup_base::{FrameNo, NoMemory, WordNo};
use gup_frames::Frames;
use std::alloc::Global;
use std::marker::Model;

/// The words of a device, from 1 to 4,096, each in a slot (this project's own: Linux knows nothing of what a device
/// does with the bytes that it reads and writes by `pin_user_pages`). Its transfers go by frames and not by pages, as
/// those of direct memory access do: no fault comes, and no page table is read.
#[derive(Drop)]
pub struct Store {
    words: Vec<u64>,
}

impl Model for Store {
    ghost use Rattle.std.specs.Prelude.{ℕ, ◌≤◌, List, vec_len};

    ghost Value = { List ℕ };

    ghost view = { λ s. s.words.items };

    ghost invariant = { λ s. (1 ≤ vec_len s.words) × (vec_len s.words ≤ 4096) };
}

impl Store {
    /// So many words, all 0, and the memory for them: no other call takes any.
    pub fn new(alloc: Global, words: u16) -> Result<Store, NoMemory>
        requires some { 1 ≤ words }
        requires few { words ≤ 4096 }
        ensures { IfOk result (λ store. store_of store ≡ no_words words) }
    {
        let words = vec![in alloc; 0; usize::from(words)]?;
        Ok(Store { words })
    }

    /// How many words there are, from 1 to 4,096.
    #[inline]
    pub fn words(&self) -> u16
        ensures words { result ≡ (store_of self.now).words }
        ensures some { 1 ≤ result }
        ensures few { result ≤ 4096 }
    {
        self.words.len() as u16
    }

    /// The word of the slot.
    #[inline]
    pub fn word(&self, slot: u16) -> u64
        requires { IsSlot (store_of self.now) slot }
        ensures { result ≡ (store_of self.now).word slot }
    {
        self.words[usize::from(slot)]
    }

    /// Reads a word of the frame into the slot, and answers it. The frame stays as it is.
    #[inline]
    pub fn word_out(&mut self, frames: &Frames, frame: FrameNo, word: WordNo, slot: u16) -> u64
        requires slot { IsSlot (store_of self.old) slot }
        requires there { IsFrame (frames_of frames.now) frame }
        ensures word { result ≡ (frames_of frames.now).word frame word }
        ensures store { store_of self.new ≡ record (store_of self.old) { word = put slot result (store_of self.old).word } }
    {
        let value = frames.word(frame, word);
        let place = usize::from(slot);
        self.words[place] = value;
        value
    }

    /// Writes the word of the slot into a word of the frame, and answers it. The store stays as it is.
    #[inline]
    pub fn word_in(&self, frames: &mut Frames, frame: FrameNo, word: WordNo, slot: u16) -> u64
        requires slot { IsSlot (store_of self.now) slot }
        requires there { IsFrame (frames_of frames.old) frame }
        ensures word { result ≡ (store_of self.now).word slot }
        ensures frames { frames_of frames.new ≡ with_word frame word result (frames_of frames.old) }
    {
        let value = self.word(slot);
        frames.set_word(frame, word, value);
        value
    }
}
