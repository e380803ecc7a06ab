//! The words of frames.
ghost use Rattle.std.specs.Prelude.{◌≡◌, ◌<◌, IfOk};
ghost use Rattle.gup_plain.specs.Put.{put, put2};
ghost use Rattle.gup_exec_parts.specs.Words.{word_of};
ghost use Rattle.gup_exec_rows.specs.Sheets.{words_in};

use crate::row::Row;
use gup_base::{FrameNo, NoMemory, WordNo};
use gup_exec_parts::words::Words;
use std::alloc::Global;

/// The words of each frame. A frame of zeros takes no memory.
#[derive(Drop)]
pub struct Sheets {
    rows: Row<Option<Words>, 16384>,
    alloc: Global,
}

impl Sheets {
    /// Frames of zeros.
    #[tactic(auto, unfolding(crate::specs::Sheets::words_in))]
    pub fn new(alloc: Global) -> Result<Sheets, NoMemory>
        ensures { IfOk result (λ sheets. words_in sheets ≡ (λ _ _. 0)) }
    {
        Ok(Sheets {
            rows: Row::new(alloc, None)?,
            alloc,
        })
    }

    /// The word of the frame.
    #[tactic(auto, unfolding(crate::specs::Sheets::words_in))]
    pub fn get(&self, f: FrameNo, word: WordNo) -> u64
        ensures { result ≡ words_in self.now f word }
    {
        match self.rows.get(f) {
            None => 0,
            Some(words) => words.get(word),
        }
    }

    /// The words of the frame once more.
    #[tactic(auto, unfolding(crate::specs::Sheets::words_in))]
    pub fn copy_of(&self, f: FrameNo) -> Result<Words, NoMemory>
        ensures { IfOk result (λ words. word_of words ≡ words_in self.now f) }
    {
        match self.rows.get(f) {
            None => Words::zeros(self.alloc),
            Some(words) => words.copy(),
        }
    }

    /// The words of the frame, but with this value at the word.
    pub fn with(&self, f: FrameNo, word: WordNo, value: u64) -> Result<Words, NoMemory>
        ensures { IfOk result (λ words. word_of words ≡ put word value (words_in self.now f)) }
    {
        let mut words = self.copy_of(f)?;
        words.set(word, value);
        Ok(words)
    }

    /// Makes all words of the frame 0.
    pub fn clear(&mut self, f: FrameNo)
        ensures { words_in self.new ≡ put f (λ _. 0) (words_in self.old) }
    {
        self.rows.put(f, None);
    }

    /// Gives the frame these words.
    pub fn put(&mut self, f: FrameNo, words: Words)
        ensures { words_in self.new ≡ put f (word_of words) (words_in self.old) }
    {
        self.rows.put(f, Some(words));
    }

    /// Gives the frame these words, of which one alone differs.
    pub fn put_at(&mut self, f: FrameNo, word: WordNo, value: u64, words: Words)
        requires { word_of words ≡ put word value (words_in self.old f) }
        ensures { words_in self.new ≡ put2 f word value (words_in self.old) }
    {
        let _value = value;
        let _word = word;
        self.rows.put(f, Some(words));
    }
}
