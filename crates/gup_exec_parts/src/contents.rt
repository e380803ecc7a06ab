//! The contents of objects.
ghost use Rattle.std.specs.Prelude.{◌≡◌, ℕ, ◌+◌, ◌<◌, IfOk, OnOk, OnErr};
ghost use Rattle.gup_plain.specs.Put.{put, put2, spread};
ghost use Rattle.gup_exec_parts.specs.Contents.{content_of};
ghost use Rattle.gup_exec_parts.specs.Words.{word_of};

use crate::words::Words;
use gup_base::{NoMemory, WordNo};
use std::alloc::Global;
use std::collections::BTreeMap;

/// The objects made so far, which are the numbers below `made`, and their words. An object that nobody wrote to takes
/// no memory.
#[derive(Drop)]
pub struct Contents {
    pub made: u64,
    pub words: BTreeMap<u64, Words>,
    pub alloc: Global,
}

impl Contents {
    /// No objects.
    pub fn new(alloc: Global) -> Contents
        ensures made { result.made ≡ 0 }
        ensures content { content_of result ≡ (λ _ _. 0) }
    {
        Contents {
            made: 0,
            words: BTreeMap::new(alloc),
            alloc,
        }
    }

    /// The word of the object.
    pub fn read(&self, object: u64, word: WordNo) -> u64
        ensures { result ≡ content_of self.now object word }
    {
        match self.words.get(&object) {
            None => 0,
            Some(words) => words.get(word),
        }
    }

    /// Makes `value` the word of the object.
    pub fn write(&mut self, object: u64, word: WordNo, value: u64) -> Result<(), NoMemory>
        ensures ok { OnOk result (content_of self.new ≡ put2 object word value (content_of self.old)) }
        ensures err { OnErr result (content_of self.new ≡ content_of self.old) }
        ensures made { self.new.made ≡ self.old.made }
    {
        if let Some(words) = self.words.get_mut(&object) {
            words.set(word, value);
            return Ok(());
        }
        let mut words = Words::zeros(self.alloc)?;
        words.set(word, value);
        self.words.insert(object, words)?;
        Ok(())
    }

    /// Gives `to` the words that `from` has.
    pub fn copy(&mut self, from: u64, to: u64) -> Result<(), NoMemory>
        ensures ok { OnOk result (content_of self.new
            ≡ put to (spread 0 512 (content_of self.old from) (content_of self.old to)) (content_of self.old)) }
        ensures err { OnErr result (content_of self.new ≡ content_of self.old) }
        ensures made { self.new.made ≡ self.old.made }
    {
        let words = self.words_of(from)?;
        self.words.insert(to, words)?;
        Ok(())
    }

    // A copy of the words of the object.
    fn words_of(&self, object: u64) -> Result<Words, NoMemory>
        ensures { IfOk result (λ words. word_of words ≡ content_of self.now object) }
    {
        match self.words.get(&object) {
            None => Words::zeros(self.alloc),
            Some(words) => words.copy(),
        }
    }
}

/// How many objects there are when `n` more are made.
pub fn made_after(made: u64, n: u64) -> Result<u64, NoMemory>
    ensures { IfOk result (λ after. after ≡ made + n) }
{
    made.checked_add(n).ok_or(NoMemory)
}
