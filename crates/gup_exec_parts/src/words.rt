//! The words of one page.
ghost use Rattle.std.specs.Prelude.{◌≡◌, ◌<◌, IfOk, vec_len};
ghost use Rattle.gup_plain.specs.Put.{put};
ghost use Rattle.gup_exec_parts.specs.Words.{word_of, zeros};

use gup_base::{NoMemory, WordNo};
use std::alloc::{AllocError, Global};
use std::marker::Model;

const WORDS: usize = 512;

/// The 512 words of one page.
#[derive(Debug, Drop)]
pub struct Words {
    items: Vec<u64>,
}

impl Model for Words {
    ghost use Rattle.std.specs.Prelude.{◌≡◌, ℕ, List, vec_len};

    ghost Value = { List ℕ };

    ghost view = { λ w. w.items.items };

    ghost invariant = { λ w. vec_len w.items ≡ 512 };
}

impl Words {
    /// A page of zeros.
    pub fn zeros(alloc: Global) -> Result<Words, NoMemory>
        ensures { IfOk result (λ words. word_of words ≡ (λ _. 0)) }
    {
        Ok(Words {
            items: fresh(alloc)?,
        })
    }

    /// The same words once more.
    pub fn copy(&self) -> Result<Words, NoMemory>
        ensures { IfOk result (λ words. words ≡ self.now) }
    {
        Ok(Words {
            items: self.items.clone()?,
        })
    }

    /// The word with this number.
    pub fn get(&self, word: WordNo) -> u64
        ensures { result ≡ word_of self.now word }
    {
        self.items[word.get() as usize]
    }

    /// Makes this the word with this number.
    pub fn set(&mut self, word: WordNo, value: u64)
        ensures { word_of self.new ≡ put word value (word_of self.old) }
    {
        self.items[word.get() as usize] = value;
    }
}

#[tactic(auto, unfolding(crate::specs::Words::zeros))]
fn fresh(alloc: Global) -> Result<Vec<u64>, AllocError>
    ensures { IfOk result (λ items. (items.items ≡ zeros) × (vec_len items ≡ 512)) }
{
    vec![in alloc; 0; WORDS]
}
