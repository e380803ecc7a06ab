//! One flag for each word of a page.
ghost use Rattle.std.specs.Prelude.{◌≡◌, ℕ, ◌<◌, ◌↔◌, true, false, IsTrue, IfOk, vec_len};
ghost use Rattle.gup_plain.specs.Put.{put, spread};
ghost use Rattle.gup_exec_parts.specs.Flags.{flag_of, unset, all_set};

use gup_base::{NoMemory, WordNo};
use std::alloc::{AllocError, Global};
use std::marker::Model;

const WORDS: usize = 512;

/// Which of the 512 words of a page are copied.
#[derive(Debug, Drop)]
pub struct Flags {
    items: Vec<bool>,
}

impl Model for Flags {
    ghost use Rattle.std.specs.Prelude.{◌≡◌, Bool, List, vec_len};

    ghost Value = { List Bool };

    ghost view = { λ f. f.items.items };

    ghost invariant = { λ f. vec_len f.items ≡ 512 };
}

impl Flags {
    /// The flags of a page of which no word is copied.
    pub fn unset(alloc: Global) -> Result<Flags, NoMemory>
        ensures { IfOk result (λ flags. flag_of flags ≡ (λ _. false)) }
    {
        Ok(Flags {
            items: unset(alloc)?,
        })
    }

    /// Whether the word is copied.
    pub fn get(&self, word: WordNo) -> bool
        ensures { result ≡ flag_of self.now word }
    {
        self.items[word.get() as usize]
    }

    /// Says that the word is copied.
    pub fn set(&mut self, word: WordNo)
        ensures { flag_of self.new ≡ put word true (flag_of self.old) }
    {
        self.items[word.get() as usize] = true;
    }

    /// Says that all words are copied.
    pub fn set_all(&mut self)
        ensures { flag_of self.new ≡ spread 0 512 (λ _. true) (flag_of self.old) }
    {
        set_each(&mut self.items);
    }

    /// Whether all words are copied.
    pub fn is_full(&self) -> bool
        ensures { IsTrue result ↔ ((word : ℕ) → word < 512 → flag_of self.now word ≡ true) }
    {
        self.items.iter().all(|flag| *flag)
    }

    /// Whether no word is copied.
    pub fn is_empty(&self) -> bool
        ensures { IsTrue result ↔ ((word : ℕ) → word < 512 → flag_of self.now word ≡ false) }
    {
        self.items.iter().all(|flag| !*flag)
    }
}

#[tactic(auto, unfolding(crate::specs::Flags::unset))]
fn unset(alloc: Global) -> Result<Vec<bool>, AllocError>
    ensures { IfOk result (λ items. (items.items ≡ unset) × (vec_len items ≡ 512)) }
{
    vec![in alloc; false; WORDS]
}

#[tactic(auto, unfolding(crate::specs::Flags::all_set))]
fn set_each(items: &mut Vec<bool>)
    requires { vec_len items.old ≡ 512 }
    ensures items { items.new.items ≡ all_set }
    ensures len { vec_len items.new ≡ 512 }
{
    items.fill(true);
}
