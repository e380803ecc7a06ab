//! The words that running transfers have moved.
ghost use Rattle.std.specs.Prelude.{◌≡◌, ℕ, List, [], ◌∷◌, ◌++◌, replicate, length, set, IfOk, OnOk};
ghost use Rattle.gup_plain.specs.Put.{put};
ghost use Rattle.gup_lines.specs.Moved.{words_of};

use gup_base::{ActorNo, NoMemory};
use std::alloc::{AllocError, Global};
use std::marker::Model;

/// The words of one actor's operation, in order. Contracts see the list of them.
#[derive(Debug, Drop)]
struct Kept {
    words: Vec<u64>,
}

impl Model for Kept {
    ghost use Rattle.std.specs.Prelude.{ℕ, List};

    ghost Value = { List ℕ };

    ghost view = { λ k. k.words.items };
}

impl Kept {
    // No words, which takes no memory.
    fn new(alloc: Global) -> Self
        ensures { result ≡ [] }
    {
        Kept {
            words: Vec::new(alloc),
        }
    }

    #[inline]
    fn push(&mut self, word: u64) -> Result<(), NoMemory>
        ensures { OnOk result (self.new ≡ self.old ++ word ∷ []) }
    {
        self.words.push(word)?;
        Ok(())
    }

    #[inline]
    fn clear(&mut self)
        ensures { self.new ≡ [] }
    {
        self.words.clear();
    }

    #[inline]
    fn as_slice(&self) -> &[u64]
        ensures { result.now ≡ self.now }
    {
        self.words.as_slice()
    }
}

/// For each actor the words that its operation has moved so far. Contracts see the list of these lists.
/// An actor whose operations move none takes no memory for them.
#[derive(Debug, Drop)]
pub(crate) struct Moved {
    kept: Vec<Kept>,
}

impl Model for Moved {
    ghost use Rattle.std.specs.Prelude.{ℕ, List, ◌≡◌, length};

    ghost Value = { List (List ℕ) };

    ghost view = { λ m. m.kept.items };

    ghost invariant = { λ m. length m.kept.items ≡ 81 };
}

impl Moved {
    /// No words of any actor.
    #[tactic(auto, using(crate::proofs::Moved::moves))]
    pub(crate) fn new(alloc: Global) -> Result<Self, AllocError>
        ensures { IfOk result (λ moved. words_of moved ≡ (λ (actor : ℕ). [])) }
    {
        Ok(Moved {
            kept: none_kept(alloc)?,
        })
    }

    /// The actor's words, in order.
    #[inline]
    #[tactic(auto, using(crate::proofs::Moved::moves))]
    pub(crate) fn of(&self, actor: ActorNo) -> &[u64]
        ensures { result.now ≡ words_of self.now actor }
    {
        self.kept[actor.get() as usize].as_slice()
    }

    /// Puts a word on after the actor's others.
    #[inline]
    #[tactic(auto, using(crate::proofs::Moved::moves))]
    pub(crate) fn push(&mut self, actor: ActorNo, word: u64) -> Result<(), NoMemory>
        ensures { OnOk result (words_of self.new ≡ put actor (words_of self.old actor ++ word ∷ []) (words_of self.old)) }
    {
        self.kept[actor.get() as usize].push(word)
    }

    /// Forgets the actor's words.
    #[inline]
    #[tactic(auto, using(crate::proofs::Moved::moves))]
    pub(crate) fn clear(&mut self, actor: ActorNo)
        ensures { words_of self.new ≡ put actor [] (words_of self.old) }
    {
        self.kept[actor.get() as usize].clear();
    }
}

// No words, for each actor.
fn none_kept(alloc: Global) -> Result<Vec<Kept>, AllocError>
    ensures { IfOk result (λ kept. kept.items ≡ replicate 81 []) }
{
    let mut kept = Vec::new(alloc);
    for _ in 0_u8..81 {
        kept.push(Kept::new(alloc))?;
    }
    Ok(kept)
}
