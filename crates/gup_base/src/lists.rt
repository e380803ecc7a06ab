//! Short lists of a fixed greatest length, which take no memory.
ghost use Rattle.std.specs.Prelude.{◌≡◌, ◌<◌, [], ◌∷◌, ◌++◌, length};

use arrayvec::ArrayVec;
use std::alloc::AllocError;
use std::marker::Model;

/// The segments of a transfer, in order: where each begins in the pin, and how many words it has. At most 8.
/// Contracts see the list of these pairs.
#[derive(Debug, Drop)]
pub struct Parts {
    parts: ArrayVec<(u32, u8), 8>,
}

impl Model for Parts {
    ghost use Rattle.std.specs.Prelude.{ℕ, List};

    ghost Value = { List (ℕ × ℕ) };

    ghost view = { λ p. p.parts.items };
}

impl Parts {
    /// No segments.
    pub fn new() -> Self
        ensures { result ≡ [] }
    {
        Parts {
            parts: ArrayVec::new(),
        }
    }

    /// Puts a segment of `n` words on at the end. It begins at word `index`, counted from 0 over the pages of the
    /// pin, 512 to a page. Neither number is judged here.
    pub fn push(&mut self, index: u32, n: u8)
        requires { length self.old < 8 }
        ensures { self.new ≡ self.old ++ (index, n) ∷ [] }
    {
        self.parts.push((index, n));
    }

    /// The segments as they were put on, each as its first word and how many words it has.
    pub fn as_slice(&self) -> &[(u32, u8)]
        ensures { result.now ≡ self.now }
    {
        self.parts.as_slice()
    }
}

impl Clone for Parts {
    ghost is_clone = { λ v w. w ≡ v };

    /// The same segments. This takes no memory.
    fn clone(&self) -> Result<Self, AllocError> {
        Ok(Parts {
            parts: self.parts.clone()?,
        })
    }
}

/// The words that a transfer moved, in order. At most 64. Contracts see the list of them.
#[derive(Debug, Drop)]
pub struct Words {
    words: ArrayVec<u64, 64>,
}

impl Model for Words {
    ghost use Rattle.std.specs.Prelude.{ℕ, List};

    ghost Value = { List ℕ };

    ghost view = { λ w. w.words.items };
}

impl Words {
    /// No words.
    pub fn new() -> Self
        ensures { result ≡ [] }
    {
        Words {
            words: ArrayVec::new(),
        }
    }

    /// Puts a word on at the end.
    pub fn push(&mut self, v: u64)
        requires { length self.old < 64 }
        ensures { self.new ≡ self.old ++ v ∷ [] }
    {
        self.words.push(v);
    }

    /// The words as they were put on.
    pub fn as_slice(&self) -> &[u64]
        ensures { result.now ≡ self.now }
    {
        self.words.as_slice()
    }
}
